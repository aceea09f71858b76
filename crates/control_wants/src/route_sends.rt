//! What a peer is told of some keys.
ghost use Rattle.std.specs.Prelude.{◌≡◌, ◌++◌, [], map, IfOk, OnOk};
ghost use Rattle.std.specs.FinMap.{get};
ghost use Rattle.std.specs.List.{AllByRecursion, cons_option};
ghost use Rattle.std.specs.List.Sorted.{IsStrictlySortedBy};
ghost use Rattle.std.specs.Option.{option_map};
ghost use Rattle.ov_sync.specs.Embed.{moved_delta};
ghost use Rattle.ov_sync.specs.Keyed.{AgreeBut, change, set_key};
ghost use Rattle.vpn_tables.specs.NodeModel.Keys.{Vpn};
ghost use Rattle.vpn_tables.specs.NodeModel.Maps.{Map, difference};
ghost use Rattle.vpn_tables.specs.NodeModel.Values.{Route, same_value};
ghost use Rattle.vpn_tables.specs.Views.{peer_of, vpn_order};

use crate::pushing::push_change;
use ov_sync::{Delta, SyncOut};
use ov_types::{NoMemory, VpnKey, VpnRoute};
use std::alloc::Global;

/// Tells what is wanted of a key, which is sent then: its change follows the changes so far, where there is one.
fn tell_route(
    sent: &mut SyncOut<VpnKey, VpnRoute>,
    key: VpnKey,
    wanted: Option<VpnRoute>,
    changes: &mut Vec<Delta<VpnKey, VpnRoute>>,
) -> Result<(), NoMemory>
    ensures change { OnOk result (map (moved_delta Vpn Route) changes.new.items
        ≡ map (moved_delta Vpn Route) changes.old.items
        ++ cons_option (change same_value (Vpn key) (get (peer_of sent.old) (Vpn key)) (option_map Route wanted)) []) }
    ensures sent { OnOk result (peer_of sent.new ≡ set_key (peer_of sent.old) (Vpn key) (option_map Route wanted)) }
{
    let delta = sent.replace_key(key, wanted)?;
    push_change(changes, delta)?;
    Ok(())
}

fn copied(wanted: &Option<VpnRoute>) -> Result<Option<VpnRoute>, NoMemory>
    ensures { IfOk result (λ copy. copy ≡ wanted.now) }
{
    match wanted {
        None => Ok(None),
        Some(value) => Ok(Some(value.clone()?)),
    }
}

/// Tells what is wanted of some keys, in their order. Where what was sent is what is wanted at all other keys, these
/// are all changes from what was sent, and what is wanted is sent then.
pub(crate) fn tell_routes(
    alloc: Global,
    sent: &mut SyncOut<VpnKey, VpnRoute>,
    wanted: &[(VpnKey, Option<VpnRoute>)],
) -> Result<Vec<Delta<VpnKey, VpnRoute>>, NoMemory>
    requires { IsStrictlySortedBy vpn_order (map (λ e. e.0) wanted.now) }
    ensures changes { IfOk result (λ deltas. (w : Map)
        → AllByRecursion (λ e. option_map Route e.1 ≡ get w (Vpn e.0)) wanted.now
        → AgreeBut (map (λ e. Vpn e.0) wanted.now) (peer_of sent.old) w
        → map (moved_delta Vpn Route) deltas.items ≡ difference (peer_of sent.old) w) }
    ensures sent { OnOk result ((w : Map)
        → AllByRecursion (λ e. option_map Route e.1 ≡ get w (Vpn e.0)) wanted.now
        → AgreeBut (map (λ e. Vpn e.0) wanted.now) (peer_of sent.old) w
        → peer_of sent.new ≡ w) }
{
    let mut deltas = Vec::new(alloc);
    for (key, value) in wanted {
        tell_route(sent, *key, copied(value)?, &mut deltas)?;
    }
    Ok(deltas)
}
