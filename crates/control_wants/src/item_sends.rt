//! What an agent is told of some keys.
ghost use Rattle.std.specs.Prelude.{◌≡◌, ◌++◌, [], map, IfOk, OnOk};
ghost use Rattle.std.specs.FinMap.{get};
ghost use Rattle.std.specs.List.{AllByRecursion, cons_option};
ghost use Rattle.std.specs.List.Sorted.{IsStrictlySortedBy};
ghost use Rattle.std.specs.Option.{option_map};
ghost use Rattle.ov_sync.specs.Embed.{moved_delta};
ghost use Rattle.ov_sync.specs.Keyed.{AgreeBut, change, set_key};
ghost use Rattle.node_core.specs.Told.{down_of, down_order, down_value};
ghost use Rattle.vpn_tables.specs.NodeModel.Keys.{of_down};
ghost use Rattle.vpn_tables.specs.NodeModel.Maps.{Map, difference};
ghost use Rattle.vpn_tables.specs.NodeModel.Values.{same_value};

use crate::pushing::push_change;
use ov_sync::{Delta, SyncOut};
use ov_types::{DownKey, DownValue, NoMemory};
use std::alloc::Global;

/// Tells what is wanted of a key, which is sent then: its change follows the changes so far, where there is one.
fn tell_item(
    sent: &mut SyncOut<DownKey, DownValue>,
    key: DownKey,
    wanted: Option<DownValue>,
    changes: &mut Vec<Delta<DownKey, DownValue>>,
) -> Result<(), NoMemory>
    ensures change { OnOk result (map (moved_delta of_down down_value) changes.new.items
        ≡ map (moved_delta of_down down_value) changes.old.items
        ++ cons_option (change same_value (of_down key) (get (down_of sent.old) (of_down key)) (option_map down_value wanted)) []) }
    ensures sent { OnOk result (down_of sent.new ≡ set_key (down_of sent.old) (of_down key) (option_map down_value wanted)) }
{
    let delta = sent.replace_key(key, wanted)?;
    push_change(changes, delta)?;
    Ok(())
}

fn copied(wanted: &Option<DownValue>) -> Result<Option<DownValue>, NoMemory>
    ensures { IfOk result (λ copy. copy ≡ wanted.now) }
{
    match wanted {
        None => Ok(None),
        Some(value) => Ok(Some(value.clone()?)),
    }
}

/// Tells what is wanted of some keys, in their order. Where what was sent is what is wanted at all other keys, these
/// are all changes from what was sent, and what is wanted is sent then.
pub(crate) fn tell_items(
    alloc: Global,
    sent: &mut SyncOut<DownKey, DownValue>,
    wanted: &[(DownKey, Option<DownValue>)],
) -> Result<Vec<Delta<DownKey, DownValue>>, NoMemory>
    requires { IsStrictlySortedBy down_order (map (λ e. e.0) wanted.now) }
    ensures changes { IfOk result (λ deltas. (w : Map)
        → AllByRecursion (λ e. option_map down_value e.1 ≡ get w (of_down e.0)) wanted.now
        → AgreeBut (map (λ e. of_down e.0) wanted.now) (down_of sent.old) w
        → map (moved_delta of_down down_value) deltas.items ≡ difference (down_of sent.old) w) }
    ensures sent { OnOk result ((w : Map)
        → AllByRecursion (λ e. option_map down_value e.1 ≡ get w (of_down e.0)) wanted.now
        → AgreeBut (map (λ e. of_down e.0) wanted.now) (down_of sent.old) w
        → down_of sent.new ≡ w) }
{
    let mut deltas = Vec::new(alloc);
    for (key, value) in wanted {
        tell_item(sent, *key, copied(value)?, &mut deltas)?;
    }
    Ok(deltas)
}
