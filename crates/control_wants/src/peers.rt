//! What peers are told.
ghost use Rattle.std.specs.Prelude.{◌≡◌, map, IfOk, OnOk};
ghost use Rattle.ov_sync.specs.Embed.{moved_delta};
ghost use Rattle.vpn_tables.specs.NodeModel.Keys.{Vpn};
ghost use Rattle.vpn_tables.specs.NodeModel.Maps.{difference};
ghost use Rattle.vpn_tables.specs.NodeModel.Values.{Route};
ghost use Rattle.vpn_tables.specs.NodeModel.Wants.{wanted_by_peers as wanted_among};
ghost use Rattle.vpn_tables.specs.Views.{peer_of};
ghost use Rattle.control_wants.specs.Wanted.{AreRoutes, AreRoutesWanted, IsSentToPeer};

use crate::dirty::Dirty;
use crate::keyed::wanted_route;
use crate::route_sends::tell_routes;
use crate::wants::wanted_by_peers;
use ov_sync::{Delta, SyncOut};
use ov_types::{NoMemory, VpnKey, VpnRoute};
use std::alloc::Global;
use std::collections::BTreeMap;
use vpn_tables::VpnTables;

/// What every peer is to have been told.
#[derive(Drop)]
pub enum RoutesWanted {
    Whole(BTreeMap<VpnKey, VpnRoute>),
    /// The routes of marked keys, in order.
    Marked(Vec<(VpnKey, Option<VpnRoute>)>),
}

fn marked_routes(
    alloc: Global,
    tables: &VpnTables,
    dirty: &Dirty,
) -> Result<Vec<(VpnKey, Option<VpnRoute>)>, NoMemory>
    ensures { IfOk result (λ wanted. AreRoutes dirty.now tables.now wanted.items) }
{
    let mut wanted = Vec::new(alloc);
    for (key, _marked) in dirty.routes() {
        let route = wanted_route(alloc, tables, key)?;
        wanted.push((*key, route))?;
    }
    Ok(wanted)
}

/// What every peer is to have been told: of marked keys alone, but where everything is marked.
pub fn routes_wanted(
    alloc: Global,
    tables: &VpnTables,
    dirty: &Dirty,
) -> Result<RoutesWanted, NoMemory>
    ensures { IfOk result (λ wanted. AreRoutesWanted dirty.now tables.now wanted) }
{
    if dirty.is_all() {
        let wanted = wanted_by_peers(alloc, tables)?;
        return Ok(RoutesWanted::Whole(wanted));
    }
    let wanted = marked_routes(alloc, tables, dirty)?;
    Ok(RoutesWanted::Marked(wanted))
}

/// The changes that a peer is to be told, which count as sent then.
pub fn tell_peer(
    alloc: Global,
    sent: &mut SyncOut<VpnKey, VpnRoute>,
    tables: &VpnTables,
    dirty: &Dirty,
    wanted: &RoutesWanted,
) -> Result<Vec<Delta<VpnKey, VpnRoute>>, NoMemory>
    requires wanted { AreRoutesWanted dirty.now tables.now wanted.now }
    requires tracked { IsSentToPeer dirty.now tables.now (peer_of sent.old) }
    ensures changes { IfOk result (λ changes. map (moved_delta Vpn Route) changes.items
        ≡ difference (peer_of sent.old) (wanted_among tables.now)) }
    ensures sent { OnOk result (peer_of sent.new ≡ wanted_among tables.now) }
{
    match wanted {
        RoutesWanted::Whole(wanted) => sent.replace(wanted),
        RoutesWanted::Marked(wanted) => tell_routes(alloc, sent, wanted.as_slice()),
    }
}
