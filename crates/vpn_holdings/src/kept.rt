//! The place of what is told is kept by its prefix. Where memory is wanting, nothing changes.
ghost use Rattle.std.specs.Prelude.{◌≡◌, ◌<◌, ◌-◌, if◌then◌else◌, IsSome, OnOk, OnErr, Some, map};
ghost use Rattle.std.specs.BTreeMap as tree;
ghost use Rattle.std.specs.BTreeMap.{is_at};
ghost use Rattle.ov_sync.specs.declared.Delta.TheVariants.{Put as PutOf, Drop as DropOf};
ghost use Rattle.ov_sync.specs.Embed.{moved_delta};
ghost use Rattle.ov_sync.specs.Keyed.{changed, key_of};
ghost use Rattle.path_select.specs.NodeModel.Keys.{Vpn, of_up};
ghost use Rattle.path_select.specs.NodeModel.Values.{Label as LabelOf, Route};
ghost use Rattle.vpn_holdings.specs.Changes.{at_session, changed_at};
ghost use Rattle.vpn_holdings.specs.Indexed.{AreInOrder, AreLabels, AreRoutes, label_order, place_told, route_order};
ghost use Rattle.vpn_holdings.specs.Views.{agent_of, peer_of};
ghost use Rattle.vpn_holdings.specs.declared.places.LabelAt.{LabelAt as LabelAtOf};
ghost use Rattle.vpn_holdings.specs.declared.places.RouteAt.{RouteAt as RouteAtOf};

use crate::holdings::Agent;
use crate::places::{LabelAt, Labels, RouteAt, Routes, route_at};
use crate::sessions::{Peer, change_at, tell_agent};
use ov_sync::Delta;
use ov_types::{Label, NoMemory, Prefix, UpKey, VpnKey, VpnRoute};
use std::alloc::Global;

/// Puts back what stood at a place that is there.
fn put_route_back(routes: &mut Routes, at: RouteAt, before: Option<Prefix>)
    requires { IsSome (tree.get route_order routes.old at) }
    ensures { (k : RouteAtOf) → tree.get route_order routes.new k
        ≡ (if is_at (route_order at) k then before else tree.get route_order routes.old k) }
{
    match before {
        Some(prefix) => {
            let _ = routes.insert(at, prefix);
        }
        None => {
            routes.remove(&at);
        }
    }
}

/// A peer told a route.
fn put_route(
    alloc: Global,
    peers: &mut Vec<Peer>,
    routes: &mut Routes,
    session: u16,
    key: VpnKey,
    route: VpnRoute,
) -> Result<(), NoMemory>
    requires session { 0 < session }
    requires kept { AreRoutes routes.old (map peer_of peers.old.items) }
    ensures ok { OnOk result (map peer_of peers.new.items
        ≡ changed_at (map peer_of peers.old.items) (session - 1) (moved_delta Vpn Route (PutOf key route))) }
    ensures err { OnErr result (map peer_of peers.new.items ≡ map peer_of peers.old.items) }
    ensures routes { AreRoutes routes.new (map peer_of peers.new.items) }
{
    let at = route_at(session, &key);
    let before = routes.insert(at, key.prefix)?;
    match change_at(
        alloc,
        peers,
        usize::from(session - 1),
        Delta::Put(key, route),
    ) {
        Ok(()) => Ok(()),
        Err(NoMemory) => {
            put_route_back(routes, at, before);
            Err(NoMemory)
        }
    }
}

/// A peer withdrew a route.
fn drop_route(
    alloc: Global,
    peers: &mut Vec<Peer>,
    routes: &mut Routes,
    session: u16,
    key: VpnKey,
) -> Result<(), NoMemory>
    requires session { 0 < session }
    requires kept { AreRoutes routes.old (map peer_of peers.old.items) }
    ensures ok { OnOk result (map peer_of peers.new.items
        ≡ changed_at (map peer_of peers.old.items) (session - 1) (moved_delta Vpn Route (DropOf key))) }
    ensures err { OnErr result (map peer_of peers.new.items ≡ map peer_of peers.old.items) }
    ensures routes { AreRoutes routes.new (map peer_of peers.new.items) }
{
    let at = route_at(session, &key);
    change_at(alloc, peers, usize::from(session - 1), Delta::Drop(key))?;
    routes.remove(&at);
    Ok(())
}

/// Puts back what stood at a place that is there.
fn put_label_back(labels: &mut Labels, at: LabelAt, before: Option<Prefix>)
    requires { IsSome (tree.get label_order labels.old at) }
    ensures { (k : LabelAtOf) → tree.get label_order labels.new k
        ≡ (if is_at (label_order at) k then before else tree.get label_order labels.old k) }
{
    match before {
        Some(prefix) => {
            let _ = labels.insert(at, prefix);
        }
        None => {
            labels.remove(&at);
        }
    }
}

/// An agent told a publication, which stands at a place with its prefix.
fn put_label(
    agents: &mut Vec<Agent>,
    labels: &mut Labels,
    place: (LabelAt, Prefix),
    session: u16,
    key: UpKey,
    label: Label,
) -> Result<(), NoMemory>
    requires place { place_told (map agent_of agents.old.items) session key ≡ Some place }
    requires kept { AreLabels labels.old (map agent_of agents.old.items) }
    ensures ok { OnOk result (map agent_of agents.new.items
        ≡ at_session (λ m. changed m (moved_delta of_up LabelOf (PutOf key label))) (map agent_of agents.old.items) session) }
    ensures err { OnErr result (map agent_of agents.new.items ≡ map agent_of agents.old.items) }
    ensures labels { AreLabels labels.new (map agent_of agents.new.items) }
{
    let (at, prefix) = place;
    let before = labels.insert(at, prefix)?;
    match tell_agent(agents, session, Delta::Put(key, label)) {
        Ok(()) => Ok(()),
        Err(NoMemory) => {
            put_label_back(labels, at, before);
            Err(NoMemory)
        }
    }
}

/// An agent withdrew a publication, which stands at a place.
fn drop_label(
    agents: &mut Vec<Agent>,
    labels: &mut Labels,
    place: (LabelAt, Prefix),
    session: u16,
    key: UpKey,
) -> Result<(), NoMemory>
    requires place { place_told (map agent_of agents.old.items) session key ≡ Some place }
    requires kept { AreLabels labels.old (map agent_of agents.old.items) }
    ensures ok { OnOk result (map agent_of agents.new.items
        ≡ at_session (λ m. changed m (moved_delta of_up LabelOf (DropOf key))) (map agent_of agents.old.items) session) }
    ensures err { OnErr result (map agent_of agents.new.items ≡ map agent_of agents.old.items) }
    ensures labels { AreLabels labels.new (map agent_of agents.new.items) }
{
    tell_agent(agents, session, Delta::Drop(key))?;
    labels.remove(&place.0);
    Ok(())
}

/// A peer told a change of a route.
pub(crate) fn set_route(
    alloc: Global,
    peers: &mut Vec<Peer>,
    routes: &mut Routes,
    session: u16,
    delta: Delta<VpnKey, VpnRoute>,
) -> Result<(), NoMemory>
    requires session { 0 < session }
    requires kept { AreRoutes routes.old (map peer_of peers.old.items) }
    ensures ok { OnOk result (map peer_of peers.new.items
        ≡ changed_at (map peer_of peers.old.items) (session - 1) (moved_delta Vpn Route delta)) }
    ensures err { OnErr result (map peer_of peers.new.items ≡ map peer_of peers.old.items) }
    ensures routes { AreRoutes routes.new (map peer_of peers.new.items) }
{
    match delta {
        Delta::Put(key, route) => put_route(alloc, peers, routes, session, key, route),
        Delta::Drop(key) => drop_route(alloc, peers, routes, session, key),
    }
}

/// An agent told a change of a publication, which stands at a place with its prefix.
fn set_label(
    agents: &mut Vec<Agent>,
    labels: &mut Labels,
    place: (LabelAt, Prefix),
    session: u16,
    delta: Delta<UpKey, Label>,
) -> Result<(), NoMemory>
    requires place { place_told (map agent_of agents.old.items) session (key_of delta) ≡ Some place }
    requires kept { AreLabels labels.old (map agent_of agents.old.items) }
    ensures ok { OnOk result (map agent_of agents.new.items
        ≡ at_session (λ m. changed m (moved_delta of_up LabelOf delta)) (map agent_of agents.old.items) session) }
    ensures err { OnErr result (map agent_of agents.new.items ≡ map agent_of agents.old.items) }
    ensures labels { AreLabels labels.new (map agent_of agents.new.items) }
{
    match delta {
        Delta::Put(key, label) => put_label(agents, labels, place, session, key, label),
        Delta::Drop(key) => drop_label(agents, labels, place, session, key),
    }
}

/// An agent told a change, which stands at a place with its prefix where it is one of a publication.
pub(crate) fn set_told(
    agents: &mut Vec<Agent>,
    labels: &mut Labels,
    place: Option<(LabelAt, Prefix)>,
    session: u16,
    delta: Delta<UpKey, Label>,
) -> Result<(), NoMemory>
    requires place { place ≡ place_told (map agent_of agents.old.items) session (key_of delta) }
    requires kept { AreLabels labels.old (map agent_of agents.old.items) }
    requires order { AreInOrder (map agent_of agents.old.items) }
    ensures ok { OnOk result (map agent_of agents.new.items
        ≡ at_session (λ m. changed m (moved_delta of_up LabelOf delta)) (map agent_of agents.old.items) session) }
    ensures err { OnErr result (map agent_of agents.new.items ≡ map agent_of agents.old.items) }
    ensures labels { AreLabels labels.new (map agent_of agents.new.items) }
    ensures order { AreInOrder (map agent_of agents.new.items) }
{
    match place {
        None => tell_agent(agents, session, delta),
        Some(place) => set_label(agents, labels, place, session, delta),
    }
}
