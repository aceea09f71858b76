//! The targets before and after a change.
ghost use Rattle.std.specs.Prelude.{◌≡◌, ◌++◌, ℕ, OnOk, IfOk, map};
ghost use Rattle.std.specs.List.{flat_map};
ghost use Rattle.std.specs.FinMap.{get};
ghost use Rattle.ov_sync.specs.declared.Delta.TheVariants.{Put as PutOf, Drop as DropOf};
ghost use Rattle.ov_sync.specs.Embed.{moved_delta};
ghost use Rattle.ov_sync.specs.Keyed.{key_of};
ghost use Rattle.ov_types.specs.declared.numbers.Label.{Label as LabelOf};
ghost use Rattle.path_select.specs.NodeModel.Keys.{Vpn};
ghost use Rattle.path_select.specs.NodeModel.Maps.{Map};
ghost use Rattle.path_select.specs.NodeModel.Values.{Route};
ghost use Rattle.path_select.specs.NodeModel.Paths.{Path as PathOf, peer_path};
ghost use Rattle.vpn_holdings.specs.Moved.{map_at, place_by, place_in, told_as, told_on};
ghost use Rattle.vpn_holdings.specs.Moved.{targets_by_publication, targets_by_route, value_of};
ghost use Rattle.vpn_holdings.specs.Views.{agent_of, peer_of};

use crate::holdings::{Agent, VpnHoldings};
use ov_sync::{Delta, SyncIn};
use ov_types::{InstanceId, Label, NoMemory, Target, UpKey, VpnKey, VpnRoute};
use route_targets::target;

/// Appends the targets of a route.
fn push_targets(targets: &mut Vec<Target>, route: &VpnRoute) -> Result<(), NoMemory>
    ensures { OnOk result (targets.new.items ≡ targets.old.items ++ route.now.targets) }
{
    targets.extend_from_slice(route.targets.items())?;
    Ok(())
}

impl VpnHoldings {
    /// The targets before and after a change of a peer's route.
    pub fn targets_by_route(
        &self,
        session: u16,
        delta: &Delta<VpnKey, VpnRoute>,
    ) -> Result<Vec<Target>, NoMemory>
        ensures { IfOk result (λ targets. targets.items ≡ targets_by_route self.now session delta.now) }
    {
        let mut targets = Vec::new(self.alloc);
        if session == 0 {
            return Ok(targets);
        }
        let place = usize::from(session - 1);
        self.push_before(&mut targets, place, route_key(delta))?;
        push_after(&mut targets, delta)?;
        Ok(targets)
    }

    /// The targets of the route that a peer told.
    fn push_before(
        &self,
        targets: &mut Vec<Target>,
        place: usize,
        key: VpnKey,
    ) -> Result<(), NoMemory>
        ensures { OnOk result ((s : ℕ) → targets.new.items ≡ targets.old.items ++ flat_map (λ (p : PathOf). p.targets)
            (told_as (peer_path s) (Vpn key) (get (map_at self.now.peers place) (Vpn key)))) }
    {
        match self.peers.get(place) {
            Some(routes) => push_told(targets, routes, key),
            None => Ok(()),
        }
    }
}

pub(crate) fn told_key(delta: &Delta<UpKey, Label>) -> UpKey
    ensures { result ≡ key_of delta.now }
{
    match delta {
        Delta::Put(key, _) => *key,
        Delta::Drop(key) => *key,
    }
}

pub(crate) fn route_key(delta: &Delta<VpnKey, VpnRoute>) -> VpnKey
    ensures { result ≡ key_of delta.now }
{
    match delta {
        Delta::Put(key, _) => *key,
        Delta::Drop(key) => *key,
    }
}

/// The targets of the route that is told at a key.
fn push_told(
    targets: &mut Vec<Target>,
    routes: &SyncIn<VpnKey, VpnRoute>,
    key: VpnKey,
) -> Result<(), NoMemory>
    ensures { OnOk result ((s : ℕ) → targets.new.items ≡ targets.old.items ++ flat_map (λ (p : PathOf). p.targets)
        (told_as (peer_path s) (Vpn key) (get (peer_of routes.now) (Vpn key)))) }
{
    match routes.get(&key) {
        Some(route) => push_targets(targets, route),
        None => Ok(()),
    }
}

/// The targets of the route that a change puts.
fn push_after(targets: &mut Vec<Target>, delta: &Delta<VpnKey, VpnRoute>) -> Result<(), NoMemory>
    ensures { OnOk result ((s : ℕ) → targets.new.items ≡ targets.old.items ++ flat_map (λ (p : PathOf). p.targets)
        (told_as (peer_path s) (Vpn (key_of delta.now)) (value_of (moved_delta Vpn Route delta.now)))) }
{
    match delta {
        Delta::Put(_, route) => push_targets(targets, route),
        Delta::Drop(_) => Ok(()),
    }
}

/// The instance in which a change puts a publication.
fn put_in(key: &UpKey) -> Option<InstanceId>
    ensures { (m : Map) (label : LabelOf) → result ≡ place_in m (PutOf key.now label) }
{
    match *key {
        UpKey::Publish(instance, _) => Some(instance),
        UpKey::Subscribe(_) => None,
    }
}

/// The instance in which a change drops a publication that is there.
fn dropped_in(agent: &Agent, key: &UpKey) -> Option<InstanceId>
    ensures { result ≡ place_in (agent_of agent.now).map (DropOf key.now) }
{
    let UpKey::Publish(instance, _) = *key else {
        return None;
    };
    match agent.told.get(key) {
        Some(_) => Some(instance),
        None => None,
    }
}

fn place_in(agent: &Agent, delta: &Delta<UpKey, Label>) -> Option<InstanceId>
    ensures { result ≡ place_in (agent_of agent.now).map delta.now }
{
    match delta {
        Delta::Put(key, _) => put_in(key),
        Delta::Drop(key) => dropped_in(agent, key),
    }
}

/// The instance in which the agent of a session publishes before a change or after it.
fn place_on(agents: &[Agent], session: u16, delta: &Delta<UpKey, Label>) -> Option<InstanceId>
    ensures { result ≡ place_by (told_on (map agent_of agents.now) session) delta.now }
{
    for agent in agents {
        if agent.session == session {
            return place_in(agent, delta);
        }
        if agent.session > session {
            return None;
        }
    }
    None
}

impl VpnHoldings {
    /// The target before and after a change of what an agent told: that of the instance in which it publishes.
    pub fn targets_by_publication(
        &self,
        session: u16,
        delta: &Delta<UpKey, Label>,
    ) -> Result<Vec<Target>, NoMemory>
        ensures { IfOk result (λ targets. targets.items ≡ targets_by_publication self.now session delta.now) }
    {
        let mut targets = Vec::new(self.alloc);
        if let Some(instance) = place_on(self.agents.as_slice(), session, delta) {
            targets.push(target(self.asn, instance))?;
        }
        Ok(targets)
    }
}
