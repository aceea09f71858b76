//! Lists of what is held, from which a control node makes what it wants and shows.
ghost use Rattle.std.specs.Prelude.{◌≡◌, ◌==◌, ◌++◌, [], ◌∷◌, Some, OnOk, IfOk, map, option_copied};
ghost use Rattle.std.specs.List.{filter_map};
ghost use Rattle.std.specs.FinMap.{entries};
ghost use Rattle.path_select.specs.NodeModel.Keys.{of_up};
ghost use Rattle.path_select.specs.NodeModel.Maps.{Map, objects};
ghost use Rattle.path_select.specs.NodeModel.Paths.{own_path, own_paths};
ghost use Rattle.path_select.specs.NodeModel.Reaching.{below};
ghost use Rattle.path_select.specs.NodeModel.Tables.{known_instances, network_of};
ghost use Rattle.path_select.specs.NodeModel.Uses.{hop};
ghost use Rattle.path_select.specs.NodeModel.Wants.{slice, subscribed, subscriptions};
ghost use Rattle.vpn_holdings.specs.Leading.{use_at};
ghost use Rattle.vpn_holdings.specs.Listing.{hops_of_held, in_slice, sliced, told_by, told_in};
ghost use Rattle.vpn_holdings.specs.Routes.{path_of};
ghost use Rattle.vpn_holdings.specs.Views.{agent_of};

use crate::chains::Side;
use crate::holdings::{Agent, VpnHoldings};
use crate::routes::Route;
use ov_types::{Addr, InstanceId, LowKey, LowValue, NoMemory, UpKey};
use route_targets::hop_instance;
use std::alloc::Global;

impl VpnHoldings {
    /// The own routes, by session and then by publication. Two may have one key; the first of these counts.
    pub fn own_routes(&self) -> Result<Vec<Route>, NoMemory>
        ensures { IfOk result (λ routes. map path_of routes.items ≡ own_paths self.now) }
    {
        let mut routes = Vec::new(self.alloc);
        for agent in &self.agents {
            self.push_own(&mut routes, agent)?;
        }
        Ok(routes)
    }

    /// Those of an agent.
    fn push_own(&self, routes: &mut Vec<Route>, agent: &Agent) -> Result<(), NoMemory>
        ensures { OnOk result (map path_of routes.new.items ≡ map path_of routes.old.items
            ++ filter_map (λ e. own_path self.now (agent_of agent.now) e.0 e.1) (entries (agent_of agent.now).map)) }
    {
        for (key, label) in agent.told.iter() {
            if let Some(route) = self.own_route(agent, key, *label) {
                routes.push(route)?;
            }
        }
        Ok(())
    }

    /// The slice of an address: the attachments there, and the access lists of the networks of its ports, in the order
    /// of their keys.
    pub fn slice(&self, address: Addr) -> Result<Vec<(LowKey, LowValue)>, NoMemory>
        ensures { IfOk result (λ objects. objects.items ≡ slice self.now.feed address) }
    {
        let mut objects = Vec::new(self.alloc);
        for (key, value) in self.held_for_agents() {
            if self.is_in_slice(address, key, value) {
                let object = copy_of(value)?;
                objects.push((*key, object))?;
            }
        }
        Ok(objects)
    }

    /// The object of a key, where it is of the slice of an address. It takes no memory but for the object.
    pub fn sliced(&self, address: Addr, key: &LowKey) -> Result<Option<LowValue>, NoMemory>
        ensures { IfOk result (λ object. object ≡ sliced self.now.feed address key.now) }
    {
        match self.low(key) {
            Some(value) => self.copy_sliced(address, key, value),
            None => Ok(None),
        }
    }

    fn copy_sliced(
        &self,
        address: Addr,
        key: &LowKey,
        value: &LowValue,
    ) -> Result<Option<LowValue>, NoMemory>
        ensures { IfOk result (λ object. object ≡ in_slice self.now.feed address key.now (Some value.now)) }
    {
        if !self.is_in_slice(address, key, value) {
            return Ok(None);
        }
        let object = copy_of(value)?;
        Ok(Some(object))
    }

    /// The instances that the agent of a session subscribed, in order: none where the session is no agent's.
    pub fn subscriptions(&self, session: u16) -> Result<Vec<InstanceId>, NoMemory>
        ensures { IfOk result (λ instances. instances.items ≡ subscriptions (told_in self.now.agents session).map) }
    {
        match self.agent(session) {
            Some(agent) => agent.subscriptions(self.alloc),
            None => Ok(Vec::new(self.alloc)),
        }
    }

    /// The address of the agent of a session: 0.0.0.0 where the session is no agent's. It takes no memory.
    pub fn address_of(&self, session: u16) -> Addr
        ensures { result ≡ (told_in self.now.agents session).address }
    {
        match self.agent(session) {
            Some(agent) => agent.address,
            None => Addr(0),
        }
    }

    pub(crate) fn agent(&self, session: u16) -> Option<&Agent>
        ensures { told_by session (option_copied result) ≡ told_in self.now.agents session }
    {
        for agent in &self.agents {
            if agent.session == session {
                return Some(agent);
            }
        }
        None
    }

    /// The known instances, in order: the networks that are held, and then the places of the uses that are held.
    pub fn known_instances(&self) -> Result<Vec<InstanceId>, NoMemory>
        ensures { IfOk result (λ instances. instances.items ≡ known_instances self.now.feed) }
    {
        let mut instances = self.networks()?;
        for (key, _value) in self.held_uses() {
            self.push_hops(&mut instances, key)?;
        }
        Ok(instances)
    }

    /// The networks that are held.
    fn networks(&self) -> Result<Vec<InstanceId>, NoMemory>
        ensures { IfOk result (λ networks. networks.items
            ≡ filter_map (λ e. network_of e.0) (objects self.now.feed)) }
    {
        let mut networks = Vec::new(self.alloc);
        for (key, _value) in self.held_networks() {
            if let Some(network) = network_of(key) {
                networks.push(network)?;
            }
        }
        Ok(networks)
    }

    /// The places of the use that is held at a key.
    fn push_hops(&self, instances: &mut Vec<InstanceId>, key: &LowKey) -> Result<(), NoMemory>
        ensures { OnOk result (instances.new.items
            ≡ instances.old.items ++ hops_of_held (use_at self.now.feed key.now)) }
    {
        let LowKey::ChainUse(number) = *key else {
            return Ok(());
        };
        match self.side(number, false) {
            Some(side) => push_places(instances, &side),
            None => Ok(()),
        }
    }
}

/// The instance of each place of a use.
pub(crate) fn push_places(instances: &mut Vec<InstanceId>, side: &Side<'_>) -> Result<(), NoMemory>
    ensures { OnOk result (instances.new.items ≡ instances.old.items
        ++ map (hop side.now.chain) (below side.now.chain.services ++ side.now.chain.services ∷ [])) }
{
    for place in 0..=side.services() {
        instances.push(hop_instance(side.number(), place))?;
    }
    Ok(())
}

impl Agent {
    /// The instances that it subscribed.
    fn subscriptions(&self, alloc: Global) -> Result<Vec<InstanceId>, NoMemory>
        ensures { IfOk result (λ instances. instances.items ≡ subscriptions (agent_of self.now).map) }
    {
        let mut instances = Vec::new(alloc);
        for (key, _label) in self.told.iter() {
            if let Some(instance) = subscribed(key) {
                instances.push(instance)?;
            }
        }
        Ok(instances)
    }
}

fn copy_of(value: &LowValue) -> Result<LowValue, NoMemory>
    ensures { IfOk result (λ copy. copy ≡ value.now) }
{
    Ok(value.clone()?)
}

/// The network of a key, where it is a network's.
fn network_of(key: &LowKey) -> Option<InstanceId>
    ensures { result ≡ network_of key.now }
{
    match *key {
        LowKey::Instance(number) => Some(InstanceId(number)),
        _ => None,
    }
}

/// The instance that a key subscribes, where it does.
fn subscribed(key: &UpKey) -> Option<InstanceId>
    ensures { result ≡ subscribed (of_up key.now) }
{
    match *key {
        UpKey::Subscribe(instance) => Some(instance),
        UpKey::Publish(_, _) => None,
    }
}
