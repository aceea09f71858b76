//! What is gathered of what is held: the keys of all agents, and what instances import.
ghost use Rattle.std.specs.Prelude.{◌≡◌, ◌++◌, Some, IfOk, OnOk, map};
ghost use Rattle.std.specs.BTreeMap.{IsOrdered};
ghost use Rattle.route_targets.specs.Numbers.{hop_of};
ghost use Rattle.path_select.specs.NodeModel.Uses.{hop_imports, imports};
ghost use Rattle.vpn_holdings.specs.Gathered.{held_keys, in_order, keyed, keys_told, UsesAreInRange};
ghost use Rattle.vpn_holdings.specs.Listing.{told_in};
ghost use Rattle.vpn_holdings.specs.Views.{agent_of, up_order};

use crate::chains::Side;
use crate::holdings::{Agent, VpnHoldings};
use ov_sync::first_of_each;
use ov_types::{InstanceId, LowKey, LowValue, NoMemory, UpKey};
use route_targets::{UseHop, hop_instance, hop_of};
use std::alloc::Global;
use std::collections::BTreeMap;

/// What is in a list, each once, in order.
pub fn in_order<K: Ord + Copy>(alloc: Global, items: &[K]) -> Result<Vec<K>, NoMemory>
    ensures { IfOk result (λ ordered. ordered.items ≡ in_order K.cmp items.now) }
{
    let entries = entries_of(alloc, items)?;
    let once = first_of_each(alloc, entries)?;
    let keys = keys_of(alloc, &once)?;
    Ok(keys)
}

fn entries_of<K: Copy>(alloc: Global, items: &[K]) -> Result<Vec<(K, ())>, NoMemory>
    ensures { IfOk result (λ entries. entries.items ≡ map keyed items.now) }
{
    let mut entries = Vec::with_capacity(alloc, items.len())?;
    for item in items {
        entries.push((*item, ()))?;
    }
    Ok(entries)
}

fn keys_of<K: Ord + Copy>(alloc: Global, once: &BTreeMap<K, ()>) -> Result<Vec<K>, NoMemory>
    ensures keys { IfOk result (λ keys. keys.items ≡ map (λ e. e.0) once.now.entries) }
    ensures ordered { IsOrdered K.cmp once.now }
{
    let mut keys = Vec::with_capacity(alloc, once.len())?;
    for (key, _) in once.iter() {
        keys.push(*key)?;
    }
    Ok(keys)
}

impl VpnHoldings {
    /// The keys of what all agents told, each once, in order.
    pub fn up_keys(&self) -> Result<Vec<UpKey>, NoMemory>
        ensures keys { IfOk result (λ keys. keys.items ≡ in_order up_order (held_keys self.now)) }
        ensures in_range { UsesAreInRange self.now.feed }
    {
        let told = self.told_keys()?;
        in_order(self.alloc, told.as_slice())
    }

    /// The keys of what each agent told, agent by agent.
    pub fn told_keys(&self) -> Result<Vec<UpKey>, NoMemory>
        ensures keys { IfOk result (λ keys. keys.items ≡ held_keys self.now) }
        ensures in_range { UsesAreInRange self.now.feed }
    {
        let mut keys = Vec::new(self.alloc);
        for agent in &self.agents {
            agent.push_keys(&mut keys)?;
        }
        Ok(keys)
    }

    /// The keys of what the agent of a session told, in order: none where the session is no agent's.
    pub fn keys_told(&self, session: u16) -> Result<Vec<UpKey>, NoMemory>
        ensures { IfOk result (λ keys. keys.items ≡ keys_told (told_in self.now.agents session)) }
    {
        match self.agent(session) {
            Some(agent) => agent.keys(self.alloc),
            None => Ok(Vec::new(self.alloc)),
        }
    }

    /// The instances that an instance imports the routes of: none where it is not known.
    pub fn imports(&self, i: InstanceId) -> Result<Vec<InstanceId>, NoMemory>
        ensures { IfOk result (λ instances. instances.items ≡ imports self.now.feed i) }
    {
        if let Some(hop) = hop_of(i) {
            return self.imports_of_hop(i, hop);
        }
        match self.low(&LowKey::Instance(i.0)) {
            Some(LowValue::Instance { imports }) => copies(self.alloc, imports.as_slice()),
            _ => Ok(Vec::new(self.alloc)),
        }
    }

    fn imports_of_hop(&self, i: InstanceId, hop: UseHop) -> Result<Vec<InstanceId>, NoMemory>
        requires { hop_of i ≡ Some hop }
        ensures { IfOk result (λ instances. instances.items ≡ imports self.now.feed i) }
    {
        match self.side(hop.use_no, true) {
            Some(side) => imports_at(self.alloc, &side, hop.place),
            None => Ok(Vec::new(self.alloc)),
        }
    }
}

/// What is imported at a place of a use: nothing past its last.
fn imports_at(alloc: Global, side: &Side<'_>, place: u8) -> Result<Vec<InstanceId>, NoMemory>
    ensures { IfOk result (λ instances. instances.items ≡ hop_imports place (Some side.now.chain)) }
{
    if place > side.services() {
        return Ok(Vec::new(alloc));
    }
    let own = hop_instance(side.number(), place);
    if place == 0 {
        if place == side.services() {
            return Ok(vec![in alloc; own, side.left(), side.right()]?);
        }
        return Ok(vec![in alloc; own, side.left()]?);
    }
    if place == side.services() {
        return Ok(vec![in alloc; own, side.right()]?);
    }
    Ok(vec![in alloc; own]?)
}

fn copies(alloc: Global, instances: &[InstanceId]) -> Result<Vec<InstanceId>, NoMemory>
    ensures { IfOk result (λ copies. copies.items ≡ instances.now) }
{
    Ok(instances.to_vec(alloc)?)
}

impl Agent {
    fn keys(&self, alloc: Global) -> Result<Vec<UpKey>, NoMemory>
        ensures { IfOk result (λ keys. keys.items ≡ keys_told (agent_of self.now)) }
    {
        let mut keys = Vec::new(alloc);
        self.push_keys(&mut keys)?;
        Ok(keys)
    }

    fn push_keys(&self, keys: &mut Vec<UpKey>) -> Result<(), NoMemory>
        ensures { OnOk result (keys.new.items ≡ keys.old.items ++ keys_told (agent_of self.now)) }
    {
        for (key, _label) in self.told.iter() {
            keys.push(*key)?;
        }
        Ok(())
    }
}
