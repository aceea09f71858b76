//! The keys towards peers that a change touches, and the routes of one key.
ghost use Rattle.std.specs.Prelude.{◌≡◌, ◌<◌, ◌+◌, ◌++◌, [], true, false, is_some, Some, OnOk, IfOk, map};
ghost use Rattle.std.specs.List.{cons_option, filter_map, flat_map};
ghost use Rattle.std.specs.Option.{option_map};
ghost use Rattle.std.specs.FinMap.{entries, get};
ghost use Rattle.path_select.specs.NodeModel.Keys.{Subscribe, of_up};
ghost use Rattle.path_select.specs.NodeModel.Paths.{own_path, own_paths};
ghost use Rattle.path_select.specs.NodeModel.Ranks.{instance_in};
ghost use Rattle.path_select.specs.NodeModel.Reaching.{circuit_at, into, publisher, reoriginated_paths};
ghost use Rattle.path_select.specs.NodeModel.Uses.{uses};
ghost use Rattle.path_select.specs.NodeModel.Values.{Label as LabelOf};
ghost use Rattle.vpn_holdings.specs.At.{led_at};
ghost use Rattle.vpn_holdings.specs.Leading.{use_at};
ghost use Rattle.vpn_holdings.specs.Listing.{each_of, told_in};
ghost use Rattle.vpn_holdings.specs.Routes.{path_of};
ghost use Rattle.vpn_holdings.specs.TouchedKeys.{always, first_keyed, key_published, keys_along, keys_if_touched, keys_led, may_lead, path_key, published_key};
ghost use Rattle.vpn_holdings.specs.Views.{agent_of};

use crate::at::is_to;
use crate::chains::Side;
use crate::holdings::{Agent, VpnHoldings};
use crate::routes::Route;
use ov_types::{Addr, InstanceId, Label, LowKey, NoMemory, Rd, Target, UpKey, VpnKey};
use route_targets::rd;

type Keys = Vec<VpnKey>;

impl VpnHoldings {
    /// The keys of the routes that may lead on along the uses that are touched by these targets: towards each circuit
    /// that is published here, whether a subnet is up or not. It looks at no path.
    pub fn keys_led(&self, targets: &[Target]) -> Result<Vec<VpnKey>, NoMemory>
        ensures { IfOk result (λ keys. keys.items ≡ keys_led self.now targets.now) }
    {
        let mut keys = Vec::new(self.alloc);
        self.key_all(&mut keys, targets)?;
        Ok(keys)
    }

    fn key_all(&self, keys: &mut Keys, targets: &[Target]) -> Result<(), NoMemory>
        ensures { OnOk result (keys.new.items ≡ keys.old.items
            ++ flat_map (keys_if_touched self.now targets.now) (uses self.now.feed)) }
    {
        for (key, _value) in self.held_uses() {
            self.key_touched(keys, key, targets)?;
        }
        Ok(())
    }

    /// Appends the keys of the use that is held under a key, where it is touched.
    fn key_touched(&self, keys: &mut Keys, key: &LowKey, targets: &[Target]) -> Result<(), NoMemory>
        ensures { OnOk result (keys.new.items ≡ keys.old.items
            ++ each_of (keys_if_touched self.now targets.now) (use_at self.now.feed key.now)) }
    {
        let LowKey::ChainUse(number) = *key else {
            return Ok(());
        };
        match (self.side(number, true), self.side(number, false)) {
            (Some(right), Some(left)) => self.key_use(keys, &left, &right, targets),
            _ => Ok(()),
        }
    }

    fn key_use(
        &self,
        keys: &mut Keys,
        left: &Side<'_>,
        right: &Side<'_>,
        targets: &[Target],
    ) -> Result<(), NoMemory>
        requires one { right.now.chain ≡ left.now.chain }
        requires left { left.now.is_right ≡ false }
        requires right { right.now.is_right ≡ true }
        ensures { OnOk result (keys.new.items ≡ keys.old.items
            ++ keys_if_touched self.now targets.now left.now.chain) }
    {
        let places = self.places(left)?;
        if self.imports_among(places.as_slice(), targets) {
            return self.key_sides(keys, left, right);
        }
        Ok(())
    }

    fn key_sides(&self, keys: &mut Keys, left: &Side<'_>, right: &Side<'_>) -> Result<(), NoMemory>
        requires one { right.now.chain ≡ left.now.chain }
        requires left { left.now.is_right ≡ false }
        requires right { right.now.is_right ≡ true }
        ensures { OnOk result (keys.new.items ≡ keys.old.items ++ keys_along self.now left.now.chain) }
    {
        self.key_side(keys, right)?;
        self.key_side(keys, left)?;
        Ok(())
    }

    fn key_side(&self, keys: &mut Keys, side: &Side<'_>) -> Result<(), NoMemory>
        ensures { OnOk result (keys.new.items ≡ keys.old.items ++ map path_key (may_lead self.now side.now)) }
    {
        for distance in 0..side.services() {
            self.key_into(keys, side, distance)?;
        }
        Ok(())
    }

    /// Appends the keys of the routes that lead from a distance into the next place, whose circuit is published or not.
    fn key_into(&self, keys: &mut Keys, side: &Side<'_>, distance: u8) -> Result<(), NoMemory>
        requires within { distance < side.now.chain.services }
        requires short { distance < 15 }
        ensures { OnOk result (keys.new.items ≡ keys.old.items
            ++ map path_key (into always self.now side.now distance)) }
    {
        match self.publisher(side.circuit_at(distance + 1)) {
            Some((address, label)) => self.key_towards(keys, side, distance, address, label),
            None => Ok(()),
        }
    }

    /// Appends the keys of the routes that lead from a distance towards the circuit of the next place, which is
    /// published.
    fn key_towards(
        &self,
        keys: &mut Keys,
        side: &Side<'_>,
        distance: u8,
        address: Addr,
        label: Label,
    ) -> Result<(), NoMemory>
        requires within { distance < side.now.chain.services }
        requires short { distance < 15 }
        requires published { publisher self.now (circuit_at side.now (distance + 1)) ≡ Some (address, label) }
        ensures { OnOk result (keys.new.items ≡ keys.old.items
            ++ map path_key (into always self.now side.now distance)) }
    {
        let rd = rd(address, side.hop_at(distance + 1));
        for subnet in side.subnets() {
            keys.push(VpnKey {
                rd,
                prefix: *subnet,
            })?;
        }
        Ok(())
    }

    /// The key of the own route of a publication: none where the session is no agent's, and none of a subscription. It
    /// takes no memory.
    pub fn key_published(&self, session: u16, key: &UpKey) -> Option<VpnKey>
        ensures { result ≡ key_published self.now session key.now }
    {
        for agent in &self.agents {
            if agent.session == session {
                return published_key(agent, key);
            }
            if agent.session > session {
                return None;
            }
        }
        None
    }

    /// The first own route of a key, where there is one. It takes no memory.
    pub fn own_keyed(&self, key: &VpnKey) -> Option<Route>
        ensures { option_map path_of result ≡ first_keyed key.now (own_paths self.now) }
    {
        for agent in &self.agents {
            if let Some(route) = self.agents_keyed(agent, key) {
                return Some(route);
            }
        }
        None
    }

    fn agents_keyed(&self, agent: &Agent, key: &VpnKey) -> Option<Route>
        ensures { option_map path_of result ≡ first_keyed key.now
            (filter_map (λ e. own_path self.now (agent_of agent.now) e.0 e.1) (entries (agent_of agent.now).map)) }
    {
        for (told, label) in agent.told.iter() {
            if let Some(route) = self.publication_keyed(agent, told, *label, key) {
                return Some(route);
            }
        }
        None
    }

    /// The route of a publication, where it has the key.
    fn publication_keyed(
        &self,
        agent: &Agent,
        told: &UpKey,
        label: Label,
        key: &VpnKey,
    ) -> Option<Route>
        ensures { option_map path_of result ≡ first_keyed key.now
            (cons_option (own_path self.now (agent_of agent.now) (of_up told.now) (LabelOf label)) []) }
    {
        if !is_to(told, &key.prefix) {
            return None;
        }
        let route = self.own_route(agent, told, label)?;
        if route.path.rd.0 != key.rd.0 {
            return None;
        }
        Some(route)
    }

    /// The first re-originated route of a key, where there is one. It takes no memory.
    pub fn led_keyed(&self, key: &VpnKey) -> Option<Route>
        ensures { option_map path_of result ≡ first_keyed key.now (reoriginated_paths self.now) }
    {
        // (a read of the tables, for what always holds of them)
        let _ = &self.asn;
        let hop = instance_of(key.rd);
        match self.led_keyed_at(hop, key, true) {
            Some(route) => Some(route),
            None => self.led_keyed_at(hop, key, false),
        }
    }

    fn led_keyed_at(&self, i: InstanceId, key: &VpnKey, right: bool) -> Option<Route>
        ensures { option_map path_of result ≡ first_keyed key.now (led_at self.now i key.now.prefix right) }
    {
        let route = self.led_at(i, &key.prefix, right)?;
        if route.path.rd.0 != key.rd.0 {
            return None;
        }
        Some(route)
    }

    /// Whether the agent of a session subscribed an instance. It takes no memory.
    pub fn subscribes(&self, session: u16, i: InstanceId) -> bool
        ensures { result ≡ is_some (get (told_in self.now.agents session).map (Subscribe i)) }
    {
        match self.agent(session) {
            Some(agent) => has_subscribed(agent, i),
            None => false,
        }
    }
}

fn has_subscribed(agent: &Agent, i: InstanceId) -> bool
    ensures { result ≡ is_some (get (agent_of agent.now).map (Subscribe i)) }
{
    match agent.told.get(&UpKey::Subscribe(i)) {
        Some(_) => true,
        None => false,
    }
}

/// The instance of a distinguisher.
fn instance_of(rd: Rd) -> InstanceId
    ensures { result ≡ instance_in rd }
{
    InstanceId((rd.0 % 65536) as u16)
}

fn published_key(agent: &Agent, key: &UpKey) -> Option<VpnKey>
    ensures { result ≡ published_key (Some (agent_of agent.now)) key.now }
{
    match *key {
        UpKey::Publish(instance, prefix) => Some(VpnKey {
            rd: rd(agent.address, instance),
            prefix,
        }),
        UpKey::Subscribe(_) => None,
    }
}
