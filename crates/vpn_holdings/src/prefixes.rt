//! The prefixes of what agents and peers told.
ghost use Rattle.std.specs.Prelude.{◌≡◌, ◌++◌, OnOk, IfOk};
ghost use Rattle.std.specs.List.{flat_map};
ghost use Rattle.path_select.specs.NodeModel.Reaching.{AreShort};
ghost use Rattle.vpn_holdings.specs.Gathered.{UsesAreInRange, prefixes_in, prefixes_told};
ghost use Rattle.vpn_holdings.specs.Indexed.{AreInOrder};
ghost use Rattle.vpn_holdings.specs.Views.{agent_of, peer_of};

use crate::holdings::{Agent, VpnHoldings};
use ov_sync::SyncIn;
use ov_types::{NoMemory, Prefix, UpKey, VpnKey, VpnRoute};

impl Agent {
    fn push_prefixes(&self, prefixes: &mut Vec<Prefix>) -> Result<(), NoMemory>
        ensures { OnOk result (prefixes.new.items ≡ prefixes.old.items ++ prefixes_in (agent_of self.now).map) }
    {
        for (key, _label) in self.told.iter() {
            if let UpKey::Publish(_, prefix) = key {
                prefixes.push(*prefix)?;
            }
        }
        Ok(())
    }
}

fn push_routes(
    prefixes: &mut Vec<Prefix>,
    routes: &SyncIn<VpnKey, VpnRoute>,
) -> Result<(), NoMemory>
    ensures { OnOk result (prefixes.new.items ≡ prefixes.old.items ++ prefixes_in (peer_of routes.now)) }
{
    for (key, _route) in routes.iter() {
        prefixes.push(key.prefix)?;
    }
    Ok(())
}

impl VpnHoldings {
    /// The agents stand in the order of their sessions.
    pub fn agents_are_in_order(&self)
        ensures { AreInOrder self.now.agents }
    {
        let _asn = self.asn;
    }

    /// Each held use has one of 3072 numbers, and at most 15 services.
    pub fn uses_are_in_range(&self)
        ensures in_range { UsesAreInRange self.now.feed }
        ensures short { AreShort self.now.feed }
    {
        let _asn = self.asn;
    }

    /// The prefixes of what agents and peers told, session by session, each as often as it was told.
    pub fn prefixes(&self) -> Result<Vec<Prefix>, NoMemory>
        ensures { IfOk result (λ prefixes. prefixes.items ≡ prefixes_told self.now) }
    {
        let mut prefixes = Vec::new(self.alloc);
        self.push_published(&mut prefixes)?;
        self.push_routed(&mut prefixes)?;
        Ok(prefixes)
    }

    fn push_published(&self, prefixes: &mut Vec<Prefix>) -> Result<(), NoMemory>
        ensures { OnOk result (prefixes.new.items ≡ prefixes.old.items
            ++ flat_map (λ a. prefixes_in a.map) self.now.agents) }
    {
        for agent in &self.agents {
            agent.push_prefixes(prefixes)?;
        }
        Ok(())
    }

    fn push_routed(&self, prefixes: &mut Vec<Prefix>) -> Result<(), NoMemory>
        ensures { OnOk result (prefixes.new.items ≡ prefixes.old.items ++ flat_map prefixes_in self.now.peers) }
    {
        for routes in &self.peers {
            push_routes(prefixes, routes)?;
        }
        Ok(())
    }
}
