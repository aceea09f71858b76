//! A network that packets leave, with the policies that it attaches, which are found once for all networks that they go to.
ghost use Rattle.std.specs.Prelude.{◌≡◌, nat_le, filter, length, map, IfOk, IsTrue};
ghost use Rattle.std.specs.List.{list_all};
ghost use Rattle.policy_rules.specs.Related.{attaches};
ghost use Rattle.policy_regions.specs.Claims.{claims_between};

use crate::claims::claims_of;
use crate::policies::{attached_policies, shared_policies};
use crate::region::Claim;
use config_types::{Config, Network, Policy};
use ov_types::NoMemory;
use std::alloc::Global;
use std::marker::Model;

/// A network that packets leave, with the policies that it attaches. Contracts see the configuration and the network.
#[derive(Drop)]
pub struct Origin<'a> {
    config: &'a Config,
    network: &'a Network,
    policies: Vec<&'a Policy>,
}

impl<'a> Model for Origin<'a> {
    ghost use Rattle.std.specs.Prelude.{◌≡◌, nat_le, filter, length, map, IsTrue};
    ghost use Rattle.std.specs.List.{list_all};
    ghost use Rattle.config_types.specs.declared.config.Config.{Config};
    ghost use Rattle.config_types.specs.declared.config.Network.{Network};
    ghost use Rattle.policy_rules.specs.Related.{attaches};

    ghost Value = { Config × Network };

    ghost view = { λ origin. (origin.config.now, origin.network.now) };

    ghost invariant = { λ origin.
        (map (λ p. p.now) origin.policies.items ≡ filter (attaches origin.network.now) origin.config.now.policies)
        × IsTrue (list_all (λ p. nat_le (length p.rules) 16) origin.config.now.policies) };
}

impl<'a> Origin<'a> {
    /// A network of a configuration, whose policies this finds.
    pub fn new(
        alloc: Global,
        config: &'a Config,
        network: &'a Network,
    ) -> Result<Origin<'a>, NoMemory>
        requires { IsTrue (list_all (λ p. nat_le (length p.rules) 16) config.now.policies) }
        ensures { IfOk result (λ origin. origin ≡ (config.now, network.now)) }
    {
        let policies = attached_policies(alloc, config, network)?;
        Ok(Origin {
            config,
            network,
            policies,
        })
    }

    /// The network.
    pub fn network(&self) -> &'a Network
        ensures { result.now ≡ self.now.1 }
    {
        self.network
    }

    /// The policies that the network attaches, in the document's order.
    pub fn policies(&self) -> &[&'a Policy]
        ensures { map (λ p. p.now) result.now ≡ filter (attaches self.now.1) self.now.0.policies }
    {
        &self.policies
    }

    /// The claims of the rules between this network and another, as `claims_between` finds them.
    pub fn claims_to(&self, alloc: Global, to: &Network) -> Result<Vec<Claim>, NoMemory>
        ensures { IfOk result (λ v. v.items ≡ claims_between self.now.0 self.now.1 to.now) }
    {
        let policies = shared_policies(alloc, &self.policies, to)?;
        claims_of(alloc, self.network, to, &policies)
    }
}
