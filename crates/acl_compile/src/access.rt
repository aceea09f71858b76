//! The access list from one network to another.
ghost use Rattle.std.specs.Prelude.{◌≡◌, IfOk};
ghost use Rattle.acl_compile.specs.Bounds.{KeepsBounds};
ghost use Rattle.acl_compile.specs.Oriented.{oriented, acl_rules, acl_value};

use crate::entries::entries_of;
use crate::policies::shared_policies;
use crate::subnets::ascending;
use config_types::{Config, Network};
use ov_types::{AclRule, Items, LowValue, NoMemory};
use std::alloc::Global;

/// The entries of the rules between two networks, for packets from the one to the other.
fn oriented(
    alloc: Global,
    config: &Config,
    from: &Network,
    to: &Network,
) -> Result<Items<AclRule>, NoMemory>
    requires { KeepsBounds config.now }
    ensures { IfOk result (λ list. list ≡ oriented config.now from.now to.now) }
{
    let policies = shared_policies(alloc, config, from, to)?;
    let entries = entries_of(alloc, config, from, to, &policies)?;
    Ok(Items::from_vec(entries))
}

/// What decides on packets from one network to another; inside a network no rule is asked.
fn acl_rules(
    alloc: Global,
    config: &Config,
    from: &Network,
    to: &Network,
) -> Result<Items<AclRule>, NoMemory>
    requires { KeepsBounds config.now }
    ensures { IfOk result (λ list. list ≡ acl_rules config.now from.now to.now) }
{
    if from.name == to.name {
        return Ok(Items::new(alloc));
    }
    oriented(alloc, config, from, to)
}

/// The access list from one network to another: the subnets of the other, and what decides on packets there.
pub fn acl_between(
    alloc: Global,
    config: &Config,
    from: &Network,
    to: &Network,
) -> Result<LowValue, NoMemory>
    requires { KeepsBounds config.now }
    ensures { IfOk result (λ list. list ≡ acl_value config.now from.now to.now) }
{
    let subnets = ascending(alloc, to.subnets.as_slice())?;
    let rules = acl_rules(alloc, config, from, to)?;
    Ok(LowValue::Acl { subnets, rules })
}
