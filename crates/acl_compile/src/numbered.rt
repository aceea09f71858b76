//! The access list between two networks that are given by their numbers.
ghost use Rattle.std.specs.Prelude.{◌≡◌, IfOk, IfSome, IsSome};
ghost use Rattle.config_check.specs.Finding.{network_numbered};
ghost use Rattle.acl_compile.specs.Oriented.{acl_value};

use crate::access::acl_between;
use config_check::{Valid, known_network};
use ov_types::{InstanceId, LowValue, NoMemory};
use std::alloc::Global;

/// The access list from one network to another, or of one with itself, which has no entries, by their numbers.
#[tactic(auto, using(crate::proofs::Bounded::keeps_bounds))]
pub fn acl(
    alloc: Global,
    valid: &Valid,
    from: InstanceId,
    to: InstanceId,
) -> Result<LowValue, NoMemory>
    requires source { IsSome (network_numbered valid.now.config from.0) }
    requires destination { IsSome (network_numbered valid.now.config to.0) }
    ensures { IfSome (network_numbered valid.now.config from.0) (λ a.
        IfSome (network_numbered valid.now.config to.0) (λ b.
        IfOk result (λ list. list ≡ acl_value valid.now.config a b))) }
{
    let config = valid.config();
    let from = known_network(config, from);
    let to = known_network(config, to);
    acl_between(alloc, config, from, to)
}
