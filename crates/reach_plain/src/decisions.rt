//! Decisions between networks that are given by their numbers.
ghost use Rattle.std.specs.Prelude.{◌≡◌, ◌↔◌, IsTrue, IsSome, IfSome};
ghost use Rattle.policy_rules.specs.Matching.{decision};
ghost use Rattle.config_check.specs.Finding.{network_numbered};

use config_check::{Valid, known_network, network_numbered};
use ov_types::{InstanceId, Tuple};
use policy_rules::{Decision, decision};

/// Whether a number is a network's. It takes no memory.
pub fn is_network(valid: &Valid, number: InstanceId) -> bool
    ensures { IsTrue result ↔ IsSome (network_numbered valid.now.config number.0) }
{
    network_numbered(valid.config(), number).is_some()
}

/// The first rule between two networks that matches a packet from the one to the other, by sequence and then
/// position, and whether it matches mirrored; there is none where no rule matches. It takes no memory.
#[tactic(auto, using(crate::proofs::Kept::few_rules))]
pub fn decide(valid: &Valid, from: InstanceId, to: InstanceId, tuple: Tuple) -> Option<Decision>
    requires source { IsSome (network_numbered valid.now.config from.0) }
    requires destination { IsSome (network_numbered valid.now.config to.0) }
    ensures { IfSome (network_numbered valid.now.config from.0) (λ a.
        IfSome (network_numbered valid.now.config to.0) (λ b. result ≡ decision valid.now.config a b tuple)) }
{
    let config = valid.config();
    let from = known_network(config, from);
    let to = known_network(config, to);
    decision(config, from, to, &tuple)
}
