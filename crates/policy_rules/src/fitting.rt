//! Which networks attach a policy, and of which a rule speaks.
ghost use Rattle.std.specs.Prelude.{◌≡◌};
ghost use Rattle.policy_rules.specs.Related.{attaches, end_fits, fits};

use config_types::{End, Network, Policy, Rule};

/// Whether a network attaches a policy.
pub fn attaches(network: &Network, policy: &Policy) -> bool
    ensures { result ≡ attaches network.now policy.now }
{
    network
        .policies
        .as_slice()
        .iter()
        .any(|name| policy.name == *name)
}

/// Whether an end of a rule is this network, or any.
fn end_fits(end: &End, network: &Network) -> bool
    ensures { result ≡ end_fits end.now network.now }
{
    match end {
        End::Any => true,
        End::Named(name) => *name == network.name,
    }
}

/// Whether a rule speaks of packets from one network to another.
pub fn fits(rule: &Rule, from: &Network, to: &Network) -> bool
    ensures { result ≡ fits rule.now from.now to.now }
{
    end_fits(&rule.source, from) && end_fits(&rule.destination, to)
}
