//! The policies that a network attaches: no other has a rule between it and another network.
ghost use Rattle.std.specs.Prelude.{◌≡◌, filter, IfOk};
ghost use Rattle.policy_rules.specs.Related.{attaches, are_related, imports};

use config_types::{Config, Network, Policy};
use ov_types::{Items, NoMemory};
use policy_rules::{are_related, attaches, imports};
use std::alloc::Global;

fn copy_of(policy: &Policy) -> Result<Policy, NoMemory>
    ensures { IfOk result (λ copy. copy ≡ policy.now) }
{
    Ok(policy.clone()?)
}

/// A configuration of the policies that a network attaches alone, in the document's order.
pub(crate) fn policies_of(
    alloc: Global,
    config: &Config,
    network: &Network,
) -> Result<Config, NoMemory>
    ensures { IfOk result (λ attached. attached.policies ≡ filter (attaches network.now) config.now.policies) }
{
    let mut policies = Items::new(alloc);
    for policy in config.policies.as_slice() {
        if attaches(network, policy) {
            policies.push(copy_of(policy)?)?;
        }
    }
    Ok(Config {
        networks: Items::new(alloc),
        ports: Items::new(alloc),
        policies,
        services: Items::new(alloc),
        chains: Items::new(alloc),
    })
}

/// Whether a network imports another, by the policies that it attaches.
pub(crate) fn imports_among(
    config: &Config,
    attached: &Config,
    network: &Network,
    other: &Network,
) -> bool
    requires { attached.now.policies ≡ filter (attaches network.now) config.now.policies }
    ensures { result ≡ imports config.now network.now other.now }
{
    imports(attached, network, other)
}

/// Whether a network is related to another, by the policies that it attaches.
pub(crate) fn are_related_among(
    config: &Config,
    attached: &Config,
    network: &Network,
    other: &Network,
) -> bool
    requires { attached.now.policies ≡ filter (attaches network.now) config.now.policies }
    ensures { result ≡ are_related config.now network.now other.now }
{
    are_related(attached, network, other)
}
