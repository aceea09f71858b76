//! The policies that networks attach.
ghost use Rattle.std.specs.Prelude.{◌≡◌, filter, map, IfOk};
ghost use Rattle.policy_rules.specs.Related.{attaches, by_sequence};

use config_types::{Config, Network, Policy};
use ov_types::NoMemory;
use policy_rules::attaches;
use std::alloc::Global;

/// The policies that a network attaches, in the document's order.
pub(crate) fn attached_policies<'a>(
    alloc: Global,
    config: &'a Config,
    network: &Network,
) -> Result<Vec<&'a Policy>, NoMemory>
    ensures { IfOk result (λ v. map (λ p. p.now) v.items ≡ filter (attaches network.now) config.now.policies) }
{
    let mut attached = Vec::new(alloc);
    for policy in config.policies.as_slice() {
        if attaches(network, policy) {
            attached.push(policy)?;
        }
    }
    Ok(attached)
}

/// The policies that a network attaches, in their order.
fn attached_of<'a>(
    alloc: Global,
    policies: &[&'a Policy],
    network: &Network,
) -> Result<Vec<&'a Policy>, NoMemory>
    ensures { IfOk result (λ v. map (λ p. p.now) v.items
        ≡ filter (attaches network.now) (map (λ p. p.now) policies.now)) }
{
    let mut attached = Vec::new(alloc);
    for policy in policies {
        if attaches(network, policy) {
            attached.push(*policy)?;
        }
    }
    Ok(attached)
}

/// Policies by sequence, those of one sequence in their order.
fn by_sequence<'a>(mut policies: Vec<&'a Policy>) -> Result<Vec<&'a Policy>, NoMemory>
    ensures { IfOk result (λ v. map (λ p. p.now) v.items ≡ by_sequence (map (λ p. p.now) policies.entry.items)) }
{
    policies.sort_by_key(|policy| policy.sequence)?;
    Ok(policies)
}

/// The policies that a network attaches, by sequence.
pub(crate) fn shared_policies<'a>(
    alloc: Global,
    policies: &[&'a Policy],
    network: &Network,
) -> Result<Vec<&'a Policy>, NoMemory>
    ensures { IfOk result (λ v. map (λ p. p.now) v.items
        ≡ by_sequence (filter (attaches network.now) (map (λ p. p.now) policies.now))) }
{
    by_sequence(attached_of(alloc, policies, network)?)
}
