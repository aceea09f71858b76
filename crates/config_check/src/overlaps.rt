//! The rule of addresses: among a network and all that are related to it no two have overlapping subnets.
ghost use Rattle.std.specs.Prelude.{◌≡◌, filter, find, map, option_copied, IfOk};
ghost use Rattle.std.specs.List.{list_any};
ghost use Rattle.policy_rules.specs.Related.{attaches};
ghost use Rattle.config_check.specs.Between.{also_leads, is_in_group};
ghost use Rattle.config_check.specs.Rules.{overlap, group_of, share_addresses, overlapping, overlapping_around};
ghost use Rattle.config_check.specs.Rules.{broken_overlap};

use crate::refusal::Refusal;
use crate::subnets::overlap;
use config_types::{Config, Network, Policy};
use ov_types::{NoMemory, Prefix};
use policy_rules::{attaches, some_rule_leads};
use std::alloc::Global;

fn overlaps_some(prefix: &Prefix, subnets: &[Prefix]) -> bool
    ensures { result ≡ list_any (overlap prefix.now) subnets.now }
{
    subnets.iter().any(|q| overlap(prefix, q))
}

fn share_addresses(a: &Network, b: &Network) -> bool
    ensures { result ≡ share_addresses a.now b.now }
{
    a.subnets
        .as_slice()
        .iter()
        .any(|p| overlaps_some(p, b.subnets.as_slice()))
}

/// The policies that a network attaches, in the document's order.
fn attached_policies<'a>(
    alloc: Global,
    config: &'a Config,
    network: &Network,
) -> Result<Vec<&'a Policy>, NoMemory>
    ensures { IfOk result (λ v. map (λ p. p.now) v.items ≡ filter (attaches network.now) config.now.policies) }
{
    let mut policies = Vec::new(alloc);
    for policy in config.policies.as_slice() {
        if attaches(network, policy) {
            policies.push(policy)?;
        }
    }
    Ok(policies)
}

fn also_leads(policy: &Policy, network: &Network, other: &Network) -> bool
    ensures { result ≡ also_leads network.now other.now policy.now }
{
    attaches(other, policy) && some_rule_leads(policy, network, other)
}

fn some_also_leads(policies: &[&Policy], network: &Network, other: &Network) -> bool
    ensures { result ≡ list_any (also_leads network.now other.now) (map (λ p. p.now) policies.now) }
{
    for policy in policies {
        if also_leads(policy, network, other) {
            return true;
        }
    }
    false
}

fn is_in_group(policies: &[&Policy], network: &Network, other: &Network) -> bool
    ensures { result ≡ is_in_group (map (λ p. p.now) policies.now) network.now other.now }
{
    other.name == network.name || some_also_leads(policies, network, other)
}

/// A network, and those that are related to it by the policies that it attaches.
fn group_by<'a>(
    alloc: Global,
    policies: &[&Policy],
    config: &'a Config,
    network: &Network,
) -> Result<Vec<&'a Network>, NoMemory>
    ensures { IfOk result (λ v. map (λ n. n.now) v.items
        ≡ filter (is_in_group (map (λ p. p.now) policies.now) network.now) config.now.networks) }
{
    let mut group = Vec::new(alloc);
    for other in config.networks.as_slice() {
        if is_in_group(policies, network, other) {
            group.push(other)?;
        }
    }
    Ok(group)
}

/// A network, and those that are related to it, in the document's order.
#[tactic(auto, using(crate::proofs::SomeRule::group_from))]
fn group_of<'a>(
    alloc: Global,
    config: &'a Config,
    network: &Network,
) -> Result<Vec<&'a Network>, NoMemory>
    ensures { IfOk result (λ v. map (λ n. n.now) v.items ≡ group_of config.now network.now) }
{
    let policies = attached_policies(alloc, config, network)?;
    group_by(alloc, &policies, config, network)
}

fn sharing_with<'a>(network: &Network, others: &[&'a Network]) -> Option<&'a Network>
    ensures { option_copied result ≡ find (share_addresses network.now) (map (λ n. n.now) others.now) }
{
    for other in others {
        if share_addresses(network, other) {
            return Some(*other);
        }
    }
    None
}

fn overlapping(group: &[&Network]) -> Option<Refusal>
    ensures { result ≡ overlapping (map (λ n. n.now) group.now) }
{
    for (index, network) in group.iter().enumerate() {
        if let Some(other) = sharing_with(network, &group[index + 1..]) {
            return Some(Refusal::SubnetOverlap {
                first: network.name,
                second: other.name,
            });
        }
    }
    None
}

fn overlapping_around(
    alloc: Global,
    config: &Config,
    network: &Network,
) -> Result<Option<Refusal>, NoMemory>
    ensures { IfOk result (λ found. found ≡ overlapping_around config.now network.now) }
{
    let group = group_of(alloc, config, network)?;
    Ok(overlapping(&group))
}

/// The first two networks that share addresses in a group, for the first network whose group has such.
#[tactic(auto, using(crate::proofs::Lists::asked), unfolding(crate::specs::Rules::broken_overlap))]
pub(crate) fn broken_overlap(alloc: Global, config: &Config) -> Result<Option<Refusal>, NoMemory>
    ensures { IfOk result (λ found. found ≡ broken_overlap config.now) }
{
    for network in config.networks.as_slice() {
        if let Some(refusal) = overlapping_around(alloc, config, network)? {
            return Ok(Some(refusal));
        }
    }
    Ok(None)
}
