//! The networks that were related, with those that one configuration more relates.
ghost use Rattle.std.specs.Prelude.{◌≡◌, filter, map, IfOk, OnOk};
ghost use Rattle.std.specs.List.{list_any};
ghost use Rattle.policy_rules.specs.Related.{attaches};
ghost use Rattle.config_check.specs.Between.{also_leads};
ghost use Rattle.schedule_script.specs.Kept.{Relates, are_in};
ghost use Rattle.schedule_script.specs.Relating.{is_related_by, relates_by, relates_one};
ghost use Rattle.schedule_script.specs.Tying.{relates};

use crate::kept::Related;
use config_types::{Config, Network, Policy};
use ov_types::NoMemory;
use policy_rules::{attaches, some_rule_leads};
use std::alloc::{AllocError, Global};

/// The policies that a network attaches, in the document's order.
fn attached_policies<'a>(
    alloc: Global,
    config: &'a Config,
    network: &Network,
) -> Result<Vec<&'a Policy>, NoMemory>
    ensures { IfOk result (λ v. map (λ p. p.now) v.items ≡ filter (attaches network.now) config.now.policies) }
{
    let mut policies = Vec::new(alloc);
    for policy in config.policies.as_slice() {
        if attaches(network, policy) {
            policies.push(policy)?;
        }
    }
    Ok(policies)
}

fn also_leads(policy: &Policy, network: &Network, other: &Network) -> bool
    ensures { result ≡ also_leads network.now other.now policy.now }
{
    attaches(other, policy) && some_rule_leads(policy, network, other)
}

fn some_also_leads(policies: &[&Policy], network: &Network, other: &Network) -> bool
    ensures { result ≡ list_any (also_leads network.now other.now) (map (λ p. p.now) policies.now) }
{
    for policy in policies {
        if also_leads(policy, network, other) {
            return true;
        }
    }
    false
}

/// Whether one of the policies that a network attaches relates it to another.
fn is_related_by(policies: &[&Policy], network: &Network, other: &Network) -> bool
    ensures { result ≡ is_related_by (map (λ p. p.now) policies.now) network.now other.now }
{
    network.name != other.name && some_also_leads(policies, network, other)
}

/// Relates a network to another, where one of these policies does.
fn relate(
    related: &mut Related,
    policies: &[&Policy],
    network: &Network,
    other: &Network,
) -> Result<(), NoMemory>
    ensures { OnOk result (Relates (are_in related.old.keys)
        (λ a b. relates_by (map (λ p. p.now) policies.now) network.now a b other.now) (are_in related.new.keys)) }
{
    if is_related_by(policies, network, other) {
        related.insert((network.id, other.id))?;
    }
    Ok(())
}

fn relate_each(
    related: &mut Related,
    policies: &[&Policy],
    network: &Network,
    others: &[Network],
) -> Result<(), NoMemory>
    ensures { OnOk result (Relates (are_in related.old.keys)
        (λ a b. list_any (relates_by (map (λ p. p.now) policies.now) network.now a b) others.now)
        (are_in related.new.keys)) }
{
    for other in others {
        relate(related, policies, network, other)?;
    }
    Ok(())
}

/// Relates a network to all that its configuration relates it to.
fn relate_network(
    alloc: Global,
    related: &mut Related,
    config: &Config,
    network: &Network,
) -> Result<(), NoMemory>
    ensures { OnOk result (Relates (are_in related.old.keys) (λ a b. relates_one config.now a b network.now)
        (are_in related.new.keys)) }
{
    let policies = attached_policies(alloc, config, network)?;
    relate_each(related, &policies, network, config.networks.as_slice())?;
    Ok(())
}

fn relate_networks(alloc: Global, related: &mut Related, config: &Config) -> Result<(), NoMemory>
    ensures { OnOk result (Relates (are_in related.old.keys) (relates config.now) (are_in related.new.keys)) }
{
    for network in config.networks.as_slice() {
        relate_network(alloc, related, config, network)?;
    }
    Ok(())
}

fn copied(related: &Related) -> Result<Related, AllocError>
    ensures { IfOk result (λ copy. copy.keys ≡ related.now.keys) }
{
    related.clone()
}

/// The networks that were related, with those that a configuration relates.
pub(crate) fn joined_related(
    alloc: Global,
    related: &Related,
    config: &Config,
) -> Result<Related, NoMemory>
    ensures { IfOk result (λ more. Relates (are_in related.now.keys) (relates config.now) (are_in more.keys)) }
{
    let mut more = copied(related)?;
    relate_networks(alloc, &mut more, config)?;
    Ok(more)
}
