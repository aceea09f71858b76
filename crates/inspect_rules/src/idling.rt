//! What of a valid configuration decides nothing, or is not in use.
ghost use Rattle.std.specs.Prelude.{◌≡◌, ◌++◌, flat_map, IfOk, OnOk};
ghost use Rattle.policy_rules.specs.Related.{all_rules};
ghost use Rattle.inspect_rules.specs.Deciders.{has_rule};
ghost use Rattle.inspect_rules.specs.Idle.{idle, idle_chain, idle_policy, idle_rule, rule_unless};

use crate::deciders::deciders;
use crate::idle::Idle;
use crate::standing::rules_before;
use crate::using::{attached_count, is_in_use};
use config_check::Valid;
use config_types::{Chain, Config, Policy};
use ov_types::{Items, NoMemory, RuleNo};
use policy_rules::{NumberedRule, all_rules};
use std::alloc::Global;
use std::collections::BTreeSet;

fn push_rule(
    alloc: Global,
    found: &mut Vec<Idle>,
    config: &Config,
    deciders: &BTreeSet<RuleNo>,
    rules: &[NumberedRule],
    rule: &NumberedRule,
) -> Result<(), NoMemory>
    ensures { OnOk result (found.new.items
        ≡ found.old.items ++ rule_unless config.now rules.now rule.now (has_rule deciders.now rule.now.number)) }
{
    if deciders.contains(&rule.number) {
        return Ok(());
    }
    let before = rules_before(alloc, config, rules, rule)?;
    found.push(Idle::Rule {
        rule: rule.number,
        before,
    })?;
    Ok(())
}

fn push_each_rule(
    alloc: Global,
    found: &mut Vec<Idle>,
    config: &Config,
    deciders: &BTreeSet<RuleNo>,
    rules: &[NumberedRule],
) -> Result<(), NoMemory>
    ensures { OnOk result (found.new.items ≡ found.old.items
        ++ flat_map (λ r. rule_unless config.now rules.now r (has_rule deciders.now r.number)) rules.now) }
{
    for rule in rules {
        push_rule(alloc, found, config, deciders, rules, rule)?;
    }
    Ok(())
}

/// Appends the rules that decide no packet.
#[tactic(auto, using(reach_plain::proofs::Kept::few_rules))]
fn push_rules(alloc: Global, found: &mut Vec<Idle>, valid: &Valid) -> Result<(), NoMemory>
    ensures { OnOk result (found.new.items
        ≡ found.old.items ++ flat_map (idle_rule valid.now.config) (all_rules valid.now.config)) }
{
    let deciders = deciders(alloc, valid)?;
    let rules = all_rules(alloc, valid.config())?;
    push_each_rule(alloc, found, valid.config(), &deciders, &rules)
}

fn push_policy(found: &mut Vec<Idle>, config: &Config, policy: &Policy) -> Result<(), NoMemory>
    ensures { OnOk result (found.new.items ≡ found.old.items ++ idle_policy config.now policy.now) }
{
    let networks = attached_count(policy, config.networks.as_slice());
    if networks < 2 {
        found.push(Idle::Policy {
            name: policy.name,
            networks,
        })?;
    }
    Ok(())
}

fn push_policies(found: &mut Vec<Idle>, config: &Config) -> Result<(), NoMemory>
    ensures { OnOk result (found.new.items ≡ found.old.items ++ flat_map (idle_policy config.now) config.now.policies) }
{
    for policy in config.policies.as_slice() {
        push_policy(found, config, policy)?;
    }
    Ok(())
}

fn push_chain(found: &mut Vec<Idle>, config: &Config, chain: &Chain) -> Result<(), NoMemory>
    ensures { OnOk result (found.new.items ≡ found.old.items ++ idle_chain config.now chain.now) }
{
    if !is_in_use(config, &chain.name) {
        found.push(Idle::Chain { name: chain.name })?;
    }
    Ok(())
}

fn push_chains(found: &mut Vec<Idle>, config: &Config) -> Result<(), NoMemory>
    ensures { OnOk result (found.new.items ≡ found.old.items ++ flat_map (idle_chain config.now) config.now.chains) }
{
    for chain in config.chains.as_slice() {
        push_chain(found, config, chain)?;
    }
    Ok(())
}

/// The rules of a valid configuration that decide no packet between two networks, the policies that fewer than two
/// networks attach, and the chains of which no use is in effect.
#[tactic(auto, unfolding(crate::specs::Idle::idle))]
pub fn idle_of(alloc: Global, valid: &Valid) -> Result<Items<Idle>, NoMemory>
    ensures { IfOk result (λ list. list ≡ idle valid.now.config) }
{
    let mut found = Vec::new(alloc);
    push_rules(alloc, &mut found, valid)?;
    push_policies(&mut found, valid.config())?;
    push_chains(&mut found, valid.config())?;
    Ok(Items::from_vec(found))
}
