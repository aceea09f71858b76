//! The rules that stand before a rule.
ghost use Rattle.std.specs.Prelude.{◌≡◌, ◌++◌, ◌&&◌, filter, flat_map, map, IfOk, OnOk};
ghost use Rattle.std.specs.List.{list_any};
ghost use Rattle.inspect_rules.specs.Idle.{attaches_rule, before_of, both_speak, comes_before};
ghost use Rattle.inspect_rules.specs.Idle.{speaks_between, stands_before};

use config_types::{Config, Network, Rule};
use ov_types::{Items, NoMemory, RuleNo};
use policy_rules::{NumberedRule, attaches, fits};
use std::alloc::Global;

fn comes_before(rule: RuleNo, other: RuleNo) -> bool
    ensures { result ≡ comes_before rule other }
{
    rule.sequence < other.sequence
        || (rule.sequence == other.sequence && rule.position < other.position)
}

/// Whether a network attaches the policy of the rule of this number.
fn attaches_rule(config: &Config, network: &Network, rule: RuleNo) -> bool
    ensures { result ≡ attaches_rule config.now network.now rule }
{
    config.policies.as_slice().iter().any(|policy| policy.sequence == rule.sequence
        && attaches(network, policy))
}

/// The networks of a configuration that attach the policy of the rule of this number.
fn attaching<'a>(
    alloc: Global,
    config: &'a Config,
    rule: RuleNo,
) -> Result<Vec<&'a Network>, NoMemory>
    ensures { IfOk result (λ v. map (λ a. a.now) v.items
        ≡ filter (λ a. attaches_rule config.now a rule) config.now.networks) }
{
    let mut networks = Vec::new(alloc);
    for network in config.networks.as_slice() {
        if attaches_rule(config, network, rule) {
            networks.push(network)?;
        }
    }
    Ok(networks)
}

/// The networks among some that attach the policy of the rule of this number too.
fn also_attaching<'a>(
    alloc: Global,
    config: &Config,
    networks: &[&'a Network],
    rule: RuleNo,
) -> Result<Vec<&'a Network>, NoMemory>
    ensures { IfOk result (λ v. map (λ a. a.now) v.items
        ≡ filter (λ a. attaches_rule config.now a rule) (map (λ a. a.now) networks.now)) }
{
    let mut both = Vec::new(alloc);
    for network in networks {
        if attaches_rule(config, network, rule) {
            both.push(*network)?;
        }
    }
    Ok(both)
}

/// Whether a rule speaks of packets between two networks, either way.
fn speaks_between(rule: &Rule, from: &Network, to: &Network) -> bool
    ensures { result ≡ speaks_between rule.now from.now to.now }
{
    fits(rule, from, to) || fits(rule, to, from)
}

/// Whether both of two rules speak of packets between two networks.
fn both_speak(rule: &NumberedRule, other: &NumberedRule, from: &Network, to: &Network) -> bool
    ensures { result ≡ both_speak rule.now other.now from.now to.now }
{
    from.name != to.name
        && (speaks_between(&rule.rule, from, to) && speaks_between(&other.rule, from, to))
}

fn both_speak_to_some(
    rule: &NumberedRule,
    other: &NumberedRule,
    from: &Network,
    networks: &[&Network],
) -> bool
    ensures { result ≡ list_any (both_speak rule.now other.now from.now) (map (λ a. a.now) networks.now) }
{
    for to in networks {
        if both_speak(rule, other, from, to) {
            return true;
        }
    }
    false
}

/// Whether both of two rules speak of packets between some two of networks.
fn both_speak_between_some(
    rule: &NumberedRule,
    other: &NumberedRule,
    networks: &[&Network],
    others: &[&Network],
) -> bool
    ensures { result ≡ list_any (λ a. list_any (both_speak rule.now other.now a) (map (λ b. b.now) others.now))
        (map (λ a. a.now) networks.now) }
{
    for from in networks {
        if both_speak_to_some(rule, other, from, others) {
            return true;
        }
    }
    false
}

/// Whether a rule stands before another between some two of the networks that attach the other's policy.
fn stands_before(
    alloc: Global,
    config: &Config,
    networks: &[&Network],
    other: &NumberedRule,
    rule: &NumberedRule,
) -> Result<bool, NoMemory>
    requires { map (λ a. a.now) networks.now
        ≡ filter (λ a. attaches_rule config.now a other.now.number) config.now.networks }
    ensures { IfOk result (λ b. b ≡ stands_before config.now other.now rule.now) }
{
    if !comes_before(rule.number, other.number) {
        return Ok(false);
    }
    let both = also_attaching(alloc, config, networks, rule.number)?;
    Ok(both_speak_between_some(rule, other, &both, &both))
}

fn push_before(
    alloc: Global,
    before: &mut Vec<RuleNo>,
    config: &Config,
    networks: &[&Network],
    other: &NumberedRule,
    rule: &NumberedRule,
) -> Result<(), NoMemory>
    requires { map (λ a. a.now) networks.now
        ≡ filter (λ a. attaches_rule config.now a other.now.number) config.now.networks }
    ensures { OnOk result (before.new.items ≡ before.old.items ++ before_of config.now other.now rule.now) }
{
    if stands_before(alloc, config, networks, other, rule)? {
        before.push(rule.number)?;
    }
    Ok(())
}

/// The rules among some that stand before a rule.
pub(crate) fn rules_before(
    alloc: Global,
    config: &Config,
    rules: &[NumberedRule],
    other: &NumberedRule,
) -> Result<Items<RuleNo>, NoMemory>
    ensures { IfOk result (λ list. list ≡ flat_map (before_of config.now other.now) rules.now) }
{
    let networks = attaching(alloc, config, other.number)?;
    let mut before = Vec::new(alloc);
    for rule in rules {
        push_before(alloc, &mut before, config, &networks, other, rule)?;
    }
    Ok(Items::from_vec(before))
}
