//! The entries of rules.
ghost use Rattle.std.specs.Prelude.{◌≡◌, ◌&&◌, ◌++◌, flat_map, map, option_to_list, IsTrue, IfOk, OnOk};
ghost use Rattle.std.specs.List.{All};
ghost use Rattle.config_types.specs.Form.{has_action_form, has_rule_form};
ghost use Rattle.policy_rules.specs.Related.{fits, numbered_rules};
ghost use Rattle.policy_rules.specs.Matching.{speaks_both_ways};
ghost use Rattle.acl_compile.specs.Bounds.{KeepsBounds, IsBounded};
ghost use Rattle.acl_compile.specs.Oriented.{protocol_of, does, forward_entry, mirrored_entry, forwards, backwards};
ghost use Rattle.acl_compile.specs.Oriented.{entries_of};

use crate::chains::hop_entered;
use config_types::{Action, Config, Direction, Network, Policy, Protocol, Rule};
use ov_types::{AclAction, AclRule, NoMemory, RuleNo};
use policy_rules::{NumberedRule, fits};
use route_targets::hop_instance;
use std::alloc::Global;

fn protocol_of(protocol: &Protocol) -> Option<u8>
    ensures { result ≡ protocol_of protocol.now }
{
    match protocol {
        Protocol::Any => None,
        Protocol::Number(number) => Some(*number),
    }
}

/// What an entry does, of a rule as it is written or mirrored.
fn does(config: &Config, mirrored: bool, action: &Action) -> AclAction
    requires bounds { KeepsBounds config.now }
    requires form { IsTrue (has_action_form action.now) }
    ensures { result ≡ does config.now mirrored action.now }
{
    match action {
        Action::Pass => AclAction::Pass,
        Action::Deny => AclAction::Deny,
        Action::Through { chain, use_no } => {
            AclAction::Enter(hop_instance(*use_no, hop_entered(config, chain, mirrored)))
        }
    }
}

/// The entry for packets that go as the rule is written.
fn forward_entry(config: &Config, rule: &NumberedRule) -> AclRule
    requires bounds { KeepsBounds config.now }
    requires form { IsTrue (has_rule_form rule.now.rule) }
    ensures { result ≡ forward_entry config.now rule.now }
{
    AclRule {
        protocol: protocol_of(&rule.rule.protocol),
        sports: rule.rule.source_ports,
        dports: rule.rule.destination_ports,
        action: does(config, false, &rule.rule.action),
        rule: rule.number,
    }
}

/// The entry for the answers to those packets.
fn mirrored_entry(config: &Config, rule: &NumberedRule) -> AclRule
    requires bounds { KeepsBounds config.now }
    requires form { IsTrue (has_rule_form rule.now.rule) }
    ensures { result ≡ mirrored_entry config.now rule.now }
{
    AclRule {
        protocol: protocol_of(&rule.rule.protocol),
        sports: rule.rule.destination_ports,
        dports: rule.rule.source_ports,
        action: does(config, true, &rule.rule.action),
        rule: rule.number,
    }
}

/// The forward entry, where the rule speaks of packets that go this way.
fn forwards(config: &Config, from: &Network, to: &Network, rule: &NumberedRule) -> Option<AclRule>
    requires bounds { KeepsBounds config.now }
    requires form { IsTrue (has_rule_form rule.now.rule) }
    ensures { option_to_list result ≡ forwards config.now from.now to.now rule.now }
{
    if fits(&rule.rule, from, to) {
        return Some(forward_entry(config, rule));
    }
    None
}

/// Whether a rule of both directions speaks of packets that go the other way.
fn is_answered(rule: &Rule, from: &Network, to: &Network) -> bool
    ensures { result ≡ (speaks_both_ways rule.now.direction && fits rule.now to.now from.now) }
{
    matches!(rule.direction, Direction::BothWays) && fits(rule, to, from)
}

/// The mirrored entry, where a rule of both directions speaks of packets that go the other way.
fn backwards(config: &Config, from: &Network, to: &Network, rule: &NumberedRule) -> Option<AclRule>
    requires bounds { KeepsBounds config.now }
    requires form { IsTrue (has_rule_form rule.now.rule) }
    ensures { option_to_list result ≡ backwards config.now from.now to.now rule.now }
{
    if is_answered(&rule.rule, from, to) {
        return Some(mirrored_entry(config, rule));
    }
    None
}

fn push_some(entries: &mut Vec<AclRule>, entry: Option<AclRule>) -> Result<(), NoMemory>
    ensures { OnOk result (entries.new.items ≡ entries.old.items ++ option_to_list entry) }
{
    if let Some(entry) = entry {
        entries.push(entry)?;
    }
    Ok(())
}

/// Appends two entries, where they are there.
fn push_both(
    entries: &mut Vec<AclRule>,
    first: Option<AclRule>,
    second: Option<AclRule>,
) -> Result<(), NoMemory>
    ensures { OnOk result (entries.new.items
        ≡ entries.old.items ++ (option_to_list first ++ option_to_list second)) }
{
    push_some(entries, first)?;
    push_some(entries, second)
}

/// Appends the entries of a rule, forwards before mirrored.
fn push_rule(
    entries: &mut Vec<AclRule>,
    config: &Config,
    from: &Network,
    to: &Network,
    rule: &NumberedRule,
) -> Result<(), NoMemory>
    requires bounds { KeepsBounds config.now }
    requires form { IsTrue (has_rule_form rule.now.rule) }
    ensures { OnOk result (entries.new.items ≡ entries.old.items ++ entries_of config.now from.now to.now rule.now) }
{
    let forward = forwards(config, from, to, rule);
    let mirrored = backwards(config, from, to, rule);
    push_both(entries, forward, mirrored)
}

/// Appends the entries of a policy's rules, whose positions count from 1.
fn push_policy(
    entries: &mut Vec<AclRule>,
    config: &Config,
    from: &Network,
    to: &Network,
    policy: &Policy,
) -> Result<(), NoMemory>
    requires bounds { KeepsBounds config.now }
    requires few { IsBounded policy.now }
    ensures { OnOk result (entries.new.items
        ≡ entries.old.items ++ flat_map (entries_of config.now from.now to.now) (numbered_rules policy.now)) }
{
    let mut position = 1;
    for rule in policy.rules.as_slice() {
        let number = RuleNo {
            sequence: policy.sequence,
            position,
        };
        let rule = NumberedRule {
            number,
            rule: *rule,
        };
        push_rule(entries, config, from, to, &rule)?;
        position += 1;
    }
    Ok(())
}

/// The entries of the rules of policies, for packets from one network to another.
pub(crate) fn entries_of(
    alloc: Global,
    config: &Config,
    from: &Network,
    to: &Network,
    policies: &[&Policy],
) -> Result<Vec<AclRule>, NoMemory>
    requires bounds { KeepsBounds config.now }
    requires few { All IsBounded (map (λ p. p.now) policies.now) }
    ensures { IfOk result (λ v. v.items ≡ flat_map (entries_of config.now from.now to.now)
        (flat_map numbered_rules (map (λ p. p.now) policies.now))) }
{
    let mut entries = Vec::new(alloc);
    for policy in policies {
        push_policy(&mut entries, config, from, to, policy)?;
    }
    Ok(entries)
}
