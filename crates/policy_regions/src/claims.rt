//! What rules claim of the packets between two networks.
ghost use Rattle.std.specs.Prelude.{◌≡◌, ◌&&◌, ◌++◌, ◌≤◌, flat_map, map, length, IfOk, OnOk};
ghost use Rattle.std.specs.List.{All};
ghost use Rattle.policy_rules.specs.Related.{fits, numbered_rules};
ghost use Rattle.policy_rules.specs.Matching.{speaks_both_ways};
ghost use Rattle.policy_regions.specs.Claims.{effect_of, protocols_of, forward_claim, mirrored_claim, forwards, backwards, claims_of};

use crate::region::{Claim, Effect, Region};
use config_types::{Action, Direction, Network, Policy, Protocol, Rule};
use ov_types::{NoMemory, Range16, RuleNo};
use policy_rules::{Decision, NumberedRule, fits};
use std::alloc::Global;

fn protocols_of(protocol: &Protocol) -> Range16
    ensures { result ≡ protocols_of protocol.now }
{
    match protocol {
        Protocol::Any => Range16 { lo: 0, hi: 255 },
        Protocol::Number(number) => Range16 {
            lo: u16::from(*number),
            hi: u16::from(*number),
        },
    }
}

fn effect_of(action: &Action) -> Effect
    ensures { result ≡ effect_of action.now }
{
    match action {
        Action::Pass => Effect::Passes,
        Action::Deny => Effect::Drops,
        Action::Through { chain, .. } => Effect::Leads { chain: *chain },
    }
}

/// The region of the packets that go as a rule is written.
fn forward_region(rule: &NumberedRule) -> Region
    ensures { result ≡ (forward_claim rule.now).region }
{
    Region {
        protocols: protocols_of(&rule.rule.protocol),
        source_ports: rule.rule.source_ports,
        destination_ports: rule.rule.destination_ports,
    }
}

/// The region of the answers to the packets of a rule.
fn mirrored_region(rule: &NumberedRule) -> Region
    ensures { result ≡ (mirrored_claim rule.now).region }
{
    Region {
        protocols: protocols_of(&rule.rule.protocol),
        source_ports: rule.rule.destination_ports,
        destination_ports: rule.rule.source_ports,
    }
}

/// Appends the forward claim, where the rule speaks of packets that go this way.
fn push_forwards(
    claims: &mut Vec<Claim>,
    from: &Network,
    to: &Network,
    rule: &NumberedRule,
) -> Result<(), NoMemory>
    ensures { OnOk result (claims.new.items ≡ claims.old.items ++ forwards from.now to.now rule.now) }
{
    if fits(&rule.rule, from, to) {
        claims.push(Claim {
            region: forward_region(rule),
            decision: Decision {
                rule: rule.number,
                mirrored: false,
            },
            effect: effect_of(&rule.rule.action),
        })?;
    }
    Ok(())
}

/// Whether a rule of both directions speaks of packets that go the other way.
fn is_answered(rule: &Rule, from: &Network, to: &Network) -> bool
    ensures { result ≡ (speaks_both_ways rule.now.direction && fits rule.now to.now from.now) }
{
    matches!(rule.direction, Direction::BothWays) && fits(rule, to, from)
}

/// Appends the mirrored claim, where a rule of both directions speaks of packets that go the other way.
fn push_backwards(
    claims: &mut Vec<Claim>,
    from: &Network,
    to: &Network,
    rule: &NumberedRule,
) -> Result<(), NoMemory>
    ensures { OnOk result (claims.new.items ≡ claims.old.items ++ backwards from.now to.now rule.now) }
{
    if is_answered(&rule.rule, from, to) {
        claims.push(Claim {
            region: mirrored_region(rule),
            decision: Decision {
                rule: rule.number,
                mirrored: true,
            },
            effect: effect_of(&rule.rule.action),
        })?;
    }
    Ok(())
}

/// Appends the claims of a rule, forwards before mirrored.
fn push_rule(
    claims: &mut Vec<Claim>,
    from: &Network,
    to: &Network,
    rule: &NumberedRule,
) -> Result<(), NoMemory>
    ensures { OnOk result (claims.new.items ≡ claims.old.items ++ claims_of from.now to.now rule.now) }
{
    push_forwards(claims, from, to, rule)?;
    push_backwards(claims, from, to, rule)
}

/// Appends the claims of a policy's rules, whose positions count from 1.
fn push_policy(
    claims: &mut Vec<Claim>,
    from: &Network,
    to: &Network,
    policy: &Policy,
) -> Result<(), NoMemory>
    requires { length policy.now.rules ≤ 16 }
    ensures { OnOk result (claims.new.items
        ≡ claims.old.items ++ flat_map (claims_of from.now to.now) (numbered_rules policy.now)) }
{
    let mut position = 1;
    for rule in policy.rules.as_slice() {
        let number = RuleNo {
            sequence: policy.sequence,
            position,
        };
        let rule = NumberedRule {
            number,
            rule: *rule,
        };
        push_rule(claims, from, to, &rule)?;
        position += 1;
    }
    Ok(())
}

/// The claims of the rules of policies to packets from one network to another.
pub(crate) fn claims_of(
    alloc: Global,
    from: &Network,
    to: &Network,
    policies: &[&Policy],
) -> Result<Vec<Claim>, NoMemory>
    requires { All (λ p. length p.rules ≤ 16) (map (λ p. p.now) policies.now) }
    ensures { IfOk result (λ v. v.items ≡ flat_map (claims_of from.now to.now)
        (flat_map numbered_rules (map (λ p. p.now) policies.now))) }
{
    let mut claims = Vec::new(alloc);
    for policy in policies {
        push_policy(&mut claims, from, to, policy)?;
    }
    Ok(claims)
}
