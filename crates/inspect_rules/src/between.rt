//! The rules between two networks, in the order in which they are asked.
ghost use Rattle.std.specs.Prelude.{◌≡◌, ◌≤◌, ◌&&◌, ◌||◌, ◌++◌, filter, flat_map, length, map, nat_le, IfOk, IsTrue, OnOk};
ghost use Rattle.std.specs.List.{All, list_all};
ghost use Rattle.policy_rules.specs.Related.{attaches, by_sequence, fits, numbered_rules, rules_between};

use config_types::{Config, Network, Policy, Rule};
use ov_types::{NoMemory, RuleNo};
use policy_rules::{NumberedRule, attaches, fits};
use std::alloc::Global;

fn both_attach(from: &Network, to: &Network, policy: &Policy) -> bool
    ensures { result ≡ (attaches from.now policy.now && attaches to.now policy.now) }
{
    attaches(from, policy) && attaches(to, policy)
}

/// The policies that both networks attach, in the document's order.
fn attached_policies<'a>(
    alloc: Global,
    config: &'a Config,
    from: &Network,
    to: &Network,
) -> Result<Vec<&'a Policy>, NoMemory>
    ensures { IfOk result (λ v. map (λ p. p.now) v.items
        ≡ filter (λ p. attaches from.now p && attaches to.now p) config.now.policies) }
{
    let mut policies = Vec::new(alloc);
    for policy in config.policies.as_slice() {
        if both_attach(from, to, policy) {
            policies.push(policy)?;
        }
    }
    Ok(policies)
}

/// Policies by sequence, those of one sequence in their order.
fn by_sequence<'a>(mut policies: Vec<&'a Policy>) -> Result<Vec<&'a Policy>, NoMemory>
    ensures { IfOk result (λ v. map (λ p. p.now) v.items ≡ by_sequence (map (λ p. p.now) policies.entry.items)) }
{
    policies.sort_by_key(|policy| policy.sequence)?;
    Ok(policies)
}

/// The policies that both networks attach, by sequence.
fn shared_policies<'a>(
    alloc: Global,
    config: &'a Config,
    from: &Network,
    to: &Network,
) -> Result<Vec<&'a Policy>, NoMemory>
    ensures { IfOk result (λ v. map (λ p. p.now) v.items
        ≡ by_sequence (filter (λ p. attaches from.now p && attaches to.now p) config.now.policies)) }
{
    by_sequence(attached_policies(alloc, config, from, to)?)
}

/// Whether a rule speaks of packets between two networks, either way.
fn speaks(rule: &Rule, from: &Network, to: &Network) -> bool
    ensures { result ≡ (fits rule.now from.now to.now || fits rule.now to.now from.now) }
{
    fits(rule, from, to) || fits(rule, to, from)
}

/// Appends those rules of a policy, whose positions count from 1, that speak of packets between two networks.
fn push_policy(
    rules: &mut Vec<NumberedRule>,
    from: &Network,
    to: &Network,
    policy: &Policy,
) -> Result<(), NoMemory>
    requires { length policy.now.rules ≤ 16 }
    ensures { OnOk result (rules.new.items ≡ rules.old.items
        ++ filter (λ r. fits r.rule from.now to.now || fits r.rule to.now from.now) (numbered_rules policy.now)) }
{
    let mut position = 1;
    for rule in policy.rules.as_slice() {
        if speaks(rule, from, to) {
            let number = RuleNo {
                sequence: policy.sequence,
                position,
            };
            rules.push(NumberedRule {
                number,
                rule: *rule,
            })?;
        }
        position += 1;
    }
    Ok(())
}

/// The rules of policies that speak of packets between two networks.
fn rules_of(
    alloc: Global,
    from: &Network,
    to: &Network,
    policies: &[&Policy],
) -> Result<Vec<NumberedRule>, NoMemory>
    requires { All (λ p. length p.rules ≤ 16) (map (λ p. p.now) policies.now) }
    ensures { IfOk result (λ v. v.items
        ≡ flat_map (λ p. filter (λ r. fits r.rule from.now to.now || fits r.rule to.now from.now) (numbered_rules p))
        (map (λ p. p.now) policies.now)) }
{
    let mut rules = Vec::new(alloc);
    for policy in policies {
        push_policy(&mut rules, from, to, policy)?;
    }
    Ok(rules)
}

/// The rules between two networks, where no policy has too many: by sequence and then position.
pub(crate) fn rules_between(
    alloc: Global,
    config: &Config,
    from: &Network,
    to: &Network,
) -> Result<Vec<NumberedRule>, NoMemory>
    requires { IsTrue (list_all (λ p. nat_le (length p.rules) 16) config.now.policies) }
    ensures { IfOk result (λ v. v.items ≡ rules_between config.now from.now to.now) }
{
    let policies = shared_policies(alloc, config, from, to)?;
    rules_of(alloc, from, to, &policies)
}
