//! The rule that decides between two networks: over the policies in the document's order, the match of the one with
//! the least sequence is kept.
ghost use Rattle.std.specs.Prelude.{◌≡◌, ◌≤◌, nat_le, length, IsTrue};
ghost use Rattle.std.specs.List.{list_all};
ghost use Rattle.ov_types.specs.First.{first_of};
ghost use Rattle.policy_rules.specs.Related.{numbered_rules};
ghost use Rattle.policy_rules.specs.Matching.{match_by, deciding, decision};
ghost use Rattle.policy_rules.specs.Least.{match_in, least};

use crate::fitting::attaches;
use crate::matching::{Decision, Match, decision_by, match_by};
use crate::numbered::NumberedRule;
use config_types::{Config, Network, Policy};
use ov_types::{RuleNo, Tuple};

/// The first match among the rules of a policy.
fn first_match(policy: &Policy, from: &Network, to: &Network, tuple: &Tuple) -> Option<Match>
    requires { length policy.now.rules ≤ 16 }
    ensures { result ≡ first_of (match_by from.now to.now tuple.now) (numbered_rules policy.now) }
{
    let mut position = 1;
    for rule in policy.rules.as_slice() {
        let number = RuleNo {
            sequence: policy.sequence,
            position,
        };
        let rule = NumberedRule {
            number,
            rule: *rule,
        };
        if let Some(found) = match_by(rule, from, to, tuple) {
            return Some(found);
        }
        position += 1;
    }
    None
}

/// The first match among the rules of a policy, where both networks attach it.
fn match_in(policy: &Policy, from: &Network, to: &Network, tuple: &Tuple) -> Option<Match>
    requires { length policy.now.rules ≤ 16 }
    ensures { result ≡ match_in from.now to.now tuple.now policy.now }
{
    if !attaches(from, policy) {
        return None;
    }
    if !attaches(to, policy) {
        return None;
    }
    first_match(policy, from, to, tuple)
}

/// The one of two matches that has the lesser sequence, and the earlier where both have one.
fn least(earlier: Option<Match>, later: Option<Match>) -> Option<Match>
    ensures { result ≡ least earlier later }
{
    match (earlier, later) {
        (None, _) => later,
        (_, None) => earlier,
        (Some(a), Some(b)) => {
            if b.rule.number.sequence < a.rule.number.sequence {
                later
            } else {
                earlier
            }
        }
    }
}

/// The first rule between two networks that matches, by sequence and then position.
#[tactic(auto, using(crate::proofs::Ordered::next_policy), unfolding(crate::specs::Matching::deciding))]
pub fn deciding(config: &Config, from: &Network, to: &Network, tuple: &Tuple) -> Option<Match>
    requires { IsTrue (list_all (λ p. nat_le (length p.rules) 16) config.now.policies) }
    ensures { result ≡ deciding config.now from.now to.now tuple.now }
{
    let mut best = None;
    for policy in config.policies.as_slice() {
        best = least(best, match_in(policy, from, to, tuple));
    }
    best
}

/// The number of the rule that decides, and whether it matches mirrored.
pub fn decision(config: &Config, from: &Network, to: &Network, tuple: &Tuple) -> Option<Decision>
    requires { IsTrue (list_all (λ p. nat_le (length p.rules) 16) config.now.policies) }
    ensures { result ≡ decision config.now from.now to.now tuple.now }
{
    match deciding(config, from, to, tuple) {
        Some(found) => Some(decision_by(&found)),
        None => None,
    }
}
