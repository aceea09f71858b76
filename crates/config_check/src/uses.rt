//! The rules of chain rules: each names two networks, and they differ.
ghost use Rattle.std.specs.Prelude.{◌≡◌, find, option_copied};
ghost use Rattle.config_check.specs.Rules.{is_chain_rule, is_any, same_end, lacks_network, turns_back, broken_needs};
ghost use Rattle.config_check.specs.Rules.{broken_same};

use crate::refusal::Refusal;
use config_types::{Action, End, Rule};
use policy_rules::NumberedRule;

fn is_chain_rule(action: &Action) -> bool
    ensures { result ≡ is_chain_rule action.now }
{
    match action {
        Action::Pass | Action::Deny => false,
        Action::Through { .. } => true,
    }
}

fn is_any(end: &End) -> bool
    ensures { result ≡ is_any end.now }
{
    match end {
        End::Any => true,
        End::Named(_) => false,
    }
}

fn is_same_end(first: &End, second: &End) -> bool
    ensures { result ≡ same_end first.now second.now }
{
    match (first, second) {
        (End::Named(a), End::Named(b)) => *a == *b,
        _ => false,
    }
}

fn lacks_network(rule: &Rule) -> bool
    ensures { result ≡ lacks_network rule.now }
{
    is_chain_rule(&rule.action) && (is_any(&rule.source) || is_any(&rule.destination))
}

fn turns_back(rule: &Rule) -> bool
    ensures { result ≡ turns_back rule.now }
{
    is_chain_rule(&rule.action) && is_same_end(&rule.source, &rule.destination)
}

fn first_lacking(rules: &[NumberedRule]) -> Option<&NumberedRule>
    ensures { option_copied result ≡ find (λ r. lacks_network r.rule) rules.now }
{
    rules.iter().find(|r| lacks_network(&r.rule))
}

fn first_turning(rules: &[NumberedRule]) -> Option<&NumberedRule>
    ensures { option_copied result ≡ find (λ r. turns_back r.rule) rules.now }
{
    rules.iter().find(|r| turns_back(&r.rule))
}

/// The first chain rule that has `any` as an end.
#[tactic(auto, unfolding(crate::specs::Rules::broken_needs))]
pub(crate) fn broken_needs(rules: &[NumberedRule]) -> Option<Refusal>
    ensures { result ≡ broken_needs rules.now }
{
    let found = first_lacking(rules)?;
    Some(Refusal::ChainNeedsNetworks { rule: found.number })
}

/// The first chain rule that names one network twice.
#[tactic(auto, unfolding(crate::specs::Rules::broken_same))]
pub(crate) fn broken_same(rules: &[NumberedRule]) -> Option<Refusal>
    ensures { result ≡ broken_same rules.now }
{
    let found = first_turning(rules)?;
    Some(Refusal::ChainSameNetwork { rule: found.number })
}
