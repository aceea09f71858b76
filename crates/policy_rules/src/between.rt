//! What the rules between two networks do: relate the two, or have one import the other.
ghost use Rattle.std.specs.Prelude.{◌≡◌};
ghost use Rattle.std.specs.List.{list_any};
ghost use Rattle.policy_rules.specs.Related.{passes, rules_between, are_related, imports};
ghost use Rattle.policy_rules.specs.Wanted.{is_wanted, serves, joins, leads_between};

use crate::fitting::{attaches, fits};
use config_types::{Action, Config, Network, Policy, Rule};

/// What is wanted of a rule between two networks.
#[derive(Clone, Copy, PartialEq, Eq)]
enum Wanted {
    /// The rule passes packets.
    Passing,
    /// The rule passes packets, or leads them through a chain.
    LettingThrough,
}

fn is_wanted(wanted: Wanted, action: &Action) -> bool
    ensures { result ≡ is_wanted wanted action.now }
{
    match wanted {
        Wanted::Passing => matches!(action, Action::Pass),
        Wanted::LettingThrough => !matches!(action, Action::Deny),
    }
}

/// Whether a rule speaks of packets between two networks, either way, and does what is wanted.
fn serves(wanted: Wanted, a: &Network, b: &Network, rule: &Rule) -> bool
    ensures { result ≡ serves wanted a.now b.now rule.now }
{
    (fits(rule, a, b) || fits(rule, b, a)) && is_wanted(wanted, &rule.action)
}

fn some_rule_serves(wanted: Wanted, a: &Network, b: &Network, rules: &[Rule]) -> bool
    ensures { result ≡ list_any (serves wanted a.now b.now) rules.now }
{
    rules.iter().any(|rule| serves(wanted, a, b, rule))
}

/// Whether two networks attach a policy that has a rule between them which does what is wanted.
fn joins(wanted: Wanted, a: &Network, b: &Network, policy: &Policy) -> bool
    ensures { result ≡ joins wanted a.now b.now policy.now }
{
    attaches(a, policy)
        && attaches(b, policy)
        && some_rule_serves(wanted, a, b, policy.rules.as_slice())
}

fn some_policy_joins(wanted: Wanted, a: &Network, b: &Network, policies: &[Policy]) -> bool
    ensures { result ≡ list_any (joins wanted a.now b.now) policies.now }
{
    policies.iter().any(|policy| joins(wanted, a, b, policy))
}

/// Whether some rule between two networks does what is wanted.
fn some_rule_between(config: &Config, a: &Network, b: &Network, wanted: Wanted) -> bool
    ensures { result ≡ list_any (λ r. is_wanted wanted r.rule.action) (rules_between config.now a.now b.now) }
{
    some_policy_joins(wanted, a, b, config.policies.as_slice())
}

/// Whether a policy has a rule that lets packets through between two networks.
pub fn some_rule_leads(policy: &Policy, a: &Network, b: &Network) -> bool
    ensures { result ≡ list_any (leads_between a.now b.now) policy.now.rules }
{
    some_rule_serves(Wanted::LettingThrough, a, b, policy.rules.as_slice())
}

/// Whether two networks differ and a rule between them lets packets through.
pub fn are_related(config: &Config, a: &Network, b: &Network) -> bool
    ensures { result ≡ are_related config.now a.now b.now }
{
    a.name != b.name && some_rule_between(config, a, b, Wanted::LettingThrough)
}

/// Whether a pass rule stands between two networks.
pub fn passes_between(config: &Config, a: &Network, b: &Network) -> bool
    ensures { result ≡ list_any (λ r. passes r.rule.action) (rules_between config.now a.now b.now) }
{
    some_rule_between(config, a, b, Wanted::Passing)
}

/// Whether a network imports another: itself, or one with a pass rule between the two.
pub fn imports(config: &Config, network: &Network, other: &Network) -> bool
    ensures { result ≡ imports config.now network.now other.now }
{
    network.name == other.name || passes_between(config, network, other)
}
