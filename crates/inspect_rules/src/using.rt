//! Which networks attach a policy, and which uses of a chain are in effect.
ghost use Rattle.std.specs.Prelude.{◌≡◌, ◌&&◌};
ghost use Rattle.std.specs.List.{list_any};
ghost use Rattle.ov_types.specs.First.{same_name};
ghost use Rattle.policy_rules.specs.Related.{attaches};
ghost use Rattle.inspect_rules.specs.Idle.{attached_count, has_use, is_attached_end, is_use, leads_by};

use config_types::{Action, Config, End, Network, Policy, Rule};
use ov_types::Name;
use policy_rules::attaches;

/// How many networks attach a policy.
pub(crate) fn attached_count(policy: &Policy, networks: &[Network]) -> usize
    ensures { result ≡ attached_count policy.now networks.now }
{
    let mut count = 0;
    for network in networks {
        if attaches(network, policy) {
            count += 1;
        }
    }
    count
}

/// Whether a network of a name attaches a policy.
fn is_attached(networks: &[Network], policy: &Policy, name: &Name) -> bool
    ensures { result ≡ list_any (λ a. same_name name.now a.name && attaches a policy.now) networks.now }
{
    networks.iter().any(|network| *name == network.name && attaches(network, policy))
}

/// Whether an end of a rule names a network that attaches its policy.
fn is_attached_end(config: &Config, policy: &Policy, end: &End) -> bool
    ensures { result ≡ is_attached_end config.now policy.now end.now }
{
    match end {
        End::Any => false,
        End::Named(name) => is_attached(config.networks.as_slice(), policy, name),
    }
}

fn leads_by(chain: &Name, action: &Action) -> bool
    ensures { result ≡ leads_by chain.now action.now }
{
    match action {
        Action::Pass => false,
        Action::Deny => false,
        Action::Through { chain: by, .. } => *by == *chain,
    }
}

/// Whether a rule of a policy is a use of a chain, in effect.
fn is_use(config: &Config, chain: &Name, policy: &Policy, rule: &Rule) -> bool
    ensures { result ≡ is_use config.now chain.now policy.now rule.now }
{
    leads_by(chain, &rule.action)
        && (is_attached_end(config, policy, &rule.source)
            && is_attached_end(config, policy, &rule.destination))
}

fn has_use(config: &Config, chain: &Name, policy: &Policy) -> bool
    ensures { result ≡ has_use config.now chain.now policy.now }
{
    policy
        .rules
        .as_slice()
        .iter()
        .any(|rule| is_use(config, chain, policy, rule))
}

/// Whether a use of a chain is in effect.
pub(crate) fn is_in_use(config: &Config, chain: &Name) -> bool
    ensures { result ≡ list_any (has_use config.now chain.now) config.now.policies }
{
    config
        .policies
        .as_slice()
        .iter()
        .any(|policy| has_use(config, chain, policy))
}
