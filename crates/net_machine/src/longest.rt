//! The greatest number of services of a use in effect.
ghost use Rattle.std.specs.Prelude.{◌≡◌, ◌≤◌, max, length, option_copied};
ghost use Rattle.acl_compile.specs.Bounds.{KeepsBounds};
ghost use Rattle.chain_expand.specs.Expansion.{expansion};
ghost use Rattle.transform_model.specs.Uses.{network_at, use_between, use_by, uses_of};
ghost use Rattle.running_nodes.specs.MachineModel.Setup.{longest_in, longest_of};
ghost use Rattle.net_machine.specs.Longest.{services_in};

use chain_expand::expand_straight;
use config_check::{Valid, network_named};
use config_types::{Action, Config, End, Network, Policy, Rule};
use ov_types::Name;
use policy_rules::attaches;

/// How many services a chain gives.
fn services_of(config: &Config, chain: &Name) -> u32
    requires { KeepsBounds config.now }
    ensures count { result ≡ length (expansion config.now chain.now) }
    ensures few { result ≤ 15 }
{
    match expand_straight(config, chain) {
        Ok(numbers) => numbers.as_slice().len() as u32,
        Err(_) => unreachable!(),
    }
}

/// The network that an end names.
fn network_at<'a>(config: &'a Config, end: &End) -> Option<&'a Network>
    ensures { option_copied result ≡ network_at config.now end.now }
{
    match end {
        End::Any => None,
        End::Named(name) => network_named(config, name),
    }
}

/// How many services the use of a chain between the networks of a rule has, where both attach its policy, or 0.
fn services_between(config: &Config, policy: &Policy, rule: &Rule, chain: &Name, number: u16) -> u32
    requires { KeepsBounds config.now }
    ensures count { result ≡ services_in (use_between config.now policy.now chain.now number
        (network_at config.now rule.now.source) (network_at config.now rule.now.destination)) }
    ensures few { result ≤ 15 }
{
    let Some(left) = network_at(config, &rule.source) else {
        return 0;
    };
    let Some(right) = network_at(config, &rule.destination) else {
        return 0;
    };
    if attaches(left, policy) && attaches(right, policy) {
        return services_of(config, chain);
    }
    0
}

/// How many services the use of a chain by a rule has, where it is in effect, or 0.
fn services_by(config: &Config, policy: &Policy, rule: &Rule) -> u32
    requires { KeepsBounds config.now }
    ensures count { result ≡ services_in (use_by config.now policy.now rule.now rule.now.action) }
    ensures few { result ≤ 15 }
{
    match &rule.action {
        Action::Pass => 0,
        Action::Deny => 0,
        Action::Through { chain, use_no } => services_between(config, policy, rule, chain, *use_no),
    }
}

/// The most services of a use by the rules of a policy.
fn longest_by(config: &Config, policy: &Policy) -> u32
    requires { KeepsBounds config.now }
    ensures most { result ≡ longest_of (uses_of config.now policy.now) }
    ensures few { result ≤ 15 }
{
    let mut longest = 0;
    for rule in policy.rules.as_slice() {
        longest = services_by(config, policy, rule).max(longest);
    }
    longest
}

/// The greatest number of services of a use in effect, or 0.
pub(crate) fn longest(valid: &Valid) -> u32
    ensures most { result ≡ longest_in valid.now }
    ensures few { result ≤ 15 }
{
    let config = valid.config();
    let mut longest = 0;
    for policy in config.policies.as_slice() {
        longest = longest_by(config, policy).max(longest);
    }
    longest
}
