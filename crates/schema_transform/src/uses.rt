//! The uses of chains that are in effect.
ghost use Rattle.std.specs.Prelude.{◌≡◌, ◌≤◌, ◌++◌, ◌==◌, length, map, find, option_copied, option_map, IfOk, OnOk};
ghost use Rattle.std.specs.Prelude.{IsTrue, option_to_list};
ghost use Rattle.std.specs.List.{filter_map, list_all};
ghost use Rattle.config_types.specs.Form.{has_action_form, has_rule_form};
ghost use Rattle.chain_expand.specs.Expansion.{expansion};
ghost use Rattle.transform_model.specs.Uses.{network_at, use_between, use_by};
ghost use Rattle.transform_model.specs.Uses.{uses, uses_of};
ghost use Rattle.schema_transform.specs.HeldUses.{use_of};
ghost use Rattle.schema_transform.specs.Sound.{IsSound};

use crate::chain_use::ChainUse;
use crate::circuits::{left_circuits, right_circuits};
use chain_expand::expand_straight;
use config_check::network_named;
use config_types::{Action, Config, End, Network, Policy, Rule, Service};
use ov_types::{Items, Name, NoMemory, ServiceNo};
use policy_rules::attaches;
use std::alloc::Global;

/// The first service of a number.
fn service_numbered<'a>(config: &'a Config, number: ServiceNo) -> Option<&'a Service>
    ensures { option_copied result ≡ find (λ s. s.id.0 == number.0) config.now.services }
{
    config
        .services
        .as_slice()
        .iter()
        .find(|service| service.id.0 == number.0)
}

/// The services of these numbers.
fn services_numbered(
    alloc: Global,
    config: &Config,
    numbers: &[ServiceNo],
) -> Result<Items<Service>, NoMemory>
    ensures { IfOk result (λ list. list
        ≡ filter_map (λ n. find (λ s. s.id.0 == n.0) config.now.services) numbers.now) }
{
    let mut services = Items::new(alloc);
    for number in numbers {
        if let Some(service) = service_numbered(config, *number) {
            services.push(*service)?;
        }
    }
    Ok(services)
}

/// The services of a chain, in order.
#[tactic(auto, using(crate::proofs::Services::chain_gives, crate::proofs::Services::found_again, crate::proofs::Services::is_short))]
fn services_of(alloc: Global, config: &Config, chain: &Name) -> Result<Items<Service>, NoMemory>
    requires { IsSound config.now }
    ensures services { IfOk result (λ list. list ≡ expansion config.now chain.now) }
    ensures few { IfOk result (λ list. length list ≤ 15) }
{
    match expand_straight(config, chain) {
        Ok(numbers) => services_numbered(alloc, config, numbers.as_slice()),
        Err(_) => unreachable!(),
    }
}

/// The network that an end names.
fn network_at<'a>(config: &'a Config, end: &End) -> Option<&'a Network>
    ensures { option_copied result ≡ network_at config.now end.now }
{
    match end {
        End::Any => None,
        End::Named(name) => network_named(config, name),
    }
}

/// The use of a chain between two networks.
fn use_of_chain(
    alloc: Global,
    config: &Config,
    chain: &Name,
    number: u16,
    left: &Network,
    right: &Network,
) -> Result<ChainUse, NoMemory>
    requires sound { IsSound config.now }
    requires last_use { number ≤ 3071 }
    ensures { IfOk result (λ u. use_of u
        ≡ record { number = number; left = left.now; right = right.now; services = expansion config.now chain.now }) }
{
    let services = services_of(alloc, config, chain)?;
    let left_circuits = left_circuits(alloc, number, services.as_slice())?;
    let right_circuits = right_circuits(alloc, number, services.as_slice())?;
    Ok(ChainUse {
        number,
        left: left.clone()?,
        right: right.clone()?,
        services,
        left_circuits,
        right_circuits,
    })
}

/// The use of a chain between the networks of a rule, where both attach its policy.
fn use_between(
    alloc: Global,
    config: &Config,
    policy: &Policy,
    rule: &Rule,
    chain: &Name,
    number: u16,
) -> Result<Option<ChainUse>, NoMemory>
    requires sound { IsSound config.now }
    requires last_use { number ≤ 3071 }
    ensures { IfOk result (λ u. option_map use_of u ≡ use_between config.now policy.now chain.now number
        (network_at config.now rule.now.source) (network_at config.now rule.now.destination)) }
{
    let Some(left) = network_at(config, &rule.source) else {
        return Ok(None);
    };
    let Some(right) = network_at(config, &rule.destination) else {
        return Ok(None);
    };
    if attaches(left, policy) && attaches(right, policy) {
        let found = use_of_chain(alloc, config, chain, number, left, right)?;
        return Ok(Some(found));
    }
    Ok(None)
}

/// The use of a chain by the action of a rule of a policy, where it is in effect.
fn use_by(
    alloc: Global,
    config: &Config,
    policy: &Policy,
    rule: &Rule,
    action: &Action,
) -> Result<Option<ChainUse>, NoMemory>
    requires sound { IsSound config.now }
    requires form { IsTrue (has_action_form action.now) }
    ensures { IfOk result (λ u. option_map use_of u ≡ use_by config.now policy.now rule.now action.now) }
{
    match action {
        Action::Pass => Ok(None),
        Action::Deny => Ok(None),
        Action::Through { chain, use_no } => {
            use_between(alloc, config, policy, rule, chain, *use_no)
        }
    }
}

/// Appends a use, where there is one.
fn push_use(found: Option<ChainUse>, uses: &mut Vec<ChainUse>) -> Result<(), NoMemory>
    ensures { OnOk result (map use_of uses.new.items
        ≡ map use_of uses.old.items ++ option_to_list (option_map use_of found)) }
{
    if let Some(found) = found {
        uses.push(found)?;
    }
    Ok(())
}

/// Appends the uses of chains by the rules of a policy.
fn push_uses(
    alloc: Global,
    config: &Config,
    policy: &Policy,
    uses: &mut Vec<ChainUse>,
) -> Result<(), NoMemory>
    requires sound { IsSound config.now }
    requires form { IsTrue (list_all has_rule_form policy.now.rules) }
    ensures { OnOk result (map use_of uses.new.items ≡ map use_of uses.old.items ++ uses_of config.now policy.now) }
{
    for rule in policy.rules.as_slice() {
        let found = use_by(alloc, config, policy, rule, &rule.action)?;
        push_use(found, uses)?;
    }
    Ok(())
}

/// The uses of chains that are in effect, in the order of the document.
pub(crate) fn uses_in_effect(alloc: Global, config: &Config) -> Result<Vec<ChainUse>, NoMemory>
    requires { IsSound config.now }
    ensures { IfOk result (λ list. map use_of list.items ≡ uses config.now) }
{
    let mut uses = Vec::new(alloc);
    for policy in config.policies.as_slice() {
        push_uses(alloc, config, policy, &mut uses)?;
    }
    Ok(uses)
}
