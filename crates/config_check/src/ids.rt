//! The rule of numbers: no two of one kind are equal.
ghost use Rattle.std.specs.Prelude.{◌≡◌, ◌++◌, map, IfOk};
ghost use Rattle.std.specs.List.{filter_map};
ghost use Rattle.config_check.specs.Rules.{repeated_id, use_of, use_numbers, broken_id};
ghost use Rattle.policy_rules.specs.Related.{all_rules};

use crate::meeting::first_meeting;
use crate::refusal::{IdKind, Refusal};
use config_types::{Action, Config, Topology};
use ov_types::NoMemory;
use policy_rules::NumberedRule;
use std::alloc::Global;

fn controller_addresses(alloc: Global, topology: &Topology) -> Result<Vec<u32>, NoMemory>
    ensures { IfOk result (λ v. v.items ≡ map (λ n. n.address.0) topology.now.controllers) }
{
    let addresses = topology.controllers.as_slice().iter().map(|n| n.address.0);
    Ok(addresses.collect(alloc)?)
}

fn node_addresses(alloc: Global, topology: &Topology) -> Result<Vec<u32>, NoMemory>
    ensures { IfOk result (λ v. v.items ≡ map (λ n. n.address.0) topology.now.nodes) }
{
    let addresses = topology.nodes.as_slice().iter().map(|n| n.address.0);
    Ok(addresses.collect(alloc)?)
}

/// The addresses of control nodes and of compute nodes.
fn addresses(alloc: Global, topology: &Topology) -> Result<Vec<u32>, NoMemory>
    ensures { IfOk result (λ v. v.items
        ≡ map (λ n. n.address.0) topology.now.controllers ++ map (λ n. n.address.0) topology.now.nodes) }
{
    let mut addresses = controller_addresses(alloc, topology)?;
    let of_nodes = node_addresses(alloc, topology)?;
    addresses.extend_from_slice(&of_nodes)?;
    Ok(addresses)
}

fn network_ids(alloc: Global, config: &Config) -> Result<Vec<u32>, NoMemory>
    ensures { IfOk result (λ v. v.items ≡ map (λ n. n.id.0) config.now.networks) }
{
    let numbers = config.networks.as_slice().iter().map(|n| u32::from(n.id.0));
    Ok(numbers.collect(alloc)?)
}

fn port_ids(alloc: Global, config: &Config) -> Result<Vec<u32>, NoMemory>
    ensures { IfOk result (λ v. v.items ≡ map (λ p. p.id.0) config.now.ports) }
{
    let numbers = config.ports.as_slice().iter().map(|p| p.id.0);
    Ok(numbers.collect(alloc)?)
}

fn sequences(alloc: Global, config: &Config) -> Result<Vec<u32>, NoMemory>
    ensures { IfOk result (λ v. v.items ≡ map (λ p. p.sequence) config.now.policies) }
{
    let numbers = config
        .policies
        .as_slice()
        .iter()
        .map(|p| u32::from(p.sequence));
    Ok(numbers.collect(alloc)?)
}

fn service_ids(alloc: Global, config: &Config) -> Result<Vec<u32>, NoMemory>
    ensures { IfOk result (λ v. v.items ≡ map (λ s. s.id.0) config.now.services) }
{
    let numbers = config.services.as_slice().iter().map(|s| u32::from(s.id.0));
    Ok(numbers.collect(alloc)?)
}

fn use_of(action: &Action) -> Option<u32>
    ensures { result ≡ use_of action.now }
{
    match action {
        Action::Pass | Action::Deny => None,
        Action::Through { use_no, .. } => Some(u32::from(*use_no)),
    }
}

fn use_numbers(alloc: Global, rules: &[NumberedRule]) -> Result<Vec<u32>, NoMemory>
    ensures { IfOk result (λ v. v.items ≡ filter_map (λ r. use_of r.rule.action) rules.now) }
{
    Ok(
        rules
            .iter()
            .filter_map(|r| use_of(&r.rule.action))
            .collect(alloc)?,
    )
}

fn repeated_id(alloc: Global, what: IdKind, ids: &[u32]) -> Result<Option<Refusal>, NoMemory>
    ensures { IfOk result (λ found. found ≡ repeated_id what ids.now) }
{
    match first_meeting(alloc, ids)? {
        Some((_, id)) => Ok(Some(Refusal::DuplicateId { what, id })),
        None => Ok(None),
    }
}

/// The first number that stands twice among those of its kind.
#[tactic(auto, unfolding(crate::specs::Rules::broken_id))]
pub(crate) fn broken_id(
    alloc: Global,
    topology: &Topology,
    config: &Config,
    rules: &[NumberedRule],
) -> Result<Option<Refusal>, NoMemory>
    requires { rules.now ≡ all_rules config.now }
    ensures { IfOk result (λ found. found ≡ broken_id topology.now config.now) }
{
    let addresses = repeated_id(alloc, IdKind::Address, &addresses(alloc, topology)?)?;
    let networks = repeated_id(alloc, IdKind::Network, &network_ids(alloc, config)?)?;
    let ports = repeated_id(alloc, IdKind::Port, &port_ids(alloc, config)?)?;
    let sequences = repeated_id(alloc, IdKind::Sequence, &sequences(alloc, config)?)?;
    let services = repeated_id(alloc, IdKind::Service, &service_ids(alloc, config)?)?;
    let uses = repeated_id(alloc, IdKind::Use, &use_numbers(alloc, rules)?)?;
    Ok(addresses.or(networks.or(ports.or(sequences.or(services.or(uses))))))
}
