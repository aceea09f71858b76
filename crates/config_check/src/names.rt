//! The rule of names: no two of one namespace are equal, and no compute node lists a control node twice.
ghost use Rattle.std.specs.Prelude.{◌≡◌, ◌++◌, map, IfOk};
ghost use Rattle.config_check.specs.Rules.{controller_names, node_names, network_names, port_names, policy_names};
ghost use Rattle.config_check.specs.Rules.{service_names, chain_names, repeated_name, repeated_controller};
ghost use Rattle.config_check.specs.Rules.{broken_name};
ghost use Rattle.ov_types.specs.First.{first_of};

use crate::meeting::first_meeting;
use crate::refusal::Refusal;
use config_types::{Config, Node, Topology};
use ov_types::{Name, NoMemory};
use std::alloc::Global;

pub(crate) fn controller_names(alloc: Global, topology: &Topology) -> Result<Vec<Name>, NoMemory>
    ensures { IfOk result (λ v. v.items ≡ controller_names topology.now) }
{
    let names = topology.controllers.as_slice().iter().map(|n| n.name);
    Ok(names.collect(alloc)?)
}

pub(crate) fn node_names(alloc: Global, topology: &Topology) -> Result<Vec<Name>, NoMemory>
    ensures { IfOk result (λ v. v.items ≡ node_names topology.now) }
{
    let names = topology.nodes.as_slice().iter().map(|n| n.name);
    Ok(names.collect(alloc)?)
}

pub(crate) fn network_names(alloc: Global, config: &Config) -> Result<Vec<Name>, NoMemory>
    ensures { IfOk result (λ v. v.items ≡ network_names config.now) }
{
    let names = config.networks.as_slice().iter().map(|n| n.name);
    Ok(names.collect(alloc)?)
}

pub(crate) fn port_names(alloc: Global, config: &Config) -> Result<Vec<Name>, NoMemory>
    ensures { IfOk result (λ v. v.items ≡ port_names config.now) }
{
    let names = config.ports.as_slice().iter().map(|p| p.name);
    Ok(names.collect(alloc)?)
}

pub(crate) fn policy_names(alloc: Global, config: &Config) -> Result<Vec<Name>, NoMemory>
    ensures { IfOk result (λ v. v.items ≡ policy_names config.now) }
{
    let names = config.policies.as_slice().iter().map(|p| p.name);
    Ok(names.collect(alloc)?)
}

fn service_names(alloc: Global, config: &Config) -> Result<Vec<Name>, NoMemory>
    ensures { IfOk result (λ v. v.items ≡ service_names config.now) }
{
    let names = config.services.as_slice().iter().map(|s| s.name);
    Ok(names.collect(alloc)?)
}

pub(crate) fn chain_names(alloc: Global, config: &Config) -> Result<Vec<Name>, NoMemory>
    ensures { IfOk result (λ v. v.items ≡ chain_names config.now) }
{
    let names = config.chains.as_slice().iter().map(|d| d.name);
    Ok(names.collect(alloc)?)
}

/// The names of control nodes and of compute nodes, which share a namespace.
fn all_node_names(alloc: Global, topology: &Topology) -> Result<Vec<Name>, NoMemory>
    ensures { IfOk result (λ v. v.items ≡ controller_names topology.now ++ node_names topology.now) }
{
    let mut names = controller_names(alloc, topology)?;
    let nodes = node_names(alloc, topology)?;
    names.extend_from_slice(&nodes)?;
    Ok(names)
}

/// The names of services and of chains, which share a namespace.
pub(crate) fn hop_names(alloc: Global, config: &Config) -> Result<Vec<Name>, NoMemory>
    ensures { IfOk result (λ v. v.items ≡ service_names config.now ++ chain_names config.now) }
{
    let mut names = service_names(alloc, config)?;
    let chains = chain_names(alloc, config)?;
    names.extend_from_slice(&chains)?;
    Ok(names)
}

fn repeated_name(alloc: Global, names: &[Name]) -> Result<Option<Refusal>, NoMemory>
    ensures { IfOk result (λ found. found ≡ repeated_name names.now) }
{
    match first_meeting(alloc, names)? {
        Some((_, name)) => Ok(Some(Refusal::DuplicateName { name })),
        None => Ok(None),
    }
}

fn repeated_controller(alloc: Global, node: &Node) -> Result<Option<Refusal>, NoMemory>
    ensures { IfOk result (λ found. found ≡ repeated_controller node.now) }
{
    repeated_name(alloc, node.controllers.as_slice())
}

#[tactic(auto, using(crate::proofs::Lists::asked))]
fn first_repeated_controller(alloc: Global, nodes: &[Node]) -> Result<Option<Refusal>, NoMemory>
    ensures { IfOk result (λ found. found ≡ first_of repeated_controller nodes.now) }
{
    for node in nodes {
        if let Some(refusal) = repeated_controller(alloc, node)? {
            return Ok(Some(refusal));
        }
    }
    Ok(None)
}

/// The first name that stands twice in its namespace.
#[tactic(auto, unfolding(crate::specs::Rules::broken_name))]
pub(crate) fn broken_name(
    alloc: Global,
    topology: &Topology,
    config: &Config,
) -> Result<Option<Refusal>, NoMemory>
    ensures { IfOk result (λ found. found ≡ broken_name topology.now config.now) }
{
    let nodes = repeated_name(alloc, &all_node_names(alloc, topology)?)?;
    let networks = repeated_name(alloc, &network_names(alloc, config)?)?;
    let ports = repeated_name(alloc, &port_names(alloc, config)?)?;
    let policies = repeated_name(alloc, &policy_names(alloc, config)?)?;
    let hops = repeated_name(alloc, &hop_names(alloc, config)?)?;
    let controllers = first_repeated_controller(alloc, topology.nodes.as_slice())?;
    Ok(nodes.or(networks.or(ports.or(policies.or(hops.or(controllers))))))
}
