//! What is told of a lookup.
ghost use Rattle.std.specs.Prelude.{◌≡◌, ◌==◌, ◌++◌, ◌∷◌, [], find, option_copied, option_map, IsTrue, OnOk};
ghost use Rattle.std.specs.List.{cons_option, list_all};
ghost use Rattle.packet_trace.specs.Lookups.{leading_at, leading_by};
ghost use Rattle.inspect_walks.specs.Sizes.{has_step_size};
ghost use Rattle.inspect_walks.specs.Taking.{told_at};
ghost use Rattle.inspect_walks.specs.Walks.{step_of};
ghost use Rattle.inspect_walks.specs.Told.{told, leads_to, node_name, owner_of, port_name, service_name};

use crate::agent::{TableAgent, agent_at};
use crate::told_step::{LeadsTo, Owner, ToldStep};
use config_check::{Valid, network_numbered, port_numbered};
use config_types::{Config, Node, Service, Topology};
use ov_types::{Addr, Attached, Entry, InstanceId, Name, NoMemory, PortNo, Prefix, ServiceNo};
use packet_trace::{Hop, Vrouter};
use route_targets::hop_of;

fn node_at(topology: &Topology, address: Addr) -> Option<&Node>
    ensures { option_copied result ≡ find (λ n. n.address.0 == address.0) topology.now.nodes }
{
    topology
        .nodes
        .as_slice()
        .iter()
        .find(|node| node.address.0 == address.0)
}

fn node_name(topology: &Topology, address: Addr) -> Option<Name>
    ensures { result ≡ node_name topology.now address }
{
    match node_at(topology, address) {
        Some(node) => Some(node.name),
        None => None,
    }
}

fn port_name(config: &Config, port: PortNo) -> Option<Name>
    ensures { result ≡ port_name config.now port }
{
    match port_numbered(config, port) {
        Some(port) => Some(port.name),
        None => None,
    }
}

fn service_numbered(config: &Config, number: ServiceNo) -> Option<&Service>
    ensures { option_copied result ≡ find (λ s. s.id.0 == number.0) config.now.services }
{
    config
        .services
        .as_slice()
        .iter()
        .find(|service| service.id.0 == number.0)
}

fn service_name(config: &Config, service: ServiceNo) -> Option<Name>
    ensures { result ≡ service_name config.now service }
{
    match service_numbered(config, service) {
        Some(service) => Some(service.name),
        None => None,
    }
}

/// What an instance is of.
fn owner_of(config: &Config, instance: InstanceId) -> Owner
    ensures { result ≡ owner_of config.now instance }
{
    match network_numbered(config, instance) {
        Some(network) => Owner::Network(network.name),
        None => match hop_of(instance) {
            Some(hop) => Owner::Hop(hop),
            None => Owner::Nothing,
        },
    }
}

/// What is told of what stands under a label of an agent.
fn leads_under<'a>(config: &Config, agent: &TableAgent<'a>, under: Option<Attached>) -> LeadsTo
    ensures { result ≡ leads_to config.now (leading_at agent.now under) }
{
    match under {
        None => LeadsTo::Nothing,
        Some(Attached::Port { port, .. }) => LeadsTo::Port(port, port_name(config, port)),
        Some(Attached::Circuit { service, .. }) => {
            LeadsTo::Service(service, service_name(config, service))
        }
    }
}

/// Where a row leads.
fn entry_of(row: &Option<(Prefix, Entry)>) -> Option<Entry>
    ensures { result ≡ option_map (λ r. r.1) row.now }
{
    match row {
        Some((_, entry)) => Some(*entry),
        None => None,
    }
}

/// What is told of what a row's next hop and label lead to.
fn leads_by<'a>(config: &Config, agents: &[TableAgent<'a>], entry: Option<Entry>) -> LeadsTo
    ensures { result ≡ leads_to config.now (leading_by agents.now entry) }
{
    let Some(entry) = entry else {
        return LeadsTo::Nothing;
    };
    match agent_at(agents, entry.next_hop) {
        Some(agent) => leads_under(config, agent, agent.find(entry.label)),
        None => LeadsTo::Nothing,
    }
}

/// Adds a step of these parts.
fn push_step(
    steps: &mut Vec<ToldStep>,
    agent: Option<Name>,
    instance: InstanceId,
    owner: Owner,
    row: Option<(Prefix, Entry)>,
    leads: LeadsTo,
) -> Result<(), NoMemory>
    ensures grown { OnOk result (steps.new.items ≡ steps.old.items
        ++ (record { agent = agent; instance = instance; owner = owner; row = row; leads = leads }) ∷ []) }
    ensures sized { IsTrue (has_step_size
        (record { agent = agent; instance = instance; owner = owner; row = row; leads = leads })) }
{
    steps.push(ToldStep {
        agent,
        instance,
        owner,
        row,
        leads,
    })?;
    Ok(())
}

/// Adds what is told of a lookup at an agent.
fn push_told_of<'a>(
    steps: &mut Vec<ToldStep>,
    valid: &Valid,
    agents: &[TableAgent<'a>],
    address: Addr,
    agent: &TableAgent<'a>,
    instance: InstanceId,
) -> Result<(), NoMemory>
    ensures grown { OnOk result (steps.new.items ≡ steps.old.items
        ++ told valid.now (step_of agents.now address.0 (record { agent = agent.now; instance = instance })) ∷ []) }
    ensures sized { IsTrue (has_step_size
        (told valid.now (step_of agents.now address.0 (record { agent = agent.now; instance = instance })))) }
{
    let name = node_name(valid.topology(), agent.address());
    let owner = owner_of(valid.config(), instance);
    let row = agent.row(instance, address);
    let leads = leads_by(valid.config(), agents, entry_of(&row));
    push_step(steps, name, instance, owner, row, leads)
}

/// Adds what is told of a lookup, where its agent is there.
pub(crate) fn push_told<'a>(
    steps: &mut Vec<ToldStep>,
    valid: &Valid,
    agents: &[TableAgent<'a>],
    address: Addr,
    hop: &Hop,
) -> Result<(), NoMemory>
    ensures grown { OnOk result (steps.new.items ≡ steps.old.items
        ++ cons_option (told_at valid.now agents.now address.0 hop.now) []) }
    ensures sized { IsTrue (list_all has_step_size (cons_option (told_at valid.now agents.now address.0 hop.now) [])) }
{
    match agent_at(agents, hop.node) {
        Some(agent) => push_told_of(steps, valid, agents, address, agent, hop.instance),
        None => Ok(()),
    }
}
