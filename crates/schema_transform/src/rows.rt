//! The rows of instances' tables.
ghost use Rattle.std.specs.Prelude.{◌≡◌, ◌==◌, ◌&&◌, ◌<◌, ◌++◌, flat_map, length, map, IfOk, IfSome, OnOk, IsTrue};
ghost use Rattle.std.specs.List.{filter_map, list_all, position};
ghost use Rattle.policy_rules.specs.Related.{imports};
ghost use Rattle.ov_types.specs.First.{same_name};
ghost use Rattle.ov_types.specs.Prefix.{contains};
ghost use Rattle.config_types.specs.Form.{has_port_form};
ghost use Rattle.transform_model.specs.Tables.{circuit_route, circuit_row, circuits_in, end_row, end_rows, held_subnets, holds_port};
ghost use Rattle.transform_model.specs.Tables.{host_route, hop_rows, instance_table, network_rows, port_row};
ghost use Rattle.transform_model.specs.Tables.{row_towards, rows_of, subnet_rows};
ghost use Rattle.config_check.specs.Finding.{network_numbered};
ghost use Rattle.route_targets.specs.Numbers.{circuit_instance_of};
ghost use Rattle.schema_transform.specs.Held.{circuit_of};
ghost use Rattle.schema_transform.specs.Towards.{rows_if_in};
ghost use Rattle.schema_transform.specs.HeldUses.{use_of};
ghost use Rattle.schema_transform.specs.ByNumber.{AreUses, use_at, use_in, use_rows};
ghost use Rattle.schema_transform.specs.Sound.{IsSound};

use crate::attached::{imports_among, policies_of};
use crate::attachment::Attachment;
use crate::chain_use::ChainUse;
use crate::hops::{first_hop, last_hop};
use crate::numbered::{UsesByNumber, use_at};
use config_check::{network_numbered, node_named};
use config_types::{Config, Network, Node, Port, Topology};
use ov_types::{ControlRows, InstanceId, Items, Name, NoMemory, Prefix, TableRow};
use route_targets::{circuit_address, circuit_instance, circuit_label, port_label, rd};
use std::alloc::Global;
use std::collections::BTreeMap;

/// A row with its key: the instance and the prefix.
pub(crate) type Row = ((InstanceId, Prefix), TableRow);

/// Rows by their keys.
pub(crate) type Rows = BTreeMap<(InstanceId, Prefix), TableRow>;

/// In an instance, the route to a port of a network at a node.
#[tactic(auto, unfolding(config_types::specs::Form::has_port_form))]
fn host_route(instance: InstanceId, home: &Network, node: &Node, port: &Port) -> Row
    requires { IsTrue (has_port_form port.now) }
    ensures { result ≡ host_route instance home.now node.now port.now }
{
    let key = (instance, Prefix::host(port.address));
    let row = TableRow {
        rd: rd(node.address, home.id),
        next_hop: node.address,
        label: port_label(port.id),
    };
    (key, row)
}

/// Whether a network imports each of the networks, in their order.
fn imported_by(alloc: Global, config: &Config, network: &Network) -> Result<Vec<bool>, NoMemory>
    ensures { IfOk result (λ list. list.items ≡ map (imports config.now network.now) config.now.networks) }
{
    let attached = policies_of(alloc, config, network)?;
    let mut imported = Vec::new(alloc);
    for other in config.networks.as_slice() {
        imported.push(imports_among(config, &attached, network, other))?;
    }
    Ok(imported)
}

/// The place of the first network of a name.
fn place_of(config: &Config, name: &Name) -> Option<usize>
    ensures place { result ≡ position (λ n. same_name n.name name.now) config.now.networks }
    ensures within { IfSome result (λ place. place < length config.now.networks) }
{
    config
        .networks
        .as_slice()
        .iter()
        .position(|network| network.name == *name)
}

/// The row of a port in a network's instance, where the port's network is among those that are imported.
#[tactic(auto, using(crate::proofs::Homes::home_is))]
fn port_row(
    topology: &Topology,
    config: &Config,
    network: &Network,
    imported: &[bool],
    port: &Port,
) -> Option<Row>
    requires form { IsTrue (has_port_form port.now) }
    requires imported { imported.now ≡ map (imports config.now network.now) config.now.networks }
    ensures { result ≡ port_row topology.now config.now network.now port.now }
{
    let place = place_of(config, &port.network)?;
    if !imported[place] {
        return None;
    }
    let home = &config.networks.as_slice()[place];
    let node = node_named(topology, &port.node)?;
    Some(host_route(network.id, home, node, port))
}

/// Appends the rows of a network's instance.
#[tactic(auto, unfolding(transform_model::specs::Tables::network_rows))]
fn push_network_rows(
    alloc: Global,
    topology: &Topology,
    config: &Config,
    network: &Network,
    rows: &mut Vec<Row>,
) -> Result<(), NoMemory>
    requires { IsTrue (list_all has_port_form config.now.ports) }
    ensures { OnOk result (rows.new.items
        ≡ rows.old.items ++ network_rows topology.now config.now network.now) }
{
    let imported = imported_by(alloc, config, network)?;
    for port in config.ports.as_slice() {
        if let Some(row) = port_row(topology, config, network, imported.as_slice(), port) {
            rows.push(row)?;
        }
    }
    Ok(())
}

/// In an instance, the route of a prefix to or towards a circuit at a node.
fn circuit_route(instance: InstanceId, prefix: Prefix, circuit: &Attachment, node: &Node) -> Row
    ensures { result ≡ circuit_route instance prefix (circuit_of circuit.now) node.now }
{
    let row = TableRow {
        rd: rd(node.address, instance),
        next_hop: node.address,
        label: circuit_label(circuit.number),
    };
    ((instance, prefix), row)
}

/// In an instance, the route of a prefix to or towards a circuit.
fn row_towards(
    topology: &Topology,
    instance: InstanceId,
    circuit: &Attachment,
    prefix: Prefix,
) -> Option<Row>
    ensures { result ≡ row_towards topology.now instance (circuit_of circuit.now) prefix }
{
    let node = node_named(topology, &circuit.service.node)?;
    Some(circuit_route(instance, prefix, circuit, node))
}

/// Whether a circuit is in an instance.
fn is_in(circuit: &Attachment, instance: InstanceId) -> bool
    ensures { result ≡ ((circuit_instance_of circuit.now.number).0 == instance.0) }
{
    circuit_instance(circuit.number).0 == instance.0
}

/// The host route of a circuit.
fn circuit_row(topology: &Topology, instance: InstanceId, circuit: &Attachment) -> Option<Row>
    ensures { result ≡ circuit_row topology.now instance (circuit_of circuit.now) }
{
    let prefix = Prefix::host(circuit_address(circuit.number));
    row_towards(topology, instance, circuit, prefix)
}

/// Appends the host routes of the circuits in an instance.
fn push_circuit_rows(
    topology: &Topology,
    instance: InstanceId,
    circuits: &[Attachment],
    rows: &mut Vec<Row>,
) -> Result<(), NoMemory>
    ensures { OnOk result (rows.new.items ≡ rows.old.items
        ++ filter_map (circuit_row topology.now instance) (circuits_in instance (map circuit_of circuits.now))) }
{
    for circuit in circuits {
        if is_in(circuit, instance) {
            if let Some(row) = circuit_row(topology, instance, circuit) {
                rows.push(row)?;
            }
        }
    }
    Ok(())
}

/// Whether a port is of a network and has its address in a prefix. Its address is asked first, since names take longer.
fn is_held(port: &Port, network: &Network, prefix: &Prefix) -> bool
    ensures { result ≡ (same_name port.now.network network.now.name && contains prefix.now port.now.address.0) }
{
    if !prefix.contains(port.address) {
        return false;
    }
    port.network == network.name
}

/// Whether a port of a network has its address in a prefix.
fn holds_port(config: &Config, network: &Network, prefix: &Prefix) -> bool
    ensures { result ≡ holds_port config.now network.now prefix.now }
{
    config
        .ports
        .as_slice()
        .iter()
        .any(|port| is_held(port, network, prefix))
}

/// Appends the subnets of a network that hold a port of it, each towards a circuit at a node.
fn push_subnet_routes(
    config: &Config,
    instance: InstanceId,
    network: &Network,
    circuit: &Attachment,
    node: &Node,
    rows: &mut Vec<Row>,
) -> Result<(), NoMemory>
    ensures { OnOk result (rows.new.items ≡ rows.old.items ++ map
        (λ s. circuit_route instance s (circuit_of circuit.now) node.now) (held_subnets config.now network.now)) }
{
    for subnet in network.subnets.as_slice() {
        if holds_port(config, network, subnet) {
            rows.push(circuit_route(instance, *subnet, circuit, node))?;
        }
    }
    Ok(())
}

/// Appends the subnets of a network that hold a port of it, each towards a circuit.
fn push_subnet_rows(
    topology: &Topology,
    config: &Config,
    instance: InstanceId,
    network: &Network,
    circuit: &Attachment,
    rows: &mut Vec<Row>,
) -> Result<(), NoMemory>
    ensures { OnOk result (rows.new.items ≡ rows.old.items
        ++ subnet_rows topology.now config.now instance network.now (circuit_of circuit.now)) }
{
    match node_named(topology, &circuit.service.node) {
        Some(node) => push_subnet_routes(config, instance, network, circuit, node, rows),
        None => Ok(()),
    }
}

/// Appends, where a circuit is in the instance, the subnets of a network that hold a port of it, each towards the
/// circuit.
fn push_rows_if_in(
    topology: &Topology,
    config: &Config,
    instance: InstanceId,
    network: &Network,
    circuit: &Attachment,
    rows: &mut Vec<Row>,
) -> Result<(), NoMemory>
    ensures { OnOk result (rows.new.items ≡ rows.old.items
        ++ rows_if_in topology.now config.now instance network.now (circuit_of circuit.now)) }
{
    if !is_in(circuit, instance) {
        return Ok(());
    }
    push_subnet_rows(topology, config, instance, network, circuit, rows)
}

/// Appends, for each of the circuits that are in the instance, the subnets of a network that hold a port of it, each
/// towards the circuit.
fn push_rows_towards(
    topology: &Topology,
    config: &Config,
    instance: InstanceId,
    network: &Network,
    circuits: &[Attachment],
    rows: &mut Vec<Row>,
) -> Result<(), NoMemory>
    ensures { OnOk result (rows.new.items ≡ rows.old.items
        ++ flat_map (rows_if_in topology.now config.now instance network.now) (map circuit_of circuits.now)) }
{
    for circuit in circuits {
        push_rows_if_in(topology, config, instance, network, circuit, rows)?;
    }
    Ok(())
}

/// At an end of a chain, the route to a port of the network there.
fn end_row(topology: &Topology, instance: InstanceId, network: &Network, port: &Port) -> Option<Row>
    requires { IsTrue (has_port_form port.now) }
    ensures { result ≡ end_row topology.now instance network.now port.now }
{
    if port.network != network.name {
        return None;
    }
    let node = node_named(topology, &port.node)?;
    Some(host_route(instance, network, node, port))
}

/// Appends the routes to the ports of a network, where an instance is at this end of a chain.
fn push_end_rows(
    topology: &Topology,
    config: &Config,
    instance: InstanceId,
    end: InstanceId,
    network: &Network,
    rows: &mut Vec<Row>,
) -> Result<(), NoMemory>
    requires { IsTrue (list_all has_port_form config.now.ports) }
    ensures { OnOk result (rows.new.items ≡ rows.old.items
        ++ end_rows topology.now config.now instance end network.now) }
{
    if instance.0 != end.0 {
        return Ok(());
    }
    for port in config.ports.as_slice() {
        if let Some(row) = end_row(topology, instance, network, port) {
            rows.push(row)?;
        }
    }
    Ok(())
}

/// Appends what a use gives an instance.
fn push_hop_rows(
    topology: &Topology,
    config: &Config,
    instance: InstanceId,
    found: &ChainUse,
    rows: &mut Vec<Row>,
) -> Result<(), NoMemory>
    requires { IsTrue (list_all has_port_form config.now.ports) }
    ensures { OnOk result (rows.new.items ≡ rows.old.items
        ++ hop_rows topology.now config.now instance (use_of found.now)) }
{
    let lefts = found.left_circuits.as_slice();
    let rights = found.right_circuits.as_slice();
    push_circuit_rows(topology, instance, lefts, rows)?;
    push_circuit_rows(topology, instance, rights, rows)?;
    push_rows_towards(topology, config, instance, &found.right, lefts, rows)?;
    push_rows_towards(topology, config, instance, &found.left, rights, rows)?;
    push_end_rows(
        topology,
        config,
        instance,
        first_hop(found),
        &found.left,
        rows,
    )?;
    push_end_rows(
        topology,
        config,
        instance,
        last_hop(found),
        &found.right,
        rows,
    )?;
    Ok(())
}

/// Appends what the use that an instance is a hop of gives it.
fn push_use_rows(
    topology: &Topology,
    config: &Config,
    instance: InstanceId,
    numbered: &UsesByNumber,
    rows: &mut Vec<Row>,
) -> Result<(), NoMemory>
    requires { IsTrue (list_all has_port_form config.now.ports) }
    ensures { OnOk result (rows.new.items ≡ rows.old.items
        ++ use_rows topology.now config.now instance (use_at (use_in numbered.now.entries) instance)) }
{
    match use_at(numbered, instance) {
        Some(found) => push_hop_rows(topology, config, instance, found, rows),
        None => Ok(()),
    }
}

/// Appends the rows of the network with an instance's number.
fn push_numbered_rows(
    alloc: Global,
    topology: &Topology,
    config: &Config,
    instance: InstanceId,
    rows: &mut Vec<Row>,
) -> Result<(), NoMemory>
    requires { IsTrue (list_all has_port_form config.now.ports) }
    ensures { OnOk result (rows.new.items ≡ rows.old.items
        ++ rows_of topology.now config.now (network_numbered config.now instance.0)) }
{
    match network_numbered(config, instance) {
        Some(network) => push_network_rows(alloc, topology, config, network, rows),
        None => Ok(()),
    }
}

/// The table of an instance, in the order in which its rows are put.
#[tactic(auto, using(crate::proofs::Formed::ports_formed))]
pub(crate) fn table_of(
    alloc: Global,
    topology: &Topology,
    config: &Config,
    numbered: &UsesByNumber,
    instance: InstanceId,
) -> Result<Items<Row>, NoMemory>
    requires sound { IsSound config.now }
    requires uses { AreUses numbered.now.entries config.now }
    ensures { IfOk result (λ table. table ≡ instance_table topology.now config.now instance) }
{
    let mut rows = Vec::new(alloc);
    push_numbered_rows(alloc, topology, config, instance, &mut rows)?;
    push_use_rows(topology, config, instance, numbered, &mut rows)?;
    Ok(Items::from_vec(rows))
}

/// The entries of a map, in the order of their keys.
pub(crate) fn entries_of(alloc: Global, rows: &Rows) -> Result<ControlRows, NoMemory>
    ensures { IfOk result (λ list. list ≡ rows.now.entries) }
{
    let entries = rows.iter().map(|(key, row)| (*key, *row)).collect(alloc)?;
    Ok(Items::from_vec(entries))
}
