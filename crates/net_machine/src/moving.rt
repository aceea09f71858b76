//! Compute nodes that come, go, or list other control nodes than before.
ghost use Rattle.std.specs.Prelude.{◌≡◌, ◌<◌, ◌≤◌, ◌+◌, ℕ, length, map, option_copied, IfOk, Some};
ghost use Rattle.std.specs.List.{All};
ghost use Rattle.config_check.specs.Checked.{Checked};
ghost use Rattle.config_check.specs.Finding.{node_named};
ghost use Rattle.running_nodes.specs.MachineModel.Setup.{listed_by, stands};
ghost use Rattle.running_nodes.specs.Controls.{Controls};
ghost use Rattle.running_nodes.specs.Moving.{Moves, PassesAll, PassesAt, came_to, resettled_at};
ghost use Rattle.running_nodes.specs.Seats as seats_of;
ghost use Rattle.running_nodes.specs.Seats.{Configuring, Controlling, seat};
ghost use Rattle.running_nodes.specs.Steps.{with_seat};
ghost use Rattle.net_machine.specs.Moving.{AreFound, CanLeave, CanMove, GoesFrom, HasControls, HasRoom, IsControlNode};
ghost use Rattle.net_machine.specs.Moving.{control_name, left_at};
ghost use Rattle.net_machine.specs.Seating.{AreLong};

use crate::clear::clear_node;
use config_types::{Node, Topology};
use ov_types::{Name, NoMemory, NodeId};
use running_nodes::{Nodes, lists};
use std::alloc::Global;

/// The compute node of a name.
fn node_named<'a>(topology: &'a Topology, name: &Name) -> Option<&'a Node>
    ensures { option_copied result ≡ node_named topology.now name.now }
{
    topology
        .nodes
        .as_slice()
        .iter()
        .find(|node| node.name == *name)
}

/// Whether a compute node stands as it is put: at this address, with these control nodes in this order.
pub(crate) fn stands(topology: &Topology, node: &Node) -> bool
    ensures { result ≡ stands (node_named topology.now node.now.name) node.now }
{
    match node_named(topology, &node.name) {
        None => false,
        Some(other) => {
            other.address == node.address
                && other.controllers.as_slice() == node.controllers.as_slice()
        }
    }
}

/// The control nodes that the compute node of a name lists: none where there is no such node.
fn listed_by<'a>(topology: &'a Topology, name: &Name) -> &'a [Name]
    ensures { result.now ≡ listed_by (node_named topology.now name.now) }
{
    match node_named(topology, name) {
        None => &[],
        Some(node) => node.controllers.as_slice(),
    }
}

/// A copy of names.
fn copied(alloc: Global, names: &[Name]) -> Result<Vec<Name>, NoMemory>
    ensures { IfOk result (λ copy. copy.items ≡ names.now) }
{
    let mut copy = Vec::new(alloc);
    copy.extend_from_slice(names)?;
    Ok(copy)
}

/// An agent goes from the control node of this name, where it has a session with it. Nobody is told yet.
fn leave(nodes: &mut Nodes, name: &Name, control: &Name) -> Result<(), NoMemory>
    requires agent { GoesFrom nodes.old.seats name.now control.now }
    ensures left { IfOk result (λ _. nodes.new.seats
        ≡ left_at name.now (seats_of.seat_named nodes.old.seats control.now) nodes.old.seats) }
    ensures failed { IfOk result (λ _. nodes.new.failed ≡ nodes.old.failed) }
{
    match nodes.place_of(control, name) {
        None => Ok(()),
        Some(place) => nodes.retire_agent(place, name),
    }
}

/// An agent comes to the control node at a seat, where it lists it.
fn come_at(nodes: &mut Nodes, index: u16, controller: &NodeId, node: &Node) -> Result<(), NoMemory>
    requires control { control_name (seat nodes.old.seats index).who ≡ Some controller.now.name }
    requires room { length (seat nodes.old.seats index).posts < 65535 }
    ensures comes { IfOk result (λ _. nodes.new.seats
        ≡ with_seat index (came_to (Some node.now) (seat nodes.old.seats index)) nodes.old.seats) }
    ensures failed { IfOk result (λ _. nodes.new.failed ≡ nodes.old.failed) }
{
    if lists(node, controller) {
        let agent = NodeId {
            name: node.name,
            address: node.address,
        };
        return nodes.add_agent(index, agent);
    }
    Ok(())
}

/// What is now of a compute node comes to the control node at a seat, where it is there and lists it.
fn come_now(
    nodes: &mut Nodes,
    index: u16,
    controller: &NodeId,
    now: Option<&Node>,
) -> Result<(), NoMemory>
    requires control { control_name (seat nodes.old.seats index).who ≡ Some controller.now.name }
    requires room { length (seat nodes.old.seats index).posts < 65535 }
    ensures comes { IfOk result (λ _. nodes.new.seats
        ≡ with_seat index (came_to (option_copied now.entry) (seat nodes.old.seats index)) nodes.old.seats) }
    ensures failed { IfOk result (λ _. nodes.new.failed ≡ nodes.old.failed) }
{
    match now {
        None => Ok(()),
        Some(node) => come_at(nodes, index, controller, node),
    }
}

/// A compute node goes from the control node at a seat, and what is now of it comes to it where it lists it.
fn resettle_at(
    nodes: &mut Nodes,
    index: u16,
    controller: &NodeId,
    name: &Name,
    now: Option<&Node>,
) -> Result<(), NoMemory>
    requires control { control_name (seat nodes.old.seats index).who ≡ Some controller.now.name }
    requires found { seats_of.seat_named nodes.old.seats controller.now.name ≡ Some index }
    requires leaves { CanLeave name.now (seat nodes.old.seats index) }
    requires room { length (seat nodes.old.seats index).posts < 65535 }
    ensures resettled { IfOk result (λ _. nodes.new.seats
        ≡ with_seat index (resettled_at name.now (option_copied now.entry) (seat nodes.old.seats index)) nodes.old.seats) }
    ensures failed { IfOk result (λ _. nodes.new.failed ≡ nodes.old.failed) }
{
    leave(nodes, name, &controller.name)?;
    come_now(nodes, index, controller, now)
}

/// The number of the seat of a control node, by its place in a topology.
fn control_seat(index: usize) -> u16
    requires { index < 8 }
    ensures { result ≡ 1 + index }
{
    index as u16 + 1
}

/// A compute node goes from all control nodes of a topology, and what is now of it comes to those that it lists.
fn resettle_all(
    nodes: &mut Nodes,
    topology: &Topology,
    name: &Name,
    now: Option<&Node>,
) -> Result<(), NoMemory>
    requires ordered { HasControls topology.now nodes.old.seats }
    requires few { length topology.now.controllers ≤ 8 }
    requires found { AreFound nodes.old.seats }
    requires leaves { (k : ℕ) → CanLeave name.now (seat nodes.old.seats k) }
    requires room { HasRoom nodes.old.seats }
    ensures resettled { IfOk result (λ _. nodes.new.seats
        ≡ map (resettled_at name.now (option_copied now.entry)) nodes.old.seats) }
    ensures failed { IfOk result (λ _. nodes.new.failed ≡ nodes.old.failed) }
{
    let controllers = topology.controllers.as_slice();
    for index in 0..controllers.len() {
        resettle_at(nodes, control_seat(index), &controllers[index], name, now)?;
    }
    Ok(())
}

/// The control node of a seat makes its pass. The sessions of which it closed its end go down.
fn pass_at(nodes: &mut Nodes, node: u16) -> Result<(), NoMemory>
    requires long { AreLong nodes.old.seats }
    requires node { node < length nodes.old.seats }
    requires control { (c : Controls) × ((seat nodes.old.seats node).who ≡ Controlling c) }
    ensures passes { IfOk result (λ _. PassesAt (Some node) nodes.old.seats nodes.new.seats) }
    ensures failed { IfOk result (λ _. nodes.new.failed ≡ nodes.old.failed) }
{
    nodes.tell(node)?;
    clear_node(nodes, node);
    Ok(())
}

/// The control node of this name makes its pass.
fn pass(nodes: &mut Nodes, control: &Name) -> Result<(), NoMemory>
    requires long { AreLong nodes.old.seats }
    requires control { IsControlNode nodes.old.seats control.now }
    ensures passes { IfOk result (λ _. PassesAt (seats_of.seat_named nodes.old.seats control.now) nodes.old.seats
        nodes.new.seats) }
    ensures failed { IfOk result (λ _. nodes.new.failed ≡ nodes.old.failed) }
{
    match nodes.seat_named(control) {
        None => Ok(()),
        Some(node) => pass_at(nodes, node),
    }
}

/// The control nodes of some names make their passes, in their order.
fn pass_all(nodes: &mut Nodes, controls: &[Name]) -> Result<(), NoMemory>
    requires long { AreLong nodes.old.seats }
    requires controls { All (IsControlNode nodes.old.seats) controls.now }
    ensures passes { IfOk result (λ _. PassesAll controls.now nodes.old.seats nodes.new.seats) }
    ensures failed { IfOk result (λ _. nodes.new.failed ≡ nodes.old.failed) }
{
    for control in controls {
        pass(nodes, control)?;
    }
    Ok(())
}

/// A compute node that listed these control nodes moves, in a topology: its seat is another, it goes from all control
/// nodes and comes to those that it lists, and then each of the former makes its pass.
fn move_from(
    alloc: Global,
    nodes: &mut Nodes,
    topology: &Topology,
    name: &Name,
    left: &[Name],
    now: Option<&Node>,
) -> Result<(), NoMemory>
    requires long { AreLong nodes.old.seats }
    requires can { CanMove topology.now
        (record { name = name.now; left = left.now; now = option_copied now }) nodes.old.seats }
    ensures moves { IfOk result (λ _. Moves topology.now
        (record { name = name.now; left = left.now; now = option_copied now.entry }) nodes.old.seats nodes.new.seats) }
    ensures failed { IfOk result (λ _. nodes.new.failed ≡ nodes.old.failed) }
{
    nodes.reseat(alloc, topology, *name, now)?;
    resettle_all(nodes, topology, name, now)?;
    pass_all(nodes, left)
}

/// A compute node moves, in a topology that it leads to.
pub(crate) fn move_node(
    alloc: Global,
    nodes: &mut Nodes,
    topology: &Topology,
    name: &Name,
    now: Option<&Node>,
) -> Result<(), NoMemory>
    requires long { AreLong nodes.old.seats }
    requires can { (x : Checked) → (seat nodes.old.seats 0).who ≡ Configuring x → CanMove topology.now
        (record { name = name.now; left = listed_by (node_named x.topology name.now); now = option_copied now })
        nodes.old.seats }
    ensures moves { IfOk result (λ _. (x : Checked) → (seat nodes.old.seats 0).who ≡ Configuring x → Moves topology.now
        (record { name = name.now; left = listed_by (node_named x.topology name.now); now = option_copied now.entry })
        nodes.old.seats nodes.new.seats) }
    ensures failed { IfOk result (λ _. nodes.new.failed ≡ nodes.old.failed) }
{
    let left = copied(alloc, listed_by(nodes.valid().topology(), name))?;
    move_from(alloc, nodes, topology, name, &left, now)
}
