//! The sessions of a network, in the order of a round.
ghost use Rattle.std.specs.Prelude.{◌≡◌, ◌≤◌, ◌++◌, ◌∷◌, [], drop, length, option_to_list, IfOk, OnOk};
ghost use Rattle.std.specs.List.{All};
ghost use Rattle.running_nodes.specs.MachineModel.Network.{accesses, accesses_of, feeds, peerings};
ghost use Rattle.net_machine.specs.Seating.{AreLong, AreSeated, ends_of, order_among, order_of};
ghost use Rattle.net_machine.specs.Seating.{peerings_of};

use crate::ends::{SessionEnds, ends_of};
use config_types::{Node, Topology};
use node_core::config_name;
use ov_types::{Name, NoMemory, NodeId};
use running_nodes::{Nodes, lists};
use std::alloc::Global;

/// Appends the session of two nodes, with the first one's end near.
fn push_ends(
    nodes: &Nodes,
    a: &Name,
    b: &Name,
    order: &mut Vec<SessionEnds>,
) -> Result<(), NoMemory>
    requires long { AreLong nodes.now.seats }
    requires seated { All (AreSeated nodes.now.seats) order.old.items }
    ensures pushed { OnOk result (order.new.items
        ≡ order.old.items ++ option_to_list (ends_of nodes.now.seats a.now b.now)) }
    ensures seated { All (AreSeated nodes.now.seats) order.new.items }
{
    if let Some(ends) = ends_of(nodes, a, b) {
        order.push(ends)?;
    }
    Ok(())
}

/// Appends the feeds.
fn push_feeds(
    nodes: &Nodes,
    controllers: &[NodeId],
    order: &mut Vec<SessionEnds>,
) -> Result<(), NoMemory>
    requires long { AreLong nodes.now.seats }
    requires seated { All (AreSeated nodes.now.seats) order.old.items }
    ensures pushed { OnOk result (order.new.items
        ≡ order.old.items ++ order_among nodes.now.seats (feeds controllers.now)) }
    ensures seated { All (AreSeated nodes.now.seats) order.new.items }
{
    let config = config_name();
    for controller in controllers {
        push_ends(nodes, &config, &controller.name, order)?;
    }
    Ok(())
}

/// Appends the sessions of a control node with others.
fn push_peerings_of(
    nodes: &Nodes,
    controller: &NodeId,
    others: &[NodeId],
    order: &mut Vec<SessionEnds>,
) -> Result<(), NoMemory>
    requires long { AreLong nodes.now.seats }
    requires seated { All (AreSeated nodes.now.seats) order.old.items }
    ensures pushed { OnOk result (order.new.items
        ≡ order.old.items ++ order_among nodes.now.seats (peerings_of controller.now others.now)) }
    ensures seated { All (AreSeated nodes.now.seats) order.new.items }
{
    for other in others {
        push_ends(nodes, &controller.name, &other.name, order)?;
    }
    Ok(())
}

/// The control nodes from this place on.
fn from_place(controllers: &[NodeId], place: usize) -> &[NodeId]
    requires { place ≤ length controllers.now }
    ensures { result.now ≡ drop place controllers.now }
{
    &controllers[place..]
}

/// Appends the sessions between control nodes.
fn push_peerings(
    nodes: &Nodes,
    controllers: &[NodeId],
    order: &mut Vec<SessionEnds>,
) -> Result<(), NoMemory>
    requires long { AreLong nodes.now.seats }
    requires seated { All (AreSeated nodes.now.seats) order.old.items }
    ensures pushed { OnOk result (order.new.items
        ≡ order.old.items ++ order_among nodes.now.seats (peerings controllers.now)) }
    ensures seated { All (AreSeated nodes.now.seats) order.new.items }
{
    for i in 0..controllers.len() {
        let later = from_place(controllers, i + 1);
        push_peerings_of(nodes, &controllers[i], later, order)?;
    }
    Ok(())
}

/// Appends the session of a compute node with a control node, where it lists it.
fn push_access(
    nodes: &Nodes,
    controller: &NodeId,
    node: &Node,
    order: &mut Vec<SessionEnds>,
) -> Result<(), NoMemory>
    requires long { AreLong nodes.now.seats }
    requires seated { All (AreSeated nodes.now.seats) order.old.items }
    ensures pushed { OnOk result (order.new.items
        ≡ order.old.items ++ order_among nodes.now.seats (accesses_of (controller.now ∷ []) node.now)) }
    ensures seated { All (AreSeated nodes.now.seats) order.new.items }
{
    if lists(node, controller) {
        push_ends(nodes, &controller.name, &node.name, order)?;
    }
    Ok(())
}

/// Appends the sessions of a compute node, those of the control nodes that it lists.
fn push_accesses_of(
    nodes: &Nodes,
    controllers: &[NodeId],
    node: &Node,
    order: &mut Vec<SessionEnds>,
) -> Result<(), NoMemory>
    requires long { AreLong nodes.now.seats }
    requires seated { All (AreSeated nodes.now.seats) order.old.items }
    ensures pushed { OnOk result (order.new.items
        ≡ order.old.items ++ order_among nodes.now.seats (accesses_of controllers.now node.now)) }
    ensures seated { All (AreSeated nodes.now.seats) order.new.items }
{
    for controller in controllers {
        push_access(nodes, controller, node, order)?;
    }
    Ok(())
}

/// Appends the sessions of compute nodes.
fn push_accesses(
    nodes: &Nodes,
    controllers: &[NodeId],
    compute_nodes: &[Node],
    order: &mut Vec<SessionEnds>,
) -> Result<(), NoMemory>
    requires long { AreLong nodes.now.seats }
    requires seated { All (AreSeated nodes.now.seats) order.old.items }
    ensures pushed { OnOk result (order.new.items
        ≡ order.old.items ++ order_among nodes.now.seats (accesses controllers.now compute_nodes.now)) }
    ensures seated { All (AreSeated nodes.now.seats) order.new.items }
{
    for node in compute_nodes {
        push_accesses_of(nodes, controllers, node, order)?;
    }
    Ok(())
}

/// All sessions of a topology: feeds, then those between control nodes, then those of agents.
pub(crate) fn order_of(
    alloc: Global,
    nodes: &Nodes,
    topology: &Topology,
) -> Result<Vec<SessionEnds>, NoMemory>
    requires { AreLong nodes.now.seats }
    ensures order { IfOk result (λ order. order.items ≡ order_of nodes.now.seats topology.now) }
    ensures seated { IfOk result (λ order. All (AreSeated nodes.now.seats) order.items) }
{
    let controllers = topology.controllers.as_slice();
    let mut order = Vec::new(alloc);
    push_feeds(nodes, controllers, &mut order)?;
    push_peerings(nodes, controllers, &mut order)?;
    push_accesses(nodes, controllers, topology.nodes.as_slice(), &mut order)?;
    Ok(order)
}
