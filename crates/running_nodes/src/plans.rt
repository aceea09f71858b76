//! The plans of the nodes of a topology.
ghost use Rattle.std.specs.Prelude.{◌≡◌, ◌∷◌, ◌++◌, [], map, not, Some, IfOk};
ghost use Rattle.std.specs.List.{All, Contains, filter};
ghost use Rattle.ov_types.specs.First.{same_name};
ghost use Rattle.config_check.specs.Rules.{controller_names};
ghost use Rattle.running_nodes.specs.MachineModel.Network.{config as named_config, lists};
ghost use Rattle.running_nodes.specs.MachineModel.Setup.{id_of};
ghost use Rattle.running_nodes.specs.Controls.{controls_of};
ghost use Rattle.running_nodes.specs.Seats.{Controlling, Forwarding, agent_plan, controller_named, names_of, others_of};
ghost use Rattle.running_nodes.specs.Fresh.{opening_plan};

use agent_node::AgentPlan;
use config_types::{Node, Topology};
use control_node::ControlPlan;
use ov_types::{Items, Name, NoMemory, NodeId};
use std::alloc::{AllocError, Global};

fn id_of(node: &Node) -> NodeId
    ensures { result ≡ id_of node.now }
{
    NodeId {
        name: node.name,
        address: node.address,
    }
}

/// Whether a compute node lists a control node.
pub fn lists(node: &Node, controller: &NodeId) -> bool
    ensures { result ≡ lists node.now controller.now }
{
    node.controllers
        .as_slice()
        .iter()
        .any(|name| controller.name == *name)
}

/// The control nodes but for the one of this name.
fn peers_of(alloc: Global, controllers: &[NodeId], me: &NodeId) -> Result<Vec<NodeId>, AllocError>
    ensures { IfOk result (λ peers. peers.items ≡ filter (λ d. not (same_name d.name me.now.name)) controllers.now) }
{
    controllers
        .iter()
        .filter(|other| other.name != me.name)
        .copied()
        .collect(alloc)
}

/// The agents that list a control node.
fn agents_of(alloc: Global, nodes: &[Node], me: &NodeId) -> Result<Vec<NodeId>, AllocError>
    ensures { IfOk result (λ agents. agents.items ≡ map id_of (filter (λ n. lists n me.now) nodes.now)) }
{
    nodes
        .iter()
        .filter(|node| lists(node, me))
        .map(|node| id_of(node))
        .collect(alloc)
}

/// The sessions of a control node: with the other control nodes, and with the agents that list it. None is retired.
pub(crate) fn control_plan(
    alloc: Global,
    topology: &Topology,
    me: &NodeId,
) -> Result<ControlPlan, NoMemory>
    ensures { IfOk result (λ plan. plan ≡ opening_plan topology.now me.now) }
{
    let peers = peers_of(alloc, topology.controllers.as_slice(), me)?;
    let agents = agents_of(alloc, topology.nodes.as_slice(), me)?;
    Ok(ControlPlan {
        me: *me,
        asn: topology.asn,
        peers: Items::from_vec(peers),
        agents: Items::from_vec(agents),
        retired: Items::new(alloc),
    })
}

/// The control node of this name, which there is.
fn controller_named(topology: &Topology, name: &Name) -> NodeId
    requires { Contains (controller_names topology.now) name.now }
    ensures { result ≡ controller_named topology.now name.now }
{
    for controller in topology.controllers.as_slice() {
        if controller.name == *name {
            return *controller;
        }
    }
    unreachable!()
}

/// The sessions of an agent: with its control nodes, in its own order.
pub(crate) fn agent_plan(
    alloc: Global,
    topology: &Topology,
    node: &Node,
) -> Result<AgentPlan, NoMemory>
    requires { All (Contains (controller_names topology.now)) node.now.controllers }
    ensures { IfOk result (λ plan. plan ≡ agent_plan topology.now node.now) }
{
    let mut controllers = Items::new(alloc);
    for name in node.controllers.as_slice() {
        controllers.push(controller_named(topology, name))?;
    }
    Ok(AgentPlan {
        me: id_of(node),
        controllers,
    })
}

fn names_of(alloc: Global, nodes: &[NodeId]) -> Result<Vec<Option<Name>>, AllocError>
    ensures { IfOk result (λ names. names.items ≡ names_of nodes.now) }
{
    nodes.iter().map(|node| Some(node.name)).collect(alloc)
}

/// The names at the other ends of the configuration node's sessions.
pub(crate) fn others_of_config(
    alloc: Global,
    topology: &Topology,
) -> Result<Items<Option<Name>>, NoMemory>
    ensures { IfOk result (λ names. names ≡ names_of topology.now.controllers) }
{
    let names = names_of(alloc, topology.controllers.as_slice())?;
    Ok(Items::from_vec(names))
}

/// The names at the other ends of an agent's sessions.
pub(crate) fn others_of_agent(
    alloc: Global,
    plan: &AgentPlan,
) -> Result<Items<Option<Name>>, NoMemory>
    ensures { IfOk result (λ names. names ≡ others_of (Forwarding plan.now)) }
{
    let names = names_of(alloc, plan.controllers.as_slice())?;
    Ok(Items::from_vec(names))
}

fn extend(names: &mut Vec<Option<Name>>, nodes: &[NodeId]) -> Result<(), NoMemory>
    ensures { IfOk result (λ _. names.new.items ≡ names.old.items ++ names_of nodes.now) }
{
    for node in nodes {
        names.push(Some(node.name))?;
    }
    Ok(())
}

/// The configuration node's name, and then those of the peers and of the agents.
fn all_names(alloc: Global, config: Name, plan: &ControlPlan) -> Result<Vec<Option<Name>>, NoMemory>
    ensures { IfOk result (λ names. names.items
        ≡ Some config ∷ (names_of plan.now.peers ++ names_of plan.now.agents)) }
{
    let mut names = Vec::new(alloc);
    names.push(Some(config))?;
    extend(&mut names, plan.peers.as_slice())?;
    extend(&mut names, plan.agents.as_slice())?;
    Ok(names)
}

/// The names at the other ends of a control node's sessions, of which none is retired.
pub(crate) fn others_of_control(
    alloc: Global,
    config: Name,
    plan: &ControlPlan,
) -> Result<Items<Option<Name>>, NoMemory>
    requires name { config ≡ named_config }
    requires none { plan.now.retired ≡ [] }
    ensures { IfOk result (λ names. names ≡ others_of (Controlling (controls_of plan.now))) }
{
    let names = all_names(alloc, config, plan)?;
    Ok(Items::from_vec(names))
}
