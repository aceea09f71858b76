//! The nodes of a topology, with nothing of each other.
ghost use Rattle.std.specs.Prelude.{◌≡◌, ◌≢◌, ◌≤◌, ◌<◌, ◌+◌, ◌∷◌, [], ◌++◌, List, length, map, option_copied};
ghost use Rattle.std.specs.Prelude.{IfOk, IfSome, OnErr};
ghost use Rattle.std.specs.Option.{option_map};
ghost use Rattle.std.specs.List.{All, Contains};
ghost use Rattle.config_check.specs.Rules.{controller_names};
ghost use Rattle.agent_node.specs.Core.{Core as AgentCore, fresh as fresh_agent};
ghost use Rattle.running_nodes.specs.ControlNode.Core.{fresh as fresh_control};
ghost use Rattle.running_nodes.specs.Seats.{Configuring, Controlling, Forwarding, agent_plan, whos};
ghost use Rattle.running_nodes.specs.MachineModel.Setup.{opening};
ghost use Rattle.running_nodes.specs.Controls.{controls_of};
ghost use Rattle.running_nodes.specs.Cores.{IsRight, IsVacated};
ghost use Rattle.running_nodes.specs.Fresh.{IsSetUp, fresh_agents_of, fresh_outer, fresh_outers_of, opening_plan};
ghost use Rattle.running_nodes.specs.Fresh.{replaced_at};
ghost use Rattle.running_nodes.specs.Halves.{Outer};

use crate::edges::Edge;
use crate::plans::{
    agent_plan, control_plan, others_of_agent, others_of_config, others_of_control,
};
use agent_node::AgentNode;
use config_check::Valid;
use config_types::{Node, Topology};
use control_node::ControlNode;
use node_core::config_name;
use ov_types::{NoMemory, NodeId};
use std::alloc::Global;

/// The edge of the configuration node.
fn config_edge(alloc: Global, valid: &Valid) -> Result<Edge, NoMemory>
    requires { IsSetUp valid.now.topology }
    ensures { IfOk result (λ edge. edge ≡ fresh_outer (Configuring valid.now)) }
{
    let others = others_of_config(alloc, valid.topology())?;
    Edge::new(alloc, config_name(), others)
}

/// The edge of the configuration node, after those that are there.
fn add_config(alloc: Global, valid: &Valid, edges: &mut Vec<Edge>) -> Result<(), NoMemory>
    requires { IsSetUp valid.now.topology }
    ensures { IfOk result (λ _. edges.new.items ≡ edges.old.items ++ fresh_outer (Configuring valid.now) ∷ []) }
{
    let edge = config_edge(alloc, valid)?;
    edges.push(edge)?;
    Ok(())
}

/// One more control node, with its edge.
fn add_control(
    alloc: Global,
    topology: &Topology,
    controller: &NodeId,
    controls: &mut Vec<ControlNode>,
    edges: &mut Vec<Edge>,
) -> Result<(), NoMemory>
    requires set_up { IsSetUp topology.now }
    requires address { controller.now.address.0 ≢ 0 }
    ensures control { IfOk result (λ _. controls.new.items ≡ controls.old.items
        ++ fresh_control (opening_plan topology.now controller.now) ∷ []) }
    ensures edge { IfOk result (λ _. edges.new.items ≡ edges.old.items
        ++ fresh_outer (Controlling (controls_of (opening_plan topology.now controller.now))) ∷ []) }
{
    let plan = control_plan(alloc, topology, controller)?;
    let others = others_of_control(alloc, config_name(), &plan)?;
    let edge = Edge::new(alloc, controller.name, others)?;
    let control = ControlNode::new(alloc, plan)?;
    controls.push(control)?;
    edges.push(edge)?;
    Ok(())
}

/// The control nodes, in the order of the topology, and their edges come after those that are there.
fn add_controls(
    alloc: Global,
    topology: &Topology,
    controls: &mut Vec<ControlNode>,
    edges: &mut Vec<Edge>,
) -> Result<(), NoMemory>
    requires { IsSetUp topology.now }
    ensures controls { IfOk result (λ _. controls.new.items ≡ controls.old.items
        ++ map (λ c. fresh_control (opening_plan topology.now c)) topology.now.controllers) }
    ensures edges { IfOk result (λ _. edges.new.items ≡ edges.old.items
        ++ map (λ c. fresh_outer (Controlling (controls_of (opening_plan topology.now c)))) topology.now.controllers) }
{
    for controller in topology.controllers.as_slice() {
        add_control(alloc, topology, controller, controls, edges)?;
    }
    Ok(())
}

/// One more agent, with its edge. Where memory is wanting, there is none.
fn add_agent(
    alloc: Global,
    topology: &Topology,
    node: &Node,
    agents: &mut Vec<AgentNode>,
    edges: &mut Vec<Edge>,
) -> Result<(), NoMemory>
    requires listed { All (Contains (controller_names topology.now)) node.now.controllers }
    requires few { length node.now.controllers ≤ 2 }
    ensures agent { IfOk result (λ _. agents.new.items ≡ agents.old.items
        ++ fresh_agent (agent_plan topology.now node.now) ∷ []) }
    ensures right { IfOk result (λ _. IsRight (fresh_agent (agent_plan topology.now node.now))) }
    ensures edge { IfOk result (λ _. edges.new.items ≡ edges.old.items
        ++ fresh_outer (Forwarding (agent_plan topology.now node.now)) ∷ []) }
    ensures no_agent { OnErr result (agents.new.items ≡ agents.old.items) }
    ensures no_edge { OnErr result (edges.new.items ≡ edges.old.items) }
{
    let plan = agent_plan(alloc, topology, node)?;
    let others = others_of_agent(alloc, &plan)?;
    let edge = Edge::new(alloc, node.name, others)?;
    let agent = AgentNode::new(alloc, plan)?;
    // (for its clause: an agent that did not fail forwards by what it holds)
    let _failed = agent.failed();
    agents.reserve(1)?;
    edges.reserve(1)?;
    agents.push_reserved(agent);
    edges.push_reserved(edge);
    Ok(())
}

/// The agents, in the order of the topology, and their edges come after those that are there.
fn add_agents(
    alloc: Global,
    topology: &Topology,
    agents: &mut Vec<AgentNode>,
    edges: &mut Vec<Edge>,
) -> Result<(), NoMemory>
    requires set_up { IsSetUp topology.now }
    requires right { All IsRight agents.old.items }
    ensures agents { IfOk result (λ _. agents.new.items ≡ agents.old.items
        ++ map (λ n. fresh_agent (agent_plan topology.now n)) topology.now.nodes) }
    ensures right { IfOk result (λ _. All IsRight agents.new.items) }
    ensures edges { IfOk result (λ _. edges.new.items ≡ edges.old.items
        ++ map (λ n. fresh_outer (Forwarding (agent_plan topology.now n))) topology.now.nodes) }
{
    for node in topology.nodes.as_slice() {
        add_agent(alloc, topology, node, agents, edges)?;
    }
    Ok(())
}

/// The control nodes and the agents of a valid topology, and the edges of all its nodes.
pub(crate) fn add_all(
    alloc: Global,
    valid: &Valid,
    controls: &mut Vec<ControlNode>,
    agents: &mut Vec<AgentNode>,
    edges: &mut Vec<Edge>,
) -> Result<(), NoMemory>
    requires controls { controls.old.items ≡ [] }
    requires agents { agents.old.items ≡ [] }
    requires edges { edges.old.items ≡ [] }
    ensures set_up { IfOk result (λ _. IsSetUp valid.now.topology) }
    ensures controls { IfOk result (λ _. controls.new.items
        ≡ map (λ c. fresh_control (opening_plan valid.now.topology c)) valid.now.topology.controllers) }
    ensures agents { IfOk result (λ _. agents.new.items
        ≡ map (λ n. fresh_agent (agent_plan valid.now.topology n)) valid.now.topology.nodes) }
    ensures right { IfOk result (λ _. All IsRight agents.new.items) }
    ensures all { IfOk result (λ _. All IsVacated controls.new.items) }
    ensures edges { IfOk result (λ _. edges.new.items ≡ map fresh_outer (whos (opening valid.now))) }
{
    let topology = valid.topology();
    add_config(alloc, valid, edges)?;
    add_controls(alloc, topology, controls, edges)?;
    add_agents(alloc, topology, agents, edges)?;
    Ok(())
}

/// The agent at a place goes, with its edge. The edges of the agents come behind so many others.
fn take_away(place: Option<u16>, first: usize, agents: &mut Vec<AgentNode>, edges: &mut Vec<Edge>)
    requires there { IfSome place (λ i. i < length agents.old.items) }
    requires edge { IfSome place (λ i. first + i < length edges.old.items) }
    ensures agents { agents.new.items ≡ replaced_at place [] agents.old.items }
    ensures edges { edges.new.items ≡ replaced_at (option_map (λ i. first + i) place) [] edges.old.items }
{
    if let Some(place) = place {
        agents.remove(usize::from(place));
        edges.remove(first + usize::from(place));
    }
}

/// The last agent comes to a place where another was, which goes, and so do their edges. The edges of the agents come
/// behind so many others.
fn put_last(place: Option<u16>, first: usize, agents: &mut Vec<AgentNode>, edges: &mut Vec<Edge>)
    requires there { IfSome place (λ i. 1 + i < length agents.old.items) }
    requires edge { IfSome place (λ i. 1 + (first + i) < length edges.old.items) }
    ensures agents { (agents' : List AgentCore) (a : AgentCore) → agents.old.items ≡ agents' ++ a ∷ []
        → agents.new.items ≡ replaced_at place (a ∷ []) agents' }
    ensures edges { (edges' : List Outer) (e : Outer) → edges.old.items ≡ edges' ++ e ∷ []
        → edges.new.items ≡ replaced_at (option_map (λ i. first + i) place) (e ∷ []) edges' }
{
    if let Some(place) = place {
        agents.swap_remove(usize::from(place));
        edges.swap_remove(first + usize::from(place));
    }
}

/// Puts another agent, or none, in the place of the one at a place, or behind all where no place is given, and does the
/// same with their edges, of which the first stands at a given number. Where memory is wanting, nothing changes.
pub(crate) fn reseat_agent(
    alloc: Global,
    topology: &Topology,
    place: Option<u16>,
    node: Option<&Node>,
    first: usize,
    agents: &mut Vec<AgentNode>,
    edges: &mut Vec<Edge>,
) -> Result<(), NoMemory>
    requires listed { IfSome (option_copied node) (λ n. All (Contains (controller_names topology.now)) n.controllers) }
    requires few { IfSome (option_copied node) (λ n. length n.controllers ≤ 2) }
    requires there { IfSome place (λ i. i < length agents.old.items) }
    requires edges { length edges.old.items ≡ first + length agents.old.items }
    requires right { All IsRight agents.old.items }
    ensures agents { IfOk result (λ _. agents.new.items
        ≡ replaced_at place (fresh_agents_of topology.now (option_copied node.entry)) agents.old.items) }
    ensures edges { IfOk result (λ _. edges.new.items
        ≡ replaced_at (option_map (λ i. first + i) place) (fresh_outers_of topology.now (option_copied node.entry))
        edges.old.items) }
    ensures right { All IsRight agents.new.items }
    ensures no_agent { OnErr result (agents.new.items ≡ agents.old.items) }
    ensures no_edge { OnErr result (edges.new.items ≡ edges.old.items) }
{
    match node {
        None => take_away(place, first, agents, edges),
        Some(node) => {
            add_agent(alloc, topology, node, agents, edges)?;
            put_last(place, first, agents, edges);
        }
    }
    Ok(())
}
