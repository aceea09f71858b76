//! What a node of each kind takes, and what it shows. A send that fails closes its end, and the step is taken all the
//! same. Where memory is wanting nothing is left of what the node had.
ghost use Rattle.std.specs.Prelude.{◌≡◌, ◌<◌, true, false, length, slice_index_or, None, Some, IfOk, OnErr, OnOk};
ghost use Rattle.running_nodes.specs.ControlNode.Core.{fresh};
ghost use Rattle.node_core.specs.Whole.{Comes, session_of};
ghost use Rattle.running_nodes.specs.MachineModel.Setup.{Name as NameOf};
ghost use Rattle.running_nodes.specs.Controls.{controls_of};
ghost use Rattle.running_nodes.specs.Moving.{number_for};
ghost use Rattle.running_nodes.specs.Seats.{others_of};
ghost use Rattle.running_nodes.specs.Changes.{IsAlone, PassesOver, SetsOver, TakesOver, emptied_inner, joined_inner};
ghost use Rattle.running_nodes.specs.Changes.{shown, vacated_inner};
ghost use Rattle.running_nodes.specs.Cores.{IsRight, IsVacated, configured, controlled, forwarded};
ghost use Rattle.running_nodes.specs.Halves.{live};

use agent_node::AgentNode;
use config_check::Valid;
use config_node::ConfigNode;
use control_node::ControlNode;
use ov_link::{FailingLink, Input, Links, NodeFault};
use ov_types::{Name, NoMemory, NodeId, NodeRows};

/// The configuration node takes an input, and tells each session what is wanted then.
pub(crate) fn take_config(
    node: &mut ConfigNode,
    input: Input<'_>,
    links: &mut Links<FailingLink>,
) -> Result<(), NoMemory>
    requires known { session_of input < length (others_of (configured node.old).who) }
    requires long { length node.old.posts ≡ length (others_of (configured node.old).who) }
    requires kept { length node.old.kept ≡ length (others_of (configured node.old).who) }
    requires linked { length links.old ≡ length (others_of (configured node.old).who) }
    requires comes { Comes (λ i. live (configured node.old) i ≡ true) (λ i. live (configured node.old) i ≡ false)
        input }
    ensures setup { node.new.setup ≡ node.old.setup }
    ensures long { length node.new.posts ≡ length node.old.posts }
    ensures kept { length node.new.kept ≡ length node.old.kept }
    ensures links { length links.new ≡ length links.old }
    ensures takes { IfOk result (λ _. TakesOver links.old links.new (configured node.old) (configured node.new)
        input.entry) }
{
    let _stepped = node.step(input, links);
    if node.failed() {
        node.restart();
        return Err(NoMemory);
    }
    Ok(())
}

/// A control node takes an input on a session that is somebody's, and tells each session what is wanted then.
pub(crate) fn take_control(
    node: &mut ControlNode,
    input: Input<'_>,
    links: &mut Links<FailingLink>,
) -> Result<(), NoMemory>
    requires known { session_of input < length (others_of (controlled node.old).who) }
    requires taken { (b : NameOf)
        × (slice_index_or (others_of (controlled node.old).who) (session_of input) None ≡ Some b) }
    requires vacated { IsVacated node.old }
    requires long { length node.old.posts ≡ length (others_of (controlled node.old).who) }
    requires kept { length node.old.kept ≡ length (others_of (controlled node.old).who) }
    requires linked { length links.old ≡ length (others_of (controlled node.old).who) }
    requires comes { Comes (λ i. live (controlled node.old) i ≡ true) (λ i. live (controlled node.old) i ≡ false)
        input }
    ensures plan { node.new.plan ≡ node.old.plan }
    ensures long { length node.new.posts ≡ length node.old.posts }
    ensures kept { length node.new.kept ≡ length node.old.kept }
    ensures links { length links.new ≡ length links.old }
    ensures takes { IfOk result (λ _. TakesOver links.old links.new (controlled node.old) (controlled node.new)
        input.entry) }
    ensures vacated { IsVacated node.new }
{
    // (for its clause: the retired numbers ascend, and each is that of an agent's session)
    let _retired = node.is_retired(0);
    let _stepped = node.step(input, links);
    if node.failed() {
        node.restart();
        return Err(NoMemory);
    }
    Ok(())
}

/// The agent of this name goes from its session with a control node, at which there is nothing then. Where memory is
/// wanting, nothing changes.
pub(crate) fn leave_control(
    node: &mut ControlNode,
    session: u16,
    name: &Name,
) -> Result<(), NoMemory>
    requires alone { IsAlone name.now session (controlled node.old) }
    requires vacated { IsVacated node.old }
    requires long { length node.old.posts ≡ length (others_of (controlled node.old).who) }
    ensures left { OnOk result (controlled node.new ≡ vacated_inner name.now session (controlled node.old)) }
    ensures err { OnErr result (node.new ≡ node.old) }
    ensures vacated { IsVacated node.new }
{
    // (for its clause: the retired numbers ascend, and each is that of an agent's session)
    let _retired = node.is_retired(0);
    node.retire_agent(session)
}

/// A control node tells each session what is wanted now. A send that fails closes its end. Where memory is wanting, nothing
/// is left of what the node had.
pub(crate) fn tell_control(
    node: &mut ControlNode,
    links: &mut Links<FailingLink>,
) -> Result<(), NoMemory>
    requires vacated { IsVacated node.old }
    requires long { length node.old.posts ≡ length (others_of (controlled node.old).who) }
    requires kept { length node.old.kept ≡ length (others_of (controlled node.old).who) }
    requires linked { length links.old ≡ length (others_of (controlled node.old).who) }
    ensures plan { node.new.plan ≡ node.old.plan }
    ensures long { length node.new.posts ≡ length node.old.posts }
    ensures kept { length node.new.kept ≡ length node.old.kept }
    ensures links { length links.new ≡ length links.old }
    ensures passes { IfOk result (λ _. PassesOver links.old links.new (controlled node.old) (controlled node.new)) }
    ensures vacated { IsVacated node.new }
{
    // (for its clause: the retired numbers ascend, and each is that of an agent's session)
    let _retired = node.is_retired(0);
    let _told = node.tell(links);
    if node.failed() {
        node.restart();
        return Err(NoMemory);
    }
    Ok(())
}

/// An agent comes to a control node, at whose session with it there is nothing. Gives the number of the session. Where
/// memory is wanting, nothing changes.
pub(crate) fn join_control(node: &mut ControlNode, agent: NodeId) -> Result<u16, NoMemory>
    requires vacated { IsVacated node.old }
    requires long { length node.old.posts ≡ length (others_of (controlled node.old).who) }
    requires kept { length node.old.kept ≡ length (others_of (controlled node.old).who) }
    requires room { length (others_of (controlled node.old).who) < 65535 }
    ensures number { IfOk result (λ number. number ≡ number_for (controls_of node.old.plan)) }
    ensures joined { OnOk result (controlled node.new ≡ joined_inner agent (controlled node.old)) }
    ensures err { OnErr result (node.new ≡ node.old) }
    ensures vacated { IsVacated node.new }
{
    // (for its clause: the retired numbers ascend, and each is that of an agent's session)
    let _retired = node.is_retired(0);
    node.add_agent(agent)
}

/// An agent takes an input, and tells each session what is wanted then.
pub(crate) fn take_agent(
    node: &mut AgentNode,
    input: Input<'_>,
    links: &mut Links<FailingLink>,
) -> Result<(), NoMemory>
    requires known { session_of input < length (others_of (forwarded node.old).who) }
    requires long { length node.old.posts ≡ length (others_of (forwarded node.old).who) }
    requires kept { length node.old.kept ≡ length (others_of (forwarded node.old).who) }
    requires linked { length links.old ≡ length (others_of (forwarded node.old).who) }
    requires comes { Comes (λ i. live (forwarded node.old) i ≡ true) (λ i. live (forwarded node.old) i ≡ false)
        input }
    ensures plan { node.new.plan ≡ node.old.plan }
    ensures long { length node.new.posts ≡ length node.old.posts }
    ensures kept { length node.new.kept ≡ length node.old.kept }
    ensures links { length links.new ≡ length links.old }
    ensures takes { IfOk result (λ _. TakesOver links.old links.new (forwarded node.old) (forwarded node.new)
        input.entry) }
    ensures right { IsRight node.new }
{
    let _stepped = node.step(input, links);
    if node.failed() {
        node.restart();
        // (for its clause: an agent that did not fail forwards by what it holds)
        let _failed = node.failed();
        return Err(NoMemory);
    }
    Ok(())
}

/// A control node loses all that it has.
pub(crate) fn restart_control(node: &mut ControlNode)
    ensures fresh { node.new ≡ fresh node.old.plan }
    ensures vacated { IsVacated node.new }
{
    node.restart();
}

/// An agent loses all that it has.
pub(crate) fn restart_agent(node: &mut AgentNode)
    requires long { length node.old.posts ≡ length (others_of (forwarded node.old).who) }
    requires kept { length node.old.kept ≡ length (others_of (forwarded node.old).who) }
    ensures emptied { forwarded node.new ≡ emptied_inner (forwarded node.old) }
    ensures right { IsRight node.new }
{
    node.restart();
    // (for its clause: an agent that did not fail forwards by what it holds)
    let _failed = node.failed();
}

/// A control node's tables.
pub(crate) fn show_control(node: &ControlNode) -> Result<NodeRows, NoMemory>
    requires { IsVacated node.now }
    ensures { IfOk result (λ rows. rows ≡ shown (controlled node.now)) }
{
    let rows = node.rows()?;
    Ok(NodeRows::Control(rows))
}

/// What an agent forwards by.
pub(crate) fn show_agent(node: &AgentNode) -> Result<NodeRows, NoMemory>
    requires { IsRight node.now }
    ensures { IfOk result (λ rows. rows ≡ shown (forwarded node.now)) }
{
    let rows = node.rows()?;
    Ok(NodeRows::Agent(rows))
}

/// Sets the valid configuration of the configuration node to another, of the same control nodes, and tells each session
/// what is wanted then.
pub(crate) fn set_config(
    node: &mut ConfigNode,
    valid: Valid,
    links: &mut Links<FailingLink>,
) -> Result<(), NoMemory>
    requires same { valid.topology.controllers ≡ node.old.setup.topology.controllers }
    requires long { length node.old.posts ≡ length (others_of (configured node.old).who) }
    requires kept { length node.old.kept ≡ length (others_of (configured node.old).who) }
    requires linked { length links.old ≡ length (others_of (configured node.old).who) }
    ensures controllers { node.new.setup.topology.controllers ≡ node.old.setup.topology.controllers }
    ensures long { length node.new.posts ≡ length node.old.posts }
    ensures kept { length node.new.kept ≡ length node.old.kept }
    ensures links { length links.new ≡ length links.old }
    ensures sets { IfOk result (λ _. SetsOver links.old links.new (configured node.old) (configured node.new) valid) }
{
    // (for its clauses: the configuration is valid and of the written form)
    let _valid = node.valid();
    match node.set_valid(valid, links) {
        Ok(()) => Ok(()),
        Err(NodeFault::LinkFailed { .. }) => Ok(()),
        Err(NodeFault::NoMemory) => {
            node.restart();
            Err(NoMemory)
        }
    }
}
