//! The cores of all nodes.
ghost use Rattle.std.specs.Prelude.{◌≡◌, ◌<◌, ◌≤◌, [], ◌∷◌, true, false, length, option_copied, slice_index_or, slice_set};
ghost use Rattle.std.specs.Prelude.{None, Some, IfOk, OnErr, OnOk};
ghost use Rattle.config_check.specs.Checked.{Checked};
ghost use Rattle.node_core.specs.Keeping.{kept_at};
ghost use Rattle.node_core.specs.Whole.{Comes, session_of};
ghost use Rattle.route_targets.specs.Forwarding.{forwarding};
ghost use Rattle.running_nodes.specs.Seats.{Configuring, Controlling, is_up, others_of};
ghost use Rattle.running_nodes.specs.MachineModel.Setup.{Name as NameOf};
ghost use Rattle.running_nodes.specs.Controls.{Controls};
ghost use Rattle.running_nodes.specs.Moving.{number_for};
ghost use Rattle.running_nodes.specs.Cores.{HoldsAs, held_by};
ghost use Rattle.running_nodes.specs.Changes.{ChangesOne, IsAlone, PassesOver, SetsOver, TakesOver, emptied_inner};
ghost use Rattle.running_nodes.specs.Changes.{forwarders, joined_inner, shown, vacated_inner};
ghost use Rattle.running_nodes.specs.Halves.{inner, live, seated};

use crate::acting::{
    join_control, leave_control, restart_agent, restart_control, set_config, show_agent,
    show_control, take_agent, take_config, take_control, tell_control,
};
use crate::kinds::{NodeRole, kind_of};
use agent_node::AgentNode;
use config_check::Valid;
use config_node::ConfigNode;
use control_node::ControlNode;
use ov_link::{FailingLink, Input, Links};
use ov_types::{Name, NoMemory, NodeId, NodeRows, Outcome, Packet};
use std::marker::Model;

/// The nodes by their numbers: the configuration node, then the control nodes, then the agents. At each session of a
/// control node that is nobody's there is nothing, and each agent forwards by what it holds.
#[derive(Drop)]
pub(crate) struct Cores {
    pub(crate) config: ConfigNode,
    pub(crate) controls: Vec<ControlNode>,
    pub(crate) agents: Vec<AgentNode>,
}

impl Model for Cores {
    ghost use Rattle.std.specs.Prelude.{List};
    ghost use Rattle.std.specs.Coded.{coded_list};
    ghost use Rattle.std.specs.List.{All};
    ghost use Rattle.running_nodes.specs.Codes.{coded_inner};
    ghost use Rattle.running_nodes.specs.Cores.{IsRight, IsVacated, inners};
    ghost use Rattle.running_nodes.specs.Halves.{Inner};

    ghost Value = { List Inner };

    ghost coded = { coded_list coded_inner };

    ghost view = { λ c. inners c.config c.controls.items c.agents.items };

    ghost invariant = { λ c. All IsRight c.agents.items × All IsVacated c.controls.items };
}

impl Cores {
    /// Whether the end of a session is not idle.
    pub(crate) fn is_live(&self, node: u16, session: u16) -> bool
        requires node { node < length self.now }
        requires session { session < length (others_of (inner self.now node).who) }
        ensures { result ≡ live (inner self.now node) session }
    {
        match kind_of(self.controls.len(), node) {
            NodeRole::Configuration => self.config.is_live(session),
            NodeRole::Control(place) => self.controls[place].is_live(session),
            NodeRole::Agent(place) => self.agents[place].is_live(session),
        }
    }

    /// Whether the end of a session is up.
    pub(crate) fn is_up(&self, node: u16, session: u16) -> bool
        requires node { node < length self.now }
        requires session { session < length (others_of (inner self.now node).who) }
        ensures { result ≡ is_up (seated (inner self.now node) [] [] []) session }
    {
        match kind_of(self.controls.len(), node) {
            NodeRole::Configuration => self.config.is_up(session),
            NodeRole::Control(place) => self.controls[place].is_up(session),
            NodeRole::Agent(place) => self.agents[place].is_up(session),
        }
    }

    /// How many octets a node keeps of a session.
    pub(crate) fn pending(&self, node: u16, session: u16) -> usize
        requires node { node < length self.now }
        requires session { session < length (others_of (inner self.now node).who) }
        ensures { result ≡ length (kept_at (inner self.now node).kept session) }
    {
        match kind_of(self.controls.len(), node) {
            NodeRole::Configuration => self.config.pending(session),
            NodeRole::Control(place) => self.controls[place].pending(session),
            NodeRole::Agent(place) => self.agents[place].pending(session),
        }
    }

    /// A node takes an input on a session that is somebody's, and tells each of its sessions what it wants then. Where
    /// memory is wanting, nothing is left of what the node had.
    pub(crate) fn take(
        &mut self,
        node: u16,
        input: Input<'_>,
        links: &mut Links<FailingLink>,
    ) -> Result<(), NoMemory>
        requires node { node < length self.old }
        requires known { session_of input < length (others_of (inner self.old node).who) }
        requires taken { (b : NameOf)
            × (slice_index_or (others_of (inner self.old node).who) (session_of input) None ≡ Some b) }
        requires long { length (inner self.old node).posts ≡ length (others_of (inner self.old node).who) }
        requires kept { length (inner self.old node).kept ≡ length (others_of (inner self.old node).who) }
        requires linked { length links.old ≡ length (others_of (inner self.old node).who) }
        requires comes { Comes (λ i. live (inner self.old node) i ≡ true) (λ i. live (inner self.old node) i ≡ false)
            input }
        ensures one { ChangesOne node self.old self.new }
        ensures links { length links.new ≡ length links.old }
        ensures takes { IfOk result (λ _. TakesOver links.old links.new (inner self.old node) (inner self.new node)
            input.entry) }
    {
        match kind_of(self.controls.len(), node) {
            NodeRole::Configuration => take_config(&mut self.config, input, links),
            NodeRole::Control(place) => take_control(&mut self.controls[place], input, links),
            NodeRole::Agent(place) => take_agent(&mut self.agents[place], input, links),
        }
    }

    /// The agent of this name goes from its session with a control node. Where memory is wanting, nothing changes.
    pub(crate) fn leave(&mut self, node: u16, session: u16, name: &Name) -> Result<(), NoMemory>
        requires node { node < length self.old }
        requires alone { IsAlone name.now session (inner self.old node) }
        requires long { length (inner self.old node).posts ≡ length (others_of (inner self.old node).who) }
        ensures left { OnOk result (self.new
            ≡ slice_set self.old node (vacated_inner name.now session (inner self.old node))) }
        ensures err { OnErr result (self.new ≡ self.old) }
    {
        match kind_of(self.controls.len(), node) {
            NodeRole::Control(place) => leave_control(&mut self.controls[place], session, name),
            NodeRole::Configuration => unreachable!(),
            NodeRole::Agent(_) => unreachable!(),
        }
    }

    /// A control node tells each of its sessions what it wants now. Where memory is wanting, nothing is left of what the
    /// node had.
    pub(crate) fn tell(&mut self, node: u16, links: &mut Links<FailingLink>) -> Result<(), NoMemory>
        requires node { node < length self.old }
        requires control { (c : Controls) × ((inner self.old node).who ≡ Controlling c) }
        requires long { length (inner self.old node).posts ≡ length (others_of (inner self.old node).who) }
        requires kept { length (inner self.old node).kept ≡ length (others_of (inner self.old node).who) }
        requires linked { length links.old ≡ length (others_of (inner self.old node).who) }
        ensures one { ChangesOne node self.old self.new }
        ensures links { length links.new ≡ length links.old }
        ensures passes { IfOk result (λ _. PassesOver links.old links.new (inner self.old node)
            (inner self.new node)) }
    {
        match kind_of(self.controls.len(), node) {
            NodeRole::Control(place) => tell_control(&mut self.controls[place], links),
            NodeRole::Configuration => unreachable!(),
            NodeRole::Agent(_) => unreachable!(),
        }
    }

    /// An agent comes to a control node. Gives the number of its session. Where memory is wanting, nothing changes.
    pub(crate) fn join(&mut self, node: u16, agent: NodeId) -> Result<u16, NoMemory>
        requires node { node < length self.old }
        requires control { (c : Controls) × ((inner self.old node).who ≡ Controlling c) }
        requires long { length (inner self.old node).posts ≡ length (others_of (inner self.old node).who) }
        requires kept { length (inner self.old node).kept ≡ length (others_of (inner self.old node).who) }
        requires room { length (others_of (inner self.old node).who) < 65535 }
        ensures number { IfOk result (λ number. (c : Controls) → (inner self.old node).who ≡ Controlling c
            → number ≡ number_for c) }
        ensures joined { OnOk result (self.new ≡ slice_set self.old node (joined_inner agent (inner self.old node))) }
        ensures err { OnErr result (self.new ≡ self.old) }
    {
        match kind_of(self.controls.len(), node) {
            NodeRole::Control(place) => join_control(&mut self.controls[place], agent),
            NodeRole::Configuration => unreachable!(),
            NodeRole::Agent(_) => unreachable!(),
        }
    }

    /// Nothing is left but the configuration node.
    pub(crate) fn keep_first(&mut self)
        ensures first { self.new ≡ inner self.old 0 ∷ [] }
    {
        self.controls.clear();
        self.agents.clear();
    }

    /// A control node or an agent loses all that it has.
    pub(crate) fn restart(&mut self, node: u16)
        requires above { 0 < node }
        requires node { node < length self.old }
        requires long { length (inner self.old node).posts ≡ length (others_of (inner self.old node).who) }
        requires kept { length (inner self.old node).kept ≡ length (others_of (inner self.old node).who) }
        ensures { self.new ≡ slice_set self.old node (emptied_inner (inner self.old node)) }
    {
        match kind_of(self.controls.len(), node) {
            NodeRole::Configuration => (),
            NodeRole::Control(place) => restart_control(&mut self.controls[place]),
            NodeRole::Agent(place) => restart_agent(&mut self.agents[place]),
        }
    }

    /// The configuration that is valid now.
    pub(crate) fn valid(&self) -> &Valid
        ensures who { (inner self.now 0).who ≡ Configuring result.now }
        ensures some { 0 < length self.now }
    {
        self.config.valid()
    }

    /// Sets the valid configuration of the configuration node to another, of the same control nodes, and tells each of
    /// them what is wanted then.
    pub(crate) fn set_valid(
        &mut self,
        valid: Valid,
        links: &mut Links<FailingLink>,
    ) -> Result<(), NoMemory>
        requires same { (x : Checked) → (inner self.old 0).who ≡ Configuring x
            → valid.topology.controllers ≡ x.topology.controllers }
        requires long { length (inner self.old 0).posts ≡ length (others_of (inner self.old 0).who) }
        requires kept { length (inner self.old 0).kept ≡ length (others_of (inner self.old 0).who) }
        requires linked { length links.old ≡ length (others_of (inner self.old 0).who) }
        ensures some { 0 < length self.old }
        ensures one { ChangesOne 0 self.old self.new }
        ensures links { length links.new ≡ length links.old }
        ensures sets { IfOk result (λ _. SetsOver links.old links.new (inner self.old 0) (inner self.new 0) valid) }
    {
        set_config(&mut self.config, valid, links)
    }

    /// The tables of a control node or of an agent.
    pub(crate) fn rows(&self, node: u16) -> Result<NodeRows, NoMemory>
        requires above { 0 < node }
        requires node { node < length self.now }
        ensures { IfOk result (λ rows. rows ≡ shown (inner self.now node)) }
    {
        match kind_of(self.controls.len(), node) {
            NodeRole::Configuration => Err(NoMemory),
            NodeRole::Control(place) => show_control(&self.controls[place]),
            NodeRole::Agent(place) => show_agent(&self.agents[place]),
        }
    }

    /// The node of this number, where it is a control node.
    pub(crate) fn control(&self, node: u16) -> Option<&ControlNode>
        requires { node < length self.now }
        ensures { HoldsAs (option_copied result)
            (held_by (inner self.now node).who (inner self.now node).posts) }
    {
        match kind_of(self.controls.len(), node) {
            NodeRole::Configuration => None,
            NodeRole::Control(place) => Some(&self.controls[place]),
            NodeRole::Agent(_) => None,
        }
    }

    /// Where the agents send a packet.
    pub(crate) fn trace(&mut self, packet: Packet) -> Outcome
        requires { packet.source.0 ≤ 524271 }
        ensures outcome { result ≡ forwarding (forwarders self.old) packet }
        ensures same { self.new ≡ self.old }
    {
        packet_trace::trace(&mut self.agents, packet).outcome
    }
}
