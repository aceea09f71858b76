//! The nodes of a network, with their links.
ghost use Rattle.std.specs.Prelude.{◌≡◌, ◌<◌, ◌≤◌, ◌+◌, ◌^◌, [], drop, true, false, length, map, option_copied, slice_get};
ghost use Rattle.std.specs.Prelude.{slice_set, take, ℕ, Some, IfOk, IfSome, OnErr, OnOk};
ghost use Rattle.std.specs.List.{All, Contains, concat};
ghost use Rattle.ov_types.specs.First.{same_name};
ghost use Rattle.config_check.specs.Rules.{controller_names};
ghost use Rattle.config_check.specs.Checked.{Checked};
ghost use Rattle.running_nodes.specs.ConfigNode.Core.{fresh as fresh_config};
ghost use Rattle.node_core.specs.Whole.{Comes, session_of};
ghost use Rattle.route_targets.specs.Forwarding.{forwarding};
ghost use Rattle.running_nodes.specs.Seats as seats_of;
ghost use Rattle.running_nodes.specs.Seats.{Configuring, Seat, is_live, kept_at, link_at, live_at, notice_at, other, seat};
ghost use Rattle.running_nodes.specs.Seats.{Controlling, index_from, up_at, whos};
ghost use Rattle.running_nodes.specs.Controls.{Controls, first_agent};
ghost use Rattle.running_nodes.specs.Moving.{joined as joined_by_agent, reseated, seats_of as new_seats, vacated};
ghost use Rattle.running_nodes.specs.Steps.{Configures, Passes, Takes, emptied, forwarders_of, fresh_seat, shown_by};
ghost use Rattle.running_nodes.specs.Steps.{unbroken, untaken, with_break_at, with_link, with_notice, with_seat};
ghost use Rattle.running_nodes.specs.Changes.{IsAlone, unbroken_outer};
ghost use Rattle.running_nodes.specs.MachineModel.Setup.{Name as NameOf, opening};
ghost use Rattle.running_nodes.specs.Cores.{HoldsAs, held_by};
ghost use Rattle.running_nodes.specs.Halves.{AreAllHalves, AreHalves, inner, joined, whole};

use crate::cores::Cores;
use crate::edges::Edge;
use crate::finding::edge_named;
use crate::making::{add_all, reseat_agent};
use crate::place::SessionPlace;
use bytes::Bytes;
use config_check::Valid;
use config_node::ConfigNode;
use config_types::{Node, Topology};
use control_node::ControlNode;
use ov_link::Input;
use ov_types::{Name, NoMemory, NodeId, NodeRows, Outcome, Packet};
use std::alloc::Global;
use std::marker::Model;

/// A node takes an input on a session that is somebody's. The seats keep their halves, also where memory is wanting.
fn take_at(
    cores: &mut Cores,
    edges: &mut [Edge],
    node: u16,
    input: Input<'_>,
) -> Result<(), NoMemory>
    requires halves { AreAllHalves cores.old edges.old }
    requires node { node < length (joined cores.old edges.old) }
    requires session { session_of input < length (seat (joined cores.old edges.old) node).posts }
    requires taken { (b : NameOf) × (other (seat (joined cores.old edges.old) node) (session_of input) ≡ Some b) }
    requires comes { Comes (λ i. is_live (seat (joined cores.old edges.old) node) i ≡ true)
        (λ i. is_live (seat (joined cores.old edges.old) node) i ≡ false) input }
    ensures halves { AreAllHalves cores.new edges.new }
    ensures takes { IfOk result (λ _. (n' : Seat) × Takes (seat (joined cores.old edges.old) node) n' input.entry
        × (joined cores.new edges.new ≡ with_seat node n' (joined cores.old edges.old))) }
{
    let edge = &mut edges[usize::from(node)];
    cores.take(node, input, &mut edge.links)
}

/// A node that is not the configuration node loses all that it has.
fn restart_at(cores: &mut Cores, edges: &mut [Edge], node: u16)
    requires halves { AreAllHalves cores.old edges.old }
    requires above { 0 < node }
    requires node { node < length (joined cores.old edges.old) }
    ensures halves { AreAllHalves cores.new edges.new }
    ensures emptied { joined cores.new edges.new
        ≡ with_seat node (emptied (seat (joined cores.old edges.old) node)) (joined cores.old edges.old) }
{
    cores.restart(node);
    edges[usize::from(node)].restart();
}

/// Sets the valid configuration of the configuration node to another, of the same control nodes.
fn set_valid_at(cores: &mut Cores, edges: &mut [Edge], valid: Valid) -> Result<(), NoMemory>
    requires halves { AreAllHalves cores.old edges.old }
    requires same { (x : Checked) → (seat (joined cores.old edges.old) 0).who ≡ Configuring x
        → valid.topology.controllers ≡ x.topology.controllers }
    ensures halves { AreAllHalves cores.new edges.new }
    ensures configures { IfOk result (λ _. Configures (joined cores.old edges.old) valid (joined cores.new edges.new)) }
{
    // (for its clauses: the first node is the configuration node)
    let _valid = cores.valid();
    let edge = &mut edges[0];
    cores.set_valid(valid, &mut edge.links)
}

/// The agent of this name goes from its session with a control node, whose ends these are.
fn leave_over(
    cores: &mut Cores,
    edge: &mut Edge,
    place: SessionPlace,
    name: &Name,
) -> Result<(), NoMemory>
    requires node { place.node < length cores.old }
    requires halves { AreHalves (inner cores.old place.node) edge.old }
    requires alone { IsAlone name.now place.session (inner cores.old place.node) }
    ensures one { cores.new ≡ slice_set cores.old place.node (inner cores.new place.node) }
    ensures halves { AreHalves (inner cores.new place.node) edge.new }
    ensures left { IfOk result (λ _. whole (inner cores.new place.node) edge.new
        ≡ vacated name.now (whole (inner cores.old place.node) edge.old)) }
{
    cores.leave(place.node, place.session, name)?;
    edge.empty(place.session);
    edge.set_other(place.session, None);
    Ok(())
}

/// The agent of this name goes from its session with a control node.
fn leave_at(
    cores: &mut Cores,
    edges: &mut [Edge],
    place: SessionPlace,
    name: &Name,
) -> Result<(), NoMemory>
    requires halves { AreAllHalves cores.old edges.old }
    requires node { place.node < length (joined cores.old edges.old) }
    requires alone { IsAlone name.now place.session (inner cores.old place.node) }
    ensures halves { AreAllHalves cores.new edges.new }
    ensures left { IfOk result (λ _. joined cores.new edges.new
        ≡ with_seat place.node (vacated name.now (seat (joined cores.old edges.old) place.node))
        (joined cores.old edges.old)) }
{
    leave_over(cores, &mut edges[usize::from(place.node)], place, name)
}

/// A control node tells each of its sessions what it wants now. The seats keep their halves, also where memory is wanting.
fn tell_at(cores: &mut Cores, edges: &mut [Edge], node: u16) -> Result<(), NoMemory>
    requires halves { AreAllHalves cores.old edges.old }
    requires node { node < length (joined cores.old edges.old) }
    requires control { (c : Controls) × ((seat (joined cores.old edges.old) node).who ≡ Controlling c) }
    ensures halves { AreAllHalves cores.new edges.new }
    ensures passes { IfOk result (λ _. (n' : Seat) × Passes (seat (joined cores.old edges.old) node) n'
        × (joined cores.new edges.new ≡ with_seat node n' (joined cores.old edges.old))) }
{
    let edge = &mut edges[usize::from(node)];
    cores.tell(node, &mut edge.links)
}

/// An agent comes to a control node, whose ends these are. Where memory is wanting, the two may not agree.
fn join_over(cores: &mut Cores, edge: &mut Edge, node: u16, agent: NodeId) -> Result<(), NoMemory>
    requires node { node < length cores.old }
    requires halves { AreHalves (inner cores.old node) edge.old }
    requires control { (c : Controls) × ((inner cores.old node).who ≡ Controlling c) }
    requires room { length (inner cores.old node).posts < 65535 }
    ensures one { cores.new ≡ slice_set cores.old node (inner cores.new node) }
    ensures halves { OnOk result (AreHalves (inner cores.new node) edge.new) }
    ensures joined { OnOk result (whole (inner cores.new node) edge.new
        ≡ joined_by_agent agent (whole (inner cores.old node) edge.old)) }
{
    let name = agent.name;
    let number = cores.join(node, agent)?;
    edge.join(number, name)
}

/// An agent comes to a control node. Where memory is wanting, nothing is left but the configuration node.
fn join_at(
    cores: &mut Cores,
    edges: &mut Vec<Edge>,
    node: u16,
    agent: NodeId,
) -> Result<(), NoMemory>
    requires halves { AreAllHalves cores.old edges.old.items }
    requires few { length edges.old.items < 2 ^ 16 }
    requires node { node < length (joined cores.old edges.old.items) }
    requires control { (c : Controls) × ((seat (joined cores.old edges.old.items) node).who ≡ Controlling c) }
    requires room { length (seat (joined cores.old edges.old.items) node).posts < 65535 }
    ensures halves { AreAllHalves cores.new edges.new.items }
    ensures few { length edges.new.items < 2 ^ 16 }
    ensures joined { IfOk result (λ _. joined cores.new edges.new.items
        ≡ with_seat node (joined_by_agent agent (seat (joined cores.old edges.old.items) node))
        (joined cores.old edges.old.items)) }
{
    // (for its clauses: the first node is the configuration node)
    let _valid = cores.valid();
    match join_over(cores, &mut edges[usize::from(node)], node, agent) {
        Ok(()) => Ok(()),
        Err(NoMemory) => {
            cores.keep_first();
            edges.truncate(1);
            Err(NoMemory)
        }
    }
}

/// The place among the agents of the one of this name, where their edges come behind so many others.
fn agent_named(edges: &[Edge], first: usize, name: &Name) -> Option<u16>
    requires within { first ≤ length edges.now }
    requires few { length edges.now < 2 ^ 16 }
    ensures { result ≡ index_from 0 (λ e. same_name e.name name.now) (drop first edges.now) }
{
    edge_named(&edges[first..], name)
}

/// Puts another agent, or none, in the place of the first one of a name, or behind all where none has the name.
fn reseat_at(
    cores: &mut Cores,
    edges: &mut Vec<Edge>,
    alloc: Global,
    topology: &Topology,
    name: &Name,
    node: Option<&Node>,
) -> Result<(), NoMemory>
    requires halves { AreAllHalves cores.old edges.old.items }
    requires few { length edges.old.items < 65535 }
    requires listed { IfSome (option_copied node) (λ n. All (Contains (controller_names topology.now)) n.controllers) }
    requires two { IfSome (option_copied node) (λ n. length n.controllers ≤ 2) }
    ensures halves { AreAllHalves cores.new edges.new.items }
    ensures few { length edges.new.items < 2 ^ 16 }
    ensures reseated { IfOk result (λ _. joined cores.new edges.new.items
        ≡ reseated name.now (new_seats topology.now (option_copied node.entry)) (joined cores.old edges.old.items)) }
{
    let first = 1 + cores.controls.len();
    let place = agent_named(edges, first, name);
    reseat_agent(
        alloc,
        topology,
        place,
        node,
        first,
        &mut cores.agents,
        edges,
    )
}

/// The nodes of a network, each with a link for each of its sessions on which sends may fail, which contracts see as
/// their seats. An agent forwards packets by what it holds.
#[derive(Drop)]
pub struct Nodes {
    cores: Cores,
    edges: Vec<Edge>,
    failed: bool,
}

impl Model for Nodes {
    ghost use Rattle.std.specs.Prelude.{◌<◌, ◌^◌, length};
    ghost use Rattle.running_nodes.specs.Codes.{coded_standing};
    ghost use Rattle.running_nodes.specs.Halves.{AreAllHalves, Standing, joined};

    ghost Value = { Standing };

    ghost coded = { coded_standing };

    ghost view = { λ n. record { seats = joined n.cores n.edges.items; failed = n.failed } };

    ghost invariant = { λ n. AreAllHalves n.cores n.edges.items × (length n.edges.items < 2 ^ 16) };
}

/// No send is to fail any more.
fn drop_all_breaks(edges: &mut [Edge])
    ensures { edges.new ≡ map unbroken_outer edges.old }
{
    for index in 0..edges.len() {
        edges[index].drop_breaks();
    }
}

/// The nodes of what is valid at the configuration node, which has nothing.
fn with_config(alloc: Global, config: ConfigNode) -> Result<Nodes, NoMemory>
    requires { config ≡ fresh_config config.setup }
    ensures seats { IfOk result (λ nodes. nodes.seats ≡ map fresh_seat (whos (opening config.setup))) }
    ensures works { IfOk result (λ nodes. nodes.failed ≡ false) }
{
    let mut controls = Vec::new(alloc);
    let mut agents = Vec::new(alloc);
    let mut edges = Vec::new(alloc);
    add_all(
        alloc,
        config.valid(),
        &mut controls,
        &mut agents,
        &mut edges,
    )?;
    let cores = Cores {
        config,
        controls,
        agents,
    };
    Ok(Nodes {
        cores,
        edges,
        failed: false,
    })
}

impl Nodes {
    /// The nodes of a valid topology. Every session is idle, and nothing is in flight.
    pub fn new(alloc: Global, valid: Valid) -> Result<Nodes, NoMemory>
        ensures seats { IfOk result (λ nodes. nodes.seats ≡ map fresh_seat (whos (opening valid))) }
        ensures works { IfOk result (λ nodes. nodes.failed ≡ false) }
    {
        let config = ConfigNode::new(alloc, valid)?;
        with_config(alloc, config)
    }

    /// How many sessions a node has.
    pub fn sessions(&self, node: u16) -> u16
        requires { node < length self.now.seats }
        ensures { result ≡ length (seat self.now.seats node).posts }
    {
        self.edges[usize::from(node)].sessions()
    }

    /// The first node's end of its session with the second.
    pub fn place_of(&self, a: &Name, b: &Name) -> Option<SessionPlace>
        ensures { result ≡ seats_of.place_of self.now.seats a.now b.now }
    {
        match edge_named(&self.edges, a) {
            None => None,
            Some(node) => match self.edges[usize::from(node)].session_with(b) {
                None => None,
                Some(session) => Some(SessionPlace { node, session }),
            },
        }
    }

    /// The place at the other end of a session, where there is somebody.
    pub fn far_of(&self, place: SessionPlace) -> Option<SessionPlace>
        requires node { place.node < length self.now.seats }
        requires session { place.session < length (seat self.now.seats place.node).posts }
        ensures { result ≡ seats_of.far_of self.now.seats place }
    {
        let edge = &self.edges[usize::from(place.node)];
        match edge.other(place.session) {
            None => None,
            Some(name) => self.place_of(&name, edge.name()),
        }
    }

    /// The number of the node of this name.
    pub fn seat_named(&self, name: &Name) -> Option<u16>
        ensures { result ≡ seats_of.seat_named self.now.seats name.now }
    {
        edge_named(&self.edges, name)
    }

    pub fn is_live(&self, place: SessionPlace) -> bool
        requires node { place.node < length self.now.seats }
        requires session { place.session < length (seat self.now.seats place.node).posts }
        ensures { result ≡ live_at self.now.seats place }
    {
        self.cores.is_live(place.node, place.session)
    }

    pub fn is_up(&self, place: SessionPlace) -> bool
        requires node { place.node < length self.now.seats }
        requires session { place.session < length (seat self.now.seats place.node).posts }
        ensures { result ≡ up_at self.now.seats place }
    {
        self.cores.is_up(place.node, place.session)
    }

    /// Whether a notice of loss waits at an end.
    pub fn has_notice(&self, place: SessionPlace) -> bool
        requires node { place.node < length self.now.seats }
        requires session { place.session < length (seat self.now.seats place.node).posts }
        ensures { result ≡ notice_at self.now.seats place }
    {
        self.edges[usize::from(place.node)].has_notice(place.session)
    }

    /// How many messages left an end and were not taken.
    pub fn sent(&self, place: SessionPlace) -> usize
        requires node { place.node < length self.now.seats }
        requires session { place.session < length (seat self.now.seats place.node).posts }
        ensures { result ≡ length (link_at self.now.seats place) }
    {
        self.edges[usize::from(place.node)].sent(place.session)
    }

    /// How many octets the node of an end keeps there: those of a message that is not whole yet.
    pub fn kept(&self, place: SessionPlace) -> usize
        requires node { place.node < length self.now.seats }
        requires session { place.session < length (seat self.now.seats place.node).posts }
        ensures { result ≡ length (kept_at self.now.seats place) }
    {
        self.cores.pending(place.node, place.session)
    }

    pub fn set_notice(&mut self, place: SessionPlace, waits: bool)
        requires node { place.node < length self.old.seats }
        requires session { place.session < length (seat self.old.seats place.node).posts }
        ensures set { self.new.seats ≡ with_notice place waits self.old.seats }
        ensures failed { self.new.failed ≡ self.old.failed }
    {
        self.edges[usize::from(place.node)].set_notice(place.session, waits);
    }

    /// Takes out the first message that left an end.
    pub fn pop(&mut self, place: SessionPlace) -> Option<Bytes>
        requires node { place.node < length self.old.seats }
        requires session { place.session < length (seat self.old.seats place.node).posts }
        ensures first { result ≡ slice_get (link_at self.old.seats place) 0 }
        ensures rest { self.new.seats ≡ with_link place (drop 1 (link_at self.old.seats place)) self.old.seats }
        ensures failed { self.new.failed ≡ self.old.failed }
    {
        self.edges[usize::from(place.node)].pop(place.session)
    }

    /// Takes out n octets that left an end, or all where there are fewer, behind those that are passed over, as they
    /// were taken before. A message leaves with its last octet.
    pub fn take_octets(
        &mut self,
        alloc: Global,
        place: SessionPlace,
        skip: usize,
        n: usize,
    ) -> Result<Vec<u8>, NoMemory>
        requires node { place.node < length self.old.seats }
        requires session { place.session < length (seat self.old.seats place.node).posts }
        ensures octets { IfOk result (λ octets. octets.items
            ≡ take n (drop skip (concat (link_at self.old.seats place)))) }
        ensures rest { IfOk result (λ _. self.new.seats
            ≡ with_link place (untaken (skip + n) (link_at self.old.seats place)) self.old.seats) }
        ensures failed { IfOk result (λ _. self.new.failed ≡ self.old.failed) }
    {
        match self.edges[usize::from(place.node)].take_octets(alloc, place.session, skip, n) {
            Ok(octets) => Ok(octets),
            Err(NoMemory) => {
                self.failed = true;
                Err(NoMemory)
            }
        }
    }

    /// The n-th send from now on fails at an end. Where memory is wanting nothing changes.
    pub fn add_break(&mut self, place: SessionPlace, n: u32) -> Result<(), NoMemory>
        requires node { place.node < length self.old.seats }
        requires session { place.session < length (seat self.old.seats place.node).posts }
        requires some { 1 ≤ n }
        ensures ok { OnOk result (self.new.seats ≡ with_break_at place n self.old.seats) }
        ensures err { OnErr result (self.new.seats ≡ self.old.seats) }
        ensures failed { self.new.failed ≡ self.old.failed }
    {
        self.edges[usize::from(place.node)].add_break(place.session, n)
    }

    /// No send is to fail any more.
    pub fn drop_breaks(&mut self)
        ensures dropped { self.new.seats ≡ map unbroken self.old.seats }
        ensures failed { self.new.failed ≡ self.old.failed }
    {
        drop_all_breaks(&mut self.edges);
    }

    /// Takes out all messages that left an end.
    pub fn clear(&mut self, place: SessionPlace)
        requires node { place.node < length self.old.seats }
        requires session { place.session < length (seat self.old.seats place.node).posts }
        ensures cleared { self.new.seats ≡ with_link place [] self.old.seats }
        ensures failed { self.new.failed ≡ self.old.failed }
    {
        self.edges[usize::from(place.node)].clear(place.session);
    }

    /// A node takes an input on a session that is somebody's, and tells each of its sessions what it wants then.
    pub fn take(&mut self, node: u16, input: Input<'_>) -> Result<(), NoMemory>
        requires node { node < length self.old.seats }
        requires session { session_of input < length (seat self.old.seats node).posts }
        requires taken { (b : NameOf) × (other (seat self.old.seats node) (session_of input) ≡ Some b) }
        requires comes { Comes (λ i. is_live (seat self.old.seats node) i ≡ true)
            (λ i. is_live (seat self.old.seats node) i ≡ false) input }
        ensures takes { IfOk result (λ _. (n' : Seat) × Takes (seat self.old.seats node) n' input.entry
            × (self.new.seats ≡ with_seat node n' self.old.seats)) }
        ensures failed { IfOk result (λ _. self.new.failed ≡ self.old.failed) }
    {
        match take_at(&mut self.cores, &mut self.edges, node, input) {
            Ok(()) => Ok(()),
            Err(NoMemory) => {
                self.failed = true;
                Err(NoMemory)
            }
        }
    }

    /// A node that is not the configuration node loses all that it has, with the messages that left it and the notices
    /// at its ends. Which of its sends are to fail stays.
    pub fn restart(&mut self, node: u16)
        requires above { 0 < node }
        requires node { node < length self.old.seats }
        ensures emptied { self.new.seats ≡ with_seat node (emptied (seat self.old.seats node)) self.old.seats }
        ensures failed { self.old.failed ≡ false → self.new.failed ≡ false }
    {
        restart_at(&mut self.cores, &mut self.edges, node);
    }

    /// The configuration that is valid now, with its topology.
    pub fn valid(&self) -> &Valid
        ensures { (seat self.now.seats 0).who ≡ Configuring result.now }
    {
        self.cores.valid()
    }

    /// Sets the valid configuration of the configuration node to another, of the same control nodes, and tells each of
    /// them what is wanted then.
    pub fn set_valid(&mut self, valid: Valid) -> Result<(), NoMemory>
        requires same { (x : Checked) → (seat self.old.seats 0).who ≡ Configuring x
            → valid.topology.controllers ≡ x.topology.controllers }
        ensures configures { IfOk result (λ _. Configures self.old.seats valid self.new.seats) }
        ensures failed { IfOk result (λ _. self.new.failed ≡ self.old.failed) }
    {
        match set_valid_at(&mut self.cores, &mut self.edges, valid) {
            Ok(()) => Ok(()),
            Err(NoMemory) => {
                self.failed = true;
                Err(NoMemory)
            }
        }
    }

    /// The agent of this name goes from its session with a control node: at its place there is nothing then and nobody.
    /// Nobody is told yet of what is wanted without it.
    pub fn retire_agent(&mut self, place: SessionPlace, name: &Name) -> Result<(), NoMemory>
        requires node { place.node < length self.old.seats }
        requires agent { (c : Controls) × ((seat self.old.seats place.node).who ≡ Controlling c)
            × (first_agent c ≤ place.session) }
        requires there { other (seat self.old.seats place.node) place.session ≡ Some name.now }
        requires alone { (i : ℕ) → other (seat self.old.seats place.node) i ≡ Some name.now → i ≡ place.session }
        ensures left { IfOk result (λ _. self.new.seats
            ≡ with_seat place.node (vacated name.now (seat self.old.seats place.node)) self.old.seats) }
        ensures failed { IfOk result (λ _. self.new.failed ≡ self.old.failed) }
    {
        match leave_at(&mut self.cores, &mut self.edges, place, name) {
            Ok(()) => Ok(()),
            Err(NoMemory) => {
                self.failed = true;
                Err(NoMemory)
            }
        }
    }

    /// A control node makes its pass: it tells each of its sessions what it wants now.
    pub fn tell(&mut self, node: u16) -> Result<(), NoMemory>
        requires node { node < length self.old.seats }
        requires control { (c : Controls) × ((seat self.old.seats node).who ≡ Controlling c) }
        ensures passes { IfOk result (λ _. (n' : Seat) × Passes (seat self.old.seats node) n'
            × (self.new.seats ≡ with_seat node n' self.old.seats)) }
        ensures failed { IfOk result (λ _. self.new.failed ≡ self.old.failed) }
    {
        match tell_at(&mut self.cores, &mut self.edges, node) {
            Ok(()) => Ok(()),
            Err(NoMemory) => {
                self.failed = true;
                Err(NoMemory)
            }
        }
    }

    /// Puts another agent, or none, in the place of the first one of a name, or behind all where none has the name.
    pub fn reseat(
        &mut self,
        alloc: Global,
        topology: &Topology,
        name: Name,
        node: Option<&Node>,
    ) -> Result<(), NoMemory>
        requires few { length self.old.seats < 65535 }
        requires listed { IfSome (option_copied node) (λ n.
            All (Contains (controller_names topology.now)) n.controllers) }
        requires two { IfSome (option_copied node) (λ n. length n.controllers ≤ 2) }
        ensures reseated { IfOk result (λ _. self.new.seats
            ≡ reseated name (new_seats topology.now (option_copied node.entry)) self.old.seats) }
        ensures failed { IfOk result (λ _. self.new.failed ≡ self.old.failed) }
    {
        match reseat_at(
            &mut self.cores,
            &mut self.edges,
            alloc,
            topology,
            &name,
            node,
        ) {
            Ok(()) => Ok(()),
            Err(NoMemory) => {
                self.failed = true;
                Err(NoMemory)
            }
        }
    }

    /// An agent comes to a control node: it has the session with the least number that is nobody's, or one more, at
    /// which there is nothing.
    pub fn add_agent(&mut self, node: u16, agent: NodeId) -> Result<(), NoMemory>
        requires node { node < length self.old.seats }
        requires control { (c : Controls) × ((seat self.old.seats node).who ≡ Controlling c) }
        requires room { length (seat self.old.seats node).posts < 65535 }
        ensures joined { IfOk result (λ _. self.new.seats
            ≡ with_seat node (joined_by_agent agent (seat self.old.seats node)) self.old.seats) }
        ensures failed { IfOk result (λ _. self.new.failed ≡ self.old.failed) }
    {
        match join_at(&mut self.cores, &mut self.edges, node, agent) {
            Ok(()) => Ok(()),
            Err(NoMemory) => {
                self.failed = true;
                Err(NoMemory)
            }
        }
    }

    /// The tables of a control node or of an agent.
    pub fn rows(&self, node: u16) -> Result<NodeRows, NoMemory>
        requires above { 0 < node }
        requires node { node < length self.now.seats }
        requires works { self.now.failed ≡ false }
        ensures { IfOk result (λ rows. rows ≡ shown_by (seat self.now.seats node)) }
    {
        self.cores.rows(node)
    }

    /// The node of this number, where it is a control node.
    pub fn control(&self, node: u16) -> Option<&ControlNode>
        requires { node < length self.now.seats }
        ensures { HoldsAs (option_copied result)
            (held_by (seat self.now.seats node).who (seat self.now.seats node).posts) }
    {
        self.cores.control(node)
    }

    /// Where the agents send a packet.
    pub fn trace(&mut self, packet: Packet) -> Outcome
        requires source { packet.source.0 ≤ 524271 }
        requires works { self.old.failed ≡ false }
        ensures outcome { result ≡ forwarding (forwarders_of self.old.seats) packet }
        ensures same { self.new.seats ≡ self.old.seats }
        ensures failed { self.new.failed ≡ self.old.failed }
    {
        self.cores.trace(packet)
    }
}
