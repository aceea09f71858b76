//! Agents.

use crate::answers::{push_session, push_stepped};
use crate::flows::{packet, tell_flows, tell_verdict, tell_verdicts};
use crate::nodes::Node;
use crate::words::{id, ids};
use agent_node::{AgentNode, AgentPlan};
use case_lines::{CaseFault, address, begin, both, number, short_number, told};
use ov_io::TextOut;
use ov_link::{FailingLink, Input, Links};
use ov_types::{
    AgentRows, Attached, Entry, InstanceId, Items, Label, Low, LowKey, NoMemory, NodeId, Outcome,
    Prefix, ServiceNo,
};
use packet_trace::{Hop, Trace, Vrouter, trace};
use std::alloc::Global;

/// An agent with these control nodes.
fn made_of(alloc: Global, me: NodeId, controllers: Items<NodeId>) -> Result<AgentNode, CaseFault> {
    if controllers.len() > 2 {
        return Err(CaseFault::Unreadable);
    }
    Ok(AgentNode::new(alloc, AgentPlan { me, controllers })?)
}

fn push_attached(attached: Attached, out: &mut TextOut) -> Result<(), NoMemory> {
    match attached {
        Attached::Port { port, instance } => write!(out, "port {port} of {instance}"),
        Attached::Circuit { circuit, service } => write!(out, "circuit {circuit} of {service}"),
    }
}

fn push_entry(entry: Entry, out: &mut TextOut) -> Result<(), NoMemory> {
    let next_hop = entry.next_hop;
    let label = entry.label;
    write!(out, "{next_hop} {label}")
}

fn push_labels(labels: &[(Label, Attached)], out: &mut TextOut) -> Result<(), NoMemory> {
    for (label, attached) in labels {
        begin(out)?;
        write!(out, "label {label} ")?;
        push_attached(*attached, out)?;
    }
    Ok(())
}

fn push_lists(lists: &Low, out: &mut TextOut) -> Result<(), NoMemory> {
    for (key, _list) in lists.as_slice() {
        begin(out)?;
        push_list(key, out)?;
    }
    Ok(())
}

fn push_list(key: &LowKey, out: &mut TextOut) -> Result<(), NoMemory> {
    match key {
        LowKey::Acl { from, to } => write!(out, "list {from} {to}"),
        _ => out.push(b"no list"),
    }
}

fn push_routes(
    routes: &[((InstanceId, Prefix), Entry)],
    out: &mut TextOut,
) -> Result<(), NoMemory> {
    for ((instance, prefix), entry) in routes {
        begin(out)?;
        write!(out, "route {instance} {prefix} ")?;
        push_entry(*entry, out)?;
    }
    Ok(())
}

fn push_rows(rows: &AgentRows, out: &mut TextOut) -> Result<(), NoMemory> {
    push_labels(rows.labels.as_slice(), out)?;
    push_lists(&rows.acls, out)?;
    push_routes(rows.routes.as_slice(), out)
}

fn tell_rows(node: &AgentNode, out: &mut TextOut) -> Result<(), CaseFault> {
    let rows = node.rows()?;
    told(push_rows(&rows, out))
}

/// What a label leads to, if to anything.
fn tell_label(node: &AgentNode, label: u32, out: &mut TextOut) -> Result<(), CaseFault> {
    match node.find(Label(label)) {
        Some(attached) => told(push_attached(attached, out)),
        None => Ok(()),
    }
}

/// Where an instance leads an address, if anywhere.
fn tell_route(node: &AgentNode, given: &str, out: &mut TextOut) -> Result<(), CaseFault> {
    let (instance, to) = both(given)?;
    match node.route(InstanceId(short_number(instance)?), address(to)?) {
        Some(entry) => told(push_entry(entry, out)),
        None => Ok(()),
    }
}

fn push_hops(hops: &[Hop], out: &mut TextOut) -> Result<(), NoMemory> {
    for hop in hops {
        let node = hop.node;
        let instance = hop.instance;
        begin(out)?;
        write!(out, "{node}:{instance}")?;
    }
    Ok(())
}

fn push_services(services: &[ServiceNo], out: &mut TextOut) -> Result<(), NoMemory> {
    for service in services {
        write!(out, " past {service}")?;
    }
    Ok(())
}

fn push_outcome(outcome: &Outcome, out: &mut TextOut) -> Result<(), NoMemory> {
    begin(out)?;
    match outcome {
        Outcome::Delivered { port, services } => {
            write!(out, "port {port}")?;
            push_services(services.as_slice(), out)
        }
        Outcome::Dropped { why } => write!(out, "{why:?}"),
    }
}

/// The hops of a packet, and what becomes of it.
fn push_trace(trace: &Trace, out: &mut TextOut) -> Result<(), NoMemory> {
    push_hops(trace.hops.as_slice(), out)?;
    push_outcome(&trace.outcome, out)
}

impl Node for AgentNode {
    /// The agent, and behind a word its control nodes.
    fn made(alloc: Global, words: &str) -> Result<AgentNode, CaseFault> {
        let (me, controllers) = words.split_once(" under").ok_or(CaseFault::Unreadable)?;
        made_of(alloc, id(me)?, ids(alloc, controllers)?)
    }

    fn session_count(&self) -> u16 {
        self.sessions()
    }

    fn open(
        &mut self,
        links: &mut Links<FailingLink>,
        session: u16,
        out: &mut TextOut,
    ) -> Result<(), CaseFault> {
        if links.len() != self.sessions() || session >= self.sessions() {
            return Err(CaseFault::Unreadable);
        }
        if self.is_live(session) {
            return Err(CaseFault::Unreadable);
        }
        push_stepped(self.step(Input::Opened { session }, links), out)
    }

    fn lose(
        &mut self,
        links: &mut Links<FailingLink>,
        session: u16,
        out: &mut TextOut,
    ) -> Result<(), CaseFault> {
        if links.len() != self.sessions() || session >= self.sessions() {
            return Err(CaseFault::Unreadable);
        }
        if !self.is_live(session) {
            return Err(CaseFault::Unreadable);
        }
        push_stepped(self.step(Input::Closed { session }, links), out)
    }

    fn hear(
        &mut self,
        links: &mut Links<FailingLink>,
        session: u16,
        bytes: &[u8],
        out: &mut TextOut,
    ) -> Result<(), CaseFault> {
        if links.len() != self.sessions() || session >= self.sessions() {
            return Err(CaseFault::Unreadable);
        }
        if !self.is_live(session) {
            return Err(CaseFault::Unreadable);
        }
        push_stepped(self.step(Input::Bytes { session, bytes }, links), out)
    }

    fn tell_session(&self, session: u16, out: &mut TextOut) -> Result<(), CaseFault> {
        if session >= self.sessions() {
            return Err(CaseFault::Unreadable);
        }
        push_session(
            self.is_live(session),
            self.is_up(session),
            self.pending(session),
            out,
        )
    }

    fn make(
        &mut self,
        alloc: Global,
        _links: &mut Links<FailingLink>,
        word: &str,
        given: &str,
        out: &mut TextOut,
    ) -> Result<(), CaseFault> {
        match word {
            "address" => told(write!(out, "{}", self.address())),
            "rows" => tell_rows(self, out),
            "label" => tell_label(self, number(given)?, out),
            "route" => tell_route(self, given, out),
            "verdict" => tell_verdict(self, given, out),
            "verdicts" => tell_verdicts(alloc, self, given, out),
            "flows" => tell_flows(alloc, self, out),
            "has-failed" => told(write!(out, "{}", self.failed())),
            "restart" => {
                self.restart();
                told(out.push(b"done"))
            }
            _ => Err(CaseFault::Unreadable),
        }
    }

    /// The number of a port, and an address to which a packet leaves it.
    fn trace(nodes: &mut [AgentNode], given: &str, out: &mut TextOut) -> Result<(), CaseFault> {
        let (source, destination) = both(given)?;
        let packet = packet(short_number(source)?, address(destination)?);
        told(push_trace(&trace(nodes, packet), out))
    }
}
