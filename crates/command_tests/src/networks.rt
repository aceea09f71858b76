//! The network that a run leaves.

use crate::fault::CaseFault;
use config_types::Event;
use ov_io::TextOut;
use ov_types::{Name, NoMemory};
use rt_constrain::{Asked, asked};
use std::alloc::Global;
use top_call::Net;

/// Tells the number of the system, the events that were taken, and whether all is settled.
pub(crate) fn tell_network(net: &Option<Net>, out: &mut TextOut) -> Result<(), CaseFault> {
    match net {
        Some(net) => tell_left(net, out),
        None => Ok(out.push(b" / no network")?),
    }
}

fn tell_left(net: &Net, out: &mut TextOut) -> Result<(), CaseFault> {
    let asn = net.opening().topology().asn;
    write!(out, " / as {asn}")?;
    push_events(net.events(), out)?;
    Ok(out.push(state_of(net).as_bytes())?)
}

fn push_events(events: &[Event], out: &mut TextOut) -> Result<(), CaseFault> {
    for event in events {
        out.push(word_of(event).as_bytes())?;
    }
    Ok(())
}

fn word_of(event: &Event) -> &'static str {
    match event {
        Event::Edit(_) => " / edit",
        Event::Deliver { .. } => " / deliver",
        Event::DeliverOctets { .. } => " / octets",
        Event::Lose { .. } => " / lose",
        Event::Connect { .. } => " / connect",
        Event::Restart { .. } => " / restart",
        Event::Round => " / round",
        Event::Settle => " / settle",
        Event::Show { .. } => " / show",
        Event::Trace(_) => " / trace",
        Event::Break { .. } => " / break",
    }
}

fn state_of(net: &Net) -> &'static str {
    if net.failed() {
        return " / failed";
    }
    if net.settled() {
        " / settled"
    } else {
        " / not settled"
    }
}

/// Tells what a control node of the network asks of its peers.
pub(crate) fn tell_asked(
    alloc: Global,
    net: &Option<Net>,
    node: &str,
    out: &mut TextOut,
) -> Result<(), CaseFault> {
    match net {
        Some(net) => tell_asked_in(alloc, net, node, out),
        None => Ok(out.push(b" / no network")?),
    }
}

fn tell_asked_in(alloc: Global, net: &Net, node: &str, out: &mut TextOut) -> Result<(), CaseFault> {
    if net.failed() {
        return Err(CaseFault::NoMemory);
    }
    let name = Name::new(node).ok_or(CaseFault::Unreadable)?;
    let tables = net.control(&name).ok_or(CaseFault::Unreadable)?.tables();
    let entries = asked(alloc, tables, tables.asn())?;
    for entry in entries.as_slice() {
        push_asked(entry, out)?;
    }
    Ok(())
}

/// The length, who asks, and the eight octets of the target.
fn push_asked(asked: &Asked, out: &mut TextOut) -> Result<(), NoMemory> {
    let length = asked.length;
    let origin = asked.origin;
    let target = asked.target.0;
    write!(out, " / {length} {origin} {target:016x}")
}
