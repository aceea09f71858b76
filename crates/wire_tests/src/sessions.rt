//! What sessions of BGP do at their inputs.

use crate::updates::push_deltas;
use bgp_session::{Cause, Reply, Session, SessionEvent, State};
use bgp_wire::{WireFault, read_message};
use case_lines::{CaseFault, octets, told};
use ov_io::TextOut;
use ov_types::{Addr, Name, NoMemory, NodeId};
use std::alloc::Global;

/// Autonomous system 64512, with numbers of two octets.
static OPEN: &str = "M 001d 01 04 fc00 0000 c0000202 00";

static OPEN_OF_ANOTHER_SYSTEM: &str = "M 001d 01 04 fc01 0000 c0000202 00";

static OPEN_OF_ANOTHER_NODE: &str = "M 001d 01 04 fc00 0000 c0000203 00";

static KEEPALIVE: &str = "M 0013 04";

/// The route of 10.1.0.5/32, distinguisher 192.0.2.11:1, is withdrawn.
static UPDATE: &str = "M 002d 02 0000 0016 800f13 000180 78 800000 0001c000020b0001 0a010005";

/// ORIGIN 3.
static WRONG_UPDATE: &str = "M 001b 02 0000 0004 40010103";

static NOTIFICATION: &str = "M 0015 03 0602";

static BAD_FRAME: &str = "M 0013 05";

fn tell_input(
    alloc: Global,
    session: &mut Session,
    input: &str,
    out: &mut TextOut,
) -> Result<(), CaseFault> {
    match at_input(alloc, session, input) {
        Ok(event) => told(push_ended(&event, out)),
        Err(fault) => Err(fault),
    }
}

fn push_ended(event: &SessionEvent, out: &mut TextOut) -> Result<(), NoMemory> {
    push_event(event, out)?;
    out.push(b"; ")
}

fn tell_inputs(
    alloc: Global,
    session: &mut Session,
    given: &str,
    out: &mut TextOut,
) -> Result<(), CaseFault> {
    for input in given.split(";") {
        tell_input(alloc, session, input.trim(), out)?;
    }
    told(out.push(name_of(session.state())))
}

/// What a session of the autonomous system 64512 with the peer 192.0.2.2 does at the inputs, which stand between semicolons, and
/// the state that it is left in.
pub(crate) fn tell_session(alloc: Global, given: &str, out: &mut TextOut) -> Result<(), CaseFault> {
    let mut session = Session::new(64512, peer()?);
    tell_inputs(alloc, &mut session, given, out)
}

pub(crate) fn peer() -> Result<NodeId, CaseFault> {
    Ok(NodeId {
        name: Name::new("c2").ok_or(CaseFault::Unreadable)?,
        address: Addr(0xc000_0202),
    })
}

pub(crate) fn name_of(state: State) -> &'static [u8] {
    match state {
        State::Idle => b"Idle",
        State::OpenSent => b"OpenSent",
        State::OpenConfirm => b"OpenConfirm",
        State::Established => b"Established",
    }
}

/// The octets of an input that has a name.
fn spelled(input: &str) -> &str {
    match input {
        "open" => OPEN,
        "open of another system" => OPEN_OF_ANOTHER_SYSTEM,
        "open of another node" => OPEN_OF_ANOTHER_NODE,
        "keepalive" => KEEPALIVE,
        "update" => UPDATE,
        "wrong update" => WRONG_UPDATE,
        "notification" => NOTIFICATION,
        "bad frame" => BAD_FRAME,
        _ => input,
    }
}

fn at_input(alloc: Global, session: &mut Session, input: &str) -> Result<SessionEvent, CaseFault> {
    match input {
        "opened" => Ok(session.opened()),
        "closed" => Ok(session.closed()),
        _ => at_octets(alloc, session, spelled(input)),
    }
}

fn at_octets(alloc: Global, session: &mut Session, input: &str) -> Result<SessionEvent, CaseFault> {
    let octets = octets(alloc, input)?;
    match read_message(octets.as_slice()) {
        Ok(Some((message, _))) => Ok(session.message(alloc, &message)?),
        Ok(None) => Err(CaseFault::Unreadable),
        Err(fault) => Ok(session.fault(fault)),
    }
}

fn push_event(event: &SessionEvent, out: &mut TextOut) -> Result<(), NoMemory> {
    match event {
        SessionEvent::Quiet => out.push(b"-"),
        SessionEvent::Send(Reply::Hello) => out.push(b"send open"),
        SessionEvent::Send(Reply::Keepalive) => out.push(b"send keepalive"),
        SessionEvent::Up => out.push(b"up"),
        SessionEvent::Deltas(deltas) => push_deltas(deltas.as_slice(), out),
        SessionEvent::Down { cause, reply } => push_down(*cause, *reply, out),
    }
}

pub(crate) fn push_down(
    cause: Cause,
    reply: Option<(u8, u8)>,
    out: &mut TextOut,
) -> Result<(), NoMemory> {
    push_cause(cause, out)?;
    match reply {
        Some((code, subcode)) => write!(out, " send {code}/{subcode}"),
        None => Ok(()),
    }
}

fn push_cause(cause: Cause, out: &mut TextOut) -> Result<(), NoMemory> {
    match cause {
        Cause::Wire(WireFault { code, subcode }) => write!(out, "down {code}/{subcode}"),
        Cause::Notified { code, subcode } => write!(out, "down notified {code}/{subcode}"),
        Cause::Ended => out.push(b"down ended"),
    }
}
