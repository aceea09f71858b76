//! What sessions of records do at their inputs.
ghost use Rattle.std.specs.Prelude.{◌≡◌, IfOk};
ghost use Rattle.item_wire.specs.declared.event.ItemState.TheVariants.{Idle};

use crate::records::push_fault;
use case_lines::{CaseFault, told};
use item_wire::{
    Item, ItemCause, ItemEvent, ItemFrom, ItemRefusal, ItemSession, ItemState, TooLong, read_item,
};
use ov_io::TextOut;
use ov_types::{Name, NoMemory};
use std::alloc::Global;

const HELLO: &str = "{\"name\":\"c1\",\"op\":\"hello\"}";

fn direction(word: &str) -> Option<ItemFrom> {
    match word {
        "feed" => Some(ItemFrom::Feed),
        "control" => Some(ItemFrom::Control),
        "agent" => Some(ItemFrom::Agent),
        "nothing" => Some(ItemFrom::Nothing),
        _ => None,
    }
}

fn tell_input(
    alloc: Global,
    session: &mut ItemSession,
    input: &str,
    out: &mut TextOut,
) -> Result<(), CaseFault> {
    match at_input(alloc, session, input) {
        Ok(event) => push_ended(alloc, &event, input, out),
        Err(fault) => Err(fault),
    }
}

fn push_ended(
    alloc: Global,
    event: &ItemEvent,
    input: &str,
    out: &mut TextOut,
) -> Result<(), CaseFault> {
    push_event(alloc, event, input, out)?;
    told(out.push(b"; "))
}

fn tell_inputs(
    alloc: Global,
    session: &mut ItemSession,
    inputs: &str,
    out: &mut TextOut,
) -> Result<(), CaseFault> {
    for input in inputs.split(";") {
        tell_input(alloc, session, input.trim(), out)?;
    }
    told(out.push(name_of(session.state())))
}

/// What a session with `c1` does at the inputs, which stand between semicolons behind the direction of the records, and the
/// state that it is left in.
pub(crate) fn tell_session(alloc: Global, given: &str, out: &mut TextOut) -> Result<(), CaseFault> {
    match given.split_once(" ") {
        Some((word, inputs)) => tell_of(alloc, word, inputs, out),
        None => Err(CaseFault::Unreadable),
    }
}

fn tell_of(alloc: Global, word: &str, inputs: &str, out: &mut TextOut) -> Result<(), CaseFault> {
    let mut session = session_of(word)?;
    tell_inputs(alloc, &mut session, inputs, out)
}

pub(crate) fn peer() -> Result<Name, CaseFault> {
    Name::new("c1").ok_or(CaseFault::Unreadable)
}

/// A session with `c1`, which may send records of this direction.
pub(crate) fn session_of(word: &str) -> Result<ItemSession, CaseFault>
    ensures { IfOk result (λ session. session.state ≡ Idle) }
{
    let from = direction(word).ok_or(CaseFault::Unreadable)?;
    Ok(ItemSession::new(peer()?, from))
}

pub(crate) fn name_of(state: ItemState) -> &'static [u8] {
    match state {
        ItemState::Idle => b"Idle",
        ItemState::Opened => b"Opened",
        ItemState::Up => b"Up",
    }
}

fn at_input(alloc: Global, session: &mut ItemSession, input: &str) -> Result<ItemEvent, CaseFault> {
    match input {
        "opened" => Ok(session.opened()),
        "hello" => at_record(alloc, session, HELLO),
        "closed" => Ok(session.closed()),
        "long" => Ok(session.too_long(TooLong { length: 65_537 })),
        _ => at_record(alloc, session, input),
    }
}

fn at_record(
    alloc: Global,
    session: &mut ItemSession,
    input: &str,
) -> Result<ItemEvent, CaseFault> {
    match read_item(alloc, input.as_bytes()) {
        Ok(item) => Ok(session.take_item(item)),
        Err(ItemRefusal::Fault(fault)) => Ok(session.fault(fault)),
        Err(ItemRefusal::NoMemory) => Err(CaseFault::NoMemory),
    }
}

fn push_event(
    alloc: Global,
    event: &ItemEvent,
    input: &str,
    out: &mut TextOut,
) -> Result<(), CaseFault> {
    match event {
        ItemEvent::Quiet => told(out.push(b"-")),
        ItemEvent::SendHello => told(out.push(b"send hello")),
        ItemEvent::Up => told(out.push(b"up")),
        ItemEvent::Record(item) => push_record(alloc, item, input, out),
        ItemEvent::Down { cause } => told(push_down(*cause, out)),
    }
}

/// Whether the record that is handed out is the one that came.
fn push_record(
    alloc: Global,
    item: &Item,
    input: &str,
    out: &mut TextOut,
) -> Result<(), CaseFault> {
    match read_item(alloc, input.as_bytes()) {
        Ok(came) => told(out.push(word_of(came == *item))),
        Err(_) => Err(CaseFault::Unreadable),
    }
}

fn word_of(is_same: bool) -> &'static [u8] {
    if is_same {
        b"record"
    } else {
        b"another record"
    }
}

pub(crate) fn push_down(cause: ItemCause, out: &mut TextOut) -> Result<(), NoMemory> {
    out.push(b"down ")?;
    match cause {
        ItemCause::Item(fault) => push_fault(fault, out),
        ItemCause::TooLong { length } => write!(out, "too long {length}"),
        ItemCause::Order => out.push(b"order"),
        ItemCause::WrongName => out.push(b"wrong name"),
        ItemCause::Ended => out.push(b"ended"),
    }
}
