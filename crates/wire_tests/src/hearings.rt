//! What sessions hear in inputs of several messages or records.
ghost use Rattle.std.specs.Prelude.{◌≡◌};
ghost use Rattle.bgp_session.specs.declared.event.State.TheVariants.{Idle};
ghost use Rattle.item_wire.specs.declared.event.ItemState.TheVariants.{Idle as ItemIdle};

use crate::messages::tell_octets;
use crate::updates::push_deltas;
use crate::{record_sessions, sessions};
use bgp_session::{Cause, Session};
use case_lines::{CaseFault, octets, push_slice, told};
use item_wire::{Item, ItemRefusal, ItemSession, read_item};
use node_core::HeardRecords;
use node_routes::HeardRoutes;
use ov_io::TextOut;
use ov_types::{Addr, Items, NoMemory};
use std::alloc::Global;

const ME: Addr = Addr(0xc000_0201);

fn push_replies(replies: &[Items<u8>], out: &mut TextOut) -> Result<(), NoMemory> {
    for reply in replies {
        push_reply(reply.as_slice(), out)?;
    }
    Ok(())
}

fn push_reply(octets: &[u8], out: &mut TextOut) -> Result<(), NoMemory> {
    out.push(b"send ")?;
    tell_octets(octets, out)?;
    out.push(b"; ")
}

/// Why a session goes down, where it does.
fn push_cause(cause: Option<Cause>, out: &mut TextOut) -> Result<(), NoMemory> {
    if let Some(cause) = cause {
        sessions::push_down(cause, None, out)?;
        out.push(b"; ")?;
    }
    Ok(())
}

fn push_heard(heard: &HeardRoutes, out: &mut TextOut) -> Result<(), NoMemory> {
    push_replies(heard.replies.as_slice(), out)?;
    push_deltas(heard.changes.as_slice(), out)?;
    out.push(b"; ")?;
    push_cause(heard.cause, out)
}

fn hear_messages(
    alloc: Global,
    session: &mut Session,
    octets: &[u8],
    out: &mut TextOut,
) -> Result<(), CaseFault>
    requires { session.old.asn ≡ 64512 }
{
    match node_routes::hear(alloc, session, 64512, ME, octets) {
        Ok(heard) => told(push_heard(&heard, out)),
        Err(_) => Err(CaseFault::NoMemory),
    }
}

/// What a session that is opened hears, and the state that it is left in.
fn open_and_hear(
    alloc: Global,
    session: &mut Session,
    octets: &[u8],
    out: &mut TextOut,
) -> Result<(), CaseFault>
    requires system { session.old.asn ≡ 64512 }
    requires idle { session.old.state ≡ Idle }
{
    if node_routes::greet(alloc, session, 64512, ME).is_err() {
        return Err(CaseFault::NoMemory);
    }
    hear_messages(alloc, session, octets, out)?;
    told(out.push(sessions::name_of(session.state())))
}

/// What a session with 192.0.2.2, once it is opened, hears in one input: what it sends, the changes, why it goes down where it
/// does, and the state that it is left in.
pub(crate) fn tell_messages(
    alloc: Global,
    given: &str,
    out: &mut TextOut,
) -> Result<(), CaseFault> {
    let octets = octets(alloc, given)?;
    let mut session = Session::new(64512, sessions::peer()?);
    open_and_hear(alloc, &mut session, octets.as_slice(), out)
}

/// Appends a record behind its length, or what else a part of an input stands for.
fn push_part(part: &str, octets: &mut Vec<u8>) -> Result<(), CaseFault> {
    let (text, missing) = match part.strip_prefix("cut ") {
        Some(text) => (text, 1),
        None => (part, 0),
    };
    if text == "long" {
        push_slice(&[0, 1, 0, 1], octets)
    } else {
        push_text(text, missing, octets)
    }
}

/// Appends a text behind its length, without so many octets of its end.
fn push_text(text: &str, missing: usize, octets: &mut Vec<u8>) -> Result<(), CaseFault> {
    push_length(text.len(), octets)?;
    let there = text.len().saturating_sub(missing);
    push_slice(&text.as_bytes()[..there], octets)
}

/// Appends the length of a text in four octets.
fn push_length(length: usize, octets: &mut Vec<u8>) -> Result<(), CaseFault> {
    if length > 65_535 {
        return Err(CaseFault::Unreadable);
    }
    push_slice(&[0, 0, (length / 256) as u8, (length % 256) as u8], octets)
}

/// Whether a part is the record of an item.
fn is_of(alloc: Global, part: &str, item: &Item) -> Result<bool, CaseFault> {
    match read_item(alloc, part.as_bytes()) {
        Ok(read) => Ok(read == *item),
        Err(ItemRefusal::Fault(_)) => Ok(false),
        Err(ItemRefusal::NoMemory) => Err(CaseFault::NoMemory),
    }
}

/// Tells by their places, from 0, which parts of the input have the record of an item.
fn push_places(
    alloc: Global,
    parts: &str,
    item: &Item,
    out: &mut TextOut,
) -> Result<(), CaseFault> {
    for (place, part) in parts.split(" + ").enumerate() {
        if is_of(alloc, part, item)? {
            push_place(place, out)?;
        }
    }
    Ok(())
}

fn push_place(place: usize, out: &mut TextOut) -> Result<(), CaseFault> {
    told(write!(out, " {place}"))
}

/// The octets of parts.
fn octets_of(alloc: Global, parts: &str) -> Result<Vec<u8>, CaseFault> {
    let mut octets = Vec::new(alloc);
    match push_parts(parts, &mut octets) {
        Ok(()) => Ok(octets),
        Err(fault) => Err(fault),
    }
}

fn push_parts(parts: &str, octets: &mut Vec<u8>) -> Result<(), CaseFault> {
    for part in parts.split(" + ") {
        push_part(part, octets)?;
    }
    Ok(())
}

fn push_records(
    alloc: Global,
    parts: &str,
    records: &[Item],
    out: &mut TextOut,
) -> Result<(), CaseFault> {
    out.push(b"records")?;
    for item in records {
        push_places(alloc, parts, item, out)?;
    }
    told(out.push(b"; "))
}

fn push_heard_records(
    alloc: Global,
    parts: &str,
    heard: &HeardRecords,
    out: &mut TextOut,
) -> Result<(), CaseFault> {
    push_records(alloc, parts, heard.records.as_slice(), out)?;
    if let Some(cause) = heard.cause {
        record_sessions::push_down(cause, out)?;
        out.push(b"; ")?;
    }
    Ok(())
}

fn hear_octets(
    alloc: Global,
    session: &mut ItemSession,
    parts: &str,
    octets: &[u8],
    out: &mut TextOut,
) -> Result<(), CaseFault> {
    match node_core::hear(alloc, session, octets) {
        Ok(heard) => push_heard_records(alloc, parts, &heard, out),
        Err(_) => Err(CaseFault::NoMemory),
    }
}

fn hear_records(
    alloc: Global,
    session: &mut ItemSession,
    parts: &str,
    out: &mut TextOut,
) -> Result<(), CaseFault> {
    let octets = octets_of(alloc, parts)?;
    hear_octets(alloc, session, parts, octets.as_slice(), out)
}

/// What a session that is opened hears, and the state that it is left in.
fn open_and_hear_records(
    alloc: Global,
    session: &mut ItemSession,
    parts: &str,
    out: &mut TextOut,
) -> Result<(), CaseFault>
    requires { session.old.state ≡ ItemIdle }
{
    let me = record_sessions::peer()?;
    if node_core::greet(alloc, session, &me).is_err() {
        return Err(CaseFault::NoMemory);
    }
    hear_records(alloc, session, parts, out)?;
    told(out.push(record_sessions::name_of(session.state())))
}

/// What a session with `c1`, once it is opened, hears in one input of the parts between plus signs: the places of the records
/// that are handed out, from 0, why it goes down where it does, and the state that it is left in.
pub(crate) fn tell_records(alloc: Global, given: &str, out: &mut TextOut) -> Result<(), CaseFault> {
    match given.split_once(" ") {
        Some((word, parts)) => tell_parts(alloc, word, parts, out),
        None => Err(CaseFault::Unreadable),
    }
}

fn tell_parts(alloc: Global, word: &str, parts: &str, out: &mut TextOut) -> Result<(), CaseFault> {
    let mut session = record_sessions::session_of(word)?;
    open_and_hear_records(alloc, &mut session, parts, out)
}
