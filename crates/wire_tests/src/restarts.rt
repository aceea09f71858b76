//! What becomes of the routes of a peer over the losses of its session.

use crate::messages::push_fault;
use crate::updates::push_key;
use bgp_restart::{Restart, is_end, kept, named};
use bgp_vpn::UpdateFault;
use bgp_wire::{Message, OpenPart, UpdatePart, read_message};
use case_lines::{CaseFault, octets, told};
use ov_io::TextOut;
use ov_types::{Label, NoMemory, VpnKey, VpnRoute};
use std::alloc::Global;

/// The route of 10.1.0.5/32, distinguisher 192.0.2.11:1, is put, with label 23.
static PUT: &str =
    "M 0054 02 0000 003d 40010100 400200 40050400000064 800e21 000180 0c 0000000000000000 c000020b 00 78 000171 0001c000020b0001 0a010005 c01008 0002fc00007a1201";

/// The route of 10.1.0.5/32, distinguisher 192.0.2.11:1, is put with label 24, and then with label 23.
static PUT_TWICE: &str =
    "M 0064 02 0000 004d 40010100 400200 40050400000064 800e31 000180 0c 0000000000000000 c000020b 00 78 000181 0001c000020b0001 0a010005 78 000171 0001c000020b0001 0a010005 c01008 0002fc00007a1201";

/// The route of 10.1.0.6/32, distinguisher 192.0.2.11:1, is put.
static PUT_ANOTHER: &str =
    "M 0054 02 0000 003d 40010100 400200 40050400000064 800e21 000180 0c 0000000000000000 c000020b 00 78 000171 0001c000020b0001 0a010006 c01008 0002fc00007a1201";

/// The route of 10.1.0.5/32, distinguisher 192.0.2.11:1, is dropped.
static DROP: &str = "M 002d 02 0000 0016 800f13 000180 78 800000 0001c000020b0001 0a010005";

/// The route of 10.1.0.5/32, distinguisher 192.0.2.11:1, is dropped and put.
static DROP_AND_PUT: &str =
    "M 006a 02 0000 0053 40010100 400200 40050400000064 800e21 000180 0c 0000000000000000 c000020b 00 78 000171 0001c000020b0001 0a010005 800f13 000180 78 800000 0001c000020b0001 0a010005 c01008 0002fc00007a1201";

/// The end of the first routes.
static END: &str = "M 001d 02 0000 0006 800f03 000180";

/// ORIGIN 3.
static WRONG: &str = "M 001b 02 0000 0004 40010103";

/// Whether an OPEN names the routes, and whether their peer kept them; of an UPDATE, whether it marks their end.
pub(crate) fn tell_marks(alloc: Global, given: &str, out: &mut TextOut) -> Result<(), CaseFault> {
    let octets = octets(alloc, given)?;
    push_marks(octets.as_slice(), out)
}

fn push_marks(octets: &[u8], out: &mut TextOut) -> Result<(), CaseFault> {
    match read_message(octets) {
        Ok(Some((Message::Hello(part), _))) => told(push_named(&part, out)),
        Ok(Some((Message::Update(part), _))) => told(push_end(&part, out)),
        _ => Err(CaseFault::Unreadable),
    }
}

fn push_named(part: &OpenPart<'_>, out: &mut TextOut) -> Result<(), NoMemory> {
    out.push(if named(part) { b"named" } else { b"-" })?;
    out.push(if kept(part) { b" kept" } else { b" -" })
}

fn push_end(part: &UpdatePart<'_>, out: &mut TextOut) -> Result<(), NoMemory> {
    out.push(if is_end(part) { b"end" } else { b"no end" })
}

/// What is held after each event, which stand between semicolons.
pub(crate) fn tell_restart(alloc: Global, given: &str, out: &mut TextOut) -> Result<(), CaseFault> {
    let mut restart = Restart::new(alloc);
    tell_events(alloc, &mut restart, given, out)
}

fn tell_events(
    alloc: Global,
    restart: &mut Restart,
    given: &str,
    out: &mut TextOut,
) -> Result<(), CaseFault> {
    for event in given.split(";") {
        take(alloc, restart, event.trim(), out)?;
        tell_held(restart, out)?;
    }
    told(out.push(if restart.is_up() { b"up" } else { b"down" }))
}

/// The octets of an UPDATE that has a name.
fn spelled(event: &str) -> &str {
    match event {
        "put" => PUT,
        "put twice" => PUT_TWICE,
        "put another" => PUT_ANOTHER,
        "drop" => DROP,
        "drop and put" => DROP_AND_PUT,
        "end" => END,
        "wrong" => WRONG,
        _ => event,
    }
}

/// The session is opened or lost only where it is down or up.
fn take(
    alloc: Global,
    restart: &mut Restart,
    event: &str,
    out: &mut TextOut,
) -> Result<(), CaseFault> {
    match event {
        "expired" => restart.expired(),
        "closed" if restart.is_up() => restart.closed(),
        "opened" if !restart.is_up() => restart.opened(false, false, false),
        "opened named" if !restart.is_up() => restart.opened(true, false, false),
        "opened kept" if !restart.is_up() => restart.opened(true, true, false),
        "opened wide" if !restart.is_up() => restart.opened(true, true, true),
        _ => return take_update(alloc, restart, spelled(event), out),
    }
    Ok(())
}

fn take_update(
    alloc: Global,
    restart: &mut Restart,
    spelled: &str,
    out: &mut TextOut,
) -> Result<(), CaseFault> {
    let octets = octets(alloc, spelled)?;
    hear_octets(restart, octets.as_slice(), out)
}

fn hear_octets(restart: &mut Restart, octets: &[u8], out: &mut TextOut) -> Result<(), CaseFault> {
    match read_message(octets) {
        Ok(Some((Message::Update(part), _))) => hear(restart, &part, out),
        _ => Err(CaseFault::Unreadable),
    }
}

fn hear(restart: &mut Restart, part: &UpdatePart<'_>, out: &mut TextOut) -> Result<(), CaseFault> {
    if !restart.is_up() {
        return Err(CaseFault::Unreadable);
    }
    match restart.update(part) {
        Ok(()) => Ok(()),
        Err(UpdateFault::Wire(fault)) => told(push_fault(fault, out)),
        Err(UpdateFault::NoMemory) => Err(CaseFault::NoMemory),
    }
}

/// Each route that is held, as `rows` and `held` have it.
fn tell_held(restart: &Restart, out: &mut TextOut) -> Result<(), CaseFault> {
    let rows = restart.rows()?;
    told(push_rows(restart, rows.as_slice(), out))
}

fn push_rows(
    restart: &Restart,
    rows: &[(VpnKey, VpnRoute, bool)],
    out: &mut TextOut,
) -> Result<(), NoMemory> {
    for (key, route, is_stale) in rows {
        push_row(key, route.label, *is_stale, out)?;
        push_held(restart, key, out)?;
    }
    out.push(b"; ")
}

fn push_row(key: &VpnKey, label: Label, is_stale: bool, out: &mut TextOut) -> Result<(), NoMemory> {
    push_key(b"", key, out)?;
    write!(out, " {label} ")?;
    push_mark(is_stale, out)
}

fn push_held(restart: &Restart, key: &VpnKey, out: &mut TextOut) -> Result<(), NoMemory> {
    match restart.held(key) {
        Some((_, is_stale)) => {
            out.push(b"/")?;
            push_mark(is_stale, out)
        }
        None => Ok(()),
    }
}

fn push_mark(is_stale: bool, out: &mut TextOut) -> Result<(), NoMemory> {
    out.push(if is_stale { b"stale" } else { b"fresh" })
}
