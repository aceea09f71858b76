//! What one entry of a log answers.
ghost use Rattle.std.specs.Prelude.{◌≡◌, ◌++◌, OnOk, length};
ghost use Rattle.bgp_wire.specs.Content.{Content, OpenFields, UpdateFields};
ghost use Rattle.bgp_wire.specs.Messages.{BeginsWith, content_of};
ghost use Rattle.bgp_vpn.specs.Updates.{parts_of};
ghost use Rattle.decode_answers.specs.declared.entry.LogEntry.TheVariants as entry;
ghost use Rattle.decode_answers.specs.Entries.{HasEntryForm};
ghost use Rattle.decode_answers.specs.OneMessage.{IsOneOpen, IsOneUpdate};
ghost use Rattle.decode_answers.specs.Logs.{row_lines};
ghost use Rattle.decode_answers.specs.LogProgress.{Steps};

use crate::entry::LogEntry;
use bgp_restart::{Restart, kept, named};
use bgp_vpn::UpdateFault;
use bgp_wire::{Message, OpenPart, UpdatePart, read_message};
use ov_io::TextOut;
use ov_types::{NoMemory, VpnKey, VpnRoute};
use report::{did_lines, faulty_lines, held_lines, idle_lines, show_lines};
use std::alloc::Global;

/// The message that octets are.
fn message_in(octets: &[u8]) -> Message<'_>
    requires { (content : Content) × BeginsWith octets.now content (length octets.now) }
    ensures { BeginsWith octets.now (content_of result) (length octets.now) }
{
    let Ok(found) = read_message(octets) else {
        unreachable!()
    };
    let Some((message, _)) = found else {
        unreachable!()
    };
    message
}

/// The OPEN that octets are.
fn open_in(octets: &[u8]) -> OpenPart<'_>
    requires { (fields : OpenFields) × IsOneOpen octets.now fields }
    ensures { IsOneOpen octets.now result }
{
    match message_in(octets) {
        Message::Hello(part) => part,
        _ => unreachable!(),
    }
}

/// The UPDATE that octets are.
fn update_in(octets: &[u8]) -> UpdatePart<'_>
    requires { (parts : UpdateFields) × IsOneUpdate octets.now parts }
    ensures { IsOneUpdate octets.now (parts_of result) }
{
    match message_in(octets) {
        Message::Update(part) => part,
        _ => unreachable!(),
    }
}

/// Appends what an OPEN answers: where the session is up it is passed over.
fn push_opened(
    alloc: Global,
    octets: &[u8],
    number: usize,
    restart: &mut Restart,
    out: &mut TextOut,
) -> Result<(), NoMemory>
    requires { (fields : OpenFields) × IsOneOpen octets.now fields }
    ensures { OnOk result (Steps restart.old number (entry.Opened octets.now) restart.new out.old out.new) }
{
    if restart.is_up() {
        return idle_lines(alloc, number, out);
    }
    let part = open_in(octets);
    restart.opened(named(&part), kept(&part), part.wide());
    did_lines(alloc, number, out)
}

/// Appends what an UPDATE answers: where the session is down it is passed over.
fn push_updated(
    alloc: Global,
    octets: &[u8],
    number: usize,
    restart: &mut Restart,
    out: &mut TextOut,
) -> Result<(), NoMemory>
    requires { (parts : UpdateFields) × IsOneUpdate octets.now parts }
    ensures { OnOk result (Steps restart.old number (entry.Updated octets.now) restart.new out.old out.new) }
{
    if !restart.is_up() {
        return idle_lines(alloc, number, out);
    }
    match restart.update(&update_in(octets)) {
        Ok(()) => did_lines(alloc, number, out),
        Err(UpdateFault::Wire(fault)) => {
            faulty_lines(alloc, number, fault.code, fault.subcode, out)
        }
        Err(UpdateFault::NoMemory) => Err(NoMemory),
    }
}

/// Appends the lines of routes, each with whether it is stale.
fn push_rows(
    alloc: Global,
    rows: &[(VpnKey, VpnRoute, bool)],
    out: &mut TextOut,
) -> Result<(), NoMemory>
    ensures { OnOk result (out.new ≡ out.old ++ row_lines rows.now) }
{
    for (key, route, is_stale) in rows {
        held_lines(alloc, key, route, *is_stale, out)?;
    }
    Ok(())
}

/// Appends what is held now.
fn push_shown(
    alloc: Global,
    number: usize,
    restart: &Restart,
    out: &mut TextOut,
) -> Result<(), NoMemory>
    ensures { OnOk result (Steps restart.now number entry.Show restart.now out.old out.new) }
{
    show_lines(alloc, number, out)?;
    let rows = restart.rows()?;
    push_rows(alloc, rows.as_slice(), out)
}

/// Appends what an entry answers that has this number.
pub(crate) fn push_entry(
    alloc: Global,
    entry: &LogEntry,
    number: usize,
    restart: &mut Restart,
    out: &mut TextOut,
) -> Result<(), NoMemory>
    requires { HasEntryForm entry.now }
    ensures { OnOk result (Steps restart.old number entry.now restart.new out.old out.new) }
{
    match entry {
        LogEntry::Opened(octets) => push_opened(alloc, octets.as_slice(), number, restart, out),
        LogEntry::Updated(octets) => push_updated(alloc, octets.as_slice(), number, restart, out),
        LogEntry::Closed => {
            if !restart.is_up() {
                return idle_lines(alloc, number, out);
            }
            restart.closed();
            did_lines(alloc, number, out)
        }
        LogEntry::Expired => {
            restart.expired();
            did_lines(alloc, number, out)
        }
        LogEntry::Show => push_shown(alloc, number, restart, out),
    }
}
