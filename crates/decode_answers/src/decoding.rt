//! Messages that are spelled in hexadecimal digits.
ghost use Rattle.std.specs.Prelude.{◌≡◌, ◌≢◌, ◌++◌, ◌||◌, [], false, map, IfOk, OnOk, OnErr};
ghost use Rattle.bgp_wire.specs.Content.{Updates};
ghost use Rattle.bgp_wire.specs.Messages.{content_of};
ghost use Rattle.bgp_vpn.specs.Updates.{parts_of, Changes};
ghost use Rattle.bgp_vpn.specs.Said.{changes_said, dropped, put_to};
ghost use Rattle.decode_answers.specs.Decoding.{change_lines, decode_verdict, membership_lines, spelled, update_lines};
ghost use Rattle.decode_answers.specs.Decoding.{is_wide_open, IsReport, WritesSpelled};
ghost use Rattle.decode_answers.specs.Reporting.{IsReportBehind, Moves, Progress, Tells};
ghost use Rattle.ov_io.specs.Pieces.{HasWriteCause, TookFrontOf, TookText};

use crate::digits::octets_of;
use bgp_vpn::{Routes, UpdateFault, VpnUpdate, read_routes};
use bgp_wire::{Message, UpdatePart, read_message};
use compile_answers::Reception;
use ov_io::{Sink, TextOut, WriteRefusal, write_all, write_gathered, write_piece};
use ov_sync::Delta;
use ov_types::NoMemory;
use report::{
    TargetsText, drop_lines, fault_lines, incomplete_lines, membership_lines, notification_lines,
    open_lines, put_lines_of,
};
use rt_membership::{Asked, read_checked_membership};
use std::alloc::Global;

fn push_drops(alloc: Global, routes: Routes<'_>, out: &mut TextOut) -> Result<(), NoMemory>
    ensures { OnOk result (out.new ≡ out.old ++ change_lines (map dropped routes.entry)) }
{
    for route in routes {
        drop_lines(alloc, &route.key, out)?;
    }
    Ok(())
}

fn push_puts(said: &VpnUpdate<'_>, known: &TargetsText, out: &mut TextOut) -> Result<(), NoMemory>
    requires { known.now ≡ said.now.targets }
    ensures { OnOk result (out.new ≡ out.old
        ++ change_lines (map (put_to said.now.next_hop said.now.targets) said.now.announced)) }
{
    let next_hop = said.next_hop();
    for route in said.announced() {
        put_lines_of(&route.key, next_hop, route.label, known, out)?;
    }
    Ok(())
}

/// Tells what an UPDATE changes of the routes. The text of its targets is made once.
fn push_changes(
    alloc: Global,
    said: &VpnUpdate<'_>,
    known: &mut TargetsText,
    out: &mut TextOut,
) -> Result<(), NoMemory>
    ensures { OnOk result (out.new ≡ out.old ++ change_lines (changes_said said.now)) }
{
    known.know(alloc, said.targets())?;
    push_drops(alloc, said.withdrawn(), out)?;
    push_puts(said, known, out)
}

/// What was told of a message.
enum Told {
    /// All that the message says.
    Whole,
    /// That the message has a fault.
    Faulty,
}

fn push_memberships(
    alloc: Global,
    changes: &[Delta<Asked, ()>],
    out: &mut TextOut,
) -> Result<(), NoMemory>
    ensures { OnOk result (out.new ≡ out.old ++ membership_lines changes.now) }
{
    for change in changes {
        membership_lines(alloc, change, out)?;
    }
    Ok(())
}

/// Tells what an UPDATE changes of the routes and of what is asked.
fn push_both(
    alloc: Global,
    said: &VpnUpdate<'_>,
    asks: &[Delta<Asked, ()>],
    known: &mut TargetsText,
    out: &mut TextOut,
) -> Result<(), NoMemory>
    ensures { OnOk result (out.new ≡ out.old ++ update_lines (changes_said said.now) asks.now) }
{
    out.push(b"update\n")?;
    push_changes(alloc, said, known, out)?;
    push_memberships(alloc, asks, out)
}

/// Tells of an UPDATE whose routes are good.
fn push_checked(
    alloc: Global,
    part: &UpdatePart<'_>,
    wide: bool,
    said: &VpnUpdate<'_>,
    known: &mut TargetsText,
    out: &mut TextOut,
) -> Result<Told, NoMemory>
    requires { Changes wide (parts_of part.now) (changes_said said.now) }
    ensures { IfOk result (λ told. Tells wide (Updates (parts_of part.now)) out.old out.new told) }
{
    match read_checked_membership(alloc, part) {
        Ok(asks) => {
            push_both(alloc, said, asks.as_slice(), known, out)?;
            Ok(Told::Whole)
        }
        Err(UpdateFault::Wire(fault)) => {
            fault_lines(alloc, fault.code, fault.subcode, out)?;
            Ok(Told::Faulty)
        }
        Err(UpdateFault::NoMemory) => Err(NoMemory),
    }
}

/// Tells of an UPDATE: a fault of its routes comes before one of what it asks.
#[tactic(auto, using(rt_membership::proofs::Reading::fails))]
fn push_update(
    alloc: Global,
    part: &UpdatePart<'_>,
    wide: bool,
    known: &mut TargetsText,
    out: &mut TextOut,
) -> Result<Told, NoMemory>
    ensures { IfOk result (λ told. Tells wide (Updates (parts_of part.now)) out.old out.new told) }
{
    match read_routes(alloc, part, wide) {
        Ok(said) => push_checked(alloc, part, wide, &said, known, out),
        Err(UpdateFault::Wire(fault)) => {
            fault_lines(alloc, fault.code, fault.subcode, out)?;
            Ok(Told::Faulty)
        }
        Err(UpdateFault::NoMemory) => Err(NoMemory),
    }
}

fn push_message(
    alloc: Global,
    message: &Message<'_>,
    wide: bool,
    known: &mut TargetsText,
    out: &mut TextOut,
) -> Result<Told, NoMemory>
    ensures { IfOk result (λ told. Tells wide (content_of message.now) out.old out.new told) }
{
    match message {
        Message::Hello(part) => open_lines(alloc, part.asn(), part.hold(), part.id(), out)?,
        Message::Update(part) => return push_update(alloc, part, wide, known, out),
        Message::Notification { code, subcode } => {
            notification_lines(alloc, *code, *subcode, out)?;
        }
        Message::Keepalive => out.push(b"keepalive\n")?,
    }
    Ok(Told::Whole)
}

/// Whether a message is an OPEN whose speaker has numbers of four octets.
fn is_wide_open(message: &Message<'_>) -> bool
    ensures { result ≡ is_wide_open (content_of message.now) }
{
    match message {
        Message::Hello(part) => part.wide(),
        _ => false,
    }
}

/// The first of the messages: how many octets it has, and whether what stands behind it is read wide.
#[derive(Clone, Copy)]
struct First {
    count: usize,
    wide: bool,
}

/// Tells the first message, which is read wide or not. `None` where nothing is left to tell.
#[tactic(auto, using(crate::proofs::Reports::report_ends))]
fn push_report(
    alloc: Global,
    octets: &[u8],
    wide: bool,
    known: &mut TargetsText,
    out: &mut TextOut,
) -> Result<Option<First>, NoMemory>
    requires { octets.now ≢ [] }
    ensures { IfOk result (λ found. Progress wide octets.now out.old out.new found) }
{
    match read_message(octets) {
        Ok(Some((message, count))) => match push_message(alloc, &message, wide, known, out)? {
            Told::Whole => Ok(Some(First {
                count,
                wide: wide || is_wide_open(&message),
            })),
            Told::Faulty => Ok(None),
        },
        Ok(None) => {
            incomplete_lines(alloc, octets.len(), out)?;
            Ok(None)
        }
        Err(fault) => {
            fault_lines(alloc, fault.code, fault.subcode, out)?;
            Ok(None)
        }
    }
}

/// Hands on what is told of the first message, which is read wide or not. `None` where nothing is left to tell.
fn write_first<K: Sink>(
    alloc: Global,
    octets: &[u8],
    wide: bool,
    sink: &mut K,
    known: &mut TargetsText,
    gathered: &mut TextOut,
) -> Result<Option<First>, WriteRefusal>
    requires { octets.now ≢ [] }
    ensures told { IfOk result (λ found. Moves wide octets.now
        (K.taken sink.old) (K.taken sink.new) gathered.old gathered.new found) }
    ensures front { OnErr result (TookFrontOf (IsReportBehind wide gathered.old octets.now)
        (K.taken sink.old) (K.taken sink.new)) }
    ensures cause { HasWriteCause (K.faults sink.old) (K.faults sink.new) result }
{
    let found = push_report(alloc, octets, wide, known, gathered)?;
    write_piece(sink, gathered)?;
    Ok(found)
}

/// Writes the report of messages that lie one after the other. They are read wide from behind the first wide OPEN.
#[tactic(auto, using(crate::proofs::Reports::fewer_left))]
fn write_report<K: Sink>(alloc: Global, octets: &[u8], sink: &mut K) -> Result<(), WriteRefusal>
    ensures ok { OnOk result (TookText (IsReport false octets.now) (K.taken sink.old) (K.taken sink.new)) }
    ensures front { OnErr result (TookFrontOf (IsReport false octets.now) (K.taken sink.old) (K.taken sink.new)) }
    ensures cause { HasWriteCause (K.faults sink.old) (K.faults sink.new) result }
{
    let mut gathered = TextOut::new(alloc);
    let mut known = TargetsText::new(alloc)?;
    let mut rest = octets;
    let mut wide = false;
    while !rest.is_empty() {
        let Some(first) = write_first(alloc, rest, wide, sink, &mut known, &mut gathered)? else {
            return write_gathered(sink, &mut gathered);
        };
        (_, rest) = rest.split_at(first.count);
        wide = first.wide;
    }
    write_gathered(sink, &mut gathered)
}

/// Writes what `decode` answers to an input.
pub fn answer_decode<K: Sink>(
    alloc: Global,
    text: &[u8],
    sink: &mut K,
) -> Result<Reception, WriteRefusal>
    ensures verdict { IfOk result (λ verdict. verdict ≡ decode_verdict (spelled text.now)) }
    ensures digits { IfOk result (λ verdict. (verdict ≢ Reception.BadDocument) × (verdict ≢ Reception.Refused)) }
    ensures written { OnOk result (TookText (WritesSpelled (spelled text.now)) (K.taken sink.old) (K.taken sink.new)) }
    ensures front { OnErr result (TookFrontOf (WritesSpelled (spelled text.now))
        (K.taken sink.old) (K.taken sink.new)) }
    ensures cause { HasWriteCause (K.faults sink.old) (K.faults sink.new) result }
{
    match octets_of(alloc, text)? {
        None => {
            write_all(sink, b"not hex\n")?;
            Ok(Reception::NotJson)
        }
        Some(octets) => {
            write_report(alloc, octets.as_slice(), sink)?;
            Ok(Reception::Good)
        }
    }
}
