//! What records say.
ghost use Rattle.std.specs.Prelude.{◌≤◌, length, IsTrue};
ghost use Rattle.item_wire.specs.Ranges.{is_in_range};
ghost use Rattle.item_wire.specs.Records.{json_text};

use case_lines::{CaseFault, octets, push_digits, told};
use item_wire::{Item, ItemFault, ItemRefusal, TooLong, frame, read_item, write_item};
use ov_io::TextOut;
use ov_types::NoMemory;
use std::alloc::Global;

/// The record as it is written, or its first fault.
pub(crate) fn tell_record(alloc: Global, given: &str, out: &mut TextOut) -> Result<(), CaseFault> {
    if given.len() > 65_536 {
        return Err(CaseFault::Unreadable);
    }
    match read_item(alloc, given.as_bytes()) {
        Ok(item) => told(push_item(alloc, &item, out)),
        Err(ItemRefusal::Fault(fault)) => told(push_fault(fault, out)),
        Err(ItemRefusal::NoMemory) => Err(CaseFault::NoMemory),
    }
}

/// Tells the record of an item, as a frame has it.
pub(crate) fn push_item(alloc: Global, item: &Item, out: &mut TextOut) -> Result<(), NoMemory>
    requires range { IsTrue (is_in_range item.now) }
    requires length { length (json_text item.now) ≤ 65536 }
{
    let mut octets = Vec::new(alloc);
    write_item(alloc, item, &mut octets)?;
    push_frame(frame(octets.as_slice()), out)
}

fn push_frame(framed: Result<Option<&[u8]>, TooLong>, out: &mut TextOut) -> Result<(), NoMemory> {
    match framed {
        Ok(Some(record)) => out.push(record),
        Ok(None) => out.push(b"more"),
        Err(fault) => write!(out, "{fault}"),
    }
}

pub(crate) fn push_fault(fault: ItemFault, out: &mut TextOut) -> Result<(), NoMemory> {
    write!(out, "{fault}")
}

fn push_framed(octets: &[u8], out: &mut TextOut) -> Result<(), NoMemory> {
    match frame(octets) {
        Ok(Some([])) => out.push(b"-"),
        Ok(Some(record)) => push_digits(record, out),
        framed => push_frame(framed, out),
    }
}

/// The octets of the record that is framed.
pub(crate) fn tell_frame(alloc: Global, given: &str, out: &mut TextOut) -> Result<(), CaseFault> {
    let octets = octets(alloc, given)?;
    told(push_framed(octets.as_slice(), out))
}
