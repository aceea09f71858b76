//! What is read of documents and of their parts.

use crate::documents::value_of;
use crate::fault::{CaseFault, told};
use config_model::{
    DocFault, ReadRefusal, read_compile, read_config, read_edit, read_events, read_packet,
    read_reach, read_run, read_topology,
};
use ov_io::TextOut;
use ov_types::NoMemory;
use serde_json::Value;
use std::alloc::Global;
use std::fmt::Debug;

/// What the reader of a part says of a text.
pub(crate) fn tell(
    alloc: Global,
    part: &str,
    text: &str,
    out: &mut TextOut,
) -> Result<(), CaseFault> {
    let value = value_of(alloc, text)?;
    tell_part(alloc, part, &value, out)
}

fn tell_part(alloc: Global, part: &str, value: &Value, out: &mut TextOut) -> Result<(), CaseFault> {
    match part {
        "topology" => push(read_topology(alloc, value), out),
        "config" => push(read_config(alloc, value), out),
        "packet" => push(read_packet(alloc, value), out),
        "edit" => push(read_edit(alloc, value), out),
        "events" => push(read_events(alloc, value), out),
        _ => tell_whole(alloc, part, value, out),
    }
}

/// What a command reads of a whole document.
fn tell_whole(
    alloc: Global,
    command: &str,
    value: &Value,
    out: &mut TextOut,
) -> Result<(), CaseFault> {
    match command {
        "for-compile" => push(read_compile(alloc, value), out),
        "for-reach" => push(read_reach(alloc, value), out),
        "for-run" => push(read_run(alloc, value), out),
        _ => Err(CaseFault::Unreadable),
    }
}

/// What was read, or the path and the kind of the fault.
pub(crate) fn push<T: Debug + Drop>(
    read: Result<T, ReadRefusal>,
    out: &mut TextOut,
) -> Result<(), CaseFault> {
    match read {
        Ok(value) => told(write!(out, "{value:?}")),
        Err(ReadRefusal::Doc(fault)) => told(push_fault(&fault, out)),
        Err(ReadRefusal::NoMemory) => Err(CaseFault::NoMemory),
    }
}

pub(crate) fn push_fault(fault: &DocFault, out: &mut TextOut) -> Result<(), NoMemory> {
    let path = fault.path.as_str();
    let kind = fault.kind;
    let between = if path.is_empty() { "" } else { " " };
    write!(out, "{path}{between}{kind:?}")
}
