//! What commands answer to documents.

use crate::fault::CaseFault;
use compile_answers::{answer_compile, answer_reach, answer_scale};
use ov_io::{MemSink, TextOut};
use ov_types::NoMemory;
use std::alloc::Global;

/// All lines of what a command writes.
pub(crate) fn tell(
    alloc: Global,
    command: &str,
    document: &str,
    out: &mut TextOut,
) -> Result<(), CaseFault> {
    tell_lines(alloc, command, "", document, out)
}

/// The lines that `compile` writes to a document and that begin with this front.
pub(crate) fn tell_compiled(
    alloc: Global,
    front: &str,
    document: &str,
    out: &mut TextOut,
) -> Result<(), CaseFault> {
    tell_lines(alloc, "compile", front, document, out)
}

fn tell_lines(
    alloc: Global,
    command: &str,
    front: &str,
    document: &str,
    out: &mut TextOut,
) -> Result<(), CaseFault> {
    let mut sink = MemSink::new(alloc, Vec::new(alloc));
    answer(alloc, command, document.as_bytes(), &mut sink)?;
    Ok(push_lines(sink.taken(), front, out)?)
}

/// What a command answers to a document.
fn answer(
    alloc: Global,
    command: &str,
    document: &[u8],
    sink: &mut MemSink,
) -> Result<(), CaseFault> {
    let _reception = match command {
        "compile" => answer_compile(alloc, document, sink)?,
        "reach" => answer_reach(alloc, document, sink)?,
        _ => answer_scale(alloc, document, sink)?,
    };
    Ok(())
}

/// The lines of a text that begin with this front, with slashes between them.
fn push_lines(text: &[u8], front: &str, out: &mut TextOut) -> Result<(), NoMemory> {
    for line in text.split(|octet| *octet == b'\n') {
        if !line.is_empty() && line.starts_with(front.as_bytes()) {
            if !out.octets().is_empty() {
                out.push(b" / ")?;
            }
            out.push(line)?;
        }
    }
    Ok(())
}
