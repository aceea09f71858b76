//! What is said to people beside the sentence on a run.

use crate::fault::{CaseFault, told};
use crate::octets::octets_of;
use explanations::KeptInput;
use hints::hint_on;
use ov_io::TextOut;
use std::alloc::Global;

/// What is said of the line of a command's answer and of the document that was answered, with a bar between these.
pub(crate) fn tell_hint(
    alloc: Global,
    command: &str,
    given: &str,
    out: &mut TextOut,
) -> Result<(), CaseFault> {
    let (line, document) = given.split_once(" | ").ok_or(CaseFault::Unreadable)?;
    let line = octets_of(alloc, line)?;
    let heard = kept(alloc, document)?;
    let hint = hint_on(alloc, command, line.as_slice(), &heard);
    told(write!(out, "{hint}"))
}

/// A document of this text, as it is kept.
fn kept(alloc: Global, text: &str) -> Result<KeptInput, CaseFault> {
    let mut octets = Vec::new(alloc);
    octets.extend_from_slice(text.as_bytes())?;
    Ok(KeptInput::Document(octets))
}
