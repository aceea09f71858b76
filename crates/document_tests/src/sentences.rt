//! What is said to people of lines, and of inputs that cannot be read.

use crate::fault::{CaseFault, told};
use crate::octets::octets_of;
use explanations::{Explanation, KeptInput, explain_form, explain_refusal, explain_stop};
use ov_io::TextOut;
use std::alloc::Global;

/// The sentence on a line or on an input.
pub(crate) fn tell(
    alloc: Global,
    kind: &str,
    given: &str,
    out: &mut TextOut,
) -> Result<(), CaseFault> {
    let octets = octets_of(alloc, given)?;
    match kind {
        "refusal" => push(&explain_refusal(octets.as_slice()), out),
        "form" => push(&explain_form(octets.as_slice()), out),
        "document" => push_stop(alloc, &KeptInput::Document(octets), out),
        _ => push_stop(alloc, &KeptInput::Digits(octets), out),
    }
}

pub(crate) fn push_stop(
    alloc: Global,
    heard: &KeptInput,
    out: &mut TextOut,
) -> Result<(), CaseFault> {
    push(&explain_stop(alloc, heard), out)
}

pub(crate) fn push(explanation: &Explanation<'_>, out: &mut TextOut) -> Result<(), CaseFault> {
    told(write!(out, "{explanation}"))
}
