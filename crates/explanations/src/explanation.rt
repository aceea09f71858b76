//! What is said to people of a run, in one sentence.
ghost use Rattle.std.specs.Prelude.{◌≡◌};
ghost use Rattle.std.specs.List.{list_all};
ghost use Rattle.explanations.specs.Explanations.{IsDocumentStop, IsStop, explanation_text, form_explanation};
ghost use Rattle.explanations.specs.Explanations.{advice_of, is_wide, refusal_explanation};
ghost use Rattle.explanations.specs.Digits.{is_blank};
ghost use Rattle.explanations.specs.Words.{begins_so};

use crate::digits::{DigitFault, digit_fault, is_blank};
use crate::ends::KeptInput;
use crate::form::{FormFault, form_fault_in};
use crate::help::Advice;
use crate::json::{JsonFault, json_fault};
use crate::refused::{Refused, refused_in};
use std::alloc::Global;
use std::fmt;

/// What is said to people of a run. It prints as a line.
#[derive(Clone, Copy)]
pub enum Explanation<'a> {
    Advice(Advice),
    JsonFault(JsonFault),
    DigitFault(DigitFault),
    FormFault(FormFault<'a>),
    Refused(Refused<'a>),
}

impl fmt::Display for Explanation<'_> {
    ghost use Rattle.std.specs.Prelude.{Some};
    ghost use Rattle.explanations.specs.Explanations.{explanation_text};

    ghost output = { λ e. Some (explanation_text e) };

    fn fmt<W: fmt::Write>(&self, f: &mut fmt::Formatter<W>) -> fmt::Result {
        match self {
            Explanation::Advice(advice) => write!(f, "overlay: {advice}\n"),
            Explanation::JsonFault(fault) => write!(f, "overlay: {fault}\n"),
            Explanation::DigitFault(fault) => write!(f, "overlay: {fault}\n"),
            Explanation::FormFault(fault) => write!(f, "overlay: {fault}\n"),
            Explanation::Refused(refused) => write!(f, "overlay: {refused}\n"),
        }
    }
}

/// Says why an input is no JSON, or no digits, and where reading it stopped.
pub fn explain_stop(alloc: Global, heard: &KeptInput) -> Explanation<'static>
    ensures { IsStop heard.now (explanation_text result) }
{
    match heard {
        KeptInput::Nothing => Explanation::Advice(Advice::NotJson),
        KeptInput::Digits(octets) => match digit_fault(octets.as_slice()) {
            Some(fault) => Explanation::DigitFault(fault),
            None => Explanation::Advice(Advice::NotJson),
        },
        KeptInput::Document(octets) => explain_document_stop(alloc, octets.as_slice()),
    }
}

/// Says why a document is no JSON. One that has no octets, or blanks alone, and one in UTF-16 or behind a byte order mark, are
/// told so without a place, which would be the first octet's.
fn explain_document_stop(alloc: Global, octets: &[u8]) -> Explanation<'static>
    ensures { IsDocumentStop octets.now (explanation_text result) }
{
    if let Some(advice) = advice_of(octets) {
        return Explanation::Advice(advice);
    }
    match json_fault(alloc, octets) {
        Some(fault) => Explanation::JsonFault(fault),
        None => Explanation::Advice(Advice::NotJson),
    }
}

/// What to do about a document that shows at its front, or at all of it, why it is no JSON.
fn advice_of(octets: &[u8]) -> Option<Advice>
    ensures { result ≡ advice_of octets.now }
{
    if octets.is_empty() {
        return Some(Advice::EmptyInput);
    }
    if begins_so(octets, b"\xef\xbb\xbf") {
        return Some(Advice::ByteOrderMark);
    }
    if is_wide(octets) {
        return Some(Advice::WideInput);
    }
    if are_blanks(octets) {
        return Some(Advice::BlankInput);
    }
    None
}

fn are_blanks(octets: &[u8]) -> bool
    ensures { result ≡ list_all is_blank octets.now }
{
    octets.iter().all(|octet| is_blank(*octet))
}

/// Whether octets are those of a text in UTF-16 or UTF-32: one of the first two is no character, or they are the mark that
/// some editors put before such a text.
fn is_wide(octets: &[u8]) -> bool
    ensures { result ≡ is_wide octets.now }
{
    let behind_first = &octets[octets.len().min(1)..];
    begins_so(octets, b"\0")
        || begins_so(behind_first, b"\0")
        || begins_so(octets, b"\xfe\xff")
        || begins_so(octets, b"\xff\xfe")
}

fn begins_so(octets: &[u8], front: &[u8]) -> bool
    ensures { result ≡ begins_so front.now octets.now }
{
    octets.strip_prefix(front).is_some()
}

/// Says which value of a document breaks the form, and how, of the line that tells it.
pub fn explain_form(line: &[u8]) -> Explanation<'_>
    ensures { explanation_text result ≡ form_explanation line.now }
{
    match form_fault_in(line) {
        Some(fault) => Explanation::FormFault(fault),
        None => Explanation::Advice(Advice::BadDocument),
    }
}

/// Says which rule a configuration breaks, and by which objects, of the line that tells it.
pub fn explain_refusal(line: &[u8]) -> Explanation<'_>
    ensures { explanation_text result ≡ refusal_explanation line.now }
{
    match refused_in(line) {
        Some(refused) => Explanation::Refused(refused),
        None => Explanation::Advice(Advice::Refused),
    }
}
