//! The kinds of cases.

use crate::fault::CaseFault;
use crate::octets::octets_of;
use crate::{
    answers, chains, decisions, edits, ends, groups, help, hinting, manual, readings, reports,
    scenarios, sentences, ties,
};
use ov_io::TextOut;
use std::alloc::Global;

/// Whether a line is a case that comes to what it wants; what it comes to is left in `told`.
///
/// A line is a kind, what is given, and behind `=>` what is wanted, as `octets_of` reads it.
pub(crate) fn holds(alloc: Global, line: &str, told: &mut TextOut) -> Result<bool, CaseFault> {
    let (case, wanted) = line.split_once(" => ").ok_or(CaseFault::Unreadable)?;
    let (kind, given) = case.split_once(" ").ok_or(CaseFault::Unreadable)?;
    told.clear();
    tell(alloc, kind, given, told)?;
    is_wanted(alloc, wanted, told.octets())
}

fn is_wanted(alloc: Global, wanted: &str, told: &[u8]) -> Result<bool, CaseFault> {
    let wanted = octets_of(alloc, wanted)?;
    Ok(told == wanted.as_slice())
}

/// Whether a line has no case.
pub(crate) fn is_passed_over(line: &str) -> bool {
    line.is_empty() || line.starts_with("#")
}

/// What a case of this kind comes to.
fn tell(alloc: Global, kind: &str, given: &str, out: &mut TextOut) -> Result<(), CaseFault> {
    match kind {
        "compile" | "reach" | "scale" => answers::tell(alloc, kind, given, out),
        "refusal" | "form" | "document" | "digits" => sentences::tell(alloc, kind, given, out),
        "front" | "heard" => ends::tell(alloc, kind, given, out),
        "help" | "words" | "advice" | "asked" => help::tell(alloc, kind, given, out),
        "answer" | "tied" | "lines" => reports::tell(alloc, kind, given, out),
        "check" => decisions::tell_check(alloc, given, out),
        "tenants" => scenarios::tell_tenants(given, out),
        "manual" => manual::tell(given, out),
        _ => match given.split_once(" | ") {
            Some((asked, document)) => tell_of(alloc, kind, asked, document, out),
            None => readings::tell(alloc, kind, given, out),
        },
    }
}

/// What a case comes to that asks something of a document.
fn tell_of(
    alloc: Global,
    kind: &str,
    asked: &str,
    document: &str,
    out: &mut TextOut,
) -> Result<(), CaseFault> {
    match kind {
        "compiled" => answers::tell_compiled(alloc, asked, document, out),
        "decided" => decisions::tell_decided(alloc, asked, document, out),
        "edited" => edits::tell_edited(alloc, asked, document, out),
        "expanded" => chains::tell_expanded(alloc, asked, document, out),
        "straight" => chains::tell_straight(alloc, asked, document, out),
        "groups" => groups::tell_groups(alloc, asked, document, out),
        "hint" => hinting::tell_hint(alloc, asked, document, out),
        "ties" => ties::tell_ties(alloc, asked, document, out),
        "scenario" => scenarios::tell_scenario(alloc, asked, document, out),
        _ => Err(CaseFault::Unreadable),
    }
}
