//! The kinds of cases.

use crate::{
    ends, hearings, memberships, messages, numbers, record_sessions, records, restarts, sessions,
    updates,
};
use case_lines::{CaseFault, Cases, both};
use ov_io::TextOut;
use std::alloc::Global;

/// The kinds of cases. A line is a kind, what is given, and behind `=>` what is wanted. Where nothing stands there it is what is
/// given.
#[derive(Drop)]
pub(crate) struct Kinds;

impl Cases for Kinds {
    fn holds(&mut self, alloc: Global, line: &str, came: &mut TextOut) -> Result<bool, CaseFault> {
        let (case, behind) = line.split_once(" => ").unwrap_or((line, ""));
        let (kind, given) = both(case)?;
        tell(alloc, kind, given, came)?;
        let wanted = if behind.is_empty() { given } else { behind };
        Ok(came.octets() == wanted.as_bytes())
    }
}

/// What a case of this kind comes to.
fn tell(alloc: Global, kind: &str, given: &str, out: &mut TextOut) -> Result<(), CaseFault> {
    match kind {
        "message" => messages::tell_message(alloc, given, out),
        "size" => messages::tell_size(alloc, given, out),
        "written-open" => messages::tell_written_open(alloc, given, out),
        "written-rest" => messages::tell_written_rest(alloc, given, out),
        "update" => updates::tell_update(alloc, false, given, out),
        "wide-update" => updates::tell_update(alloc, true, given, out),
        "written-updates" => updates::tell_written_updates(alloc, given, out),
        "memberships" => memberships::tell_memberships(alloc, given, out),
        "written-membership" => memberships::tell_written_membership(alloc, given, out),
        _ => tell_session(alloc, kind, given, out),
    }
}

/// What a case of records or of sessions comes to.
fn tell_session(
    alloc: Global,
    kind: &str,
    given: &str,
    out: &mut TextOut,
) -> Result<(), CaseFault> {
    match kind {
        "session" => sessions::tell_session(alloc, given, out),
        "record" => records::tell_record(alloc, given, out),
        "frame" => records::tell_frame(alloc, given, out),
        "records" => record_sessions::tell_session(alloc, given, out),
        "hearing" => hearings::tell_messages(alloc, given, out),
        "hearing-records" => hearings::tell_records(alloc, given, out),
        "marks" => restarts::tell_marks(alloc, given, out),
        "restart" => restarts::tell_restart(alloc, given, out),
        _ => tell_plain(alloc, kind, given, out),
    }
}

/// What a case of numbers, or of the ends of the program, comes to.
fn tell_plain(alloc: Global, kind: &str, given: &str, out: &mut TextOut) -> Result<(), CaseFault> {
    match kind {
        "circuit" => numbers::tell_circuit(given, out),
        "hop" => numbers::tell_hop(given, out),
        "target" => numbers::tell_target(given, out),
        "read" => ends::tell_read(given, out),
        "write" => ends::tell_write(alloc, given, out),
        _ => Err(CaseFault::Unreadable),
    }
}
