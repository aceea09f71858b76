//! What nodes answer.

use case_lines::{CaseFault, told};
use ov_io::TextOut;
use ov_link::{NodeFault, Stepped};
use std::fmt::Debug;

/// What a step of a node came to.
pub(crate) fn push_stepped<C: Debug + Drop>(
    answer: Result<Stepped<C>, NodeFault>,
    out: &mut TextOut,
) -> Result<(), CaseFault> {
    match answer {
        Ok(Stepped::Done) => told(out.push(b"done")),
        Ok(Stepped::Closed { session, cause }) => {
            told(write!(out, "{session} is closed: {cause:?}"))
        }
        Err(fault) => push_fault(fault, out),
    }
}

/// What a change at a node came to.
pub(crate) fn push_done(answer: Result<(), NodeFault>, out: &mut TextOut) -> Result<(), CaseFault> {
    match answer {
        Ok(()) => told(out.push(b"done")),
        Err(fault) => push_fault(fault, out),
    }
}

fn push_fault(fault: NodeFault, out: &mut TextOut) -> Result<(), CaseFault> {
    match fault {
        NodeFault::LinkFailed { session } => told(write!(out, "the link of {session} failed")),
        NodeFault::NoMemory => Err(CaseFault::NoMemory),
    }
}

/// How far a session is, and how many octets are kept of it.
pub(crate) fn push_session(
    is_live: bool,
    is_up: bool,
    pending: usize,
    out: &mut TextOut,
) -> Result<(), CaseFault> {
    let state = match (is_live, is_up) {
        (false, false) => "closed",
        (true, false) => "open",
        (true, true) => "up",
        (false, true) => "up and closed",
    };
    told(write!(out, "{state} {pending}"))
}
