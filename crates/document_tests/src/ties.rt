//! Edits where ties are kept.

use crate::documents::{name_of, number_of, valid};
use crate::edits::{edit_of, push_fault};
use crate::fault::{CaseFault, told};
use config_check::Valid;
use ov_io::TextOut;
use ov_types::written::address_from;
use ov_types::{Addr, InstanceId, PortNo};
use schedule_script::{TiedFault, TiedRefusal, Ties, apply_tied_edit};
use std::alloc::Global;
use std::fmt::Debug;

/// What is valid, with the ties so far.
#[derive(Drop)]
struct Run {
    valid: Valid,
    ties: Ties,
}

/// What steps come to, which stand between semicolons: edits of the configuration of a document, and looks at its ties.
pub(crate) fn tell_ties(
    alloc: Global,
    steps: &str,
    document: &str,
    out: &mut TextOut,
) -> Result<(), CaseFault> {
    let mut run = opened(alloc, document)?;
    take_all(alloc, &mut run, steps, out)
}

fn opened(alloc: Global, document: &str) -> Result<Run, CaseFault> {
    let valid = valid(alloc, document)?;
    match Ties::new(alloc, &valid) {
        Ok(ties) => Ok(Run { valid, ties }),
        Err(_) => Err(CaseFault::NoMemory),
    }
}

fn take_all(alloc: Global, run: &mut Run, steps: &str, out: &mut TextOut) -> Result<(), CaseFault> {
    for step in steps.split("; ") {
        take(alloc, run, step, out)?;
        out.push(b";")?;
    }
    Ok(())
}

fn take(alloc: Global, run: &mut Run, step: &str, out: &mut TextOut) -> Result<(), CaseFault> {
    if step.starts_with("{") {
        return make(alloc, run, step, out);
    }
    match step.split_once(" ") {
        Some((kind, given)) => look(&run.ties, kind, given, out),
        None => Err(CaseFault::Unreadable),
    }
}

/// Makes an edit, and keeps what it makes.
fn make(alloc: Global, run: &mut Run, step: &str, out: &mut TextOut) -> Result<(), CaseFault> {
    let edit = edit_of(alloc, step)?;
    match apply_tied_edit(alloc, &run.valid, &run.ties, &edit) {
        Ok((valid, ties)) => {
            run.valid = valid;
            run.ties = ties;
            told(out.push(b"made"))
        }
        Err(refusal) => push_refusal(refusal, out),
    }
}

fn push_refusal(refusal: TiedRefusal, out: &mut TextOut) -> Result<(), CaseFault> {
    match refusal {
        TiedRefusal::Edit(TiedFault::Edit(fault)) => told(push_fault(&fault, out)),
        TiedRefusal::Edit(TiedFault::Tied(tie)) => told(write!(out, "Tied {tie}")),
        TiedRefusal::NoMemory => Err(CaseFault::NoMemory),
    }
}

/// What a port, a use, two networks, a name or an address is tied to.
fn look(ties: &Ties, kind: &str, given: &str, out: &mut TextOut) -> Result<(), CaseFault> {
    match kind {
        "port" => push(ties.port(PortNo(u32::from(number_of(given)?))), out),
        "use" => push(ties.chain_use(number_of(given)?), out),
        "related" => look_at_two(ties, given, out),
        "name" => push(ties.address(&name_of(given)?), out),
        "address" => match address_from(given) {
            Some(address) => push(ties.name(Addr(address)), out),
            None => Err(CaseFault::Unreadable),
        },
        _ => Err(CaseFault::Unreadable),
    }
}

fn look_at_two(ties: &Ties, given: &str, out: &mut TextOut) -> Result<(), CaseFault> {
    let (one, other) = given.split_once(" ").ok_or(CaseFault::Unreadable)?;
    let one = InstanceId(number_of(one)?);
    let other = InstanceId(number_of(other)?);
    push(ties.was_related(one, other), out)
}

fn push<T: Debug + Drop>(seen: T, out: &mut TextOut) -> Result<(), CaseFault> {
    told(write!(out, "{seen:?}"))
}
