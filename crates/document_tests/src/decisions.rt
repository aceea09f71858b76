//! Which rule a configuration breaks, and which rule of its policies decides on a packet.

use crate::documents::{checked, number_of, valid};
use crate::fault::{CaseFault, told};
use compile_answers::Unfit;
use config_check::{LimitKind, Refusal, Valid};
use ov_io::TextOut;
use ov_types::{InstanceId, NoMemory, Tuple};
use reach_plain::{decide, is_network};
use std::alloc::Global;

/// The first rule that the configuration of a document breaks.
pub(crate) fn tell_check(
    alloc: Global,
    document: &str,
    out: &mut TextOut,
) -> Result<(), CaseFault> {
    match &checked(alloc, document) {
        Ok(_) => told(out.push(b"valid")),
        Err(Unfit::Refused(refusal)) => told(write!(out, "{refusal}")),
        Err(Unfit::NoMemory) => Err(CaseFault::NoMemory),
        Err(_) => Err(CaseFault::Unreadable),
    }
}

/// The two networks of a packet, by their numbers, and its own numbers.
#[derive(Clone, Copy)]
struct Asked {
    from: InstanceId,
    to: InstanceId,
    tuple: Tuple,
}

/// A number that stands next.
fn next_number(word: Option<&str>) -> Result<u16, CaseFault> {
    match word {
        Some(word) => number_of(word),
        None => Err(CaseFault::Unreadable),
    }
}

/// A packet of TCP, by the numbers of the networks and its ports.
fn asked_of(text: &str) -> Result<Asked, CaseFault> {
    let mut words = text.split_whitespace();
    let from = next_number(words.next())?;
    let to = next_number(words.next())?;
    let sport = next_number(words.next())?;
    let dport = next_number(words.next())?;
    Ok(Asked {
        from: InstanceId(from),
        to: InstanceId(to),
        tuple: Tuple {
            proto: 6,
            sport,
            dport,
        },
    })
}

/// The rule that decides on a packet, and whether it matches mirrored.
pub(crate) fn tell_decided(
    alloc: Global,
    asked: &str,
    document: &str,
    out: &mut TextOut,
) -> Result<(), CaseFault> {
    let asked = asked_of(asked)?;
    let valid = valid(alloc, document)?;
    push_decision(&valid, asked, out)
}

fn push_decision(valid: &Valid, asked: Asked, out: &mut TextOut) -> Result<(), CaseFault> {
    let Asked { from, to, tuple } = asked;
    if !(is_network(valid, from) && is_network(valid, to)) {
        return Err(CaseFault::Unreadable);
    }
    let decision = decide(valid, from, to, tuple);
    told(write!(out, "{decision:?}"))
}

/// Each limit.
pub(crate) static LIMITS: [LimitKind; 11] = [
    LimitKind::Controllers,
    LimitKind::Nodes,
    LimitKind::Networks,
    LimitKind::Ports,
    LimitKind::Policies,
    LimitKind::Services,
    LimitKind::Chains,
    LimitKind::Subnets,
    LimitKind::Attachments,
    LimitKind::Rules,
    LimitKind::Hops,
];

/// The words of each limit.
pub(crate) fn push_limits(out: &mut TextOut) -> Result<(), NoMemory> {
    for what in &LIMITS {
        let refusal = Refusal::Limit { what: *what };
        write!(out, "{refusal};")?;
    }
    Ok(())
}
