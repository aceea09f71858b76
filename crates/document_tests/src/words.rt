//! The words of lines: each limit, each number that is to be distinct, and each reason to drop a packet.

use crate::decisions::LIMITS;
use config_check::{IdKind, Refusal};
use ov_io::TextOut;
use ov_types::{NoMemory, Outcome, RuleNo, Why};
use report::{LinesOf, OutcomeLines, SpreadLines, refusal_lines};
use scale_out::Spread;
use std::alloc::Global;

/// The line of each limit.
pub(crate) fn push_limits(alloc: Global, out: &mut TextOut) -> Result<(), NoMemory> {
    for what in &LIMITS {
        refusal_lines(alloc, &Refusal::Limit { what: *what }, out)?;
    }
    Ok(())
}

/// An address is printed as one.
static NUMBERS: [(IdKind, u32); 6] = [
    (IdKind::Address, 0xc000_020b),
    (IdKind::Network, 16383),
    (IdKind::Port, 7),
    (IdKind::Sequence, 20),
    (IdKind::Service, 3),
    (IdKind::Use, 0),
];

/// The line of each number that two have.
pub(crate) fn push_numbers(alloc: Global, out: &mut TextOut) -> Result<(), NoMemory> {
    for (what, id) in &NUMBERS {
        let refusal = Refusal::DuplicateId {
            what: *what,
            id: *id,
        };
        refusal_lines(alloc, &refusal, out)?;
    }
    Ok(())
}

const RULE: RuleNo = RuleNo {
    sequence: 20,
    position: 1,
};

static REASONS: [Why; 7] = [
    Why::NoSourcePort,
    Why::NoDestination,
    Why::NoRoute,
    Why::Denied { rule: Some(RULE) },
    Why::Denied { rule: None },
    Why::NoLabel,
    Why::TtlExpired,
];

/// The line of packet 4 for each reason to drop it.
pub(crate) fn push_reasons(alloc: Global, out: &mut TextOut) -> Result<(), NoMemory> {
    for why in &REASONS {
        let outcome = Outcome::Dropped { why: *why };
        OutcomeLines { number: 4 }.append(alloc, &outcome, out)?;
    }
    Ok(())
}

/// The line of packet 4 for each reason to drop it, as `scale` tells it.
pub(crate) fn push_spread_reasons(alloc: Global, out: &mut TextOut) -> Result<(), NoMemory> {
    for why in &REASONS {
        let spread = Spread::Dropped { why: *why };
        SpreadLines { number: 4 }.append(alloc, &spread, out)?;
    }
    Ok(())
}
