//! The lines of outcomes, and of outcomes with the members that are visited.
ghost use Rattle.std.specs.Prelude.{Some};
ghost use Rattle.report.specs.Outcomes.{outcome_line, spread_line, why_text};

use crate::lined::LinesOf;
use crate::lists::joined;
use ov_io::TextOut;
use ov_types::{NoMemory, Outcome, Why};
use scale_out::Spread;
use std::alloc::Global;
use std::fmt;

/// Why a packet is dropped, as it is printed.
#[derive(Clone, Copy)]
struct WhyText(Why);

impl fmt::Display for WhyText {
    ghost output = { λ w. Some (why_text w.0) };

    fn fmt<W: fmt::Write>(&self, f: &mut fmt::Formatter<W>) -> fmt::Result {
        match self.0 {
            Why::NoSourcePort => write!(f, "no-source-port"),
            Why::NoDestination => write!(f, "no-destination"),
            Why::NoRoute => write!(f, "no-route"),
            Why::Denied { rule: None } => write!(f, "denied -"),
            Why::Denied { rule: Some(rule) } => write!(f, "denied {rule}"),
            Why::NoLabel => write!(f, "no-label"),
            Why::TtlExpired => write!(f, "ttl-expired"),
        }
    }
}

/// The line of an outcome, behind the number of its packet or its event.
#[derive(Clone, Copy)]
pub struct OutcomeLines {
    pub number: usize,
}

impl LinesOf<Outcome> for OutcomeLines {
    ghost lines = { λ w outcome. outcome_line w.number outcome };

    #[tactic(auto, unfolding(crate::specs::Outcomes::outcome_line))]
    fn append(&self, alloc: Global, outcome: &Outcome, out: &mut TextOut) -> Result<(), NoMemory> {
        let number = self.number;
        match outcome {
            Outcome::Delivered { port, services } => {
                let services = joined(alloc, services.as_slice())?;
                write!(out, "{number} delivered port {port} services {services}\n")
            }
            Outcome::Dropped { why } => {
                let why = WhyText(*why);
                write!(out, "{number} dropped {why}\n")
            }
        }
    }
}

/// The line of an outcome, behind the number of its packet, with each visit as its service and the member.
#[derive(Clone, Copy)]
pub struct SpreadLines {
    pub number: usize,
}

impl LinesOf<Spread> for SpreadLines {
    ghost lines = { λ w spread. spread_line w.number spread };

    #[tactic(auto, unfolding(crate::specs::Outcomes::spread_line))]
    fn append(&self, alloc: Global, spread: &Spread, out: &mut TextOut) -> Result<(), NoMemory> {
        let number = self.number;
        match spread {
            Spread::Delivered { port, visits } => {
                let visits = joined(alloc, visits.as_slice())?;
                write!(out, "{number} delivered port {port} services {visits}\n")
            }
            Spread::Dropped { why } => {
                let why = WhyText(*why);
                write!(out, "{number} dropped {why}\n")
            }
        }
    }
}
