//! The lines of ways.
ghost use Rattle.std.specs.Prelude.{◌≡◌, ◌++◌, Some, IfOk, OnOk, codes, decimal, string_bytes};
ghost use Rattle.report.specs.Lists.{more_text};
ghost use Rattle.report.specs.Objects.{range_text};
ghost use Rattle.report.specs.Outcomes.{services_text};
ghost use Rattle.inspect_changes.specs.Lines.{passage_text, protocols_text, region_text, way_line};

use crate::way::{Passage, Way};
use ov_io::TextOut;
use ov_types::{Name, NoMemory, Range16, RuleNo, ServiceNo};
use policy_regions::Region;
use report::LinesOf;
use std::alloc::{AllocError, Global};
use std::fmt;

/// A range, as it is printed.
#[derive(Clone, Copy)]
struct RangeText(Range16);

impl fmt::Display for RangeText {
    ghost output = { λ r. Some (range_text r.0) };

    fn fmt<W: fmt::Write>(&self, f: &mut fmt::Formatter<W>) -> fmt::Result {
        let lo = self.0.lo;
        let hi = self.0.hi;
        write!(f, "{lo}-{hi}")
    }
}

/// Protocols, as they are printed.
#[derive(Clone, Copy)]
struct ProtocolsText(Range16);

impl fmt::Display for ProtocolsText {
    ghost output = { λ p. Some (protocols_text p.0) };

    fn fmt<W: fmt::Write>(&self, f: &mut fmt::Formatter<W>) -> fmt::Result {
        let lo = self.0.lo;
        let hi = self.0.hi;
        if lo == hi {
            return write!(f, "{lo}");
        }
        if lo == 0 && hi == 255 {
            return write!(f, "any");
        }
        let range = RangeText(self.0);
        write!(f, "{range}")
    }
}

/// A region, as it is printed.
#[derive(Clone, Copy)]
pub(crate) struct RegionText(pub(crate) Region);

impl fmt::Display for RegionText {
    ghost output = { λ r. Some (region_text r.0) };

    fn fmt<W: fmt::Write>(&self, f: &mut fmt::Formatter<W>) -> fmt::Result {
        let protocols = ProtocolsText(self.0.protocols);
        let source = RangeText(self.0.source_ports);
        let destination = RangeText(self.0.destination_ports);
        write!(
            f,
            "protocol {protocols} source {source} destination {destination}"
        )
    }
}

/// Appends services, each behind a comma.
fn append_more(services: &[ServiceNo], text: &mut String) -> Result<(), AllocError>
    ensures { OnOk result (string_bytes text.new ≡ string_bytes text.old ++ more_text (λ s. decimal s.0) services.now) }
{
    for service in services {
        append_behind_comma(*service, text)?;
    }
    Ok(())
}

fn append_behind_comma(service: ServiceNo, text: &mut String) -> Result<(), AllocError>
    ensures { OnOk result (string_bytes text.new ≡ string_bytes text.old ++ (codes "," ++ decimal service.0)) }
{
    write!(text, ",{service}")
}

/// Services joined by commas, and `-` where there are none.
pub fn joined(alloc: Global, services: &[ServiceNo]) -> Result<String, AllocError>
    ensures { IfOk result (λ s. string_bytes s ≡ services_text services.now) }
{
    match services {
        [] => String::from_str(alloc, "-"),
        [first, others @ ..] => {
            let mut text = String::new(alloc);
            write!(text, "{first}")?;
            append_more(others, &mut text)?;
            Ok(text)
        }
    }
}

/// Which rule lets through, and through which services.
fn passage_of(alloc: Global, rule: RuleNo, passage: &Passage) -> Result<String, AllocError>
    ensures { IfOk result (λ s. string_bytes s ≡ passage_text rule passage.now) }
{
    match passage {
        Passage::Straight => format!(in alloc; "passed {rule} services -"),
        Passage::Through { services } => {
            let services = joined(alloc, services.as_slice())?;
            format!(in alloc; "through {rule} services {services}")
        }
    }
}

/// The line of a way, behind the names of its two networks.
#[derive(Clone, Copy)]
pub struct WayLines {
    pub from: Name,
    pub to: Name,
}

impl LinesOf<Way> for WayLines {
    ghost lines = { λ w way. way_line w.from w.to way };

    #[tactic(auto, unfolding(crate::specs::Lines::way_line))]
    fn append(&self, alloc: Global, way: &Way, out: &mut TextOut) -> Result<(), NoMemory> {
        let from = self.from;
        let to = self.to;
        let region = RegionText(way.region);
        let passage = passage_of(alloc, way.decision.rule, &way.passage)?;
        write!(out, "{from} > {to} {region} {passage}\n")
    }
}
