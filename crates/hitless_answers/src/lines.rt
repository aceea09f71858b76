//! The lines of what is said of an edit.
ghost use Rattle.std.specs.Prelude.{◌≡◌, ◌++◌, Some, OnErr, OnOk};
ghost use Rattle.hitless_answers.specs.Lines.{count_line, course_text, difference_text, hitless_line, packet_line};
ghost use Rattle.hitless_answers.specs.Lines.{refused_line, tied_fault_text, tuple_text, ways_text};

use config_check::EditFault;
use hitless_cells::{Course, Difference, Interruption};
use ov_io::TextOut;
use ov_types::{NoMemory, Tuple};
use report::LinesOf;
use schedule_script::TiedFault;
use std::alloc::Global;
use std::fmt;

/// Why an edit is not made, as it is printed.
#[derive(Clone, Copy)]
pub(crate) struct TiedFaultText<'a>(pub(crate) &'a TiedFault);

impl fmt::Display for TiedFaultText<'_> {
    ghost output = { λ t. Some (tied_fault_text t.0.now) };

    fn fmt<W: fmt::Write>(&self, f: &mut fmt::Formatter<W>) -> fmt::Result {
        match self.0 {
            TiedFault::Edit(EditFault::Missing { name }) => write!(f, "Missing {name}"),
            TiedFault::Edit(EditFault::Rule(refusal)) => write!(f, "{refusal}"),
            TiedFault::Tied(tie) => write!(f, "Tied {tie}"),
        }
    }
}

/// A way, as it is printed.
#[derive(Clone, Copy)]
struct CourseText(Course);

impl fmt::Display for CourseText {
    ghost output = { λ c. Some (course_text c.0) };

    fn fmt<W: fmt::Write>(&self, f: &mut fmt::Formatter<W>) -> fmt::Result {
        match self.0 {
            Course::Inside => write!(f, "inside"),
            Course::Passing => write!(f, "pass"),
            Course::Through { use_no, .. } => write!(f, "use {use_no}"),
        }
    }
}

/// What differs, as it is printed.
#[derive(Clone, Copy)]
struct DifferenceText(Difference);

impl fmt::Display for DifferenceText {
    ghost output = { λ d. Some (difference_text d.0) };

    fn fmt<W: fmt::Write>(&self, f: &mut fmt::Formatter<W>) -> fmt::Result {
        match self.0 {
            Difference::NotOfferedBefore => write!(f, "not offered before"),
            Difference::NotOfferedAfter => write!(f, "not offered after"),
            Difference::Network => write!(f, "network"),
            Difference::Node => write!(f, "node"),
            Difference::Services => write!(f, "services"),
            Difference::Subnet => write!(f, "subnet"),
            Difference::ControlNodes => write!(f, "control nodes"),
            Difference::AnotherPort { after } => write!(f, "another port {after}"),
        }
    }
}

/// A tuple, as it is printed.
#[derive(Clone, Copy)]
struct TupleText(Tuple);

impl fmt::Display for TupleText {
    ghost output = { λ t. Some (tuple_text t.0) };

    fn fmt<W: fmt::Write>(&self, f: &mut fmt::Formatter<W>) -> fmt::Result {
        let proto = self.0.proto;
        let sport = self.0.sport;
        let dport = self.0.dport;
        write!(f, "{proto} {sport} {dport}")
    }
}

/// The ways before and after, and what differs first, as they are printed.
#[derive(Clone, Copy)]
struct WaysText(Interruption);

impl fmt::Display for WaysText {
    ghost output = { λ w. Some (ways_text w.0) };

    fn fmt<W: fmt::Write>(&self, f: &mut fmt::Formatter<W>) -> fmt::Result {
        let was = CourseText(self.0.was);
        let becomes = CourseText(self.0.becomes);
        let difference = DifferenceText(self.0.difference);
        write!(f, "{was} is {becomes}: {difference}")
    }
}

/// The lines of packets that the edit of this number interrupts.
#[derive(Clone, Copy)]
pub(crate) struct PacketLines {
    pub(crate) number: usize,
}

impl LinesOf<Interruption> for PacketLines {
    ghost lines = { λ p l. packet_line p.number l };

    #[tactic(auto, unfolding(crate::specs::Lines::packet_line))]
    fn append(
        &self,
        _alloc: Global,
        line: &Interruption,
        out: &mut TextOut,
    ) -> Result<(), NoMemory> {
        let number = self.number;
        let from = line.from;
        let to = line.to;
        let tuple = TupleText(line.tuple);
        let ways = WaysText(*line);
        write!(
            out,
            "{number} from {from} to {to} tuple {tuple} was {ways}\n"
        )
    }
}

/// The line of a refusal of the edit of this number.
#[derive(Clone, Copy)]
pub(crate) struct RefusedLines {
    pub(crate) number: usize,
}

impl LinesOf<TiedFault> for RefusedLines {
    ghost lines = { λ r fault. refused_line r.number fault };

    #[tactic(auto, unfolding(crate::specs::Lines::refused_line))]
    fn append(&self, _alloc: Global, fault: &TiedFault, out: &mut TextOut) -> Result<(), NoMemory> {
        let number = self.number;
        let fault = TiedFaultText(fault);
        write!(out, "{number} refused {fault}\n")
    }
}

/// The line that the edit of this number is hitless.
#[tactic(auto, unfolding(crate::specs::Lines::hitless_line))]
pub(crate) fn push_hitless(number: usize, out: &mut TextOut) -> Result<(), NoMemory>
    ensures ok { OnOk result (out.new ≡ out.old ++ hitless_line number) }
    ensures err { OnErr result (out.new ≡ out.old) }
{
    write!(out, "{number} hitless\n")
}

/// The line of how many pairs of ports the edit of this number interrupts.
#[tactic(auto, unfolding(crate::specs::Lines::count_line))]
pub(crate) fn push_count(number: usize, count: usize, out: &mut TextOut) -> Result<(), NoMemory>
    ensures ok { OnOk result (out.new ≡ out.old ++ count_line number count) }
    ensures err { OnErr result (out.new ≡ out.old) }
{
    write!(out, "{number} interrupts {count}\n")
}
