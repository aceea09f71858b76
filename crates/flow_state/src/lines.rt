//! The line of what a step answers.
ghost use Rattle.std.specs.Prelude.{◌≡◌, ◌++◌, OnOk, OnErr, Some};
ghost use Rattle.flow_state.specs.Lines.{flow_line, tied_fault_text};

use crate::answer::FlowAnswer;
use config_check::EditFault;
use ov_io::TextOut;
use ov_types::NoMemory;
use report::{LinesOf, OutcomeLines, did_lines};
use schedule_script::TiedFault;
use std::alloc::Global;
use std::fmt;

/// Why an edit is not made where ties are kept, as it is printed.
#[derive(Clone, Copy)]
struct TiedFaultText<'a>(&'a TiedFault);

impl fmt::Display for TiedFaultText<'_> {
    ghost output = { λ t. Some (tied_fault_text t.0.now) };

    fn fmt<W: fmt::Write>(&self, f: &mut fmt::Formatter<W>) -> fmt::Result {
        match self.0 {
            TiedFault::Edit(EditFault::Missing { name }) => write!(f, "Missing {name}"),
            TiedFault::Edit(EditFault::Rule(refusal)) => write!(f, "{refusal}"),
            TiedFault::Tied(tie) => write!(f, "Tied {tie}"),
        }
    }
}

/// Appends the line of what a step answers that has this number.
#[tactic(auto, unfolding(crate::specs::Lines::flow_line))]
pub(crate) fn push_answer(
    alloc: Global,
    number: usize,
    answer: &FlowAnswer,
    out: &mut TextOut,
) -> Result<(), NoMemory>
    ensures ok { OnOk result (out.new ≡ out.old ++ flow_line number answer.now) }
    ensures err { OnErr result (out.new ≡ out.old) }
{
    match answer {
        FlowAnswer::Edited => did_lines(alloc, number, out),
        FlowAnswer::Refused(fault) => {
            let fault = TiedFaultText(fault);
            write!(out, "{number} refused {fault}\n")
        }
        FlowAnswer::Traced(outcome) => OutcomeLines { number }.append(alloc, outcome, out),
    }
}
