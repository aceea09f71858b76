//! The lines of answers.
ghost use Rattle.std.specs.Prelude.{◌≡◌, ◌++◌, OnOk, OnErr};
ghost use Rattle.report.specs.Answers.{IsAnswerTo, answer_lines, settled_text, shown_lines, tied_answer_lines};
ghost use Rattle.schedule_script.specs.Answers.{OfAnswer};

use crate::lined::LinesOf;
use crate::outcomes::OutcomeLines;
use crate::refusals::EditFaultText;
use crate::rows::node_lines;
use ov_io::TextOut;
use ov_types::{Name, NoMemory, NodeRows};
use schedule_script::{Answer, Event, TiedAnswer};
use std::alloc::Global;

fn settled_text(settled: bool) -> &'static str
    ensures { result.now ≡ settled_text settled }
{
    if settled { "settled" } else { "unsettled" }
}

/// Appends the lines of a node that is shown.
fn shown_lines(
    alloc: Global,
    number: usize,
    node: &Name,
    rows: &NodeRows,
    out: &mut TextOut,
) -> Result<(), NoMemory>
    ensures ok { OnOk result (out.new ≡ out.old ++ shown_lines number node.now rows.now) }
    ensures err { OnErr result (out.new ≡ out.old) }
{
    let mut lines = TextOut::new(alloc);
    write!(lines, "{number} show {node}\n")?;
    node_lines(alloc, node, rows, &mut lines)?;
    out.push(lines.octets())
}

/// Appends the lines of what an event answers, which has this number.
#[tactic(auto, unfolding(crate::specs::Answers::answer_lines))]
pub fn answer_lines(
    alloc: Global,
    number: usize,
    event: &Event,
    answer: &Answer,
    out: &mut TextOut,
) -> Result<(), NoMemory>
    requires { IsAnswerTo event.now answer.now }
    ensures ok { OnOk result (out.new ≡ out.old ++ answer_lines number event.now answer.now) }
    ensures err { OnErr result (out.new ≡ out.old) }
{
    match answer {
        Answer::Did => write!(out, "{number} did\n"),
        Answer::Idle => write!(out, "{number} idle\n"),
        Answer::EditRefused(fault) => {
            let fault = EditFaultText(fault);
            write!(out, "{number} refused {fault}\n")
        }
        Answer::Rounds { rounds, settled } => {
            let settled = settled_text(*settled);
            write!(out, "{number} {settled} rounds {rounds}\n")
        }
        Answer::Shown(rows) => match event {
            Event::Show { node } => shown_lines(alloc, number, node, rows, out),
            _ => unreachable!(),
        },
        Answer::Traced(outcome) => OutcomeLines { number }.append(alloc, outcome, out),
    }
}

/// Appends the lines of what an event answers where ties are kept: an edit that would break a tie is refused with it.
pub fn tied_answer_lines(
    alloc: Global,
    number: usize,
    event: &Event,
    answer: &TiedAnswer,
    out: &mut TextOut,
) -> Result<(), NoMemory>
    requires { OfAnswer (IsAnswerTo event.now) event.now answer.now }
    ensures ok { OnOk result (out.new ≡ out.old ++ tied_answer_lines number event.now answer.now) }
    ensures err { OnErr result (out.new ≡ out.old) }
{
    match answer {
        TiedAnswer::Answered(answer) => answer_lines(alloc, number, event, answer, out),
        TiedAnswer::EditTied(tie) => write!(out, "{number} refused Tied {tie}\n"),
    }
}
