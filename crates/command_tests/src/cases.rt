//! How a line is read, and how its run is held against what it wants.

use crate::ends::{Ends, WHOLE_ENDS};
use crate::fault::CaseFault;
use crate::inputs::Input;
use crate::inspecting;
use crate::telling::{Run, Telling, tell, tell_status};
use ov_io::TextOut;
use std::alloc::Global;
use top_call::{Net, Status};

/// A run, how it is made, and what is told of it.
#[derive(Clone, Copy)]
struct Case<'a> {
    run: Run<'a>,
    ends: Ends,
    telling: Telling<'a>,
    /// The run is made with pieces of 1 octet a call, of 2, up to so many. Where this is 0, it is made once with its ends.
    pieces: usize,
}

/// Whether a line is a case that comes to what it wants. What it comes to is left in `told`, and the network of its run in
/// `net`.
///
/// A line is the words of the command, behind a bar the input, and behind `=>` the status and the lines. In place of the
/// bar and the input, `of` names one that is made. Before the words, up to a colon, stands what is set for the run; where
/// rows are told, what is wanted is a run with the same rows. A line that begins with `inspect` is a run of it.
pub(crate) fn holds(
    alloc: Global,
    line: &str,
    net: &mut Option<Net>,
    told: &mut TextOut,
) -> Result<bool, CaseFault> {
    if let Some(run) = line.strip_prefix("inspect ") {
        return inspecting::holds(alloc, run, told);
    }
    let (given, wanted) = line.split_once(" => ").ok_or(CaseFault::Unreadable)?;
    if given == "no memory" {
        return is_number_of(Status::NoMemory, wanted.as_bytes(), told);
    }
    let case = case_of(given)?;
    match case.telling {
        Telling::RowsOf(_) => holds_as(alloc, case, case_of(wanted)?.run, net, told),
        _ => comes_to(alloc, case, wanted.as_bytes(), net, told),
    }
}

/// Whether a status that no run here has comes to that.
fn is_number_of(status: Status, wanted: &[u8], told: &mut TextOut) -> Result<bool, CaseFault> {
    told.clear();
    tell_status(status, told)?;
    Ok(told.octets() == wanted)
}

/// Whether a case and another run come to the same.
fn holds_as(
    alloc: Global,
    case: Case,
    other: Run,
    net: &mut Option<Net>,
    told: &mut TextOut,
) -> Result<bool, CaseFault> {
    let mut wanted = TextOut::new(alloc);
    tell(alloc, other, WHOLE_ENDS, case.telling, net, &mut wanted)?;
    comes_to(alloc, case, wanted.octets(), net, told)
}

fn comes_to(
    alloc: Global,
    case: Case,
    wanted: &[u8],
    net: &mut Option<Net>,
    told: &mut TextOut,
) -> Result<bool, CaseFault> {
    if case.pieces == 0 {
        return comes_to_once(alloc, case, wanted, net, told);
    }
    for most in 1..=case.pieces {
        if !comes_to_once(alloc, in_pieces(case, most), wanted, net, told)? {
            return Ok(false);
        }
    }
    Ok(true)
}

/// A case with ends that move at most so many octets a call.
fn in_pieces(case: Case, most: usize) -> Case {
    let ends = Ends {
        most_read: most,
        most_written: most,
        ..case.ends
    };
    Case { ends, ..case }
}

fn comes_to_once(
    alloc: Global,
    case: Case,
    wanted: &[u8],
    net: &mut Option<Net>,
    told: &mut TextOut,
) -> Result<bool, CaseFault> {
    told.clear();
    tell(alloc, case.run, case.ends, case.telling, net, told)?;
    Ok(told.octets() == wanted)
}

fn case_of(text: &str) -> Result<Case, CaseFault> {
    match text.split_once(" | ") {
        Some((head, input)) => case_with(head, Some(input)),
        None => case_with(text, None),
    }
}

/// A case by what stands before its bar and behind it.
fn case_with<'a>(head: &'a str, input: Option<&'a str>) -> Result<Case<'a>, CaseFault> {
    match head.split_once(": ") {
        Some((settings, words)) => set_all(plain_case(run_of(words, input)?), settings),
        None => Ok(plain_case(run_of(head, input)?)),
    }
}

fn plain_case(run: Run) -> Case {
    Case {
        run,
        ends: WHOLE_ENDS,
        telling: Telling::Lines,
        pieces: 0,
    }
}

fn run_of<'a>(words: &'a str, input: Option<&'a str>) -> Result<Run<'a>, CaseFault> {
    if let Some(text) = input {
        return Ok(spelled_run(words, text));
    }
    match words.split_once(" of ") {
        Some((command, things)) => made_run(command, things),
        None => Ok(spelled_run(words, "")),
    }
}

fn spelled_run<'a>(command: &'a str, text: &'a str) -> Run<'a> {
    let input = Input::Spelled(text);
    Run { command, input }
}

fn made_run<'a>(command: &'a str, things: &'a str) -> Result<Run<'a>, CaseFault> {
    let (count, things) = things.split_once(" ").ok_or(CaseFault::Unreadable)?;
    let input = Input::Made(number_of(count)?, things);
    Ok(Run { command, input })
}

fn set_all<'a>(mut case: Case<'a>, settings: &'a str) -> Result<Case<'a>, CaseFault> {
    for setting in settings.split(", ") {
        set(&mut case, setting)?;
    }
    Ok(case)
}

fn set<'a>(case: &mut Case<'a>, setting: &'a str) -> Result<(), CaseFault> {
    let (name, value) = setting.rsplit_once(' ').ok_or(CaseFault::Unreadable)?;
    match name {
        "failing read" => case.ends.failing_read = Some(number_of(value)?),
        "failing write" => case.ends.failing_write = Some(number_of(value)?),
        "reads of" => case.ends.most_read = number_of(value)?,
        "pieces up to" => case.pieces = number_of(value)?,
        "rows of" => case.telling = Telling::RowsOf(value),
        "asked by" => case.telling = Telling::AskedBy(value),
        "telling" => case.telling = telling_of(value)?,
        _ => return Err(CaseFault::Unreadable),
    }
    Ok(())
}

fn telling_of(word: &str) -> Result<Telling<'static>, CaseFault> {
    match word {
        "octets" => Ok(Telling::Octets),
        "lines" => Ok(Telling::LineCount),
        "network" => Ok(Telling::Network),
        _ => Err(CaseFault::Unreadable),
    }
}

pub(crate) fn number_of(digits: &str) -> Result<usize, CaseFault> {
    match digits.parse() {
        Ok(number) => Ok(number),
        Err(_) => Err(CaseFault::Unreadable),
    }
}

/// Whether a line has no case.
pub(crate) fn is_passed_over(line: &str) -> bool {
    line.is_empty() || line.starts_with("#")
}
