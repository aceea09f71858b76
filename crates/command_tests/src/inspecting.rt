//! Runs of `inspect`, and what is told of them: the status, and the lines.

use crate::cases::number_of;
use crate::ends::{Ends, WHOLE_ENDS};
use crate::fault::CaseFault;
use crate::telling::{push_lines, words_of};
use inspect_answers::{Which, inspect, inspect_diff};
use ov_io::TextOut;
use std::alloc::Global;

/// A run: the words of the command, and its document or both.
#[derive(Clone, Copy)]
struct Run<'a> {
    command: &'a str,
    document: &'a str,
    after: Option<&'a str>,
}

/// Whether a line is a run of `inspect` that comes to what it wants. What it comes to is left in `told`.
///
/// A line is the words of the command, behind each bar a document, and behind `=>` the status and the lines. Before the
/// words, up to a colon, stands which call of an end fails, counted from 1: `failing read 1`, `failing write 1`.
pub(crate) fn holds(alloc: Global, line: &str, told: &mut TextOut) -> Result<bool, CaseFault> {
    let (given, wanted) = line.split_once(" => ").ok_or(CaseFault::Unreadable)?;
    let (head, documents) = given.split_once(" | ").ok_or(CaseFault::Unreadable)?;
    let (ends, command) = ends_and_words(head)?;
    told.clear();
    tell(alloc, run_of(command, documents), ends, told)?;
    Ok(told.octets() == wanted.as_bytes())
}

fn run_of<'a>(command: &'a str, documents: &'a str) -> Run<'a> {
    match documents.split_once(" | ") {
        Some((before, after)) => Run {
            command,
            document: before,
            after: Some(after),
        },
        None => Run {
            command,
            document: documents,
            after: None,
        },
    }
}

fn ends_and_words(head: &str) -> Result<(Ends, &str), CaseFault> {
    match head.split_once(": ") {
        Some((setting, words)) => Ok((ends_of(setting)?, words)),
        None => Ok((WHOLE_ENDS, head)),
    }
}

fn ends_of(setting: &str) -> Result<Ends, CaseFault> {
    let (name, number) = setting.rsplit_once(' ').ok_or(CaseFault::Unreadable)?;
    let call = Some(number_of(number)?);
    match name {
        "failing read" => Ok(Ends {
            failing_read: call,
            ..WHOLE_ENDS
        }),
        "failing write" => Ok(Ends {
            failing_write: call,
            ..WHOLE_ENDS
        }),
        _ => Err(CaseFault::Unreadable),
    }
}

/// Tells a run. Of two documents it tells at a fault behind the status which one is at fault.
fn tell(alloc: Global, run: Run, ends: Ends, out: &mut TextOut) -> Result<(), CaseFault> {
    let words = words_of(alloc, run.command)?;
    let mut source = ends.source_of(alloc, run.document.as_bytes().to_vec(alloc)?)?;
    let mut sink = ends.sink(alloc)?;
    match run.after {
        None => {
            let status = inspect(alloc, words.as_slice(), &mut source, &mut sink);
            let number = status.number();
            write!(out, "{number}")?;
        }
        Some(after) => {
            let mut second = ends.source_of(alloc, after.as_bytes().to_vec(alloc)?)?;
            let ending = inspect_diff(alloc, words.as_slice(), &mut source, &mut second, &mut sink);
            let number = ending.status.number();
            write!(out, "{number}")?;
            if matches!(ending.which, Which::After) {
                out.push(b" after")?;
            }
        }
    }
    push_lines(sink.taken(), out)
}
