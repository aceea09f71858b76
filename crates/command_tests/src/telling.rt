//! What is told of a run.

use crate::ends::{Ends, ShortSink, ShortSource};
use crate::fault::CaseFault;
use crate::inputs::Input;
use crate::networks::{tell_asked, tell_network};
use ov_io::TextOut;
use std::alloc::Global;
use std::str;
use top_call::{Net, Status, overlay};

/// A run, as a line spells it: the words of the command, and the input.
#[derive(Clone, Copy)]
pub(crate) struct Run<'a> {
    pub(crate) command: &'a str,
    pub(crate) input: Input<'a>,
}

/// What is told of a run behind its status.
#[derive(Clone, Copy)]
pub(crate) enum Telling<'a> {
    /// The lines of the run.
    Lines,
    /// How many octets the run writes.
    Octets,
    /// How many lines the run writes.
    LineCount,
    /// The lines of the run that are rows of the node with this name.
    RowsOf(&'a str),
    /// The network that the run leaves.
    Network,
    /// What the control node with this name asks of its peers in that network.
    AskedBy(&'a str),
}

/// Tells the status of a run, and what is asked for of it. The network that the run leaves is left in `net`.
pub(crate) fn tell(
    alloc: Global,
    run: Run,
    ends: Ends,
    telling: Telling,
    net: &mut Option<Net>,
    out: &mut TextOut,
) -> Result<(), CaseFault> {
    let words = words_of(alloc, run.command)?;
    let source = ends.source_of(alloc, run.input.octets(alloc)?)?;
    let mut sink = ends.sink(alloc)?;
    let status = ran(alloc, words.as_slice(), source, &mut sink, net);
    tell_end(alloc, status, sink.taken(), telling, net, out)
}

/// The words of a command. A blank in a word is spelled `\s`.
pub(crate) fn words_of(alloc: Global, command: &str) -> Result<Vec<String>, CaseFault> {
    let mut words = Vec::new(alloc);
    for word in command.split_whitespace() {
        words.push(word.replace(alloc, "\\s", " ")?)?;
    }
    Ok(words)
}

fn ran(
    alloc: Global,
    words: &[String],
    mut source: ShortSource,
    sink: &mut ShortSink,
    net: &mut Option<Net>,
) -> Status {
    overlay(alloc, words, &mut source, sink, net)
}

fn tell_end(
    alloc: Global,
    status: Status,
    text: &[u8],
    telling: Telling,
    net: &Option<Net>,
    out: &mut TextOut,
) -> Result<(), CaseFault> {
    tell_status(status, out)?;
    match telling {
        Telling::Lines => push_lines(text, out),
        Telling::Octets => push_count(text.len(), out),
        Telling::LineCount => push_count(lines_in(text), out),
        Telling::RowsOf(node) => push_rows(text, node, out),
        Telling::Network => tell_network(net, out),
        Telling::AskedBy(node) => tell_asked(alloc, net, node, out),
    }
}

/// Tells the number of a status.
pub(crate) fn tell_status(status: Status, out: &mut TextOut) -> Result<(), CaseFault> {
    let number = status.number();
    Ok(write!(out, "{number}")?)
}

fn push_count(count: usize, out: &mut TextOut) -> Result<(), CaseFault> {
    Ok(write!(out, " / {count}")?)
}

fn lines_in(text: &[u8]) -> usize {
    text.iter().filter(|octet| **octet == b'\n').count()
}

/// The last line ends as each does.
pub(crate) fn push_lines(text: &[u8], out: &mut TextOut) -> Result<(), CaseFault> {
    let lines = match text.split_last() {
        None => return Ok(()),
        Some((b'\n', lines)) => lines,
        Some(_) => return Ok(out.push(b" and a line that is cut")?),
    };
    for line in lines.split(|octet| *octet == b'\n') {
        push_line(line, out)?;
    }
    Ok(())
}

/// The lines of the rows of a node. A settled node has some.
fn push_rows(text: &[u8], node: &str, out: &mut TextOut) -> Result<(), CaseFault> {
    let text = str::from_utf8(text).map_err(|_| CaseFault::Unreadable)?;
    let mut is_bare = true;
    for line in text.lines() {
        if is_row_of(line, node) {
            push_line(line.as_bytes(), out)?;
            is_bare = false;
        }
    }
    if is_bare {
        return Err(CaseFault::NoRows);
    }
    Ok(())
}

/// Whether a line is one of the rows of a node.
fn is_row_of(line: &str, node: &str) -> bool {
    let mut words = line.split_whitespace();
    match words.next() {
        Some("control" | "agent") => words.next() == Some(node),
        _ => false,
    }
}

fn push_line(line: &[u8], out: &mut TextOut) -> Result<(), CaseFault> {
    Ok(out.push_both(b" / ", line)?)
}
