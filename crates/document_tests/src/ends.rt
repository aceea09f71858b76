//! Ends that keep what people are told by.

use crate::documents::number_of;
use crate::fault::{CaseFault, told};
use crate::octets::octets_of;
use crate::sentences::push_stop;
use explanations::{FrontSink, HeardSource, KeptInput};
use ov_io::{MemSink, MemSource, TextOut, read_all, write_all};
use std::alloc::Global;

pub(crate) fn tell(
    alloc: Global,
    kind: &str,
    given: &str,
    out: &mut TextOut,
) -> Result<(), CaseFault> {
    let (word, rest) = given.split_once(" ").ok_or(CaseFault::Unreadable)?;
    match kind {
        "front" => tell_front(alloc, word, rest, out),
        _ => tell_heard(alloc, word, rest, out),
    }
}

/// Which writes fail of texts, which stand between plus signs behind the number of the write that is to fail, and the front that
/// is kept of the others.
fn tell_front(
    alloc: Global,
    failing: &str,
    texts: &str,
    out: &mut TextOut,
) -> Result<(), CaseFault> {
    let failing = vec![in alloc; u64::from(number_of(failing)?)]?;
    let mut sink = FrontSink::new(MemSink::new(alloc, failing));
    write_texts(alloc, texts, &mut sink, out)?;
    told(out.push(sink.front()))
}

fn write_texts(
    alloc: Global,
    texts: &str,
    sink: &mut FrontSink<MemSink>,
    out: &mut TextOut,
) -> Result<(), CaseFault> {
    for text in texts.split(" + ") {
        let octets = octets_of(alloc, text)?;
        if write_all(sink, octets.as_slice()).is_err() {
            out.push(b"failed;")?;
        }
    }
    Ok(())
}

/// An input of this many blanks, and then a digit.
fn blanks_and_a_digit(alloc: Global, blanks: &str) -> Result<MemSource, CaseFault> {
    let mut octets = vec![in alloc; b' '; usize::from(number_of(blanks)?)]?;
    octets.push(b'0')?;
    Ok(MemSource::new(alloc, octets, Vec::new(alloc)))
}

/// How many octets are read of blanks and a digit, and what was heard of them then.
fn tell_heard(
    alloc: Global,
    asked: &str,
    blanks: &str,
    out: &mut TextOut,
) -> Result<(), CaseFault> {
    let heard = match asked {
        "document" => KeptInput::Document(Vec::new(alloc)),
        _ => KeptInput::Digits(Vec::new(alloc)),
    };
    let mut source = HeardSource::new(blanks_and_a_digit(alloc, blanks)?, heard);
    push_read(alloc, &mut source, out)?;
    push_heard(alloc, source.heard(), out)
}

fn push_read(
    alloc: Global,
    source: &mut HeardSource<MemSource>,
    out: &mut TextOut,
) -> Result<(), CaseFault> {
    match read_all(alloc, source, 100_000) {
        Ok(octets) => {
            let count = octets.len();
            told(write!(out, "{count} read;"))
        }
        Err(_) => Err(CaseFault::NoMemory),
    }
}

fn push_heard(alloc: Global, heard: &KeptInput, out: &mut TextOut) -> Result<(), CaseFault> {
    match heard {
        KeptInput::Document(octets) => {
            let count = octets.len();
            let is_whole = octets.ends_with(b" 0");
            told(write!(out, "{count} heard, to the end: {is_whole}"))
        }
        _ => push_stop(alloc, heard, out),
    }
}
