//! Octets, as steps spell them: a record is its text, which stands behind its length, and a message of BGP is `M` for its marker
//! and pairs of hexadecimal digits.

use case_lines::{CaseFault, behind_marker, push_digits, push_slice, push_words};
use ov_io::TextOut;
use ov_types::NoMemory;
use std::alloc::Global;

/// The octets of the records and messages of a text, which stand between plus signs.
pub(crate) fn octets(alloc: Global, text: &str) -> Result<Vec<u8>, CaseFault> {
    let mut octets = Vec::new(alloc);
    match push_all(alloc, text, &mut octets) {
        Ok(()) => Ok(octets),
        Err(fault) => Err(fault),
    }
}

fn push_all(alloc: Global, text: &str, octets: &mut Vec<u8>) -> Result<(), CaseFault> {
    for one in text.split(" + ") {
        push_one(alloc, one, octets)?;
    }
    Ok(())
}

fn push_one(alloc: Global, text: &str, octets: &mut Vec<u8>) -> Result<(), CaseFault> {
    if text.starts_with("{") {
        push_record(text, octets)
    } else {
        push_words(alloc, text, octets)
    }
}

fn push_record(text: &str, octets: &mut Vec<u8>) -> Result<(), CaseFault> {
    match u32::try_from(text.len()) {
        Ok(length) => push_slice(&length.to_be_bytes(), octets)?,
        Err(_) => return Err(CaseFault::Unreadable),
    }
    push_slice(text.as_bytes(), octets)
}

/// Some octets of a whole: all of them, the `first` so many, or those `past` so many.
pub(crate) fn part_of<'a>(part: &str, whole: &'a [u8]) -> Result<&'a [u8], CaseFault> {
    match part.split_once(" ") {
        Some((side, count)) => cut_at(side, count, whole),
        None => Ok(whole),
    }
}

fn cut_at<'a>(side: &str, count: &str, whole: &'a [u8]) -> Result<&'a [u8], CaseFault> {
    let cut = match count.parse::<usize>() {
        Ok(cut) if cut <= whole.len() => cut,
        _ => return Err(CaseFault::Unreadable),
    };
    match side {
        "first" => Ok(&whole[..cut]),
        "past" => Ok(&whole[cut..]),
        _ => Err(CaseFault::Unreadable),
    }
}

/// Tells a record as its text, a message as `M` and its other octets, and what is neither as its octets.
pub(crate) fn push_message(octets: &[u8], out: &mut TextOut) -> Result<(), NoMemory> {
    match text_of(octets) {
        Some(text) => out.push(text),
        None => push_octets(octets, out),
    }
}

fn push_octets(octets: &[u8], out: &mut TextOut) -> Result<(), NoMemory> {
    match behind_marker(octets) {
        Some(rest) => {
            out.push(b"M ")?;
            push_digits(rest, out)
        }
        None => push_digits(octets, out),
    }
}

/// The text of a record.
fn text_of(octets: &[u8]) -> Option<&[u8]> {
    match octets {
        [a, b, c, d, text @ ..] => {
            let length = u32::from_be_bytes([*a, *b, *c, *d]);
            if text.len() == length as usize {
                Some(text)
            } else {
                None
            }
        }
        _ => None,
    }
}
