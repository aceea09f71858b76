//! Octets that are spelled in hexadecimal digits, read where they lie.
ghost use Rattle.std.specs.Prelude.{◌≡◌, ◌≤◌, ◌<◌, length, IfOk, IfSome, option_map};
ghost use Rattle.hex.specs.Hex.{hex_digit_value};
ghost use Rattle.decode_answers.specs.Decoding.{is_blank, spelled, without_blanks};
ghost use Rattle.decode_answers.specs.Digits.{IsFront, pair_octet, BeginsPlainly};

use ov_types::NoMemory;
use std::alloc::Global;

fn is_blank(octet: u8) -> bool
    ensures { result ≡ is_blank octet }
{
    octet == b' ' || octet == b'\t' || octet == b'\n' || octet == b'\r'
}

/// The value of a digit of either case.
fn digit_value(octet: u8) -> Option<u8>
    ensures value { result ≡ hex_digit_value octet }
    ensures small { IfSome result (λ value. value < 16) }
{
    match octet {
        b'0'..=b'9' => Some(octet - b'0'),
        b'a'..=b'f' => Some(octet - b'a' + 10),
        b'A'..=b'F' => Some(octet - b'A' + 10),
        _ => None,
    }
}

/// The text from its first octet on that is no blank.
fn behind_blanks(text: &[u8]) -> &[u8]
    ensures same { without_blanks result.now ≡ without_blanks text.now }
    ensures digit { BeginsPlainly result.now }
    ensures length { length result.now ≤ length text.now }
{
    let mut rest = text;
    while let [octet, after @ ..] = rest {
        if !is_blank(*octet) {
            return rest;
        }
        rest = after;
    }
    rest
}

/// What stands at the front of a text.
enum Front<'a> {
    /// The first octet that it spells, and the text behind its digits.
    Octet(u8, &'a [u8]),
    /// Blanks, and nothing behind them.
    Blank,
    /// What is no pair of digits.
    NoPair,
}

/// The octet of two digits.
fn pair_octet(high: u8, low: u8) -> Option<u8>
    ensures { result ≡ pair_octet high low }
{
    Some(digit_value(high)? * 16 + digit_value(low)?)
}

/// What stands at the front of a text whose first octets may be blank.
fn front_among_blanks(text: &[u8]) -> Front<'_>
    ensures { IsFront text.now result }
{
    let first = behind_blanks(text);
    if first.is_empty() {
        return Front::Blank;
    }
    let second = behind_blanks(&first[1..]);
    if second.is_empty() {
        return Front::NoPair;
    }
    match pair_octet(first[0], second[0]) {
        Some(octet) => Front::Octet(octet, &second[1..]),
        None => Front::NoPair,
    }
}

fn front_of(text: &[u8]) -> Front<'_>
    ensures { IsFront text.now result }
{
    if text.len() >= 2 {
        if let Some(octet) = pair_octet(text[0], text[1]) {
            return Front::Octet(octet, &text[2..]);
        }
    }
    front_among_blanks(text)
}

/// The octets that a text spells.
pub(crate) fn octets_of(alloc: Global, text: &[u8]) -> Result<Option<Vec<u8>>, NoMemory>
    ensures { IfOk result (λ found. option_map (λ octets. octets.items) found ≡ spelled text.now) }
{
    let mut octets = Vec::with_capacity(alloc, text.len() / 2)?;
    let mut rest = text;
    while !rest.is_empty() {
        match front_of(rest) {
            Front::Octet(octet, after) => {
                octets.push(octet)?;
                rest = after;
            }
            Front::Blank => return Ok(Some(octets)),
            Front::NoPair => return Ok(None),
        }
    }
    Ok(Some(octets))
}
