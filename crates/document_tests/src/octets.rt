//! How a case spells octets.

use crate::fault::CaseFault;
use std::alloc::Global;

/// How much of the spelling of an octet has come.
#[derive(Clone, Copy)]
enum Spelling {
    Nothing,
    /// A backslash.
    Backslash,
    /// A backslash and an `x`.
    Digits,
    /// A backslash, an `x`, and a digit of this value.
    Digit(u8),
}

/// The value of a hexadecimal digit.
fn digit_of(octet: u8) -> Option<u8> {
    match octet {
        b'0'..=b'9' => Some(octet - b'0'),
        b'a'..=b'f' => Some(octet - b'a' + 10),
        _ => None,
    }
}

/// What stands for itself behind a backslash, or for a line feed, a carriage return or a tab.
fn escaped(octet: u8) -> u8 {
    match octet {
        b'n' => b'\n',
        b'r' => b'\r',
        b't' => b'\t',
        _ => octet,
    }
}

fn push(octet: u8, octets: &mut Vec<u8>) -> Result<Spelling, CaseFault> {
    match octets.push(octet) {
        Ok(()) => Ok(Spelling::Nothing),
        Err(_) => Err(CaseFault::NoMemory),
    }
}

fn push_digits(high: u8, low: u8, octets: &mut Vec<u8>) -> Result<Spelling, CaseFault> {
    match digit_of(low) {
        Some(low) => push(high.saturating_mul(16).saturating_add(low), octets),
        None => Err(CaseFault::Unreadable),
    }
}

/// Goes on with one octet of the text, and appends the octet that is spelled with it.
fn spell(spelling: Spelling, octet: u8, octets: &mut Vec<u8>) -> Result<Spelling, CaseFault> {
    match spelling {
        Spelling::Nothing if octet == b'\\' => Ok(Spelling::Backslash),
        Spelling::Nothing => push(octet, octets),
        Spelling::Backslash if octet == b'x' => Ok(Spelling::Digits),
        Spelling::Backslash => push(escaped(octet), octets),
        Spelling::Digits => match digit_of(octet) {
            Some(high) => Ok(Spelling::Digit(high)),
            None => Err(CaseFault::Unreadable),
        },
        Spelling::Digit(high) => push_digits(high, octet, octets),
    }
}

fn spell_all(text: &str, octets: &mut Vec<u8>) -> Result<(), CaseFault> {
    let mut spelling = Spelling::Nothing;
    for octet in text.bytes() {
        spelling = spell(spelling, octet, octets)?;
    }
    match spelling {
        Spelling::Nothing => Ok(()),
        _ => Err(CaseFault::Unreadable),
    }
}

/// The octets of a text, in which a line feed, a carriage return, a tab and a backslash are spelled `\n`, `\r`, `\t` and `\\`,
/// and `\x` with two digits is the octet of that number.
pub(crate) fn octets_of(alloc: Global, text: &str) -> Result<Vec<u8>, CaseFault> {
    let mut octets = Vec::new(alloc);
    match spell_all(text, &mut octets) {
        Ok(()) => Ok(octets),
        Err(fault) => Err(fault),
    }
}
