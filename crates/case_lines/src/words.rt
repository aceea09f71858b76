//! The words that cases are spelled with.

use crate::fault::CaseFault;
use ov_types::Addr;
use ov_types::written::address_from;
use std::alloc::Global;

pub fn number(word: &str) -> Result<u32, CaseFault> {
    match word.parse() {
        Ok(number) => Ok(number),
        Err(_) => Err(CaseFault::Unreadable),
    }
}

pub fn short_number(word: &str) -> Result<u16, CaseFault> {
    match word.parse() {
        Ok(number) => Ok(number),
        Err(_) => Err(CaseFault::Unreadable),
    }
}

pub fn octet(word: &str) -> Result<u8, CaseFault> {
    match word.parse() {
        Ok(number) => Ok(number),
        Err(_) => Err(CaseFault::Unreadable),
    }
}

/// A number of eight octets, in 16 hexadecimal digits.
pub fn long_number(alloc: Global, digits: &str) -> Result<u64, CaseFault> {
    let octets = hex::decode(alloc, digits)?;
    number_in(octets.as_slice())
}

fn number_in(octets: &[u8]) -> Result<u64, CaseFault> {
    match octets {
        [a, b, c, d, e, f, g, h] => Ok(u64::from_be_bytes([*a, *b, *c, *d, *e, *f, *g, *h])),
        _ => Err(CaseFault::Unreadable),
    }
}

pub fn address(word: &str) -> Result<Addr, CaseFault> {
    match address_from(word) {
        Some(address) => Ok(Addr(address)),
        None => Err(CaseFault::Unreadable),
    }
}

/// A word, and those behind it.
pub fn both(words: &str) -> Result<(&str, &str), CaseFault> {
    words.split_once(" ").ok_or(CaseFault::Unreadable)
}
