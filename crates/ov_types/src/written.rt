//! The texts of addresses and prefixes.
ghost use Rattle.std.specs.Prelude.{◌≡◌};
ghost use Rattle.ov_types.specs.Written.{address_of, begins_plainly, length_of, block_of};

use crate::prefix::{Addr, Prefix};
use std::net::Ipv4Addr;

/// The longest prefix is an address.
const LONGEST: u8 = 32;

/// The address of which this is the text: four decimal numbers 0 to 255 without leading zeros, joined by points.
pub fn address_from(text: &str) -> Option<u32>
    ensures { result ≡ address_of text.now }
{
    match text.parse::<Ipv4Addr>() {
        Ok(address) => Some(u32::from(address)),
        Err(_) => None,
    }
}

/// Whether digits that begin so are a number in decimal.
fn begins_plainly(text: &str) -> bool
    ensures { result ≡ begins_plainly text.now }
{
    matches!(text.as_bytes(), [b'0'..=b'9'] | [b'1'..=b'9', _, ..])
}

/// The length of a prefix of which this is the text: 0 to 32 in decimal, without leading zeros.
fn length_from(text: &str) -> Option<u8>
    ensures { result ≡ length_of text.now }
{
    if !begins_plainly(text) {
        return None;
    }
    match text.parse::<u8>() {
        Ok(len) if len <= LONGEST => Some(len),
        _ => None,
    }
}

/// The prefix of which this is the text: an address, `/` and a length, with no bit past the length set.
#[tactic(auto, unfolding(crate::specs::Written::block_of))]
pub fn prefix_from(text: &str) -> Option<Prefix>
    ensures { result ≡ block_of text.now }
{
    let (address, length) = text.split_once('/')?;
    let address = address_from(address)?;
    let length = length_from(length)?;
    Prefix::new(Addr(address), length)
}
