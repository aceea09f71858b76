//! An entry as it is spelled (RFC 4684, section 4).
ghost use Rattle.std.specs.Prelude.{◌≡◌, ◌≤◌, ◌<◌, ◌-◌, ◌++◌, ℕ, List, IsTrue, length, drop, replicate, IfSome, IfNone};
ghost use Rattle.byteorder.specs.Endian.{big_number};
ghost use Rattle.bgp_vpn.specs.Pieces.{octets_for};
ghost use Rattle.bgp_vpn.specs.Routes.{RouteFields};
ghost use Rattle.rt_membership.specs.Asked.{is_length};
ghost use Rattle.rt_membership.specs.Entries.{IsEntry, BeginsWithEntry, first_bits, asked_of};
ghost use Rattle.rt_membership.specs.Lying.{fields_of};

use crate::asked::Asked;
use crate::known::{LEAST_BITS, MOST_BITS, MOST_OCTETS};
use byteorder::{BigEndian, ByteOrder};
use ov_types::Target;

/// An entry where it lies: its length in bits, and its octets.
#[derive(Clone, Copy)]
pub(crate) struct Entry<'a> {
    pub(crate) bits: u8,
    pub(crate) octets: &'a [u8],
}

fn is_length(bits: u8) -> bool
    ensures { result ≡ is_length bits }
{
    bits == 0 || (bits >= LEAST_BITS && bits <= MOST_BITS)
}

/// How many octets hold a number of bits.
pub(crate) fn octets_for(bits: u8) -> usize
    ensures { result ≡ octets_for bits }
{
    (usize::from(bits) + 7) / 8
}

/// The entry at the front, and the octets after it. None where there is none whole.
pub(crate) fn split_entry(octets: &[u8]) -> Option<(Entry<'_>, &[u8])>
    ensures found { IfSome result (λ front. BeginsWithEntry octets.now (fields_of front.0) front.1.now) }
    ensures none { IfNone result ((r : RouteFields) (after : List ℕ) → BeginsWithEntry octets.now r after → ⊥) }
{
    if octets.is_empty() {
        return None;
    }
    let bits = octets[0];
    if !is_length(bits) {
        return None;
    }
    let behind = &octets[1..];
    let len = octets_for(bits);
    if behind.len() < len {
        return None;
    }
    let (octets, after) = behind.split_at(len);
    Some((Entry { bits, octets }, after))
}

/// The octets, and behind them zeros.
fn filled(octets: &[u8]) -> [u8; MOST_OCTETS]
    requires { length octets.now ≤ 12 }
    ensures { result ≡ octets.now ++ replicate (12 - length octets.now) 0 }
{
    let mut all = [0; MOST_OCTETS];
    all[..octets.len()].copy_from_slice(octets);
    all
}

/// The first bits of a target that a prefix of so many bits has.
fn first_bits(length: u8, target: u64) -> u64
    requires { IsTrue (is_length length) }
    ensures { result ≡ first_bits length target }
{
    if length <= LEAST_BITS {
        return 0;
    }
    let spare = MOST_BITS - length;
    target >> spare << spare
}

/// The target behind the number of an autonomous system.
fn target_in(octets: &[u8]) -> u64
    requires { 12 ≤ length octets.now }
    ensures { result ≡ big_number 8 (drop 4 octets.now) }
{
    BigEndian::read_u64(&octets[4..])
}

/// What an entry asks.
pub(crate) fn asked_of(entry: &Entry<'_>) -> Asked
    requires { IsEntry (fields_of entry.now) }
    ensures { result ≡ asked_of (fields_of entry.now) }
{
    let octets = filled(entry.octets);
    Asked {
        length: entry.bits,
        origin: BigEndian::read_u32(&octets),
        target: Target(first_bits(entry.bits, target_in(&octets))),
    }
}
