//! Octets that are pieces, each of which says how long it is.
ghost use Rattle.std.specs.Prelude.{◌≡◌, ◌<◌, ◌==◌, ◌&&◌, ◌||◌, nat_lt, slice_index, length, false, IfSome, IfNone};
ghost use Rattle.bgp_vpn.specs.Pieces.{octets_for, are_prefixes, are_segments};

use crate::octets::octet_at;

/// How many octets hold a number of bits.
pub(crate) fn octets_for(bits: u8) -> usize
    ensures { result ≡ octets_for bits }
{
    (usize::from(bits) + 7) / 8
}

/// The octets behind the first route. None where there is none whole, or its length is not between these bounds.
fn behind_prefix(octets: &[u8], least: u8, greatest: u8) -> Option<&[u8]>
    requires { 0 < length octets.now }
    ensures same { IfSome result (λ after. are_prefixes least greatest octets.now
        ≡ are_prefixes least greatest after.now) }
    ensures shorter { IfSome result (λ after. length after.now < length octets.now) }
    ensures none { IfNone result (are_prefixes least greatest octets.now ≡ false) }
{
    let bits = octets[0];
    if bits < least {
        return None;
    }
    if bits > greatest {
        return None;
    }
    let behind = &octets[1..];
    let len = octets_for(bits);
    if behind.len() < len {
        return None;
    }
    Some(&behind[len..])
}

/// Whether the octets are routes, each a length in bits between these bounds and as many octets as hold the bits.
pub(crate) fn are_prefixes(octets: &[u8], least: u8, greatest: u8) -> bool
    ensures { result ≡ are_prefixes least greatest octets.now }
{
    let mut rest = octets;
    while !rest.is_empty() {
        let Some(after) = behind_prefix(rest, least, greatest) else {
            return false;
        };
        rest = after;
    }
    true
}

/// Whether a segment of an AS_PATH may begin so.
fn is_segment(kind: u8, behind: &[u8]) -> bool
    ensures { result ≡ ((kind == 1 || kind == 2) && nat_lt 0 (slice_index behind.now 0)) }
{
    (kind == 1 || kind == 2) && octet_at(behind, 0) > 0
}

/// The octets behind the first segment of an AS_PATH, whose numbers have so many octets. None where there is none whole.
fn behind_segment(octets: &[u8], size: u8) -> Option<&[u8]>
    requires { 0 < length octets.now }
    ensures same { IfSome result (λ after. are_segments size octets.now ≡ are_segments size after.now) }
    ensures shorter { IfSome result (λ after. length after.now < length octets.now) }
    ensures none { IfNone result (are_segments size octets.now ≡ false) }
{
    let behind = &octets[1..];
    if !is_segment(octets[0], behind) {
        return None;
    }
    let len = 1 + usize::from(size) * usize::from(octet_at(behind, 0));
    if behind.len() < len {
        return None;
    }
    Some(&behind[len..])
}

/// Whether the octets are segments of an AS_PATH, whose numbers have so many octets.
pub(crate) fn are_segments(octets: &[u8], size: u8) -> bool
    ensures { result ≡ are_segments size octets.now }
{
    let mut rest = octets;
    while !rest.is_empty() {
        let Some(after) = behind_segment(rest, size) else {
            return false;
        };
        rest = after;
    }
    true
}
