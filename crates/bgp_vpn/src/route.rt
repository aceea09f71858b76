//! VPN-IPv4 routes as they are spelled (RFC 4364, section 4.3.4; RFC 8277, section 2).
ghost use Rattle.std.specs.Prelude.{◌≡◌, ◌≤◌, ◌-◌, ℕ, List, IfSome, IfNone};
ghost use Rattle.bgp_vpn.specs.Routes.{RouteFields, IsRoute, BeginsWithRoute, first_bits, key_of, label_of};
ghost use Rattle.bgp_vpn.specs.Spelled.{fields_of};

use crate::known::{LEAST_BITS, MOST_BITS};
use crate::octets::address_in;
use crate::pieces::octets_for;
use byteorder::{BigEndian, ByteOrder};
use ov_types::{Addr, Label, Prefix, Rd, VpnKey};

/// A route: its length in bits, and its octets.
#[derive(Clone, Copy)]
pub(crate) struct Route<'a> {
    pub(crate) bits: u8,
    pub(crate) octets: &'a [u8],
}

/// The route at the front, and the octets after it. None where there is none whole.
pub(crate) fn split_route(octets: &[u8]) -> Option<(Route<'_>, &[u8])>
    ensures found { IfSome result (λ front. BeginsWithRoute octets.now (fields_of front.0) front.1.now) }
    ensures none { IfNone result ((r : RouteFields) (after : List ℕ) → BeginsWithRoute octets.now r after → ⊥) }
{
    if octets.is_empty() {
        return None;
    }
    let bits = octets[0];
    if bits < LEAST_BITS || bits > MOST_BITS {
        return None;
    }
    let behind = &octets[1..];
    let len = octets_for(bits);
    if behind.len() < len {
        return None;
    }
    let (octets, after) = behind.split_at(len);
    Some((Route { bits, octets }, after))
}

/// The prefix of the first bits of an address.
fn first_bits(len: u8, address: u32) -> Prefix
    requires { len ≤ 32 }
    ensures { result ≡ first_bits len address }
{
    let size = 1u64 << (32 - len);
    let first = u64::from(address) / size * size;
    Prefix::new(Addr(first as u32), len).unwrap()
}

pub(crate) fn key_of(route: &Route<'_>) -> VpnKey
    requires { IsRoute (fields_of route.now) }
    ensures { result ≡ key_of (fields_of route.now) }
{
    VpnKey {
        rd: Rd(BigEndian::read_u64(&route.octets[3..])),
        prefix: first_bits(route.bits - LEAST_BITS, address_in(&route.octets[11..])),
    }
}

/// The label, which is the upper 20 bits of its field.
pub(crate) fn label_of(route: &Route<'_>) -> Label
    requires { IsRoute (fields_of route.now) }
    ensures { result ≡ label_of (fields_of route.now) }
{
    Label(BigEndian::read_u24(route.octets) >> 4)
}
