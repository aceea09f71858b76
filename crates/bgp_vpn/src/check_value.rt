//! The checks on the values of attributes.
ghost use Rattle.std.specs.Prelude.{◌≡◌, ◌≤◌, ◌&&◌, not, drop, length, true};
ghost use Rattle.bgp_wire.specs.Faults.{Checks, fault_if};
ghost use Rattle.bgp_vpn.specs.Pieces.{number_size};
ghost use Rattle.bgp_vpn.specs.Values.{is_vpn, is_reach, are_routes};
ghost use Rattle.bgp_vpn.specs.Checks.{is_host, value_fault};

use crate::fault::{INVALID_NEXT_HOP, INVALID_ORIGIN, MALFORMED_AS_PATH, OPTIONAL_ATTRIBUTE};
use crate::known::{
    AS_PATH, LEAST_BITS, MOST_BITS, MP_REACH_NLRI, MP_UNREACH_NLRI, NEXT_HOP, NEXT_HOP_SIZE,
    ORIGIN, REACH_SIZE, UNREACH_SIZE,
};
use crate::octets::{address_in, octet_at};
use crate::pieces::{are_prefixes, are_segments};
use crate::reading::Reading;
use bgp_wire::WireFault;

/// Whether the family of a value of MP_REACH_NLRI or MP_UNREACH_NLRI is that of VPN-IPv4 routes.
pub(crate) fn is_vpn(value: &[u8]) -> bool
    ensures value { result ≡ is_vpn value.now }
    ensures long { result ≡ true → 3 ≤ length value.now }
{
    octet_at(value, 0) == 0 && octet_at(value, 1) == 1 && octet_at(value, 2) == 128
}

fn are_routes(octets: &[u8]) -> bool
    ensures { result ≡ are_routes octets.now }
{
    are_prefixes(octets, LEAST_BITS, MOST_BITS)
}

/// Whether a value of MP_REACH_NLRI has a next hop of twelve octets and then routes.
fn is_reach(value: &[u8]) -> bool
    ensures { result ≡ is_reach value.now }
{
    octet_at(value, 3) == NEXT_HOP_SIZE
        && value.len() >= REACH_SIZE
        && are_routes(&value[REACH_SIZE..])
}

/// Whether an address lies from 1.0.0.0 to 223.255.255.255.
fn is_host(address: u32) -> bool
    ensures { result ≡ is_host address }
{
    !(address < 0x0100_0000 || address > 0xDFFF_FFFF)
}

fn fail_if(test: bool, fault: WireFault) -> Result<(), WireFault>
    ensures { Checks result (fault_if test fault) }
{
    if test {
        return Err(fault);
    }
    Ok(())
}

fn is_bad_reach(value: &[u8]) -> bool
    ensures { result ≡ (is_vpn value.now && not (is_reach value.now)) }
{
    is_vpn(value) && !is_reach(value)
}

fn is_bad_unreach(value: &[u8]) -> bool
    ensures { result ≡ (is_vpn value.now && not (are_routes (drop 3 value.now))) }
{
    is_vpn(value) && !are_routes(&value[UNREACH_SIZE..])
}

/// How many octets the number of an autonomous system has.
fn number_size(wide: bool) -> u8
    ensures { result ≡ number_size wide }
{
    if wide { 4 } else { 2 }
}

/// A NEXT_HOP is looked at only where plain routes follow the attributes.
pub(crate) fn check_value(reading: Reading, kind: u8, value: &[u8]) -> Result<(), WireFault>
    ensures { Checks result (value_fault reading kind value.now) }
{
    match kind {
        ORIGIN => fail_if(octet_at(value, 0) > 2, INVALID_ORIGIN),
        AS_PATH => fail_if(
            !are_segments(value, number_size(reading.wide)),
            MALFORMED_AS_PATH,
        ),
        NEXT_HOP => fail_if(
            reading.routes_follow && !is_host(address_in(value)),
            INVALID_NEXT_HOP,
        ),
        MP_REACH_NLRI => fail_if(is_bad_reach(value), OPTIONAL_ATTRIBUTE),
        MP_UNREACH_NLRI => fail_if(is_bad_unreach(value), OPTIONAL_ATTRIBUTE),
        _ => Ok(()),
    }
}
