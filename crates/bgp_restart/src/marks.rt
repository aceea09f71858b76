//! What a peer says of restarting.
ghost use Rattle.std.specs.Prelude.{◌≡◌, ◌≤◌, ◌∷◌, ◌*◌, ◌+◌, Decides, drop, length, option_copied, true};
ghost use Rattle.std.specs.List.{list_any};
ghost use Rattle.bgp_wire.specs.Opens.{capabilities_of};
ghost use Rattle.bgp_vpn.specs.Updates.{parts_of};
ghost use Rattle.bgp_restart.specs.Marks as marks;
ghost use Rattle.bgp_restart.specs.Marks.{IsEnd, families, families_of, last_value};

use bgp_wire::{OpenPart, UpdatePart, attributes};

/// The capability Graceful Restart.
const GRACEFUL_RESTART: u8 = 64;

/// MP_UNREACH_NLRI.
const UNREACH: u8 = 15;

/// A family of addresses in the capability Graceful Restart, and its flags.
#[derive(Clone, Copy)]
struct Family {
    afi: u16,
    safi: u8,
    flags: u8,
}

/// The family that octets begin with.
fn first_family(octets: &[u8]) -> Family
    requires { 4 ≤ length octets.now }
    ensures { families octets.now ≡ record { afi = result.afi; safi = result.safi; flags = result.flags }
        ∷ families (drop 4 octets.now) }
{
    Family {
        afi: 256 * u16::from(octets[0]) + u16::from(octets[1]),
        safi: octets[2],
        flags: octets[3],
    }
}

fn is_vpn(family: Family) -> bool
    ensures { result ≡ marks.is_vpn (record { afi = family.afi; safi = family.safi; flags = family.flags }) }
{
    family.afi == 1 && family.safi == 128
}

fn is_kept(family: Family) -> bool
    ensures { result ≡ marks.is_kept (record { afi = family.afi; safi = family.safi; flags = family.flags }) }
{
    is_vpn(family) && family.flags & 0x80 != 0
}

/// The value of the last capability Graceful Restart.
fn last_value<'a>(part: &OpenPart<'a>) -> Option<&'a [u8]>
    ensures { option_copied result ≡ last_value 64 (capabilities_of part.now) }
{
    let mut last = None;
    for capability in part.capabilities() {
        if capability.kind == GRACEFUL_RESTART {
            last = Some(capability.value);
        }
    }
    last
}

fn names_vpn(value: &[u8]) -> bool
    ensures { result ≡ list_any marks.is_vpn (families_of value.now) }
{
    if value.len() % 4 != 2 {
        return false;
    }
    let mut rest = &value[2..];
    while rest.len() >= 4 {
        if is_vpn(first_family(rest)) {
            return true;
        }
        rest = &rest[4..];
    }
    false
}

fn keeps_vpn(value: &[u8]) -> bool
    ensures { result ≡ list_any marks.is_kept (families_of value.now) }
{
    if value.len() % 4 != 2 {
        return false;
    }
    let mut rest = &value[2..];
    while rest.len() >= 4 {
        if is_kept(first_family(rest)) {
            return true;
        }
        rest = &rest[4..];
    }
    false
}

/// Whether a peer names VPN-IPv4 routes as such that outlast its session: its last capability 64 is well formed and
/// names AFI 1 and SAFI 128, with any flags (RFC 4724, section 3).
pub fn named(part: &OpenPart<'_>) -> bool
    ensures { result ≡ marks.named part.now }
{
    match last_value(part) {
        Some(value) => names_vpn(value),
        None => false,
    }
}

/// Whether a peer has kept its VPN-IPv4 routes over its restart: it names them with the flag Forwarding State.
pub fn kept(part: &OpenPart<'_>) -> bool
    ensures kept { result ≡ marks.kept part.now }
    ensures of_a_named_family { result ≡ true → marks.named part.now ≡ true }
{
    match last_value(part) {
        Some(value) => keeps_vpn(value),
        None => false,
    }
}

/// Whether an UPDATE marks the end of the first VPN-IPv4 routes: it has no plain routes, withdraws none, and its one
/// attribute is MP_UNREACH_NLRI of that family with no routes (RFC 4724, section 2).
pub fn is_end(part: &UpdatePart<'_>) -> bool
    ensures { Decides result (IsEnd (parts_of part.now)) }
{
    if !part.withdrawn.is_empty() || !part.routes.is_empty() {
        return false;
    }
    let mut found = attributes(part);
    let Some(Ok(only)) = found.next() else {
        return false;
    };
    if found.next().is_some() {
        return false;
    }
    only.kind == UNREACH && only.value == [0, 1, 128].as_slice()
}
