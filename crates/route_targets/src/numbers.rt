//! Each number from the numbers that determine it.
ghost use Rattle.std.specs.Prelude.{◌≡◌, ◌≤◌};
ghost use Rattle.route_targets.specs.Numbers.{hop_instance_of, hop_of, target_of, distinguisher_of, port_label_of};
ghost use Rattle.route_targets.specs.Numbers.{circuit_label_of, circuit_address_of, other_side_of};
ghost use Rattle.route_targets.specs.Numbers.{left_circuit_of, right_circuit_of, circuit_instance_of};

use ov_types::{Addr, InstanceId, Label, PortNo, Rd, Target};

/// A hop of a chain's use: the number of the use, and the hop's place, which is 0 before the first service.
#[derive(Clone, Copy, PartialEq, Eq)]
pub struct UseHop {
    pub use_no: u16,
    pub place: u8,
}

/// The instance of a hop of a chain's use. UseHop 0 is before the first service, hop j behind service j.
pub fn hop_instance(use_no: u16, hop: u8) -> InstanceId
    requires last_use { use_no ≤ 3071 }
    requires last_hop { hop ≤ 15 }
    ensures { result ≡ hop_instance_of use_no hop }
{
    InstanceId(16384 + 16 * use_no + u16::from(hop))
}

/// The hop that an instance is of. The instance of a network is of none.
pub fn hop_of(i: InstanceId) -> Option<UseHop>
    ensures { result ≡ hop_of i }
{
    if i.0 <= 16383 {
        return None;
    }
    let from_first = i.0 - 16384;
    Some(UseHop {
        use_no: from_first / 16,
        place: (from_first % 16) as u8,
    })
}

/// The greatest AS number of two octets that is not reserved (RFC 7300).
const LAST_SHORT_AS: u32 = 65_534;

/// The route target of an instance, with the AS number and the instance's number: of type 0x00, subtype 0x02, where the
/// AS number has two octets (RFC 4360, section 4), else of type 0x02, subtype 0x02 (RFC 5668, section 2).
pub fn target(asn: u32, i: InstanceId) -> Target
    ensures { result ≡ target_of asn i }
{
    if asn <= LAST_SHORT_AS {
        Target(0x0002_0000_0000_0000 + (u64::from(asn) << 32) + 8_000_000 + u64::from(i.0))
    } else {
        Target(0x0202_0000_0000_0000 + (u64::from(asn) << 16) + u64::from(i.0))
    }
}

/// The distinguisher of an instance's routes at a node's address: of type 1 (RFC 4364, section 4.2).
pub fn rd(a: Addr, i: InstanceId) -> Rd
    ensures { result ≡ distinguisher_of a i }
{
    Rd(0x0001_0000_0000_0000 + (u64::from(a.0) << 16) + u64::from(i.0))
}

/// The label of a port, past the reserved ones (RFC 3032).
pub fn port_label(p: PortNo) -> Label
    requires { p.0 ≤ 524271 }
    ensures { result ≡ port_label_of p }
{
    Label(16 + p.0)
}

/// The left circuit of a service of a use, by the service's place, which counts from 1. Place 16 is that of a service
/// behind the last hop.
pub fn left_circuit(use_no: u16, place: u8) -> u32
    requires last_use { use_no ≤ 3071 }
    requires first_place { 1 ≤ place }
    requires last_place { place ≤ 16 }
    ensures { result ≡ left_circuit_of use_no place }
{
    2 * u32::from(hop_instance(use_no, place - 1).0) + 1
}

/// The right circuit of a service of a use, by the service's place, which counts from 1.
pub fn right_circuit(use_no: u16, place: u8) -> u32
    requires last_use { use_no ≤ 3071 }
    requires last_place { place ≤ 15 }
    ensures { result ≡ right_circuit_of use_no place }
{
    2 * u32::from(hop_instance(use_no, place).0)
}

/// The instance that a circuit is in.
pub fn circuit_instance(n: u32) -> InstanceId
    requires { n ≤ 131071 }
    ensures { result ≡ circuit_instance_of n }
{
    InstanceId((n / 2) as u16)
}

/// The label of a circuit, past those of ports.
pub fn circuit_label(n: u32) -> Label
    requires { n ≤ 131070 }
    ensures { result ≡ circuit_label_of n }
{
    Label(524_288 + n)
}

/// The host address of a circuit, in the block that is reserved for circuits.
pub fn circuit_address(n: u32) -> Addr
    requires { n ≤ 131071 }
    ensures { result ≡ circuit_address_of n }
{
    Addr(0xfa00_0000 + n)
}

/// The circuit on the other side of the same service.
pub fn other_side(n: u32) -> u32
    requires first { 32769 ≤ n }
    requires last { n ≤ 131070 }
    ensures { result ≡ other_side_of n }
{
    if n % 2 == 0 { n - 1 } else { n + 1 }
}
