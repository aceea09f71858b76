//! The numbers of attributes and of memberships.

use bgp_wire::WireFault;

/// The types of the attributes that have routes of other families (RFC 4760, sections 3 and 4).
pub(crate) const MP_REACH_NLRI: u8 = 14;

pub(crate) const MP_UNREACH_NLRI: u8 = 15;

/// How many octets stand before what MP_UNREACH_NLRI withdraws, which are the family, and how many octets, besides the
/// next hop, before what MP_REACH_NLRI announces.
pub(crate) const UNREACH_SIZE: usize = 3;

pub(crate) const REACH_SIZE: usize = 5;

/// The subsequent address family of memberships (RFC 4684, section 4).
pub(crate) const MEMBERSHIP: u8 = 132;

/// The bits of an entry: the number of an autonomous system, and with a whole target (RFC 4684, section 4).
pub(crate) const LEAST_BITS: u8 = 32;

pub(crate) const MOST_BITS: u8 = 96;

/// The octets of both.
pub(crate) const MOST_OCTETS: usize = 12;

/// A value of MP_REACH_NLRI or MP_UNREACH_NLRI that cannot be read (RFC 4760, section 7).
pub(crate) const OPTIONAL_ATTRIBUTE: WireFault = WireFault {
    code: 3,
    subcode: 9,
};
