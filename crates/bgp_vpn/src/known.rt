//! The numbers of the attributes that are known, and of VPN-IPv4 routes.

/// The types of attributes (RFC 4271, section 5.1).
pub(crate) const ORIGIN: u8 = 1;

pub(crate) const AS_PATH: u8 = 2;

pub(crate) const NEXT_HOP: u8 = 3;

pub(crate) const MULTI_EXIT_DISC: u8 = 4;

pub(crate) const LOCAL_PREF: u8 = 5;

pub(crate) const ATOMIC_AGGREGATE: u8 = 6;

/// The types of the attributes that carry routes of other families (RFC 4760, sections 3 and 4).
pub(crate) const MP_REACH_NLRI: u8 = 14;

pub(crate) const MP_UNREACH_NLRI: u8 = 15;

/// The type of the attribute of extended communities, of which route targets are some (RFC 4360, section 2).
pub(crate) const EXTENDED_COMMUNITIES: u8 = 16;

/// The flags of an attribute that say whether it is known to all, and whether it is passed on (RFC 4271, section 4.3).
pub(crate) const OPTIONAL: u8 = 0x80;

pub(crate) const TRANSITIVE: u8 = 0x40;

pub(crate) const OPTIONAL_AND_TRANSITIVE: u8 = 0xC0;

/// The bits of a route before its prefix, which are those of a label field and a distinguisher, and the most bits that
/// it has (RFC 8277, section 2; RFC 4364, section 4.1).
pub(crate) const LEAST_BITS: u8 = 88;

pub(crate) const MOST_BITS: u8 = 120;

/// The length of a next hop: a distinguisher of eight octets, and an address (RFC 4364, section 4.3.2).
pub(crate) const NEXT_HOP_SIZE: u8 = 12;

/// How many octets stand before the routes of MP_REACH_NLRI and of MP_UNREACH_NLRI.
pub(crate) const REACH_SIZE: usize = 17;

pub(crate) const UNREACH_SIZE: usize = 3;
