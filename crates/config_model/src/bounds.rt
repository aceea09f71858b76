//! The bounds of numbers in documents.

pub(crate) use ov_types::bounds::{
    FIRST_NODE_ADDRESS, LAST_NETWORK, LAST_NODE_ADDRESS, LAST_PORT, LAST_PORT_NUMBER,
    LAST_SEQUENCE, LAST_SERVICE, LAST_USE,
};

/// The greatest IP protocol.
pub(crate) const LAST_PROTOCOL: u64 = 255;

/// The greatest number of an autonomous system: the one of four octets behind it is reserved (RFC 7300).
pub(crate) const LAST_AS: u64 = 4_294_967_294;

/// The number that stands in for those of four octets (RFC 6793).
pub(crate) const STAND_IN_AS: u64 = 23_456;

/// The last number of two octets, which is reserved (RFC 7300).
pub(crate) const LAST_SHORT_AS: u64 = 65_535;
