//! The bounds of numbers in records.

pub(crate) use ov_types::bounds::{
    FIRST_NODE_ADDRESS, LAST_NETWORK, LAST_NODE_ADDRESS, LAST_PORT, LAST_PORT_NUMBER,
    LAST_SEQUENCE, LAST_SERVICE, LAST_USE,
};

/// The numbers of the instances of hops.
pub(crate) const FIRST_HOP_INSTANCE: u64 = 16_384;

/// The greatest number of an instance.
pub(crate) const LAST_INSTANCE: u64 = 65_535;

/// The numbers of circuits.
pub(crate) const FIRST_CIRCUIT: u64 = 32_769;

pub(crate) const LAST_CIRCUIT: u64 = 131_070;

/// The labels of attachments.
pub(crate) const FIRST_ATTACHED_LABEL: u64 = 16;

pub(crate) const LAST_ATTACHED_LABEL: u64 = 655_358;

/// The greatest label: it has 20 bits (RFC 3032, section 2.1).
pub(crate) const LAST_LABEL: u64 = 1_048_575;

/// The number that stands for any protocol, above all protocols.
pub(crate) const ANY_PROTOCOL: u64 = 256;

/// The greatest position of a rule in its policy.
pub(crate) const LAST_POSITION: u64 = 16;
