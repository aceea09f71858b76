//! The bounds of numbers in documents and records.

/// The greatest number of a network.
pub const LAST_NETWORK: u64 = 16_383;

/// The greatest number of a port.
pub const LAST_PORT: u64 = 524_271;

/// The greatest sequence of a policy.
pub const LAST_SEQUENCE: u64 = 65_535;

/// The greatest number of a service.
pub const LAST_SERVICE: u64 = 65_535;

/// The greatest number of a use of a chain.
pub const LAST_USE: u64 = 3_071;

/// The greatest port number of TCP or UDP.
pub const LAST_PORT_NUMBER: u64 = 65_535;

/// 1.0.0.0, the least address of a node.
pub const FIRST_NODE_ADDRESS: u32 = 0x0100_0000;

/// 223.255.255.255, the greatest address of a node.
pub const LAST_NODE_ADDRESS: u32 = 0xdfff_ffff;
