//! The bounds of chains.

/// The most chains that a configuration has.
pub const MOST_CHAINS: usize = 128;

/// The most services that a use of a chain has.
pub const MOST_SERVICES: usize = 15;
