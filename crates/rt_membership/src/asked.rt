//! What is asked.

use ov_types::Target;

/// The routes that are asked of a peer: those of the targets that begin with these bits (RFC 4684, section 4).
///
/// The prefix is over 96 bits, the number of the autonomous system that asks and then a target. Its length is 0, which
/// asks for all routes, or from 32 to 96, and the bits past it are 0.
#[derive(Clone, Copy, Debug, PartialEq, Eq, PartialOrd, Ord)]
pub struct Asked {
    pub length: u8,
    pub origin: u32,
    pub target: Target,
}
