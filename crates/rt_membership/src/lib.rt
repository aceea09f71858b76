//! Memberships of route targets in BGP messages (RFC 4684): which routes a speaker asks of its peers.
#![tactic(auto)]

mod asked;
mod entries;
mod entry;
mod known;
pub mod laws;
mod read;
mod values;
mod write;

pub use asked::Asked;
pub use read::{read_checked_membership, read_membership};
pub use write::write_membership;
