//! The routes of one BGP peer, kept over the loss of its session (RFC 4724).
#![tactic(auto)]

pub mod laws;
mod marks;
mod restart;
mod routes;

pub use marks::{is_end, kept, named};
pub use restart::Restart;
