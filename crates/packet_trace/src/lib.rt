//! The way of a packet through the agents.
#![tactic(auto)]

mod hops;
pub mod laws;
mod step;
mod tracing;
mod vrouter;

pub use hops::{Hop, Hops, Trace};
pub use tracing::trace;
pub use vrouter::Vrouter;
