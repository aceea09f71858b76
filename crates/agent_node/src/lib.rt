//! An agent: octets of records in, octets out, over any link; and a forwarder of packets.
#![tactic(auto)]

mod begin;
mod ends;
pub mod laws;
mod node;
mod plan;
mod planning;
mod tabled;

pub use node::AgentNode;
pub use plan::AgentPlan;
