//! The access lists of an agent, and what they say of packets.
#![tactic(auto)]

mod acls;
mod cache;
mod flow;
pub mod laws;
mod verdicts;

pub use acls::Acls;
pub use cache::FlowCache;
pub use flow::FlowKey;
pub use verdicts::evaluate;
