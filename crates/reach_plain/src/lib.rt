//! Plain reachability: what becomes of a packet. Nothing here knows of routes, labels, instances of tables, nodes or
//! sessions.
#![tactic(auto)]

mod decisions;
pub mod laws;
mod outcomes;
mod services;

pub use decisions::{decide, is_network};
pub use outcomes::reach;
pub use policy_rules::Decision;
