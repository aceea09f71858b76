//! What an agent goes by, from what its control nodes told: what it tells them, and what it forwards by.
#![tactic(auto)]

mod acls;
mod fibs;
mod hearing;
mod labels;
pub mod laws;
mod needs;
mod object;
mod rows;
mod slice;
mod sliced;
mod tables;
mod wants;

pub use hearing::Hearing;
pub use tables::AgentTables;
pub use wants::wanted;
