//! What a configuration is transformed into, as definitions alone: low-level objects, the tables of instances, and the
//! rows of every node; and that forwarding by these rows is reachability.
#![tactic(auto)]

pub mod forwarding_laws;
pub mod laws;
mod tables;

pub use tables::Compiled;
