//! The configuration node: a valid configuration in, octets of low-level objects out, over any link. Its laws: each such
//! object has a record, and a port changes its own alone.
#![tactic(auto)]

mod begin;
mod changing;
mod ends;
mod node;
mod planning;
pub mod record_laws;
mod wants;

pub use node::ConfigNode;
