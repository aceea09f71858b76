//! What a configuration asks for, computed from it alone: its low-level objects, and the rows of every node.
#![tactic(auto)]

mod agents;
mod attached;
mod attachment;
mod chain_use;
mod circuits;
mod hops;
mod kept;
mod kept_table;
mod numbered;
mod objects;
mod rows;
mod transform;
mod uses;

pub use transform::{compiled, low};
pub use transform_model::Compiled;
