//! The routes of sessions between control nodes: what octets bring, and how changes are spelled.
#![tactic(auto)]

mod hearing;
pub mod laws;
mod telling;

pub use hearing::{HeardRoutes, greet, hear};
pub use telling::spell;
