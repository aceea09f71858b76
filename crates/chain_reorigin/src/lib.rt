//! The routes by which a control node leads the subnets of chains on, as its peers are told them.
#![tactic(auto)]

pub mod laws;
mod routes;

pub use routes::{reoriginated, told_route};
