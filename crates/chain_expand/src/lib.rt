//! The expansion of service chains.
#![tactic(auto)]

mod append;
mod bounds;
mod expansion;
mod fault;
mod found;
mod hops;
mod laws;
mod links;
mod loops;
mod numbers;

pub use bounds::{MOST_CHAINS, MOST_SERVICES};
pub use expansion::{expand, expand_straight};
pub use fault::ChainFault;
pub use laws::{
    expands_by_hops, expands_to_one, expands_where, leads_by_hops, twice_names_the_service,
};
pub use loops::first_loop;
