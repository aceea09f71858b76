//! Access lists: where packets of a network may go, and what decides on them, as entries for one direction each.
#![tactic(auto)]

mod access;
mod chains;
mod entries;
pub mod laws;
mod numbered;
mod policies;
mod subnets;

pub use access::acl_between;
pub use numbered::acl;
pub use subnets::ascending;
