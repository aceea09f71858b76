//! VPN-IPv4 routes in BGP messages (RFC 4364, RFC 4760): what an UPDATE changes.
#![tactic(auto)]

mod check;
mod check_value;
mod fault;
mod found;
mod known;
pub mod laws;
mod octets;
mod pieces;
mod profile;
mod reading;
mod route;
mod routes;
mod targets;
mod update;
mod write;

pub use fault::UpdateFault;
pub use routes::{Labeled, Routes};
pub use update::{VpnUpdate, read_routes, read_update};
pub use write::write_update;
