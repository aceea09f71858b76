//! The whole network: its nodes over queue links, and the state of the network's machine for which it stands.
#![tactic(auto)]

mod clear;
mod connect;
mod deliver;
mod editing;
mod ends;
mod happen;
mod left;
mod longest;
mod looking;
mod lose;
mod moving;
mod net;
mod order;
mod round;
mod settle;
mod tying;

pub use ends::SessionEnds;
pub use left::{leave, leave_none};
pub use net::Net;
pub use round::Due;
