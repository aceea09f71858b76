//! Which routes a control node asks of its peers (RFC 4684), what a peer then sends, and that nothing else is of use to it.
#![tactic(auto)]

mod asking;
mod covering;
pub mod cut_laws;
pub mod laws;
mod needing;
mod sharing;

pub use asking::asked;
pub use covering::{covers, restrict};
pub use needing::needed;
pub use rt_membership::{Asked, read_membership, write_membership};
pub use sharing::{Share, share_of};
