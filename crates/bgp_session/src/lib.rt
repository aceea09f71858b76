//! One end of a BGP session: a profile of the finite state machine of RFC 4271, section 8.2.2.
#![tactic(auto)]

mod event;
mod input;
pub mod laws;
mod session;
mod table;

pub use event::{Cause, Reply, SessionEvent, State};
pub use session::Session;
