//! Links, on which nodes send their messages to each other.
#![tactic(auto)]

mod failing;
mod inbox;
pub mod laws;
mod link;
mod links;
mod queue;
mod step;

pub use failing::FailingLink;
pub use inbox::Inbox;
pub use link::{Link, LinkFault, send_all};
pub use links::Links;
pub use queue::QueueLink;
pub use step::{Input, NodeFault, Stepped};
