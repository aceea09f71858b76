//! Valid configurations: the fourteen rules, and the first that is broken.
#![tactic(auto)]

mod asking;
mod chains;
pub mod edit_laws;
mod edits;
mod finding;
mod ids;
mod known;
pub mod laws;
mod limits;
mod meeting;
mod named;
mod names;
mod overlaps;
mod ports;
mod references;
mod refusal;
mod subnets;
mod texts;
mod uses;
mod valid;

pub use edits::{EditFault, EditRefusal, apply_edit};
pub use finding::{
    known_network, network_named, network_numbered, node_named, port_at, port_numbered,
};
pub use ports::holds_address;
pub use refusal::{CheckRefusal, IdKind, LimitKind, Refusal};
pub use valid::{Valid, check};
