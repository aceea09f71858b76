//! BGP messages (RFC 4271): their frames and bodies.
#![tactic(auto)]

mod attribute;
mod capability;
mod fault;
mod frame;
mod kind;
pub mod laws;
mod message;
mod open;
mod part;
mod update;
mod write;

pub use attribute::{Attribute, Attributes};
pub use capability::{Capabilities, Capability};
pub use fault::{MALFORMED_ATTRIBUTES, WireFault};
pub use message::{Message, read_message};
pub use open::OpenPart;
pub use update::{UpdatePart, attributes};
pub use write::{OpenOut, write_attributes, write_keepalive, write_notification, write_open};
