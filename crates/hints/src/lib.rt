//! A second sentence for people, beside that which `explanations` makes of a line: who refers to a name that is missing, what
//! has more than it may have, what a command takes, and which event names what is not there. It stands apart since it reads
//! the whole document.
#![tactic(auto)]

mod events;
mod hint;
mod holders;
mod nodes;
mod references;

pub use events::{EventFault, Strange};
pub use hint::{Hint, hint_on};
pub use holders::{Excess, Holder, Member};
pub use references::Reference;
