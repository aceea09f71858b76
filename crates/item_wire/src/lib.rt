//! Items: the records that nodes tell each other, and one end of the session that they go over.
#![tactic(auto)]

mod bounds;
mod entry;
mod event;
mod fault;
mod field;
mod framing;
mod hop;
mod input;
mod item;
pub mod laws;
mod list;
mod member;
mod op;
mod reader;
mod rule;
mod session;
mod table;
mod writer;

pub use event::{ItemCause, ItemEvent, ItemFrom, ItemState};
pub use fault::{Field, ItemFault, ItemRefusal};
pub use framing::{TooLong, frame};
pub use input::Came;
pub use item::Item;
pub use reader::read_item;
pub use session::ItemSession;
pub use writer::write_item;
