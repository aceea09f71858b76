//! The states of a session of items, and what its inputs make it do.

use crate::fault::ItemFault;
use crate::item::Item;

/// The states of a session.
#[derive(Clone, Copy, Debug, PartialEq, Eq)]
pub enum ItemState {
    /// The connection is not open.
    Idle,
    /// The hello of the other end has not come yet.
    Opened,
    Up,
}

/// Which records, besides its hello, the other end may send.
#[derive(Clone, Copy, PartialEq, Eq)]
pub enum ItemFrom {
    /// Low-level objects, from the configuration node.
    Feed,
    /// The slice of an agent and routes, from a control node.
    Control,
    /// Publications and subscriptions, from an agent.
    Agent,
    /// None: the other end is a control node, and this one the configuration node.
    Nothing,
}

/// Why a session went down.
#[derive(Clone, Copy, Debug, PartialEq, Eq)]
pub enum ItemCause {
    /// What came is no record.
    Item(ItemFault),
    /// What came is a record of more octets than one may have.
    TooLong { length: u32 },
    /// A record that does not belong to the state, or one of another direction.
    Order,
    /// A hello of another node than the other end.
    WrongName,
    /// The connection was closed.
    Ended,
}

/// What an input makes of a session.
#[derive(Debug, Drop, PartialEq, Eq)]
pub enum ItemEvent {
    /// Nothing that anybody has to know.
    Quiet,
    /// The hello of this end is to be sent.
    SendHello,
    /// The other end said who it is.
    Up,
    /// A change of what the other end wants this one to hold.
    Record(Item),
    /// The session is over.
    Down { cause: ItemCause },
}
