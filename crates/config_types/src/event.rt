//! Events of a schedule.
use crate::edit::Edit;
use ov_types::{Name, Packet};

/// What may happen in a run, in the order in which a schedule lists it.
#[derive(Debug, Drop)]
pub enum Event {
    /// A change of the configuration.
    Edit(Edit),
    /// Up to `n` messages that are in flight from one node to another are taken.
    Deliver { from: Name, to: Name, n: u32 },
    /// Up to `n` octets that are in flight from one node to another are taken; they may end within a message.
    DeliverOctets { from: Name, to: Name, n: u32 },
    /// The session of two nodes is lost.
    Lose { a: Name, b: Name },
    /// The session of two nodes is opened.
    Connect { a: Name, b: Name },
    /// A node begins anew, with nothing.
    Restart { node: Name },
    /// What is in flight now is taken.
    Round,
    /// Sessions are connected, and rounds done until nothing is in flight.
    Settle,
    /// The tables of a node are asked for.
    Show { node: Name },
    /// What becomes of a packet now is asked for.
    Trace(Packet),
    /// The `n`-th send from now on, from one node to another, fails.
    Break { from: Name, to: Name, n: u32 },
}
