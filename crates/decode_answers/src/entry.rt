//! Entries of a log.
use ov_types::Items;

/// One entry of the log of a session with a BGP peer.
#[derive(Drop)]
pub enum LogEntry {
    /// The session was opened, by this OPEN of the peer: the octets of one whole message.
    Opened(Items<u8>),
    /// An UPDATE came: the octets of one whole message.
    Updated(Items<u8>),
    /// The session was closed.
    Closed,
    /// The time for which routes are kept has run out.
    Expired,
    /// What is held now is asked for.
    Show,
}
