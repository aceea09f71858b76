//! Places in a network.

/// One end of a session, by the number of its node and the number of the session there.
#[derive(Clone, Copy, PartialEq, Eq)]
pub struct SessionPlace {
    pub node: u16,
    pub session: u16,
}
