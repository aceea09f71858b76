//! What a node is given in a step, and what it answers.
use thiserror::Error;

/// What happened on a session.
#[derive(Clone, Copy, PartialEq, Eq)]
pub enum Input<'a> {
    /// The session was opened at this end.
    Opened { session: u16 },
    /// Octets came on the session.
    Bytes { session: u16, bytes: &'a [u8] },
    /// The session was closed, or lost.
    Closed { session: u16 },
}

/// What a step came to.
#[derive(Clone, Copy, Debug, PartialEq, Eq)]
pub enum Stepped<C> {
    Done,
    /// The octets that came on the session closed it, for this cause.
    Closed { session: u16, cause: C },
}

/// Why a step was cut short.
#[derive(Clone, Copy, Debug, PartialEq, Eq, Error)]
pub enum NodeFault {
    /// The session's link failed, and the session is closed. It is the lowest of those whose links failed.
    #[error("the link of session {session} failed")]
    LinkFailed { session: u16 },
    #[error("out of memory")]
    NoMemory,
}
