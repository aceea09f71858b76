//! The states of a session, and what its inputs make it do.

use bgp_wire::WireFault;
use ov_sync::Delta;
use ov_types::{VpnKey, VpnRoute};

/// The states of a session (RFC 4271, section 8.2.2). The transport is none of its cares, so Connect and Active are not
/// there.
#[derive(Clone, Copy, Debug, PartialEq, Eq)]
pub enum State {
    Idle,
    OpenSent,
    OpenConfirm,
    Established,
}

/// A message that the session wants to be sent.
#[derive(Clone, Copy, Debug, PartialEq, Eq)]
pub enum Reply {
    /// The OPEN of this end.
    Hello,
    Keepalive,
}

/// Why a session went down.
#[derive(Clone, Copy, Debug, PartialEq, Eq)]
pub enum Cause {
    /// What came has this fault.
    Wire(WireFault),
    /// The peer sent a NOTIFICATION.
    Notified { code: u8, subcode: u8 },
    /// The connection was closed.
    Ended,
}

/// What an input makes of a session.
#[derive(Debug, Drop)]
pub enum SessionEvent {
    /// Nothing that anybody has to know.
    Quiet,
    Send(Reply),
    /// Routes may be sent from now on.
    Up,
    /// The routes that the peer announces and withdraws.
    Deltas(Vec<Delta<VpnKey, VpnRoute>>),
    /// The session is over; before the connection is closed, a NOTIFICATION of this code and subcode is to be sent, if
    /// any.
    Down {
        cause: Cause,
        reply: Option<(u8, u8)>,
    },
}
