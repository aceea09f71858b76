//! The types of messages.
ghost use Rattle.std.specs.Prelude.{◌≡◌, ◌<◌};
ghost use Rattle.bgp_wire.specs.Frames.{octet_of, kind_of, least, greatest};

use crate::frame::{HEAD_SIZE, MAX_MESSAGE_SIZE};

/// The types of messages (RFC 4271, section 4.1).
#[derive(Clone, Copy, PartialEq, Eq)]
pub(crate) enum MessageKind {
    Open,
    Update,
    Notification,
    Keepalive,
}

impl MessageKind {
    pub(crate) fn from_octet(octet: u8) -> Option<MessageKind>
        ensures { result ≡ kind_of octet }
    {
        match octet {
            1 => Some(MessageKind::Open),
            2 => Some(MessageKind::Update),
            3 => Some(MessageKind::Notification),
            4 => Some(MessageKind::Keepalive),
            _ => None,
        }
    }

    pub(crate) fn octet(self) -> u8
        ensures { result ≡ octet_of self }
    {
        match self {
            MessageKind::Open => 1,
            MessageKind::Update => 2,
            MessageKind::Notification => 3,
            MessageKind::Keepalive => 4,
        }
    }

    pub(crate) fn least(self) -> usize
        ensures { result ≡ least self }
    {
        match self {
            MessageKind::Open => 29,
            MessageKind::Update => 23,
            MessageKind::Notification => 21,
            MessageKind::Keepalive => HEAD_SIZE,
        }
    }

    pub(crate) fn greatest(self) -> usize
        ensures { result ≡ greatest self }
    {
        match self {
            MessageKind::Open | MessageKind::Update | MessageKind::Notification => MAX_MESSAGE_SIZE,
            MessageKind::Keepalive => HEAD_SIZE,
        }
    }
}
