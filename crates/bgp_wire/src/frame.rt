//! The frame of a message, read as soon as its octets are there.
ghost use Rattle.std.specs.Prelude.{◌≡◌, ◌≤◌, ◌<◌, ◌==◌, length, take, IfOk, IfSome};
ghost use Rattle.std.specs.List.{list_all};
ghost use Rattle.bgp_wire.specs.Faults.{Checks};
ghost use Rattle.bgp_wire.specs.Frames.{marker_fault, length_fault, kind_fault, frame_fault, length_at, kind_of};
ghost use Rattle.bgp_wire.specs.Frames.{IsHeadOf};

use crate::fault::{BAD_MESSAGE_LENGTH, BAD_MESSAGE_TYPE, NOT_SYNCHRONIZED, WireFault};
use crate::kind::MessageKind;
use byteorder::{BigEndian, ByteOrder};

/// How many octets a marker has, and how many all that stands before a body (RFC 4271, section 4.1).
pub(crate) const MARKER_SIZE: usize = 16;

pub(crate) const HEAD_SIZE: usize = 19;

/// Where the type of a message stands.
pub(crate) const KIND_AT: usize = 18;

/// The most octets that a message has.
pub(crate) const MAX_MESSAGE_SIZE: usize = 4096;

/// What the octets before a body say.
#[derive(Clone, Copy)]
pub(crate) struct Head {
    pub(crate) kind: MessageKind,
    pub(crate) len: usize,
}

/// The marker, as far as it is there.
fn marker(octets: &[u8]) -> &[u8]
    ensures { result.now ≡ take 16 octets.now }
{
    if octets.len() < MARKER_SIZE {
        octets
    } else {
        &octets[..MARKER_SIZE]
    }
}

fn are_ones(octets: &[u8]) -> bool
    ensures { result ≡ list_all (λ octet. octet == 255) octets.now }
{
    octets.iter().all(|octet| *octet == 255)
}

fn check_marker(octets: &[u8]) -> Result<(), WireFault>
    ensures { Checks result (marker_fault octets.now) }
{
    if !are_ones(marker(octets)) {
        return Err(NOT_SYNCHRONIZED);
    }
    Ok(())
}

fn length_of(octets: &[u8]) -> usize
    requires { 18 ≤ length octets.now }
    ensures { result ≡ length_at octets.now }
{
    usize::from(BigEndian::read_u16(&octets[MARKER_SIZE..]))
}

fn check_length(octets: &[u8]) -> Result<(), WireFault>
    ensures { Checks result (length_fault octets.now) }
{
    if octets.len() < KIND_AT {
        return Ok(());
    }
    let len = length_of(octets);
    if len < HEAD_SIZE || len > MAX_MESSAGE_SIZE {
        return Err(BAD_MESSAGE_LENGTH);
    }
    Ok(())
}

fn read_kind(octet: u8, len: usize) -> Result<MessageKind, WireFault>
    ensures checks { Checks result (kind_fault (kind_of octet) len) }
    ensures kind { IfOk result (λ kind. kind_of octet ≡ Some kind) }
{
    let Some(kind) = MessageKind::from_octet(octet) else {
        return Err(BAD_MESSAGE_TYPE);
    };
    if len < kind.least() || len > kind.greatest() {
        return Err(BAD_MESSAGE_LENGTH);
    }
    Ok(kind)
}

/// The head, where its octets are all there.
pub(crate) fn read_head(octets: &[u8]) -> Result<Option<Head>, WireFault>
    ensures checks { Checks result (frame_fault octets.now) }
    ensures short { result ≡ Ok None → length octets.now < 19 }
    ensures head { IfOk result (λ found. IfSome found (λ head. IsHeadOf octets.now head.kind head.len)) }
{
    check_marker(octets)?;
    check_length(octets)?;
    if octets.len() < HEAD_SIZE {
        return Ok(None);
    }
    let len = length_of(octets);
    let kind = read_kind(octets[KIND_AT], len)?;
    Ok(Some(Head { kind, len }))
}
