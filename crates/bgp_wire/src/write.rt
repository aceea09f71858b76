//! Messages, written after the octets that are there.
ghost use Rattle.std.specs.Prelude.{◌≡◌, ◌≢◌, ◌≤◌, ◌<◌, ◌+◌, ◌^◌, ◌∷◌, ◌++◌, [], length, true, IfOk, OnOk, OnErr};
ghost use Rattle.byteorder.specs.Endian.{big_bytes};
ghost use Rattle.bgp_wire.specs.Content.{Opens, Updates, Notifies, KeepsAlive};
ghost use Rattle.bgp_wire.specs.Frames.{head};
ghost use Rattle.bgp_wire.specs.Opens.{asn_of, is_wide, parameters_octets};
ghost use Rattle.bgp_wire.specs.Spelling.{framed, spelling, IsReadAgain, vpn_capability, four_octet_capability, my_as_of};
ghost use Rattle.bgp_wire.specs.Spelling.{open_fields, attributes_alone};

use crate::frame::{HEAD_SIZE, KIND_AT, MARKER_SIZE};
use crate::kind::MessageKind;
use byteorder::{BigEndian, ByteOrder};
use ov_types::{Addr, NoMemory};
use std::alloc::Global;

/// What a speaker says of itself in its OPEN: the number of its autonomous system and its identifier.
#[derive(Clone, Copy, PartialEq, Eq)]
pub struct OpenOut {
    pub asn: u32,
    pub id: Addr,
}

/// What stands in two octets for a number of four: AS_TRANS (RFC 6793, section 9).
const AS_TRANS: u16 = 23456;

/// How many octets the one parameter of an OPEN has.
const PARAMETERS_SIZE: usize = 14;

/// The octets before a body.
fn head(kind: MessageKind, len: u16) -> [u8; HEAD_SIZE]
    ensures { result ≡ head len kind }
{
    let mut octets = [0xFF; HEAD_SIZE];
    BigEndian::write_u16(&mut octets[MARKER_SIZE..], len);
    octets[KIND_AT] = kind.octet();
    octets
}

/// A message whose body has these two parts.
fn framed(alloc: Global, kind: MessageKind, start: &[u8], rest: &[u8]) -> Result<Vec<u8>, NoMemory>
    requires { 19 + length (start.now ++ rest.now) ≤ 4096 }
    ensures { IfOk result (λ message. message.items ≡ framed kind (start.now ++ rest.now)) }
{
    let len = HEAD_SIZE + start.len() + rest.len();
    let mut message = Vec::new(alloc);
    message.extend_from_slice(&head(kind, len as u16))?;
    message.extend_from_slice(start)?;
    message.extend_from_slice(rest)?;
    Ok(message)
}

/// Appends a message whole, or nothing.
fn write_frame(
    alloc: Global,
    kind: MessageKind,
    start: &[u8],
    rest: &[u8],
    out: &mut Vec<u8>,
) -> Result<(), NoMemory>
    requires { 19 + length (start.now ++ rest.now) ≤ 4096 }
    ensures ok { OnOk result (out.new.items ≡ out.old.items ++ framed kind (start.now ++ rest.now)) }
    ensures err { OnErr result (out.new.items ≡ out.old.items) }
{
    let message = framed(alloc, kind, start, rest)?;
    out.extend_from_slice(message.as_slice())?;
    Ok(())
}

/// My Autonomous System, which has two octets (RFC 6793, section 4.2.1).
fn my_as_of(asn: u32) -> u16
    ensures { result ≡ my_as_of asn }
{
    if asn <= 65535 { asn as u16 } else { AS_TRANS }
}

/// The fields of an OPEN before its parameters (RFC 4271, section 4.2).
fn open_start(my_as: u16, id: u32) -> [u8; 10]
    ensures octets { result ≡ 4 ∷ [] ++ big_bytes 2 my_as ++ big_bytes 2 0 ++ big_bytes 4 id ++ 14 ∷ [] }
    ensures identifier { id < 2 ^ 32 }
{
    let mut octets = [4, 0, 0, 0, 0, 0, 0, 0, 0, PARAMETERS_SIZE as u8];
    BigEndian::write_u16(&mut octets[1..], my_as);
    BigEndian::write_u32(&mut octets[5..], id);
    octets
}

/// One parameter with two capabilities: VPN-IPv4 routes (RFC 4760, section 8), and numbers of four octets (RFC 6793,
/// section 3).
fn open_parameters(asn: u32) -> [u8; PARAMETERS_SIZE]
    ensures octets { result ≡ parameters_octets ((vpn_capability ∷ four_octet_capability asn ∷ []) ∷ []) }
    ensures number { asn < 2 ^ 32 }
{
    let mut octets = [2, 12, 1, 4, 0, 1, 0, 128, 65, 4, 0, 0, 0, 0];
    BigEndian::write_u32(&mut octets[10..], asn);
    octets
}

/// Appends the OPEN of a speaker without timers that takes VPN-IPv4 routes and has numbers of four octets, whole or not
/// at all.
pub fn write_open(alloc: Global, part: &OpenOut, out: &mut Vec<u8>) -> Result<(), NoMemory>
    requires identifier { part.now.id.0 ≢ 0 }
    ensures ok { OnOk result (out.new.items ≡ out.old.items ++ spelling (Opens (open_fields part.now))) }
    ensures err { OnErr result (out.new.items ≡ out.old.items) }
    ensures read_again { IsReadAgain (Opens (open_fields part.now)) }
    ensures autonomous_system { asn_of (open_fields part.now) ≡ part.now.asn }
    ensures wide { is_wide (open_fields part.now) ≡ true }
    ensures length { length (spelling (Opens (open_fields part.now))) ≤ 4096 }
{
    let start = open_start(my_as_of(part.asn), part.id.0);
    let parameters = open_parameters(part.asn);
    write_frame(alloc, MessageKind::Open, &start, &parameters, out)
}

/// Appends an UPDATE of these path attributes, without plain routes, whole or not at all.
#[tactic(auto, using(crate::proofs::Spelling::read_again, crate::proofs::Spelling::attributes_say))]
pub fn write_attributes(alloc: Global, attributes: &[u8], out: &mut Vec<u8>) -> Result<(), NoMemory>
    requires { 23 + length attributes.now ≤ 4096 }
    ensures ok { OnOk result (out.new.items ≡ out.old.items ++ spelling (Updates (attributes_alone attributes.now))) }
    ensures err { OnErr result (out.new.items ≡ out.old.items) }
    ensures read_again { IsReadAgain (Updates (attributes_alone attributes.now)) }
    ensures length { length (spelling (Updates (attributes_alone attributes.now))) ≤ 4096 }
{
    let mut lengths = [0; 4];
    BigEndian::write_u16(&mut lengths[2..], attributes.len() as u16);
    write_frame(alloc, MessageKind::Update, &lengths, attributes, out)
}

/// Appends a NOTIFICATION without further octets, whole or not at all.
pub fn write_notification(
    alloc: Global,
    code: u8,
    subcode: u8,
    out: &mut Vec<u8>,
) -> Result<(), NoMemory>
    ensures ok { OnOk result (out.new.items ≡ out.old.items ++ spelling (Notifies code subcode)) }
    ensures err { OnErr result (out.new.items ≡ out.old.items) }
    ensures read_again { IsReadAgain (Notifies code subcode) }
    ensures length { length (spelling (Notifies code subcode)) ≤ 4096 }
{
    write_frame(alloc, MessageKind::Notification, &[code, subcode], &[], out)
}

/// Appends a KEEPALIVE whole, or nothing.
#[tactic(auto, using(crate::proofs::Spelling::read_again, crate::proofs::Spelling::keepalive_says))]
pub fn write_keepalive(alloc: Global, out: &mut Vec<u8>) -> Result<(), NoMemory>
    ensures ok { OnOk result (out.new.items ≡ out.old.items ++ spelling KeepsAlive) }
    ensures err { OnErr result (out.new.items ≡ out.old.items) }
    ensures read_again { IsReadAgain KeepsAlive }
    ensures length { length (spelling KeepsAlive) ≤ 4096 }
{
    write_frame(alloc, MessageKind::Keepalive, &[], &[], out)
}
