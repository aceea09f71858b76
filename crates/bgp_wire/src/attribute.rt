//! The path attributes of an UPDATE.
ghost use Rattle.std.specs.Prelude.{◌≡◌, ◌<◌, ◌^◌, ◌++◌, length, IfNone, IfSome};
ghost use Rattle.bgp_wire.specs.Attributes.{fields_of, length_size, sized_value, IsShort, IsCut};
ghost use Rattle.bgp_wire.specs.Attributes.{BeginsWithAttribute};

use crate::fault::{MALFORMED_ATTRIBUTES, WireFault};
use byteorder::{BigEndian, ByteOrder};
use std::marker::Model;

/// The flag of an attribute whose length has two octets.
const EXTENDED_LENGTH: u8 = 0x10;

/// A path attribute as it lies in the message: its flags, its type and its value (RFC 4271, section 4.3).
#[derive(Clone, Copy)]
pub struct Attribute<'a> {
    pub flags: u8,
    pub kind: u8,
    pub value: &'a [u8],
}

/// The path attributes of an UPDATE, in order. An attribute that is cut is a fault, and the last item.
#[derive(Drop)]
pub struct Attributes<'a> {
    rest: &'a [u8],
}

impl<'a> Model for Attributes<'a> {
    ghost use Rattle.std.specs.Prelude.{ℕ, List};

    ghost Value = { List ℕ };

    ghost view = { λ a. a.rest.now };
}

impl<'a> Attributes<'a> {
    ghost use Rattle.bgp_wire.specs.Messages.{AreOctets};

    pub(crate) fn new(octets: &'a [u8]) -> Attributes<'a>
        ensures all { result ≡ octets.now }
        ensures octets { AreOctets octets.now }
    {
        Attributes { rest: octets }
    }
}

impl<'a> Iterator for Attributes<'a> {
    ghost use Rattle.std.specs.Prelude.{length};
    ghost use Rattle.std.specs.Iterator.{at_most};
    ghost use Rattle.bgp_wire.specs.Attributes.{NextAttribute};

    type Item = Result<Attribute<'a>, WireFault>;

    ghost next_gives = { NextAttribute };

    ghost remaining = { λ rest. at_most (length rest) };

    fn next(&mut self) -> Option<Result<Attribute<'a>, WireFault>> {
        if self.rest.is_empty() {
            return None;
        }
        let Some((attribute, after)) = split_attribute(self.rest) else {
            self.rest = &[];
            return Some(Err(MALFORMED_ATTRIBUTES));
        };
        self.rest = after;
        Some(Ok(attribute))
    }
}

/// The attribute at the front, and the octets after it. None where it is cut.
fn split_attribute(octets: &[u8]) -> Option<(Attribute<'_>, &[u8])>
    requires { 0 < length octets.now }
    ensures found { IfSome result (λ front. BeginsWithAttribute octets.now (fields_of front.0) front.1.now) }
    ensures cut { IfNone result (IsCut octets.now) }
{
    if octets.len() < 2 {
        return None;
    }
    let flags = octets[0];
    let kind = octets[1];
    let (value, after) = split_value(flags, &octets[2..])?;
    Some((Attribute { flags, kind, value }, after))
}

/// The value behind its length, and the octets after it. None where the octets do not hold both whole.
fn split_value(flags: u8, octets: &[u8]) -> Option<(&[u8], &[u8])>
    ensures found { IfSome result (λ front. octets.now ≡ sized_value (length_size flags) front.0.now ++ front.1.now) }
    ensures fits { IfSome result (λ front. length front.0.now < 256 ^ length_size flags) }
    ensures short { IfNone result (IsShort (length_size flags) octets.now) }
{
    if flags & EXTENDED_LENGTH != 0 {
        split_long(octets)
    } else {
        split_short(octets)
    }
}

fn split_short(octets: &[u8]) -> Option<(&[u8], &[u8])>
    ensures found { IfSome result (λ front. octets.now ≡ sized_value 1 front.0.now ++ front.1.now) }
    ensures fits { IfSome result (λ front. length front.0.now < 256) }
    ensures short { IfNone result (IsShort 1 octets.now) }
{
    if octets.is_empty() {
        return None;
    }
    let len = usize::from(octets[0]);
    let rest = &octets[1..];
    if rest.len() < len {
        return None;
    }
    Some(rest.split_at(len))
}

fn split_long(octets: &[u8]) -> Option<(&[u8], &[u8])>
    ensures found { IfSome result (λ front. octets.now ≡ sized_value 2 front.0.now ++ front.1.now) }
    ensures fits { IfSome result (λ front. length front.0.now < 65536) }
    ensures short { IfNone result (IsShort 2 octets.now) }
{
    if octets.len() < 2 {
        return None;
    }
    let len = usize::from(BigEndian::read_u16(octets));
    let rest = &octets[2..];
    if rest.len() < len {
        return None;
    }
    Some(rest.split_at(len))
}
