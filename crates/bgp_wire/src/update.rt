//! The body of an UPDATE, up to its attributes.
ghost use Rattle.std.specs.Prelude.{◌≡◌, ◌≤◌, ◌<◌, length, IfOk};
ghost use Rattle.bgp_wire.specs.Faults.{Checks};
ghost use Rattle.bgp_wire.specs.Messages.{AreOctets};
ghost use Rattle.bgp_wire.specs.Updates.{IsUpdate, update_fault};

use crate::attribute::Attributes;
use crate::fault::{MALFORMED_ATTRIBUTES, WireFault};
use byteorder::{BigEndian, ByteOrder};

/// The parts of an UPDATE as they lie in the message (RFC 4271, section 4.3).
#[derive(Clone, Copy)]
pub struct UpdatePart<'a> {
    pub withdrawn: &'a [u8],
    pub attributes: &'a [u8],
    pub routes: &'a [u8],
}

pub(crate) fn read_update(body: &[u8]) -> Result<UpdatePart<'_>, WireFault>
    requires { 4 ≤ length body.now }
    ensures checks { Checks result (update_fault body.now) }
    ensures update { IfOk result (λ parts. IsUpdate body.now
        (record { withdrawn = parts.withdrawn.now; attributes = parts.attributes.now; routes = parts.routes.now })) }
{
    let withdrawn_len = usize::from(BigEndian::read_u16(body));
    if body.len() < 4 + withdrawn_len {
        return Err(MALFORMED_ATTRIBUTES);
    }
    let (withdrawn, rest) = body[2..].split_at(withdrawn_len);
    let attributes_len = usize::from(BigEndian::read_u16(rest));
    if body.len() < 4 + withdrawn_len + attributes_len {
        return Err(MALFORMED_ATTRIBUTES);
    }
    let (attributes, routes) = rest[2..].split_at(attributes_len);
    Ok(UpdatePart {
        withdrawn,
        attributes,
        routes,
    })
}

/// The path attributes, in order: `Ok` of each, and where one is cut its fault, as the last item.
pub fn attributes<'a>(part: &UpdatePart<'a>) -> Attributes<'a>
    ensures all { result ≡ part.now.attributes.now }
    ensures octets { AreOctets part.now.attributes.now }
{
    Attributes::new(part.attributes)
}
