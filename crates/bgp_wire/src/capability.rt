//! The capabilities of an OPEN.
ghost use Rattle.std.specs.Prelude.{◌≡◌, ◌<◌, ◌∷◌, ◌++◌, [], length, IfNone, IfSome};
ghost use Rattle.bgp_wire.specs.Parts.{parts_in};
ghost use Rattle.bgp_wire.specs.Capabilities.{part_of, capabilities_in};

use crate::part::{Front, split_part};
use std::marker::Model;

/// The code of a capability that names an address family (RFC 4760, section 8), and of the one that says the number of
/// the speaker's autonomous system (RFC 6793, section 3).
pub(crate) const FAMILY: u8 = 1;

pub(crate) const FOUR_OCTET_NUMBER: u8 = 65;

/// A capability as it lies in the message: its code and its value (RFC 5492, section 4).
#[derive(Clone, Copy)]
pub struct Capability<'a> {
    pub kind: u8,
    pub value: &'a [u8],
}

/// The capabilities of an OPEN, in order: those that are left of one parameter, and those of the parameters behind it.
#[derive(Drop)]
pub struct Capabilities<'a> {
    rest: &'a [u8],
    parameters: &'a [u8],
}

impl<'a> Model for Capabilities<'a> {
    ghost use Rattle.std.specs.Prelude.{List, ◌++◌};
    ghost use Rattle.bgp_wire.specs.Parts.{Part, parts_in};
    ghost use Rattle.bgp_wire.specs.Capabilities.{capabilities_in};

    ghost Value = { List Part };

    ghost view = { λ c. parts_in c.rest.now ++ capabilities_in c.parameters.now };
}

impl<'a> Capabilities<'a> {
    #[tactic(auto, unfolding(crate::specs::Parts::parts_in))]
    pub(crate) fn new(parameters: &'a [u8]) -> Capabilities<'a>
        ensures { result ≡ capabilities_in parameters.now }
    {
        Capabilities {
            rest: &[],
            parameters,
        }
    }
}

impl<'a> Iterator for Capabilities<'a> {
    ghost use Rattle.std.specs.Prelude.{length};
    ghost use Rattle.std.specs.Iterator.{at_most};
    ghost use Rattle.bgp_wire.specs.Capabilities.{NextCapability};

    type Item = Capability<'a>;

    ghost next_gives = { NextCapability };

    ghost remaining = { λ rest. at_most (length rest) };

    fn next(&mut self) -> Option<Capability<'a>> {
        let (capability, after) = split_capability(self.rest, self.parameters)?;
        *self = after;
        Some(capability)
    }
}

/// The part at the front. None where the octets hold none whole.
#[tactic(auto, using(crate::proofs::WholeParts::nothing_held))]
fn whole_part(octets: &[u8]) -> Option<Front<'_>>
    ensures found { IfSome result (λ front. parts_in octets.now
        ≡ record { kind = front.kind; value = front.value.now } ∷ parts_in front.after.now) }
    ensures shorter { IfSome result (λ front. length front.after.now < length octets.now) }
    ensures none { IfNone result (parts_in octets.now ≡ []) }
{
    if octets.is_empty() {
        return None;
    }
    split_part(octets)
}

/// The first capability, and those behind it. A parameter without capabilities is passed over.
fn split_capability<'a>(
    rest: &'a [u8],
    parameters: &'a [u8],
) -> Option<(Capability<'a>, Capabilities<'a>)>
    ensures found { IfSome result (λ front. parts_in rest.now ++ capabilities_in parameters.now
        ≡ part_of front.0 ∷ front.1) }
    ensures none { IfNone result (parts_in rest.now ++ capabilities_in parameters.now ≡ []) }
{
    let mut rest = rest;
    let mut parameters = parameters;
    loop {
        if let Some(Front { kind, value, after }) = whole_part(rest) {
            return Some((
                Capability { kind, value },
                Capabilities {
                    rest: after,
                    parameters,
                },
            ));
        }
        let parameter = whole_part(parameters)?;
        rest = parameter.value;
        parameters = parameter.after;
    }
}
