//! The body of an OPEN.
ghost use Rattle.std.specs.Prelude.{◌≡◌, ◌≤◌, ◌<◌, ◌+◌, ◌==◌, length, IfOk, MatchBool, MatchResult, IfErr, Ok};
ghost use Rattle.std.specs.List.{AllByRecursion};
ghost use Rattle.bgp_wire.specs.Faults.{Checks};
ghost use Rattle.bgp_wire.specs.Opens.{IsCapability, IsMalformedCapability, AreCapabilities, AreBrokenCapabilities};
ghost use Rattle.bgp_wire.specs.Opens.{AreParameters, HasFaultyParameter, open_fault, four_octet_number};

use crate::capability::{Capabilities, FAMILY, FOUR_OCTET_NUMBER};
use crate::fault::{
    BAD_IDENTIFIER, UNACCEPTABLE_HOLD_TIME, UNSPECIFIC_OPEN, UNSUPPORTED_PARAMETER,
    UNSUPPORTED_VERSION, WireFault,
};
use crate::part::split_part;
use byteorder::{BigEndian, ByteOrder};
use ov_types::Addr;
use std::marker::Model;

/// What an OPEN says (RFC 4271, section 4.2).
#[derive(Drop)]
pub struct OpenPart<'a> {
    my_as: u16,
    hold: u16,
    id: Addr,
    parameters: &'a [u8],
}

impl<'a> Model for OpenPart<'a> {
    ghost use Rattle.bgp_wire.specs.Content.{OpenFields};
    ghost use Rattle.bgp_wire.specs.Opens.{AreParameters};
    ghost use Rattle.bgp_wire.specs.Capabilities.{parameters_in};

    ghost Value = { OpenFields };

    ghost view = { λ p. record {
      my_as = p.my_as;
      hold = p.hold;
      id = p.id.0;
      parameters = parameters_in p.parameters.now;
    } };

    ghost invariant = { λ p. ∥ AreParameters p.parameters.now ∥₁ };
}

impl<'a> OpenPart<'a> {
    ghost use Rattle.bgp_wire.specs.Opens.{asn_of, is_wide, capabilities_of, IsOpen, HasOpenFault};

    /// My Autonomous System, as it is spelled.
    pub fn my_as(&self) -> u16
        ensures { result ≡ self.now.my_as }
    {
        self.my_as
    }

    /// The number of the speaker's autonomous system, by which the session goes.
    pub fn asn(&self) -> u32
        ensures { result ≡ asn_of self.now }
    {
        match four_octet_number(self.capabilities()) {
            Some(number) => number,
            None => u32::from(self.my_as),
        }
    }

    /// Whether the speaker says that it has numbers of four octets (RFC 6793, section 3).
    pub fn wide(&self) -> bool
        ensures { result ≡ is_wide self.now }
    {
        four_octet_number(self.capabilities()).is_some()
    }

    /// The Hold Time in seconds.
    pub fn hold(&self) -> u16
        ensures { result ≡ self.now.hold }
    {
        self.hold
    }

    /// The BGP Identifier (RFC 4271, section 4.2).
    pub fn id(&self) -> Addr
        ensures { result.0 ≡ self.now.id }
    {
        self.id
    }

    /// The capabilities in the parameters, in order.
    pub fn capabilities(&self) -> Capabilities<'a>
        ensures all { result ≡ capabilities_of self.now }
        ensures well_formed { ∥ AllByRecursion IsCapability (capabilities_of self.now) ∥₁ }
    {
        Capabilities::new(self.parameters)
    }

    pub(crate) fn read(body: &'a [u8]) -> Result<OpenPart<'a>, WireFault>
        requires { 10 ≤ length body.now }
        ensures open { IfOk result (λ fields. IsOpen body.now fields) }
        ensures fault { IfErr result (λ f. HasOpenFault body.now f) }
    {
        check_open(body)?;
        let parameters = &body[10..];
        check_parameters(parameters)?;
        Ok(OpenPart {
            my_as: BigEndian::read_u16(&body[1..]),
            hold: BigEndian::read_u16(&body[3..]),
            id: Addr(BigEndian::read_u32(&body[5..])),
            parameters,
        })
    }
}

fn check_open(body: &[u8]) -> Result<(), WireFault>
    requires { 10 ≤ length body.now }
    ensures { Checks result (open_fault body.now) }
{
    if body[0] != 4 {
        return Err(UNSUPPORTED_VERSION);
    }
    let hold = BigEndian::read_u16(&body[3..]);
    if hold == 1 || hold == 2 {
        return Err(UNACCEPTABLE_HOLD_TIME);
    }
    if BigEndian::read_u32(&body[5..]) == 0 {
        return Err(BAD_IDENTIFIER);
    }
    if 10 + usize::from(body[9]) != body.len() {
        return Err(UNSPECIFIC_OPEN);
    }
    Ok(())
}

fn check_parameters(octets: &[u8]) -> Result<(), WireFault>
    ensures { MatchResult result (λ _. AreParameters octets.now) (λ f. HasFaultyParameter octets.now f) }
{
    let mut rest = octets;
    while !rest.is_empty() {
        let Some(parameter) = split_part(rest) else {
            return Err(UNSPECIFIC_OPEN);
        };
        if parameter.kind != 2 {
            return Err(UNSUPPORTED_PARAMETER);
        }
        if !are_capabilities(parameter.value) {
            return Err(UNSPECIFIC_OPEN);
        }
        rest = parameter.after;
    }
    Ok(())
}

fn are_capabilities(octets: &[u8]) -> bool
    ensures { MatchBool result (AreCapabilities octets.now) (AreBrokenCapabilities octets.now) }
{
    let mut rest = octets;
    while !rest.is_empty() {
        let Some(capability) = split_part(rest) else {
            return false;
        };
        if !is_capability(capability.kind, capability.value) {
            return false;
        }
        rest = capability.after;
    }
    true
}

fn is_capability(kind: u8, value: &[u8]) -> bool
    ensures { MatchBool result (IsCapability (record { kind = kind; value = value.now }))
        (IsMalformedCapability (record { kind = kind; value = value.now })) }
{
    match kind {
        FAMILY | FOUR_OCTET_NUMBER => value.len() == 4,
        _ => true,
    }
}

/// The number in the first capability 65.
fn four_octet_number(capabilities: Capabilities<'_>) -> Option<u32>
    requires { ∥ AllByRecursion IsCapability capabilities ∥₁ }
    ensures { result ≡ four_octet_number capabilities.entry }
{
    for capability in capabilities {
        if capability.kind == FOUR_OCTET_NUMBER {
            return Some(BigEndian::read_u32(capability.value));
        }
    }
    None
}
