//! The checks on an UPDATE, in order.
ghost use Rattle.std.specs.Prelude.{◌≡◌, ◌<◌, ℕ, List, [], slice_index_or, slice_set, length, not, ◌==◌, false, true};
ghost use Rattle.std.specs.Prelude.{is_some, option_copied, IfOk};
ghost use Rattle.bgp_wire.specs.Faults.{Checks, fault_if, ◌then_check◌, malformed_attributes};
ghost use Rattle.bgp_wire.specs.Attributes.{AttributeFields, AreAttributes, fields_of};
ghost use Rattle.bgp_wire.specs.Messages.{AreOctets};
ghost use Rattle.bgp_vpn.specs.Checks.{is_wrong_length, known_fault, own_fault, attributes_fault, lacking_fault};
ghost use Rattle.bgp_vpn.specs.Checks.{missing_fault, update_fault};
ghost use Rattle.bgp_vpn.specs.Found.{IsFound};
ghost use Rattle.bgp_vpn.specs.Updates.{parts_of};

use crate::check_value::check_value;
use crate::fault::{ATTRIBUTE_FLAGS, INVALID_NETWORK, MISSING_WELL_KNOWN, UNRECOGNIZED_WELL_KNOWN};
use crate::found::Found;
use crate::known::{EXTENDED_COMMUNITIES, OPTIONAL, OPTIONAL_AND_TRANSITIVE};
use crate::pieces::are_prefixes;
use crate::profile::{flags_in, greatest_in, least_in, row_of, subcode_in};
use crate::reading::Reading;
use bgp_wire::{Attribute, MALFORMED_ATTRIBUTES, UpdatePart, WireFault, attributes};
use std::mem;

fn is_wrong_length(row: usize, kind: u8, len: usize) -> bool
    requires { row < 9 }
    ensures { result ≡ is_wrong_length row kind len }
{
    len < least_in(row) || len > greatest_in(row) || (kind == EXTENDED_COMMUNITIES && len % 8 != 0)
}

fn check_known(reading: Reading, row: usize, attribute: &Attribute<'_>) -> Result<(), WireFault>
    requires { row < 9 }
    ensures { Checks result (known_fault reading row (fields_of attribute.now)) }
{
    if u16::from(attribute.flags & OPTIONAL_AND_TRANSITIVE) != flags_in(row) {
        return Err(ATTRIBUTE_FLAGS);
    }
    if is_wrong_length(row, attribute.kind, attribute.value.len()) {
        return Err(WireFault {
            code: 3,
            subcode: subcode_in(row),
        });
    }
    check_value(reading, attribute.kind, attribute.value)
}

/// The checks on an attribute alone.
fn check_attribute(reading: Reading, attribute: &Attribute<'_>) -> Result<(), WireFault>
    ensures { Checks result (own_fault reading (fields_of attribute.now)) }
{
    match row_of(attribute.kind) {
        Some(row) => check_known(reading, row, attribute),
        None => {
            if attribute.flags & OPTIONAL == 0 {
                return Err(UNRECOGNIZED_WELL_KNOWN);
            }
            Ok(())
        }
    }
}

/// Marks a type, and says whether it was marked before.
fn mark(marked: &mut [bool; 256], kind: u8) -> bool
    ensures was { result ≡ slice_index_or marked.old kind false }
    ensures marked { marked.new ≡ slice_set marked.old kind true }
    ensures octet { kind < 256 }
{
    mem::replace(&mut marked[usize::from(kind)], true)
}

/// The checks on an attribute behind those whose types are marked, of which it may be none. Its own type is then marked.
fn check_next(
    reading: Reading,
    marked: &mut [bool; 256],
    attribute: &Attribute<'_>,
) -> Result<(), WireFault>
    ensures checks { Checks result (fault_if (slice_index_or marked.old attribute.now.kind false) malformed_attributes
        then_check own_fault reading (fields_of attribute.now)) }
    ensures marked { marked.new ≡ slice_set marked.old attribute.now.kind true }
    ensures octet { attribute.now.kind < 256 }
{
    if mark(marked, attribute.kind) {
        return Err(MALFORMED_ATTRIBUTES);
    }
    check_attribute(reading, attribute)
}

/// The attributes one after the other, each wholly before the next.
fn check_attributes<'a>(reading: Reading, part: &UpdatePart<'a>) -> Result<Found<'a>, WireFault>
    ensures octets { AreOctets part.now.attributes.now }
    ensures checks { (all : List AttributeFields) (tail : List ℕ) → AreAttributes part.now.attributes.now all tail
        → Checks result (attributes_fault reading [] all
        then_check fault_if (not (length tail == 0)) malformed_attributes) }
    ensures found { IfOk result (λ found. (all : List AttributeFields) (tail : List ℕ)
        → AreAttributes part.now.attributes.now all tail → IsFound found all) }
{
    let mut marked = [false; 256];
    let mut found = Found::nothing();
    for item in attributes(part) {
        let attribute = item?;
        check_next(reading, &mut marked, &attribute)?;
        found.add(&attribute);
    }
    Ok(found)
}

fn is_there(value: Option<&[u8]>) -> bool
    ensures { result ≡ is_some (option_copied value.entry) }
{
    value.is_some()
}

/// An attribute that has to be there with the routes that are there.
fn check_lacking(routes_follow: bool, found: &Found<'_>) -> Result<(), WireFault>
    ensures { Checks result (lacking_fault routes_follow (is_some (option_copied found.now.reach))
        (is_some (option_copied found.now.origin)) (is_some (option_copied found.now.as_path))
        (is_some (option_copied found.now.next_hop))) }
{
    let whole = is_there(found.origin) && is_there(found.as_path);
    if (is_there(found.reach) || routes_follow) && !whole {
        return Err(MISSING_WELL_KNOWN);
    }
    if routes_follow && !is_there(found.next_hop) {
        return Err(MISSING_WELL_KNOWN);
    }
    Ok(())
}

fn check_missing(routes_follow: bool, found: &Found<'_>) -> Result<(), WireFault>
    ensures { (all : List AttributeFields) → IsFound found.now all → Checks result (missing_fault routes_follow all) }
{
    check_lacking(routes_follow, found)
}

/// All checks, in order, and the attributes that were found on the way.
pub(crate) fn check_update<'a>(wide: bool, part: &UpdatePart<'a>) -> Result<Found<'a>, WireFault>
    ensures octets { AreOctets part.now.attributes.now }
    ensures checks { (all : List AttributeFields) (tail : List ℕ) → AreAttributes part.now.attributes.now all tail
        → Checks result (update_fault wide (parts_of part.now) all tail) }
    ensures found { IfOk result (λ found. (all : List AttributeFields) (tail : List ℕ)
        → AreAttributes part.now.attributes.now all tail → IsFound found all) }
{
    let routes_follow = !part.routes.is_empty();
    let reading = Reading {
        wide,
        routes_follow,
    };
    let found = check_attributes(reading, part)?;
    if !are_prefixes(part.withdrawn, 0, 32) {
        return Err(INVALID_NETWORK);
    }
    if !are_prefixes(part.routes, 0, 32) {
        return Err(INVALID_NETWORK);
    }
    check_missing(routes_follow, &found)?;
    Ok(found)
}
