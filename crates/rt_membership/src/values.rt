//! The values of attributes that have memberships.
ghost use Rattle.std.specs.Prelude.{◌≡◌, ◌++◌, List, [], map, slice_index, false, true, option_copied, OnOk, IfErr};
ghost use Rattle.bgp_wire.specs.Attributes.{AttributeFields, AreAttributes};
ghost use Rattle.bgp_vpn.specs.Checks.{optional_attribute};
ghost use Rattle.bgp_vpn.specs.Routes.{RouteFields};
ghost use Rattle.bgp_vpn.specs.Updates.{IfWire};
ghost use Rattle.bgp_vpn.specs.Values.{value_at};
ghost use Rattle.rt_membership.specs.Entries.{AreEntries};
ghost use Rattle.rt_membership.specs.Memberships.{is_membership, is_cut_value, entries_behind};
ghost use Rattle.rt_membership.specs.Lying.{before_entries, change_by};

use crate::asked::Asked;
use crate::entries::{Way, push_entries};
use crate::known::{MEMBERSHIP, OPTIONAL_ATTRIBUTE, REACH_SIZE, UNREACH_SIZE};
use bgp_vpn::UpdateFault;
use bgp_wire::{UpdatePart, attributes};
use ov_sync::Delta;

/// An octet, or 0 where it is not there.
fn octet_at(octets: &[u8], index: usize) -> u8
    ensures { result ≡ slice_index octets.now index }
{
    if index < octets.len() {
        octets[index]
    } else {
        0
    }
}

/// Whether the family of a value of MP_REACH_NLRI or MP_UNREACH_NLRI is that of memberships.
fn is_membership(value: &[u8]) -> bool
    ensures { result ≡ is_membership value.now }
{
    octet_at(value, 0) == 0 && octet_at(value, 1) == 1 && octet_at(value, 2) == MEMBERSHIP
}

/// How many octets of a value stand before its entries.
fn before_entries(way: Way, value: &[u8]) -> usize
    ensures { result ≡ before_entries way value.now }
{
    match way {
        Way::Withdrawn => UNREACH_SIZE,
        Way::Announced => REACH_SIZE + usize::from(octet_at(value, 3)),
    }
}

/// What the entries of a value change. A value of another family changes nothing, and one that is cut is a fault.
pub(crate) fn push_value(
    way: Way,
    value: Option<&[u8]>,
    deltas: &mut Vec<Delta<Asked, ()>>,
) -> Result<(), UpdateFault>
    ensures whole { OnOk result (is_cut_value (before_entries way) (option_copied value.entry) ≡ false) }
    ensures entries { OnOk result ((entries : List RouteFields)
        × AreEntries (entries_behind (before_entries way) (option_copied value.entry)) entries
        × (deltas.new.items ≡ deltas.old.items ++ map (change_by way) entries)) }
    ensures fault { IfErr result (λ e. IfWire e (λ f. (f ≡ optional_attribute)
        × (is_cut_value (before_entries way) (option_copied value.entry) ≡ true))) }
{
    let Some(octets) = value else {
        return Ok(());
    };
    if !is_membership(octets) {
        return Ok(());
    }
    let before = before_entries(way, octets);
    if octets.len() < before {
        return Err(UpdateFault::Wire(OPTIONAL_ATTRIBUTE));
    }
    let entries = &octets[before..];
    push_entries(way, entries, deltas)
}

/// The value of the first attribute of a type, of attributes of which none is cut.
pub(crate) fn value_at<'a>(kind: u8, part: &UpdatePart<'a>) -> Option<&'a [u8]>
    ensures { (all : List AttributeFields) → AreAttributes part.now.attributes.now all []
        → option_copied result ≡ value_at kind all }
{
    for item in attributes(part) {
        if let Ok(attribute) = item {
            if attribute.kind == kind {
                return Some(attribute.value);
            }
        }
    }
    None
}
