//! What an UPDATE changes of what is asked.
ghost use Rattle.std.specs.Prelude.{◌≡◌, Bool, List, [], true, IfOk, OnOk, IfErr, MatchResult};
ghost use Rattle.ov_types.specs.declared.vpn.VpnKey.{VpnKey};
ghost use Rattle.ov_types.specs.declared.vpn.VpnRoute.{VpnRoute};
ghost use Rattle.ov_sync.specs.declared.Delta.{Delta};
ghost use Rattle.bgp_wire.specs.declared.fault.WireFault.{WireFault};
ghost use Rattle.bgp_wire.specs.Attributes.{AttributeFields, AreAttributes};
ghost use Rattle.bgp_vpn.specs.Checks.{optional_attribute};
ghost use Rattle.bgp_vpn.specs.Updates.{parts_of, Changes, IfWire};
ghost use Rattle.rt_membership.specs.declared.asked.Asked.{Asked};
ghost use Rattle.rt_membership.specs.Asked.{AreAsked};
ghost use Rattle.rt_membership.specs.Memberships.{has_cut_value, Asks, HasMembershipFault};
ghost use Rattle.rt_membership.specs.Lying.{AreChanges};

use crate::asked::Asked;
use crate::entries::Way;
use crate::known::{MP_REACH_NLRI, MP_UNREACH_NLRI};
use crate::values::{push_value, value_at};
use bgp_vpn::{UpdateFault, read_routes};
use bgp_wire::UpdatePart;
use ov_sync::Delta;
use std::alloc::Global;

/// What an UPDATE that passes the checks on every UPDATE changes.
fn changes_in(alloc: Global, part: &UpdatePart<'_>) -> Result<Vec<Delta<Asked, ()>>, UpdateFault>
    ensures changes { IfOk result (λ deltas. (all : List AttributeFields)
        → AreAttributes part.now.attributes.now all [] → AreChanges all deltas.items) }
    ensures fault { IfErr result (λ e. IfWire e (λ f. (f ≡ optional_attribute)
        × ((all : List AttributeFields) → AreAttributes part.now.attributes.now all []
        → has_cut_value all ≡ true))) }
{
    let mut deltas = Vec::new(alloc);
    push_value(Way::Withdrawn, value_at(MP_UNREACH_NLRI, part), &mut deltas)?;
    push_value(Way::Announced, value_at(MP_REACH_NLRI, part), &mut deltas)?;
    Ok(deltas)
}

/// The checks on every UPDATE.
#[tactic(auto, using(crate::proofs::Reading::fails))]
fn check_update(alloc: Global, part: &UpdatePart<'_>, wide: bool) -> Result<(), UpdateFault>
    ensures ok { OnOk result ((routes : List (Delta VpnKey VpnRoute)) × Changes wide (parts_of part.now) routes) }
    ensures fault { IfErr result (λ e. IfWire e (λ f. HasMembershipFault wide (parts_of part.now) f)) }
{
    match read_routes(alloc, part, wide) {
        Ok(_) => Ok(()),
        Err(fault) => Err(fault),
    }
}

/// What an UPDATE changes of what is asked, where `read_update` finds no fault in it, wide or not.
pub fn read_checked_membership(
    alloc: Global,
    part: &UpdatePart<'_>,
) -> Result<Vec<Delta<Asked, ()>>, UpdateFault>
    ensures changes { IfOk result (λ deltas. (wide : Bool) (routes : List (Delta VpnKey VpnRoute))
        → Changes wide (parts_of part.now) routes → Asks wide (parts_of part.now) deltas.items) }
    ensures fault { IfErr result (λ e. IfWire e (λ f. (wide : Bool) (routes : List (Delta VpnKey VpnRoute))
        → Changes wide (parts_of part.now) routes → HasMembershipFault wide (parts_of part.now) f)) }
{
    changes_in(alloc, part)
}

/// All checks, and what is changed.
fn read_changes(
    alloc: Global,
    part: &UpdatePart<'_>,
    wide: bool,
) -> Result<Vec<Delta<Asked, ()>>, UpdateFault>
    ensures changes { IfOk result (λ deltas. Asks wide (parts_of part.now) deltas.items) }
    ensures fault { IfErr result (λ e. IfWire e (λ f. HasMembershipFault wide (parts_of part.now) f)) }
{
    check_update(alloc, part, wide)?;
    read_checked_membership(alloc, part)
}

/// What an UPDATE changes of what is asked: what MP_UNREACH_NLRI withdraws is dropped, and then what MP_REACH_NLRI
/// announces is put, in the order of the message (RFC 4760, section 4; RFC 4684, section 4). It is read wide, where
/// numbers of autonomous systems have four octets and not two (RFC 6793, section 4.1).
///
/// A fault that `read_update` finds comes before any of a membership. A next hop of any length and bits past the length
/// of an entry are passed over.
pub fn read_membership(
    alloc: Global,
    part: &UpdatePart<'_>,
    wide: bool,
) -> Result<Vec<Delta<Asked, ()>>, UpdateFault>
    ensures changes { IfOk result (λ deltas. Asks wide (parts_of part.now) deltas.items) }
    ensures form { IfOk result (λ deltas. AreAsked deltas.items) }
    ensures fault { IfErr result (λ e. IfWire e (λ f. HasMembershipFault wide (parts_of part.now) f)) }

    // Each change and each fault is found. Want of memory alone is free.
    ensures every_change { (deltas : List (Delta Asked Unit)) → Asks wide (parts_of part.now) deltas
        → MatchResult result (λ found. found.items ≡ deltas) (λ e. e ≡ UpdateFault.NoMemory) }
    ensures every_fault { (f : WireFault) → HasMembershipFault wide (parts_of part.now) f
        → MatchResult result (λ _. ⊥) (λ e. IfWire e (λ found. found ≡ f)) }
{
    read_changes(alloc, part, wide)
}
