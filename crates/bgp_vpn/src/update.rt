//! What an UPDATE says, and what it changes.
ghost use Rattle.std.specs.Prelude.{◌≡◌, ◌++◌, List, [], map, option_copied, IfOk, OnOk, IfErr, MatchResult};
ghost use Rattle.ov_types.specs.declared.vpn.VpnKey.{VpnKey};
ghost use Rattle.ov_types.specs.declared.vpn.VpnRoute.{VpnRoute};
ghost use Rattle.ov_sync.specs.declared.Delta.{Delta};
ghost use Rattle.bgp_wire.specs.declared.fault.WireFault.{WireFault};
ghost use Rattle.bgp_vpn.specs.Values.{routes_behind, next_hop_of};
ghost use Rattle.bgp_vpn.specs.Said.{said_in, dropped, put_to, changes_said};
ghost use Rattle.bgp_vpn.specs.Updates.{parts_of, Changes, HasUpdateFault, IfWire};

use crate::check::check_update;
use crate::check_value::is_vpn;
use crate::fault::UpdateFault;
use crate::found::Found;
use crate::known::{REACH_SIZE, UNREACH_SIZE};
use crate::octets::address_in;
use crate::routes::{Labeled, Routes};
use crate::targets::targets_among;
use bgp_wire::UpdatePart;
use ov_sync::Delta;
use ov_types::{Addr, NoMemory, Targets, VpnKey, VpnRoute};
use std::alloc::Global;
use std::marker::Model;

/// What an UPDATE says of VPN-IPv4 routes: those that it withdraws and those that it announces, where they lie in the
/// message, and the next hop and the targets of all that it announces.
#[derive(Drop)]
pub struct VpnUpdate<'a> {
    next_hop: Addr,
    targets: Targets,
    withdrawn: &'a [u8],
    announced: &'a [u8],
}

impl<'a> Model for VpnUpdate<'a> {
    ghost use Rattle.bgp_vpn.specs.Said.{Said, labeled_in};

    ghost Value = { Said };

    ghost view = { λ u. record {
      next_hop = u.next_hop;
      targets = u.targets;
      withdrawn = labeled_in u.withdrawn.now;
      announced = labeled_in u.announced.now;
    } };
}

impl<'a> VpnUpdate<'a> {
    ghost use Rattle.bgp_vpn.specs.Said.{changes_said};

    pub fn next_hop(&self) -> Addr
        ensures { result ≡ self.now.next_hop }
    {
        self.next_hop
    }

    pub fn targets(&self) -> &Targets
        ensures { result.now ≡ self.now.targets }
    {
        &self.targets
    }

    /// The routes that are withdrawn, in order; their labels say nothing.
    pub fn withdrawn(&self) -> Routes<'a>
        ensures { result ≡ self.now.withdrawn }
    {
        Routes::new(self.withdrawn)
    }

    pub fn announced(&self) -> Routes<'a>
        ensures { result ≡ self.now.announced }
    {
        Routes::new(self.announced)
    }

    /// The changes that it makes, each with its own copy of the targets.
    fn changes(&self, alloc: Global) -> Result<Vec<Delta<VpnKey, VpnRoute>>, NoMemory>
        ensures { IfOk result (λ deltas. deltas.items ≡ changes_said self.now) }
    {
        let mut deltas = Vec::new(alloc);
        push_drops(self.withdrawn(), &mut deltas)?;
        push_puts(self, &mut deltas)?;
        Ok(deltas)
    }
}

fn push_drops(routes: Routes<'_>, deltas: &mut Vec<Delta<VpnKey, VpnRoute>>) -> Result<(), NoMemory>
    ensures { OnOk result (deltas.new.items ≡ deltas.old.items ++ map dropped routes.entry) }
{
    for route in routes {
        deltas.push(Delta::Drop(route.key))?;
    }
    Ok(())
}

/// The change that a route announced makes.
fn put_to(update: &VpnUpdate<'_>, route: Labeled) -> Result<Delta<VpnKey, VpnRoute>, NoMemory>
    ensures { IfOk result (λ put. put ≡ put_to update.now.next_hop update.now.targets route) }
{
    let value = VpnRoute {
        next_hop: update.next_hop,
        label: route.label,
        targets: update.targets.clone()?,
    };
    Ok(Delta::Put(route.key, value))
}

fn push_puts(
    update: &VpnUpdate<'_>,
    deltas: &mut Vec<Delta<VpnKey, VpnRoute>>,
) -> Result<(), NoMemory>
    ensures { OnOk result (deltas.new.items
        ≡ deltas.old.items ++ map (put_to update.now.next_hop update.now.targets) update.now.announced) }
{
    for route in update.announced() {
        deltas.push(put_to(update, route)?)?;
    }
    Ok(())
}

/// The octets of VPN-IPv4 routes that stand behind so many of a value.
fn routes_behind(len: usize, value: Option<&[u8]>) -> &[u8]
    ensures { result.now ≡ routes_behind len (option_copied value.entry) }
{
    match value {
        Some(octets) if is_vpn(octets) && octets.len() >= len => &octets[len..],
        _ => &[],
    }
}

fn next_hop_in(reach: Option<&[u8]>) -> Addr
    ensures { result ≡ next_hop_of (option_copied reach.entry) }
{
    match reach {
        Some(value) if value.len() >= 12 => Addr(address_in(&value[12..])),
        _ => Addr(0),
    }
}

fn said_in<'a>(alloc: Global, found: &Found<'a>) -> Result<VpnUpdate<'a>, NoMemory>
    ensures { IfOk result (λ said. said ≡ said_in (option_copied found.now.unreach) (option_copied found.now.reach)
        (option_copied found.now.communities)) }
{
    let targets = targets_among(alloc, found.communities.unwrap_or(&[]))?;
    Ok(VpnUpdate {
        next_hop: next_hop_in(found.reach),
        targets,
        withdrawn: routes_behind(UNREACH_SIZE, found.unreach),
        announced: routes_behind(REACH_SIZE, found.reach),
    })
}

/// What an UPDATE says of VPN-IPv4 routes, read where it lies: wide, where numbers of autonomous systems have four octets
/// and not two (RFC 6793, section 4.1).
///
/// Plain routes, other address families, unknown optional attributes and extended communities that are no route targets
/// are passed over. The first check that fails is the fault (RFC 4271, section 6.3; RFC 4760, section 7).
pub fn read_routes<'a>(
    alloc: Global,
    part: &UpdatePart<'a>,
    wide: bool,
) -> Result<VpnUpdate<'a>, UpdateFault>
    ensures said { IfOk result (λ said. Changes wide (parts_of part.now) (changes_said said)) }
    ensures fault { IfErr result (λ e. IfWire e (λ f. HasUpdateFault wide (parts_of part.now) f)) }

    // Each fault is found. Want of memory alone is free.
    ensures every_change { (deltas : List (Delta VpnKey VpnRoute)) → Changes wide (parts_of part.now) deltas
        → MatchResult result (λ said. changes_said said ≡ deltas) (λ e. e ≡ UpdateFault.NoMemory) }
    ensures every_fault { (f : WireFault) → HasUpdateFault wide (parts_of part.now) f → result ≡ Err (UpdateFault.Wire f) }
{
    let found = check_update(wide, part)?;
    Ok(said_in(alloc, &found)?)
}

/// What an UPDATE changes: the routes that MP_UNREACH_NLRI withdraws are dropped, and then those that MP_REACH_NLRI
/// announces are put, in the order of the message (RFC 4760, section 4; RFC 4364). It is read wide, where numbers of
/// autonomous systems have four octets and not two.
pub fn read_update(
    alloc: Global,
    part: &UpdatePart<'_>,
    wide: bool,
) -> Result<Vec<Delta<VpnKey, VpnRoute>>, UpdateFault>
    ensures changes { IfOk result (λ deltas. Changes wide (parts_of part.now) deltas.items) }
    ensures fault { IfErr result (λ e. IfWire e (λ f. HasUpdateFault wide (parts_of part.now) f)) }

    // Each change and each fault is found. Want of memory alone is free.
    ensures every_change { (deltas : List (Delta VpnKey VpnRoute)) → Changes wide (parts_of part.now) deltas
        → MatchResult result (λ found. found.items ≡ deltas) (λ e. e ≡ UpdateFault.NoMemory) }
    ensures every_fault { (f : WireFault) → HasUpdateFault wide (parts_of part.now) f → result ≡ Err (UpdateFault.Wire f) }
{
    match read_routes(alloc, part, wide) {
        Ok(said) => Ok(said.changes(alloc)?),
        Err(fault) => Err(fault),
    }
}
