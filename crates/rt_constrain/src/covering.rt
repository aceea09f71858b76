//! The routes that are covered by what is asked (RFC 4684, section 6).
ghost use Rattle.std.specs.Prelude.{◌≡◌, ◌≤◌, map, IfOk, OnOk};
ghost use Rattle.std.specs.List.{filter, list_any};
ghost use Rattle.std.specs.List.Sorted.{IsStrictlySortedBy};
ghost use Rattle.ov_sync.specs.Keyed.{map_of};
ghost use Rattle.rt_constrain.specs.Cut.{restricted};
ghost use Rattle.vpn_tables.specs.Views.{peer_of, vpn_order};
ghost use Rattle.rt_membership.specs.Asked.{IsAsked};
ghost use Rattle.rt_constrain.specs.Covering.{agree, AreAsked, covers, is_covered_by};

use ov_sync::first_of_each;
use ov_types::{NoMemory, Target, VpnKey, VpnRoute};
use rt_membership::Asked;
use std::alloc::Global;
use std::collections::BTreeMap;

/// Bits that are not of a target: those of who asks, and those that a whole prefix has.
const ORIGIN_BITS: u8 = 32;

const MOST_BITS: u8 = 96;

/// Whether a target has the bits of another up to a length.
fn agree(length: u8, a: Target, b: Target) -> bool
    requires { length ≤ 96 }
    ensures { 32 ≤ length → result ≡ agree length a b }
{
    if length <= ORIGIN_BITS {
        return true;
    }
    let spare = MOST_BITS - length;
    a.0 >> spare == b.0 >> spare
}

/// Whether one of these targets has the bits of what is asked.
fn has_target_from(asked: &Asked, targets: &[Target]) -> bool
    requires low { 32 ≤ asked.now.length }
    requires high { asked.now.length ≤ 96 }
    ensures { result ≡ list_any (λ t. agree asked.now.length t asked.now.target) targets.now }
{
    for target in targets {
        if agree(asked.length, *target, asked.target) {
            return true;
        }
    }
    false
}

fn is_covered_by(targets: &[Target], asked: &Asked) -> bool
    requires { IsAsked asked.now }
    ensures { result ≡ is_covered_by targets.now asked.now }
{
    if asked.length == 0 {
        return true;
    }
    has_target_from(asked, targets)
}

/// Whether a route is asked. It takes no memory.
pub fn covers(asked: &[Asked], route: &VpnRoute) -> bool
    requires { AreAsked asked.now }
    ensures { result ≡ covers asked.now route.now }
{
    let targets = route.targets.items();
    for entry in asked {
        if is_covered_by(targets, entry) {
            return true;
        }
    }
    false
}

/// The routes that are asked, in the order of their keys.
fn covered(
    alloc: Global,
    routes: &BTreeMap<VpnKey, VpnRoute>,
    asked: &[Asked],
) -> Result<Vec<(VpnKey, VpnRoute)>, NoMemory>
    requires { AreAsked asked.now }
    ensures covered { IfOk result (λ covered. covered.items ≡ filter (λ e. covers asked.now e.1) routes.now.entries) }
    ensures ascending { OnOk result (IsStrictlySortedBy vpn_order (map (λ e. e.0) routes.now.entries)) }
{
    let mut covered = Vec::new(alloc);
    for (key, route) in routes.iter() {
        if covers(asked, route) {
            let copy = copy_of(route)?;
            covered.push((*key, copy))?;
        }
    }
    Ok(covered)
}

fn copy_of(route: &VpnRoute) -> Result<VpnRoute, NoMemory>
    ensures { IfOk result (λ copy. copy ≡ route.now) }
{
    Ok(route.clone()?)
}

/// The routes that are asked: what a peer sends that is asked so.
pub fn restrict(
    alloc: Global,
    routes: &BTreeMap<VpnKey, VpnRoute>,
    asked: &[Asked],
) -> Result<BTreeMap<VpnKey, VpnRoute>, NoMemory>
    requires { AreAsked asked.now }
    ensures covered { IfOk result (λ sent. map_of vpn_order sent.entries
        ≡ map_of vpn_order (filter (λ e. covers asked.now e.1) routes.now.entries)) }
    ensures of_the_model { IfOk result (λ sent. peer_of sent.entries
        ≡ restricted (covers asked.now) (peer_of routes.now.entries)) }
{
    let covered = covered(alloc, routes, asked)?;
    let sent = first_of_each(alloc, covered)?;
    Ok(sent)
}
