//! What an instance imports, looked up once for all the routes that are compared with it.
ghost use Rattle.std.specs.Prelude.{◌≡◌, ◌==◌, [], Some, map};
ghost use Rattle.std.specs.List.{cons_option, list_any};
ghost use Rattle.route_targets.specs.Numbers.{hop_of, target_of};
ghost use Rattle.path_select.specs.NodeModel.Uses.{hop_imports, imports};

use crate::chains::Side;
use crate::holdings::VpnHoldings;
use ov_types::{InstanceId, LowKey, LowValue, Target};
use route_targets::{UseHop, hop_instance, hop_of, target};
use std::marker::Model;

/// The targets of the imports of an instance: of a place of a use its own, that of the left network and that of the right
/// one, each where it is imported there; of a network those of the instances that it lists.
#[derive(Drop)]
pub(crate) struct Imports<'a> {
    own: Option<Target>,
    left: Option<Target>,
    right: Option<Target>,
    asn: u32,
    listed: &'a [InstanceId],
}

impl<'a> Model for Imports<'a> {
    ghost use Rattle.std.specs.Prelude.{List, map};
    ghost use Rattle.std.specs.List.{cons_option};
    ghost use Rattle.ov_types.specs.declared.targets.Target.{Target as TargetOf};
    ghost use Rattle.route_targets.specs.Numbers.{target_of};

    ghost Value = { List TargetOf };

    ghost view = { λ s. cons_option s.own (cons_option s.left (cons_option s.right
        (map (target_of s.asn) s.listed.now))) };
}

/// Whether a target is there and is the one that is wanted.
fn is_wanted(target: Option<Target>, wanted: Target) -> bool
    ensures { result ≡ list_any (λ u. wanted.0 == u.0) (cons_option target []) }
{
    match target {
        Some(target) => wanted.0 == target.0,
        None => false,
    }
}

/// Whether one of these instances has a target.
fn is_of_any(asn: u32, instances: &[InstanceId], wanted: Target) -> bool
    ensures { result ≡ list_any (λ u. wanted.0 == u.0) (map (target_of asn) instances.now) }
{
    for instance in instances {
        if wanted.0 == target(asn, *instance).0 {
            return true;
        }
    }
    false
}

impl<'a> Imports<'a> {
    /// Whether a target is among them.
    pub(crate) fn has(&self, wanted: Target) -> bool
        ensures { result ≡ list_any (λ u. wanted.0 == u.0) self.now }
    {
        if is_wanted(self.own, wanted) {
            return true;
        }
        if is_wanted(self.left, wanted) {
            return true;
        }
        if is_wanted(self.right, wanted) {
            return true;
        }
        is_of_any(self.asn, self.listed, wanted)
    }

    /// Whether one of these targets is.
    pub(crate) fn has_any(&self, targets: &[Target]) -> bool
        ensures { result ≡ list_any (λ t. list_any (λ u. t.0 == u.0) self.now) targets.now }
    {
        for wanted in targets {
            if self.has(*wanted) {
                return true;
            }
        }
        false
    }
}

/// The imports of a network: the targets of the instances that it lists.
fn of_network<'a>(asn: u32, listed: &'a [InstanceId]) -> Imports<'a>
    ensures { result ≡ map (target_of asn) listed.now }
{
    Imports {
        own: None,
        left: None,
        right: None,
        asn,
        listed,
    }
}

/// The imports of a place of a use: its own target, the left network's and the right one's, each where it is given.
fn of_place<'a>(
    asn: u32,
    own: Option<Target>,
    left: Option<Target>,
    right: Option<Target>,
) -> Imports<'a>
    ensures { result ≡ cons_option own (cons_option left (cons_option right [])) }
{
    Imports {
        own,
        left,
        right,
        asn,
        listed: &[],
    }
}

/// The imports of the place of a number of a use: none past its last.
fn at_place<'a>(asn: u32, side: &Side<'_>, place: u8) -> Imports<'a>
    ensures { result ≡ map (target_of asn) (hop_imports place (Some side.now.chain)) }
{
    if place > side.services() {
        return of_place(asn, None, None, None);
    }
    let own = Some(target(asn, hop_instance(side.number(), place)));
    let left = Some(target(asn, side.left()));
    let right = Some(target(asn, side.right()));
    if place == 0 {
        if place == side.services() {
            return of_place(asn, own, left, right);
        }
        return of_place(asn, own, left, None);
    }
    if place == side.services() {
        return of_place(asn, own, None, right);
    }
    of_place(asn, own, None, None)
}

impl VpnHoldings {
    /// The targets of what an instance imports: none where it is not known. It takes no memory.
    pub(crate) fn imported(&self, i: InstanceId) -> Imports<'_>
        ensures { result ≡ map (target_of self.now.asn) (imports self.now.feed i) }
    {
        if let Some(hop) = hop_of(i) {
            return self.imported_by_hop(i, hop);
        }
        match self.low(&LowKey::Instance(i.0)) {
            Some(LowValue::Instance { imports }) => of_network(self.asn, imports.as_slice()),
            _ => of_network(self.asn, &[]),
        }
    }

    fn imported_by_hop(&self, i: InstanceId, hop: UseHop) -> Imports<'_>
        requires { hop_of i ≡ Some hop }
        ensures { result ≡ map (target_of self.now.asn) (imports self.now.feed i) }
    {
        match self.side(hop.use_no, true) {
            Some(side) => at_place(self.asn, &side, hop.place),
            None => of_network(self.asn, &[]),
        }
    }
}
