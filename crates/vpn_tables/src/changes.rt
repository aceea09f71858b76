//! Changes that answer what they change: exactly the rows at which something else follows then.
ghost use Rattle.std.specs.Prelude.{◌≡◌, ◌≤◌, ◌+◌, ◌++◌, ◌∷◌, [], map, IfOk, IfSome, None, OnErr, OnOk};
ghost use Rattle.std.specs.List.{AllByRecursion};
ghost use Rattle.ov_sync.specs.Keyed.{key_of};
ghost use Rattle.ov_types.specs.Prefix.{Block};
ghost use Rattle.ov_types.specs.declared.numbers.InstanceId.{InstanceId as InstanceOf};
ghost use Rattle.vpn_holdings.specs.Changes.{with_publication, with_route};
ghost use Rattle.vpn_holdings.specs.Moved.{targets_by_publication, targets_by_route};
ghost use Rattle.vpn_holdings.specs.Touched.{rows_by_key, touched, touched_rows};
ghost use Rattle.vpn_tables.specs.Followed.{AreOther, HasMoved, IsFollowed, IsListed, IsRowChange};
ghost use Rattle.vpn_tables.specs.Followed.{followed_again, unchanged_at};

use crate::stored::{entry_at, row_key};
use crate::tables::VpnTables;
use ov_sync::Delta;
use ov_types::{InstanceId, Label, NoMemory, Prefix, UpKey, VpnKey, VpnRoute};
use path_select::{Path, Steps};
use std::alloc::Global;
use std::sync::ledger::Ledger;
use vpn_holdings::Route;

/// What follows of an instance and a prefix, as sessions are told it.
#[derive(Clone, Copy, PartialEq, Eq)]
pub struct Followed {
    /// The selected path.
    pub path: Option<Path>,
    /// The route that leads the prefix on into the instance, a place of a use, from the right end.
    pub led_right: Option<Route>,
    /// The route that leads the prefix on into the instance from the left end.
    pub led_left: Option<Route>,
}

/// A row at which something else follows after a change.
#[derive(Clone, Copy, PartialEq, Eq)]
pub struct RowChange {
    pub instance: InstanceId,
    pub prefix: Prefix,
    pub before: Followed,
    pub after: Followed,
}

impl VpnTables {
    /// What follows at an instance and a prefix. It takes no memory.
    pub fn followed(&self, i: InstanceId, prefix: &Prefix) -> Followed
        ensures { IsFollowed self.now i prefix.now result }
    {
        let entry = entry_at(&self.stored, row_key(i, prefix));
        Followed {
            path: entry.path,
            led_right: self.held.led_at(i, prefix, true),
            led_left: self.held.led_at(i, prefix, false),
        }
    }

    /// Applies a change that a peer told on its session, as `set_peer_route_counted` does, and answers what it changed:
    /// nothing is answered where memory is wanting for that alone.
    pub fn change_peer_route<L: Ledger>(
        &mut self,
        session: u16,
        delta: Delta<VpnKey, VpnRoute>,
        steps: &mut Steps<L>,
    ) -> Result<Option<Vec<RowChange>>, NoMemory>
        ensures ok { OnOk result (self.new ≡ with_route self.old session delta) }
        ensures err { OnErr result (self.new ≡ self.old) }
        ensures steps { steps.new ≤ steps.old + touched self.old (targets_by_route self.old session delta) }
        ensures each { IfOk result (λ changes. IfSome changes (λ rows.
            AllByRecursion (IsRowChange self.old self.new) rows.items)) }
        ensures every { IfOk result (λ changes. IfSome changes (λ rows. (i : InstanceOf) (q : Block)
            → HasMoved self.old self.new i q → IsListed rows.items i q)) }
    {
        self.uses_are_short();
        let touched = self.touched_by_route(session, &delta)?;
        let listed = list_unchanged(self.alloc, self, touched.as_slice());
        self.set_peer_route_at(touched.as_slice(), session, delta, steps)?;
        Ok(self.changed_of(listed))
    }

    /// Applies a change that an agent told on its session, as `set_publication_counted` does, and answers what it changed:
    /// nothing is answered where memory is wanting for that alone.
    pub fn change_publication<L: Ledger>(
        &mut self,
        session: u16,
        delta: Delta<UpKey, Label>,
        steps: &mut Steps<L>,
    ) -> Result<Option<Vec<RowChange>>, NoMemory>
        ensures ok { OnOk result (self.new ≡ with_publication self.old session delta) }
        ensures err { OnErr result (self.new ≡ self.old) }
        ensures steps { steps.new ≤ steps.old + touched self.old (targets_by_publication self.old session delta) }
        ensures each { IfOk result (λ changes. IfSome changes (λ rows.
            AllByRecursion (IsRowChange self.old self.new) rows.items)) }
        ensures every { IfOk result (λ changes. IfSome changes (λ rows. (i : InstanceOf) (q : Block)
            → HasMoved self.old self.new i q → IsListed rows.items i q)) }
    {
        self.uses_are_short();
        let touched = self.touched_by_publication(session, &delta)?;
        let listed = list_unchanged(self.alloc, self, touched.as_slice());
        self.set_publication_at(touched.as_slice(), session, delta, steps)?;
        Ok(self.changed_of(listed))
    }

    /// Which of some rows are those at which something else follows now, where there was memory for the rows. It takes
    /// none.
    fn changed_of(&self, listed: Result<Vec<RowChange>, NoMemory>) -> Option<Vec<RowChange>>
        ensures other { IfOk listed (λ all. IfSome result (λ kept.
            AreOther (map (followed_again self.now) all.items) kept.items)) }
        ensures none { OnErr listed (result ≡ None) }
    {
        match listed {
            Ok(mut changes) => {
                follow_again(self, &mut changes);
                keep_other(&mut changes);
                Some(changes)
            }
            Err(NoMemory) => None,
        }
    }
}

/// A row with what follows there now, as if the same followed after a change.
fn unchanged(tables: &VpnTables, instance: InstanceId, prefix: &Prefix) -> RowChange
    ensures { result ≡ unchanged_at tables.now (instance, prefix.now) }
{
    let before = tables.followed(instance, prefix);
    let after = before;
    RowChange {
        instance,
        prefix: *prefix,
        before,
        after,
    }
}

/// Adds a row.
fn push_change(changes: &mut Vec<RowChange>, change: &RowChange) -> Result<(), NoMemory>
    ensures { OnOk result (changes.new.items ≡ changes.old.items ++ change.now ∷ []) }
{
    let path = change.before.path;
    let led_right = change.before.led_right;
    let led_left = change.before.led_left;
    changes.push(RowChange {
        instance: change.instance,
        prefix: change.prefix,
        before: Followed {
            path,
            led_right,
            led_left,
        },
        after: change.after,
    })?;
    Ok(())
}

/// Some rows, each with what follows there now, as if the same followed after a change.
fn list_unchanged(
    alloc: Global,
    tables: &VpnTables,
    rows: &[(InstanceId, Prefix)],
) -> Result<Vec<RowChange>, NoMemory>
    ensures { IfOk result (λ changes. changes.items ≡ map (unchanged_at tables.now) rows.now) }
{
    let mut changes = Vec::new(alloc);
    for (instance, prefix) in rows {
        push_change(&mut changes, &unchanged(tables, *instance, prefix))?;
    }
    Ok(changes)
}

/// Sets of each row what follows there now.
fn follow_again(tables: &VpnTables, changes: &mut [RowChange])
    ensures { changes.new ≡ map (followed_again tables.now) changes.old }
{
    for change in changes.iter_mut() {
        change.after = tables.followed(change.instance, &change.prefix);
    }
}

/// Keeps the rows at which something else follows.
fn keep_other(changes: &mut Vec<RowChange>)
    ensures { AreOther changes.old.items changes.new.items }
{
    changes.retain(|change| change.before != change.after);
}
