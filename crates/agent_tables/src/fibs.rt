//! The routes of the instances that an agent needs.
ghost use Rattle.std.specs.Prelude.{◌≡◌, ◌↔◌, ◌==◌, [], IfOk, IsTrue, OnOk, map};
ghost use Rattle.std.specs.BTreeMap.{IsOrdered};
ghost use Rattle.std.specs.List.{AllByRecursion, list_any};
ghost use Rattle.node_core.specs.Told.{down_of, down_value};
ghost use Rattle.node_core.specs.NodeModel.Agent.{row_entry, rows_heard};
ghost use Rattle.node_core.specs.NodeModel.Keys.{of_down};
ghost use Rattle.agent_tables.specs.Routes.{has_table, instance_order, kept, kept_all, kept_in, kept_where, routes_in};
ghost use Rattle.agent_tables.specs.Routes.{routes_on};
ghost use Rattle.agent_tables.specs.Touched.{led, led_all, led_in};
ghost use Rattle.agent_tables.specs.Views.{heard_of};

use crate::hearing::{Hearing, first_heard};
use ov_sync::SyncIn;
use ov_types::{DownKey, DownValue, Entry, InstanceId, NoMemory, Prefix};
use std::alloc::Global;
use std::collections::BTreeMap;
use vrouter_fib::Fib;

/// The routes of each instance that has some, or may get some.
pub(crate) type Fibs = BTreeMap<InstanceId, Fib>;

/// A table with no routes for each of these instances.
pub(crate) fn empty_fibs(alloc: Global, instances: &[InstanceId]) -> Result<Fibs, NoMemory>
    ensures tables { IfOk result (λ fibs. (i : InstanceId)
        → has_table fibs.entries i ≡ list_any (λ n. n.0 == i.0) instances.now) }
    ensures empty { IfOk result (λ fibs. AllByRecursion (λ t. t.1 ≡ []) fibs.entries) }
    ensures ascending { IfOk result (λ fibs. IsOrdered instance_order fibs) }
{
    let mut fibs = BTreeMap::new(alloc);
    for instance in instances {
        fibs.insert(*instance, Fib::new(alloc))?;
    }
    Ok(fibs)
}

/// The instances that have a table.
pub(crate) fn instances(alloc: Global, fibs: &Fibs) -> Result<Vec<InstanceId>, NoMemory>
    ensures { IfOk result (λ instances. instances.items ≡ map (λ t. t.0) fibs.now.entries) }
{
    let mut instances = Vec::new(alloc);
    for (instance, _) in fibs.iter() {
        instances.push(*instance)?;
    }
    Ok(instances)
}

/// Whether the very same instances have a table in both.
pub(crate) fn have_same_instances(
    alloc: Global,
    fibs: &Fibs,
    others: &Fibs,
) -> Result<bool, NoMemory>
    ensures { IfOk result (λ same. IsTrue same
        ↔ (map (λ t. t.0) fibs.now.entries ≡ map (λ t. t.0) others.now.entries)) }
{
    let instances_here = instances(alloc, fibs)?;
    let instances_there = instances(alloc, others)?;
    Ok(instances_here.as_slice() == instances_there.as_slice())
}

/// Adds the routes of the sessions that are up: of each prefix of an instance with a table that of the first session
/// that has one.
pub(crate) fn keep_heard(fibs: &mut Fibs, sessions: &[Hearing]) -> Result<(), NoMemory>
    ensures { OnOk result (fibs.new.entries
        ≡ kept_all fibs.old.entries (rows_heard (map heard_of sessions.now))) }
{
    for session in sessions {
        keep_session(fibs, session)?;
    }
    Ok(())
}

fn keep_session(fibs: &mut Fibs, session: &Hearing) -> Result<(), NoMemory>
    ensures { OnOk result (fibs.new.entries
        ≡ kept_all fibs.old.entries (routes_on (heard_of session.now))) }
{
    if session.is_up() {
        keep_routes(fibs, &session.held)
    } else {
        Ok(())
    }
}

fn keep_routes(fibs: &mut Fibs, held: &SyncIn<DownKey, DownValue>) -> Result<(), NoMemory>
    ensures { OnOk result (fibs.new.entries ≡ kept_all fibs.old.entries (routes_in (down_of held.now))) }
{
    for (key, value) in held.iter() {
        keep_told(fibs, key, value)?;
    }
    Ok(())
}

/// Adds a route, where what was told is one.
fn keep_told(fibs: &mut Fibs, key: &DownKey, value: &DownValue) -> Result<(), NoMemory>
    ensures { OnOk result (fibs.new.entries
        ≡ kept_where fibs.old.entries (row_entry (of_down key.now) (down_value value.now))) }
{
    let DownKey::Route(instance, prefix) = *key else {
        return Ok(());
    };
    match value {
        DownValue::Row(entry) => keep_route(fibs, instance, prefix, *entry),
        DownValue::Object(_) => Ok(()),
    }
}

/// Adds a route, where its instance has a table that has none of the prefix yet.
fn keep_route(
    fibs: &mut Fibs,
    instance: InstanceId,
    prefix: Prefix,
    entry: Entry,
) -> Result<(), NoMemory>
    ensures { OnOk result (fibs.new.entries ≡ kept_in fibs.old.entries instance prefix entry) }
{
    match fibs.get_mut(&instance) {
        Some(fib) => keep(fib, prefix, entry),
        None => Ok(()),
    }
}

fn keep(fib: &mut Fib, prefix: Prefix, entry: Entry) -> Result<(), NoMemory>
    ensures { OnOk result (fib.new ≡ kept fib.old prefix entry) }
{
    if fib.get(&prefix).is_some() {
        return Ok(());
    }
    fib.set(prefix, entry)
}

/// Leads each of these prefixes of instances that have a table where the first session that is up and has it tells, and
/// nowhere where there is none.
pub(crate) fn lead_all(
    fibs: &mut Fibs,
    sessions: &[Hearing],
    keys: &[(InstanceId, Prefix)],
) -> Result<(), NoMemory>
    ensures led { OnOk result (fibs.new.entries ≡ led_all (map heard_of sessions.now) fibs.old.entries keys.now) }
    ensures instances { map (λ t. t.0) fibs.new.entries ≡ map (λ t. t.0) fibs.old.entries }
{
    for key in keys {
        let entry = first_heard(sessions, key.0, key.1);
        lead_in(fibs, key.0, key.1, entry)?;
    }
    Ok(())
}

/// Leads a prefix of an instance, where that has a table.
fn lead_in(
    fibs: &mut Fibs,
    instance: InstanceId,
    prefix: Prefix,
    entry: Option<Entry>,
) -> Result<(), NoMemory>
    ensures led { OnOk result (fibs.new.entries ≡ led_in fibs.old.entries instance prefix entry) }
    ensures instances { map (λ t. t.0) fibs.new.entries ≡ map (λ t. t.0) fibs.old.entries }
{
    match fibs.get_mut(&instance) {
        Some(fib) => lead(fib, prefix, entry),
        None => Ok(()),
    }
}

fn lead(fib: &mut Fib, prefix: Prefix, entry: Option<Entry>) -> Result<(), NoMemory>
    ensures { OnOk result (fib.new ≡ led fib.old prefix entry) }
{
    match entry {
        Some(entry) => fib.set(prefix, entry),
        None => {
            fib.remove(&prefix);
            Ok(())
        }
    }
}
