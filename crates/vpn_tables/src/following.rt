//! What follows of what is held for an instance and a prefix, and made anew where a change touches it.
ghost use Rattle.std.specs.Prelude.{◌≡◌, ◌≤◌, ◌+◌, true, false, if◌then◌else◌, is_some, length, map, IfOk};
ghost use Rattle.std.specs.BTreeMap as tree;
ghost use Rattle.std.specs.List.{list_any};
ghost use Rattle.std.specs.Option.{option_map};
ghost use Rattle.node_model.specs.Paths.{Holdings};
ghost use Rattle.vpn_holdings.specs.At.{IsChosen, selected_at};
ghost use Rattle.vpn_tables.specs.Stored.{AreStored, entry_of, is_row, key_at, row_order};
ghost use Rattle.vpn_tables.specs.declared.stored.RowKey.{RowKey as RowKeyOf};

use crate::stored::{Entry, RowKey, Stored, drop_empty, write};
use ov_types::{InstanceId, NoMemory, Prefix};
use path_select::{Path, Steps, select_counted};
use std::alloc::Global;
use std::sync::ledger::Ledger;
use vpn_holdings::VpnHoldings;

/// The path that is used. It takes one step.
fn choose<L: Ledger>(paths: &[Path], steps: &mut Steps<L>) -> Option<Path>
    ensures chosen { IsChosen paths.now result }
    ensures step { steps.new ≡ steps.old + 1 }
{
    match select_counted(paths, steps) {
        Some(place) => Some(paths[place]),
        None => None,
    }
}

/// The selected path of a key, by at most one step. Where memory is wanting for its paths, it is selected by a walk that
/// needs none.
fn select_at<L: Ledger>(held: &VpnHoldings, key: RowKey, steps: &mut Steps<L>) -> Option<Path>
    ensures path { result ≡ selected_at held.now key.instance key.prefix }
    ensures steps { steps.new ≤ steps.old + 1 }
{
    match held.paths_at(key.instance, &key.prefix) {
        Ok(paths) => choose(paths.as_slice(), steps),
        Err(NoMemory) => held.selected(key.instance, &key.prefix),
    }
}

/// What follows at a key, by at most one step.
fn follow<L: Ledger>(held: &VpnHoldings, key: RowKey, steps: &mut Steps<L>) -> Entry
    ensures entry { result ≡ entry_of held.now key }
    ensures steps { steps.new ≤ steps.old + 1 }
{
    let path = select_at(held, key, steps);
    Entry {
        path,
        is_up_right: held.up(key.instance, &key.prefix, true),
        is_up_left: held.up(key.instance, &key.prefix, false),
    }
}

/// What follows at a key, by a walk that counts no step and takes no memory.
pub(crate) fn follows(held: &VpnHoldings, key: RowKey) -> Entry
    ensures { result ≡ entry_of held.now key }
{
    Entry {
        path: held.selected(key.instance, &key.prefix),
        is_up_right: held.up(key.instance, &key.prefix, true),
        is_up_left: held.up(key.instance, &key.prefix, false),
    }
}

/// Makes what is stored at a key anew, where there is a place for it.
fn refresh_one<L: Ledger>(
    stored: &mut Stored,
    held: &VpnHoldings,
    key: &RowKey,
    steps: &mut Steps<L>,
)
    ensures entries { (k : RowKeyOf) → tree.get row_order stored.new k
        ≡ (if is_row k key.now then option_map (λ _. entry_of held.now k) (tree.get row_order stored.old k)
        else tree.get row_order stored.old k) }
    ensures steps { steps.new ≤ steps.old + 1 }
{
    let entry = follow(held, *key, steps);
    write(stored, *key, entry);
}

fn refresh_each<L: Ledger>(
    stored: &mut Stored,
    held: &VpnHoldings,
    keys: &[RowKey],
    steps: &mut Steps<L>,
)
    ensures entries { (k : RowKeyOf) → tree.get row_order stored.new k
        ≡ (if list_any (is_row k) keys.now then option_map (λ _. entry_of held.now k) (tree.get row_order stored.old k)
        else tree.get row_order stored.old k) }
    ensures steps { steps.new ≤ steps.old + length keys.now }
{
    for key in keys {
        refresh_one(stored, held, key, steps);
    }
}

/// Makes what a change touches anew, each key by at most one step. The keys have their places, so that no memory is
/// wanting.
pub(crate) fn refresh<L: Ledger>(
    stored: &mut Stored,
    held: &VpnHoldings,
    touched: &[RowKey],
    steps: &mut Steps<L>,
)
    requires places { (k : RowKeyOf) → list_any (is_row k) touched.now ≡ true
        → is_some (tree.get row_order stored.old k) ≡ true }
    ensures stored { (h : Holdings) → AreStored stored.old h
        → ((k : RowKeyOf) → list_any (is_row k) touched.now ≡ false → entry_of h k ≡ entry_of held.now k)
        → AreStored stored.new held.now }
    ensures steps { steps.new ≤ steps.old + length touched.now }
{
    refresh_each(stored, held, touched, steps);
    drop_empty(stored, touched);
}

/// The keys of some rows.
pub(crate) fn keys_at(alloc: Global, rows: &[(InstanceId, Prefix)]) -> Result<Vec<RowKey>, NoMemory>
    ensures { IfOk result (λ keys. keys.items ≡ map key_at rows.now) }
{
    let mut keys = Vec::new(alloc);
    for (instance, prefix) in rows {
        keys.push(RowKey {
            instance: *instance,
            prefix: *prefix,
        })?;
    }
    Ok(keys)
}
