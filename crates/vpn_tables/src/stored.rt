//! What follows of each instance and prefix, stored. What is written in a place that is made before takes no memory.
ghost use Rattle.std.specs.Prelude.{◌≡◌, true, if◌then◌else◌, is_some, OnOk};
ghost use Rattle.std.specs.BTreeMap as tree;
ghost use Rattle.std.specs.List.{list_any};
ghost use Rattle.std.specs.Option.{option_map};
ghost use Rattle.vpn_tables.specs.Stored.{is_row, key_at, nothing_stored, row_order, stored_at};
ghost use Rattle.vpn_tables.specs.declared.stored.RowKey.{RowKey as RowKeyOf};

use ov_types::{InstanceId, NoMemory, Prefix};
use path_select::Path;
use std::collections::BTreeMap;

/// An instance and a prefix.
#[derive(Clone, Copy, PartialEq, Eq, PartialOrd, Ord)]
pub(crate) struct RowKey {
    pub(crate) instance: InstanceId,
    pub(crate) prefix: Prefix,
}

pub(crate) fn row_key(instance: InstanceId, prefix: &Prefix) -> RowKey
    ensures { result ≡ key_at (instance, prefix.now) }
{
    RowKey {
        instance,
        prefix: *prefix,
    }
}

/// What follows of an instance and a prefix: the selected path, and whether the prefix is a subnet of an end of the
/// instance's use that is up.
#[derive(Clone, Copy, PartialEq, Eq)]
pub(crate) struct Entry {
    pub(crate) path: Option<Path>,
    pub(crate) is_up_right: bool,
    pub(crate) is_up_left: bool,
}

impl Entry {
    /// Whether the prefix is a subnet of an end that is up.
    pub(crate) fn is_up(&self, is_right: bool) -> bool
        ensures { result ≡ (if is_right then self.now.is_up_right else self.now.is_up_left) }
    {
        if is_right {
            self.is_up_right
        } else {
            self.is_up_left
        }
    }

    /// Whether nothing follows.
    pub(crate) fn is_nothing(&self) -> bool
        ensures { result ≡ true → self.now ≡ nothing_stored }
    {
        if self.path.is_some() {
            return false;
        }
        if self.is_up_right {
            return false;
        }
        !self.is_up_left
    }
}

/// Nothing follows.
fn nothing() -> Entry
    ensures { result ≡ nothing_stored }
{
    Entry {
        path: None,
        is_up_right: false,
        is_up_left: false,
    }
}

/// What is stored, by instance and prefix. Nothing may be stored in a place.
pub(crate) type Stored = BTreeMap<RowKey, Entry>;

/// What is stored at a key.
pub(crate) fn entry_at(stored: &Stored, key: RowKey) -> Entry
    ensures { result ≡ stored_at stored.now key }
{
    match stored.get(&key) {
        Some(entry) => *entry,
        None => nothing(),
    }
}

/// Makes a place, where there is none.
fn make_place(stored: &mut Stored, key: RowKey) -> Result<(), NoMemory>
    ensures stays { (k : RowKeyOf) → stored_at stored.new k ≡ stored_at stored.old k }
    ensures places { (k : RowKeyOf) → is_some (tree.get row_order stored.old k) ≡ true
        → is_some (tree.get row_order stored.new k) ≡ true }
    ensures place { OnOk result ((k : RowKeyOf) → is_row k key ≡ true
        → is_some (tree.get row_order stored.new k) ≡ true) }
{
    if !stored.contains_key(&key) {
        stored.insert(key, nothing())?;
    }
    Ok(())
}

fn make_each(stored: &mut Stored, keys: &[RowKey]) -> Result<(), NoMemory>
    ensures stays { (k : RowKeyOf) → stored_at stored.new k ≡ stored_at stored.old k }
    ensures places { OnOk result ((k : RowKeyOf) → list_any (is_row k) keys.now ≡ true
        → is_some (tree.get row_order stored.new k) ≡ true) }
{
    for key in keys {
        make_place(stored, *key)?;
    }
    Ok(())
}

/// Makes a place for each of some keys. Where memory is wanting, none of them stays empty.
pub(crate) fn make_places(stored: &mut Stored, keys: &[RowKey]) -> Result<(), NoMemory>
    ensures stays { (k : RowKeyOf) → stored_at stored.new k ≡ stored_at stored.old k }
    ensures places { OnOk result ((k : RowKeyOf) → list_any (is_row k) keys.now ≡ true
        → is_some (tree.get row_order stored.new k) ≡ true) }
{
    match make_each(stored, keys) {
        Ok(()) => Ok(()),
        Err(NoMemory) => {
            drop_empty(stored, keys);
            Err(NoMemory)
        }
    }
}

/// Drops the place of a key, where nothing is stored in it.
fn drop_place(stored: &mut Stored, key: RowKey)
    ensures { (k : RowKeyOf) → stored_at stored.new k ≡ stored_at stored.old k }
{
    if let Some(entry) = stored.get(&key) {
        if entry.is_nothing() {
            stored.remove(&key);
        }
    }
}

/// Drops those places of some keys in which nothing is stored. It takes no memory.
pub(crate) fn drop_empty(stored: &mut Stored, keys: &[RowKey])
    ensures { (k : RowKeyOf) → stored_at stored.new k ≡ stored_at stored.old k }
{
    for key in keys {
        drop_place(stored, *key);
    }
}

/// Stores an entry in its place, where there is one. It takes no memory.
pub(crate) fn write(stored: &mut Stored, key: RowKey, entry: Entry)
    ensures { (k : RowKeyOf) → tree.get row_order stored.new k
        ≡ (if is_row k key then option_map (λ _. entry) (tree.get row_order stored.old key)
        else tree.get row_order stored.old k) }
{
    match stored.get_mut(&key) {
        Some(place) => *place = entry,
        None => {}
    }
}
