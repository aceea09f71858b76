//! The receiving end.
ghost use Rattle.std.specs.Prelude.{◌≡◌, [], OnOk, OnErr, option_copied, map};
ghost use Rattle.std.specs.FinMap.{IsAntisymmetric, get};
ghost use Rattle.std.specs.List.Sorted.{IsStrictlySortedBy};
ghost use Rattle.ov_sync.specs.Keyed.{IsPut, map_of, changed};

use crate::Delta;
use ov_types::NoMemory;
use std::alloc::Global;
use std::collections::BTreeMap;
use std::collections::btree_map::Iter;
use std::marker::Model;

/// What is held of a keyed table, which contracts see as its entries in the order of their keys.
#[derive(Drop)]
pub struct SyncIn<K: Ord, V> {
    held: BTreeMap<K, V>,
}

impl<K: Ord, V> Model for SyncIn<K, V> {
    ghost use Rattle.std.specs.Prelude.{List};

    ghost Value = { List (K × V) };

    ghost view = { λ s. s.held.entries };
}

impl<K: Ord + Drop, V: Drop> SyncIn<K, V> {
    /// Nothing is held. It takes no memory.
    pub fn new(alloc: Global) -> Self
        ensures { result ≡ [] }
    {
        SyncIn {
            held: BTreeMap::new(alloc),
        }
    }

    /// Applies a change. A drop of an absent key changes nothing, and no drop takes memory.
    pub fn apply(&mut self, delta: Delta<K, V>) -> Result<(), NoMemory>
        requires keys { IsAntisymmetric K.cmp }
        ensures ok { OnOk result (map_of K.cmp self.new ≡ changed (map_of K.cmp self.old) delta) }
        ensures err { OnErr result (self.new ≡ self.old) }
        ensures memory { OnErr result (IsPut delta) }
    {
        match delta {
            Delta::Put(key, value) => {
                self.held.insert(key, value)?;
            }
            Delta::Drop(key) => {
                self.held.remove(&key);
            }
        }
        Ok(())
    }

    /// Nothing is held. It takes no memory.
    pub fn reset(&mut self)
        ensures { self.new ≡ [] }
    {
        self.held.clear();
    }

    /// The value held at a key.
    pub fn get(&self, key: &K) -> Option<&V>
        ensures { option_copied result ≡ get (map_of K.cmp self.now) key.now }
    {
        self.held.get(key)
    }

    /// The entries in the order of their keys. It takes no memory.
    pub fn iter(&self) -> Iter<'_, K, V>
        ensures entries { result ≡ self.now }
        ensures ascending { IsStrictlySortedBy K.cmp (map (λ e. e.0) self.now) }
    {
        self.held.iter()
    }
}
