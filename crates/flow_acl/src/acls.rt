//! The access lists of an agent.
ghost use Rattle.std.specs.Prelude.{◌≡◌, ◌↔◌, [], map, IsTrue, OnOk, OnErr};
ghost use Rattle.std.specs.BTreeMap.{insert_entry, is_at};
ghost use Rattle.std.specs.List.Sorted.{IsStrictlySortedBy};
ghost use Rattle.std.specs.Map.{lookup, remove_entry};
ghost use Rattle.std.specs.Option.{option_copied};
ghost use Rattle.ov_types.specs.Keys.{low_key_cmp};
ghost use Rattle.ov_types.specs.declared.objects.LowKey.TheVariants as Key;
ghost use Rattle.flow_acl.specs.Lists.{IsAccessList};

use ov_types::{InstanceId, LowKey, LowValue, NoMemory};
use std::alloc::Global;
use std::collections::BTreeMap;
use std::collections::btree_map::Iter;
use std::marker::Model;

/// The access lists of an agent, which contracts see as their list in the order of their keys.
#[derive(Drop)]
pub struct Acls {
    pub(crate) lists: BTreeMap<LowKey, LowValue>,
}

impl Model for Acls {
    ghost use Rattle.std.specs.Prelude.{List};
    ghost use Rattle.ov_types.specs.declared.objects.LowKey.{LowKey as Name};
    ghost use Rattle.ov_types.specs.declared.objects.LowValue.{LowValue as Object};

    ghost Value = { List (Name × Object) };

    ghost view = { λ a. a.lists.entries };
}

impl Acls {
    /// No lists. It takes no memory.
    pub fn new(alloc: Global) -> Acls
        ensures { result ≡ [] }
    {
        Acls {
            lists: BTreeMap::new(alloc),
        }
    }

    /// The list of packets from one network to another is this one from now on.
    pub fn set(&mut self, from: InstanceId, to: InstanceId, value: LowValue) -> Result<(), NoMemory>
        requires { IsAccessList value }
        ensures ok { OnOk result (self.new ≡ insert_entry low_key_cmp self.old (Key.Acl from.0 to.0) value) }
        ensures err { OnErr result (self.new ≡ self.old) }
    {
        let key = LowKey::Acl {
            from: from.0,
            to: to.0,
        };
        self.lists.insert(key, value)?;
        Ok(())
    }

    /// There is no list of packets from one network to the other from now on. Where there was none nothing changes.
    pub fn remove(&mut self, from: InstanceId, to: InstanceId)
        ensures { self.new ≡ remove_entry (is_at (low_key_cmp (Key.Acl from.0 to.0))) self.old }
    {
        let key = LowKey::Acl {
            from: from.0,
            to: to.0,
        };
        self.lists.remove(&key);
    }

    /// The list of packets from one network to another. It takes no memory.
    pub fn get(&self, from: InstanceId, to: InstanceId) -> Option<&LowValue>
        ensures { option_copied result ≡ lookup (is_at (low_key_cmp (Key.Acl from.0 to.0))) self.now }
    {
        let key = LowKey::Acl {
            from: from.0,
            to: to.0,
        };
        self.lists.get(&key)
    }

    /// Whether other lists are the very same. It takes no memory.
    pub fn is(&self, other: &Acls) -> bool
        ensures { IsTrue result ↔ (self.now ≡ other.now) }
    {
        self.lists == other.lists
    }

    /// The lists in the order of their keys. It takes no memory.
    pub fn iter(&self) -> Iter<'_, LowKey, LowValue>
        ensures entries { result ≡ self.now }
        ensures ascending { IsStrictlySortedBy low_key_cmp (map (λ e. e.0) self.now) }
    {
        self.lists.iter()
    }
}
