//! The routes of one session, by their keys.
ghost use Rattle.std.specs.Prelude.{◌≡◌, ◌||◌, [], OnOk, None, cond, option_copied, true};
ghost use Rattle.std.specs.FinMap.{get, remove};
ghost use Rattle.std.specs.Ordering.{eq_by_cmp};
ghost use Rattle.std.specs.List.Sorted.{IsStrictlySortedBy};
ghost use Rattle.ov_types.specs.declared.vpn.VpnKey.{VpnKey};
ghost use Rattle.ov_sync.specs.Keyed.{after, is_changed, key_of};
ghost use Rattle.bgp_restart.specs.Events.{key_order};
ghost use Rattle.bgp_restart.specs.Routes.{has_room, routes_in, with_route};

use ov_sync::Delta;
use ov_types::{NoMemory, VpnKey, VpnRoute};
use std::alloc::Global;
use std::collections::BTreeMap;
use std::collections::btree_map::Iter;
use std::marker::Model;

/// Routes by their keys, and room for more: a key may stand there without a route, so that what is told of it later
/// takes no memory.
#[derive(Drop)]
pub(crate) struct Routes {
    held: BTreeMap<VpnKey, Option<VpnRoute>>,
}

impl Model for Routes {
    ghost use Rattle.std.specs.Prelude.{List, Option};
    ghost use Rattle.ov_types.specs.declared.vpn.VpnKey.{VpnKey};
    ghost use Rattle.ov_types.specs.declared.vpn.VpnRoute.{VpnRoute};

    ghost Value = { List (VpnKey × Option VpnRoute) };

    ghost view = { λ r. r.held.entries };
}

fn key_of(change: &Delta<VpnKey, VpnRoute>) -> &VpnKey
    ensures { result.now ≡ key_of change.now }
{
    match change {
        Delta::Put(key, _) => key,
        Delta::Drop(key) => key,
    }
}

impl Routes {
    ghost use Rattle.std.specs.Prelude.{map};

    /// Holds no route. No memory is taken.
    pub(crate) fn new(alloc: Global) -> Routes
        ensures { result ≡ [] }
    {
        Routes {
            held: BTreeMap::new(alloc),
        }
    }

    /// No route is held, and there is no room. It takes no memory.
    pub(crate) fn reset(&mut self)
        ensures { self.new ≡ [] }
    {
        self.held.clear();
    }

    /// The route held under a key.
    pub(crate) fn get(&self, key: &VpnKey) -> Option<&VpnRoute>
        ensures { option_copied result ≡ get (routes_in self.now) key.now }
    {
        match self.held.get(key) {
            Some(route) => route.as_ref(),
            None => None,
        }
    }

    /// What stands there, in the order of the keys.
    pub(crate) fn iter(&self) -> Iter<'_, VpnKey, Option<VpnRoute>>
        ensures entries { result ≡ self.now }
        ensures ascending { IsStrictlySortedBy key_order (map (λ e. e.0) self.now) }
    {
        self.held.iter()
    }

    /// Makes room for a key. The routes stay as they are.
    fn add_room(&mut self, key: &VpnKey) -> Result<(), NoMemory>
        ensures routes { routes_in self.new ≡ routes_in self.old }
        ensures room { OnOk result ((k : VpnKey)
            → has_room self.new k ≡ eq_by_cmp key_order k key.now || has_room self.old k) }
    {
        if !self.held.contains_key(key) {
            self.held.insert(*key, None)?;
        }
        Ok(())
    }

    /// Makes room for each key that changes name. The routes stay as they are.
    pub(crate) fn add_rooms(&mut self, changes: &[Delta<VpnKey, VpnRoute>]) -> Result<(), NoMemory>
        ensures routes { routes_in self.new ≡ routes_in self.old }
        ensures room { OnOk result ((k : VpnKey) → is_changed key_order changes.now k ≡ true → has_room self.new k ≡ true) }
    {
        for change in changes {
            self.add_room(key_of(change))?;
        }
        Ok(())
    }

    /// From now on a key that has room has this route, or none.
    fn set(&mut self, key: VpnKey, route: Option<VpnRoute>)
        requires room { has_room self.old key ≡ true }
        ensures routes { routes_in self.new ≡ with_route (routes_in self.old) key route }
        ensures room { (k : VpnKey) → has_room self.old k ≡ true → has_room self.new k ≡ true }
    {
        // Only a key without room needs memory.
        let _replaced = self.held.insert(key, route);
    }

    /// Applies changes of keys that have room.
    pub(crate) fn apply(&mut self, changes: Vec<Delta<VpnKey, VpnRoute>>)
        requires room { (k : VpnKey) → is_changed key_order changes.items k ≡ true → has_room self.old k ≡ true }
        ensures { routes_in self.new ≡ after (routes_in self.old) changes.items }
    {
        for change in changes {
            match change {
                Delta::Put(key, route) => self.set(key, Some(route)),
                Delta::Drop(key) => self.set(key, None),
            }
        }
    }

    /// Nothing is held at a key any more. It takes no memory.
    fn remove(&mut self, key: &VpnKey)
        ensures { routes_in self.new ≡ remove (routes_in self.old) key.now }
    {
        self.held.remove(key);
    }

    /// Nothing is held any more at the keys that changes name. It takes no memory.
    pub(crate) fn forget(&mut self, changes: &[Delta<VpnKey, VpnRoute>])
        ensures { (k : VpnKey) → get (routes_in self.new) k
            ≡ cond (is_changed key_order changes.now k) None (get (routes_in self.old) k) }
    {
        for change in changes {
            self.remove(key_of(change));
        }
    }
}
