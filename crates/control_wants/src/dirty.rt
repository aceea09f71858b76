//! Marks.
ghost use Rattle.std.specs.Prelude.{◌≡◌, [], map, true, false};
ghost use Rattle.std.specs.List.Sorted.{IsStrictlySortedBy};
ghost use Rattle.vpn_tables.specs.NodeModel.Directions.{down_order, vpn_order};
ghost use Rattle.vpn_tables.specs.NodeModel.Keys.{Key, Vpn, of_down};
ghost use Rattle.vpn_tables.specs.NodeModel.Members.{Member};
ghost use Rattle.vpn_tables.specs.NodeModel.Paths.{Told};
ghost use Rattle.control_wants.specs.Marks.{AreAgentsUnmarked, AreAllOf, IsCleanItem, IsCleanRoute, IsWithin};
ghost use Rattle.control_wants.specs.Marks.{MarksOnly, is_of, no_item, no_route};

use crate::whom::{Whom, joined};
use ov_sync::{Delta, SyncIn};
use ov_types::{Addr, DownKey, VpnKey};
use std::alloc::Global;
use std::collections::btree_map::Iter;
use std::marker::Model;

/// What may have changed of what sessions are to be told, since they were told last.
#[derive(Drop)]
pub struct Dirty {
    /// Everything, of every session.
    all: bool,
    /// Where agents are of which everything may have changed.
    addresses: Vec<Addr>,
    /// Keys of peers.
    routes: SyncIn<VpnKey, ()>,
    /// Keys of agents, each with the agents of which it is marked.
    items: SyncIn<DownKey, Whom>,
}

impl Model for Dirty {
    ghost use Rattle.control_wants.specs.Marks.{Marks, coded_marks};
    ghost use Rattle.std.specs.Prelude.{map};

    ghost Value = { Marks };

    ghost coded = { coded_marks };

    ghost view = { λ s. record {
      all = s.all;
      addresses = s.addresses.items;
      routes = map (λ e. e.0) s.routes;
      items = s.items;
    } };
}

impl Dirty {
    /// Everything is marked. It takes no memory.
    pub fn new(alloc: Global) -> Dirty
        ensures { result.all ≡ true }
    {
        Dirty {
            all: true,
            addresses: Vec::new(alloc),
            routes: SyncIn::new(alloc),
            items: SyncIn::new(alloc),
        }
    }

    /// Marks everything. It takes no memory.
    pub fn set_all(&mut self)
        ensures { self.new ≡ record self.old { all = true } }
    {
        self.all = true;
    }

    /// Marks nothing. It takes no memory.
    pub fn clear(&mut self)
        ensures { self.new ≡ record { all = false; addresses = []; routes = []; items = [] } }
    {
        self.all = false;
        self.addresses.clear();
        self.routes.reset();
        self.items.reset();
    }

    /// Whether everything is marked. It takes no memory.
    pub fn is_all(&self) -> bool
        ensures { result ≡ self.now.all }
    {
        self.all
    }

    /// Whether everything is marked of the agents at an address. It takes no memory.
    pub fn is_whole(&self, address: Addr) -> bool
        ensures all { result ≡ false → self.now.all ≡ false }
        ensures address { result ≡ false → Member address self.now.addresses → ⊥ }
        ensures whole { result ≡ true → self.now.all ≡ false → Member address self.now.addresses }
    {
        if self.all {
            return true;
        }
        self.addresses.contains(&address)
    }

    /// Whether nothing is marked of the agents at an address. It takes no memory.
    pub fn is_clean_at(&self, address: Addr) -> bool
        ensures all { result ≡ true → self.now.all ≡ false }
        ensures clean { result ≡ true → (a : Told) → a.address ≡ address → (k : Key) → IsCleanItem self.now a k }
        ensures items { result ≡ true → self.now.items ≡ [] }
        ensures other { result ≡ false → AreAgentsUnmarked self.now → ⊥ }
    {
        if self.is_whole(address) {
            return false;
        }
        self.items.iter().len() == 0
    }

    /// The marked keys of peers, in order. It takes no memory.
    pub fn routes(&self) -> Iter<'_, VpnKey, ()>
        ensures keys { map (λ e. e.0) result ≡ self.now.routes }
        ensures ascending { IsStrictlySortedBy vpn_order self.now.routes }
    {
        self.routes.iter()
    }

    /// The marked keys of agents, in order, each with the agents of which it is marked. It takes no memory.
    pub fn items(&self) -> Iter<'_, DownKey, Whom>
        ensures entries { result ≡ self.now.items }
        ensures ascending { IsStrictlySortedBy down_order (map (λ e. e.0) self.now.items) }
    {
        self.items.iter()
    }

    /// Marks everything of the agents at an address. Where memory is wanting, everything is marked.
    pub fn add_address(&mut self, address: Addr)
        ensures within { IsWithin self.old self.new }
        ensures marked { self.new.all ≡ false → (a : Told) → a.address ≡ address → (k : Key)
            → IsCleanItem self.new a k → ⊥ }
        ensures only { MarksOnly no_route (λ a k. a.address ≡ address) self.old self.new }
    {
        match self.addresses.push(address) {
            Ok(()) => {}
            Err(_) => self.all = true,
        }
    }

    /// Marks a key of peers. Where memory is wanting, everything is marked.
    pub fn add_route(&mut self, key: VpnKey)
        ensures within { IsWithin self.old self.new }
        ensures marked { self.new.all ≡ false → IsCleanRoute self.new (Vpn key) → ⊥ }
        ensures only { MarksOnly (λ k. k ≡ Vpn key) no_item self.old self.new }
    {
        match self.routes.apply(Delta::Put(key, ())) {
            Ok(()) => {}
            Err(_) => self.all = true,
        }
    }

    /// Marks a key of some agents, beside those of which it is marked already. Where memory is wanting, everything is
    /// marked.
    pub fn add_item(&mut self, key: DownKey, whom: Whom)
        ensures within { IsWithin self.old self.new }
        ensures marked { self.new.all ≡ false → (a : Told) → is_of a key whom ≡ true
            → IsCleanItem self.new a (of_down key) → ⊥ }
        ensures only { MarksOnly no_route (λ a k. k ≡ of_down key) self.old self.new }
        ensures own { AreAllOf self.old whom → AreAllOf self.new whom }
    {
        let all_of = joined(self.items.get(&key).copied(), whom);
        match self.items.apply(Delta::Put(key, all_of)) {
            Ok(()) => {}
            Err(_) => self.all = true,
        }
    }
}
