//! The routes of one instance.
ghost use Rattle.std.specs.Prelude.{◌≡◌, [], map, option_map, IfOk, OnOk, OnErr};
ghost use Rattle.std.specs.BTreeMap.{insert_entry, is_at};
ghost use Rattle.std.specs.List.Sorted.{IsStrictlySortedBy};
ghost use Rattle.std.specs.Map.{lookup, remove_entry};
ghost use Rattle.ov_types.specs.Prefix.{block_cmp};
ghost use Rattle.ov_types.specs.Routing.{longest};

use crate::span::Span;
use crate::trie::Trie;
use ov_types::{Addr, Entry, NoMemory, Prefix};
use std::alloc::Global;
use std::marker::Model;

/// The routes of one instance, which contracts see as their list in the order of their prefixes.
#[derive(Drop)]
pub struct Fib {
    alloc: Global,
    trie: Trie,
}

impl Model for Fib {
    ghost use Rattle.std.specs.Prelude.{List};
    ghost use Rattle.ov_types.specs.Prefix.{Block};
    ghost use Rattle.ov_types.specs.declared.rows.Entry.{Entry as Leading};
    ghost use Rattle.vrouter_fib.specs.Trie.{IsDeep, routes_of};

    ghost Value = { List (Block × Leading) };

    ghost view = { λ f. routes_of f.trie };

    ghost invariant = { λ f. IsDeep f.trie 0 };
}

impl Fib {
    /// No routes. It takes no memory.
    #[tactic(auto, unfolding(crate::specs::Trie::routes_of))]
    pub fn new(alloc: Global) -> Fib
        ensures { result ≡ [] }
    {
        Fib {
            alloc,
            trie: Trie::Empty,
        }
    }

    /// The prefix leads to this entry from now on.
    #[tactic(auto, unfolding(crate::specs::Trie::routes_of))]
    pub fn set(&mut self, prefix: Prefix, entry: Entry) -> Result<(), NoMemory>
        ensures ok { OnOk result (self.new ≡ insert_entry block_cmp self.old prefix entry) }
        ensures err { OnErr result (self.new ≡ self.old) }
    {
        let span = Span::around(prefix.addr());
        self.trie.set(self.alloc, span, &prefix, entry)
    }

    /// The prefix leads nowhere from now on. One that led nowhere changes nothing. It takes no memory and gives none back:
    /// the nodes on the way to the prefix stay until the table is let go, and serve when it is set again.
    #[tactic(auto, unfolding(crate::specs::Trie::routes_of))]
    pub fn remove(&mut self, prefix: &Prefix)
        ensures { self.new ≡ remove_entry (is_at (block_cmp prefix.now)) self.old }
    {
        let span = Span::around(prefix.addr());
        self.trie.remove(span, prefix);
    }

    /// Where the route of just this prefix leads.
    #[tactic(auto, unfolding(crate::specs::Trie::routes_of))]
    pub fn get(&self, prefix: &Prefix) -> Option<Entry>
        ensures { result ≡ lookup (is_at (block_cmp prefix.now)) self.now }
    {
        let span = Span::around(prefix.addr());
        self.trie.get(span, prefix)
    }

    /// The routes in the order of their prefixes.
    #[tactic(auto, unfolding(crate::specs::Trie::routes_of))]
    pub fn routes(&self) -> Result<Vec<(Prefix, Entry)>, NoMemory>
        ensures entries { IfOk result (λ routes. routes.items ≡ self.now) }
        ensures ascending { IsStrictlySortedBy block_cmp (map (λ r. r.0) self.now) }
    {
        let mut routes = Vec::new(self.alloc);
        self.trie.list(Span::all(), &mut routes)?;
        Ok(routes)
    }

    /// Where an address leads: by the longest of the prefixes that contain it.
    #[tactic(auto, unfolding(crate::specs::Trie::routes_of))]
    pub fn lookup(&self, addr: Addr) -> Option<Entry>
        ensures { result ≡ option_map (λ r. r.1) (longest addr.0 self.now) }
    {
        self.trie.lookup(Span::around(addr), addr, None)
    }
}
