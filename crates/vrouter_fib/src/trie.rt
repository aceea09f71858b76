//! Routes in a binary trie over the bits of their prefixes.
ghost use Rattle.std.specs.Prelude.{◌≡◌, ◌≤◌, ◌++◌, ℕ, true, IsTrue, OnOk, OnErr};
ghost use Rattle.std.specs.BTreeMap.{insert_entry, is_at};
ghost use Rattle.std.specs.Map.{lookup, remove_entry};
ghost use Rattle.ov_types.specs.Prefix.{Block, block_cmp, contains};
ghost use Rattle.ov_types.specs.Routing.{longest};
ghost use Rattle.vrouter_fib.specs.Trie.{IsDeep, IsIn, entry_or, is_node, own, routes_at};

use crate::span::Span;
use ov_types::{Addr, Entry, NoMemory, Prefix};
use std::alloc::Global;

/// The routes in a block of addresses: none, or a node.
#[cycle(trie)]
#[derive(Drop)]
pub(crate) enum Trie {
    Empty,
    Node(Box<Node>),
}

/// The route of the block itself, and the routes in each of its halves.
#[cycle(trie)]
#[derive(Drop)]
pub(crate) struct Node {
    entry: Option<Entry>,
    lower: Trie,
    upper: Trie,
}

impl Trie {
    /// There is a node from now on, of no routes where there was none.
    fn open(&mut self, alloc: Global) -> Result<(), NoMemory>
        ensures node { OnOk result (is_node self.new ≡ true) }
        ensures routes { (b : Block) → routes_at self.new b ≡ routes_at self.old b }
        ensures deep { (len : ℕ) → len ≤ 32 → IsDeep self.old len → IsDeep self.new len }
    {
        if let Trie::Empty = self {
            *self = Trie::Node(Box::new(
                alloc,
                Node {
                    entry: None,
                    lower: Trie::Empty,
                    upper: Trie::Empty,
                },
            )?);
        }
        Ok(())
    }

    /// The prefix leads to this entry from now on.
    pub(crate) fn set(
        &mut self,
        alloc: Global,
        span: Span,
        prefix: &Prefix,
        entry: Entry,
    ) -> Result<(), NoMemory>
        requires deep { IsDeep self.old span.len }
        requires inside { IsIn span prefix.now }
        ensures ok { OnOk result (routes_at self.new span ≡ insert_entry block_cmp (routes_at self.old span) prefix.now entry) }
        ensures err { OnErr result (routes_at self.new span ≡ routes_at self.old span) }
        ensures deep { IsDeep self.new span.len }
    {
        self.open(alloc)?;
        let addr = prefix.addr();
        match self {
            Trie::Empty => Ok(()),
            Trie::Node(node) => {
                if span.len() == prefix.len() {
                    node.entry = Some(entry);
                    Ok(())
                } else if span.turns_up(addr) {
                    node.upper.set(alloc, span.upper(), prefix, entry)
                } else {
                    node.lower.set(alloc, span.lower(), prefix, entry)
                }
            }
        }
    }

    /// The prefix leads nowhere from now on.
    pub(crate) fn remove(&mut self, span: Span, prefix: &Prefix)
        requires deep { IsDeep self.old span.len }
        requires inside { IsIn span prefix.now }
        ensures routes { routes_at self.new span ≡ remove_entry (is_at (block_cmp prefix.now)) (routes_at self.old span) }
        ensures deep { IsDeep self.new span.len }
    {
        let addr = prefix.addr();
        if let Trie::Node(node) = self {
            if span.len() == prefix.len() {
                node.entry = None;
            } else if span.turns_up(addr) {
                node.upper.remove(span.upper(), prefix);
            } else {
                node.lower.remove(span.lower(), prefix);
            }
        }
    }

    /// Where the route of just this prefix leads.
    pub(crate) fn get(&self, span: Span, prefix: &Prefix) -> Option<Entry>
        requires deep { IsDeep self.now span.len }
        requires inside { IsIn span prefix.now }
        ensures { result ≡ lookup (is_at (block_cmp prefix.now)) (routes_at self.now span) }
    {
        let addr = prefix.addr();
        match self {
            Trie::Empty => None,
            Trie::Node(node) => {
                if span.len() == prefix.len() {
                    node.entry
                } else if span.turns_up(addr) {
                    node.upper.get(span.upper(), prefix)
                } else {
                    node.lower.get(span.lower(), prefix)
                }
            }
        }
    }

    /// Where an address of the block leads, by the longest of the prefixes that contain it, and else this entry.
    pub(crate) fn lookup(&self, span: Span, addr: Addr, best: Option<Entry>) -> Option<Entry>
        requires deep { IsDeep self.now span.len }
        requires inside { IsTrue (contains span addr.0) }
        ensures { result ≡ entry_or (longest addr.0 (routes_at self.now span)) best }
    {
        match self {
            Trie::Empty => best,
            Trie::Node(node) => {
                let best = node.entry.or(best);
                if span.len() == 32 {
                    best
                } else if span.turns_up(addr) {
                    node.upper.lookup(span.upper(), addr, best)
                } else {
                    node.lower.lookup(span.lower(), addr, best)
                }
            }
        }
    }

    /// Lists the routes behind others, in the order of their prefixes.
    pub(crate) fn list(&self, span: Span, routes: &mut Vec<(Prefix, Entry)>) -> Result<(), NoMemory>
        requires deep { IsDeep self.now span.len }
        ensures { OnOk result (routes.new.items ≡ routes.old.items ++ routes_at self.now span) }
    {
        match self {
            Trie::Empty => Ok(()),
            Trie::Node(node) => {
                list_own(node.entry, span, routes)?;
                if span.len() < 32 {
                    node.lower.list(span.lower(), routes)?;
                    node.upper.list(span.upper(), routes)?;
                }
                Ok(())
            }
        }
    }
}

/// Lists the route of a block itself behind others, where there is one.
fn list_own(
    entry: Option<Entry>,
    span: Span,
    routes: &mut Vec<(Prefix, Entry)>,
) -> Result<(), NoMemory>
    ensures { OnOk result (routes.new.items ≡ routes.old.items ++ own span entry) }
{
    if let Some(entry) = entry {
        routes.push((span.prefix(), entry))?;
    }
    Ok(())
}
