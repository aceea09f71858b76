//! The links of a node.
ghost use Rattle.std.specs.Prelude.{◌≡◌, ◌<◌, ◌++◌, ◌∷◌, [], Some, length, slice_get, OnOk, OnErr};
ghost use Rattle.std.specs.Borrow.{sem};

use ov_types::NoMemory;
use std::alloc::Global;
use std::marker::Model;

/// The links of a node, one for each session, which contracts see as their list.
#[derive(Drop)]
pub struct Links<L> {
    items: Vec<L>,
}

impl<L> Model for Links<L> {
    ghost use Rattle.std.specs.Prelude.{◌<◌, ◌^◌, List, length};

    ghost Value = { List L };

    ghost view = { λ l. l.items.items };

    ghost invariant = { λ l. length l.items.items < 2 ^ 16 };
}

impl<L> Links<L> {
    ghost use Rattle.ov_link.specs.Lends.{LendsLink};

    /// No links. It takes no memory.
    pub fn new(alloc: Global) -> Links<L>
        ensures { result ≡ [] }
    {
        Links {
            items: Vec::new(alloc),
        }
    }

    /// How many links there are.
    pub fn len(&self) -> u16
        ensures { result ≡ length self.now }
    {
        self.items.len() as u16
    }

    /// The link of a session.
    pub fn get(&self, session: u16) -> &L
        requires { session < length self.now }
        ensures { slice_get self.now session ≡ Some result.now }
    {
        &self.items[session as usize]
    }

    /// The link of a session. Each other link stays as it is.
    pub fn get_mut(&mut self, session: u16) -> &mut L
        requires { session < length self.old }
        ensures* lends { sem 𝓛 (LendsLink L.row self.entry session result) }
        ensures value { slice_get self.old session ≡ Some result.now }
    {
        &mut self.items[session as usize]
    }

    /// One more link, whose session has the number that `len` was.
    pub fn push(&mut self, link: L) -> Result<(), NoMemory>
    where
        L: Drop,
        requires { length self.old < 65535 }
        ensures ok { OnOk result (self.new ≡ self.old ++ link ∷ []) }
        ensures err { OnErr result (self.new ≡ self.old) }
    {
        self.items.push(link)?;
        Ok(())
    }
}
