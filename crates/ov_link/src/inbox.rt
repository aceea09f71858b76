//! Octets that came and were not yet taken.
ghost use Rattle.std.specs.Prelude.{◌≡◌, ◌≤◌, ◌++◌, [], length, drop, OnOk, OnErr};

use bytes::BytesMut;
use ov_types::NoMemory;
use std::alloc::Global;
use std::marker::Model;

/// The octets of one direction that came and were not yet taken, which contracts see as their list.
#[derive(Drop)]
pub struct Inbox {
    octets: BytesMut,
}

impl Model for Inbox {
    ghost use Rattle.std.specs.Prelude.{List, ℕ};

    ghost Value = { List ℕ };

    ghost view = { λ i. i.octets.items };
}

impl Inbox {
    /// No octets. It takes no memory.
    pub fn new(alloc: Global) -> Inbox
        ensures { result ≡ [] }
    {
        Inbox {
            octets: BytesMut::new(alloc),
        }
    }

    /// Appends octets.
    pub fn push(&mut self, octets: &[u8]) -> Result<(), NoMemory>
        ensures ok { OnOk result (self.new ≡ self.old ++ octets.now) }
        ensures err { OnErr result (self.new ≡ self.old) }
    {
        self.octets.extend_from_slice(octets)?;
        Ok(())
    }

    /// All octets that the inbox holds. No memory is taken.
    pub fn octets(&self) -> &[u8]
        ensures { result.now ≡ self.now }
    {
        self.octets.as_slice()
    }

    /// Removes the first n octets. It takes no memory.
    pub fn take(&mut self, n: usize)
        requires { n ≤ length self.old }
        ensures { self.new ≡ drop n self.old }
    {
        self.octets.advance(n);
    }

    /// Removes all octets. It takes no memory.
    pub fn clear(&mut self)
        ensures { self.new ≡ [] }
    {
        self.octets.clear();
    }
}
