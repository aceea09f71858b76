//! The blocks of addresses that the nodes of a trie stand for.
ghost use Rattle.std.specs.Prelude.{◌≡◌, ◌<◌, ◌≤◌, ◌+◌, nat_le, IsTrue, true, false};
ghost use Rattle.ov_types.specs.Prefix.{contains, is_prefix, size_of};
ghost use Rattle.vrouter_fib.specs.Trie.{all_addresses, lower_half, upper_half};

use ov_types::{Addr, Prefix};
use std::marker::Model;

/// A block of addresses, which contracts see as its first address and how many bits its addresses share.
#[derive(Clone, Copy)]
pub(crate) struct Span {
    addr: u32,
    len: u8,
}

impl Model for Span {
    ghost use Rattle.ov_types.specs.Prefix.{Block};
    ghost use Rattle.vrouter_fib.specs.Trie.{IsSpan};

    ghost Value = { Block };

    ghost view = { λ s. record { addr = s.addr; len = s.len } };

    ghost invariant = { λ s. IsSpan (record { addr = s.addr; len = s.len }) };

    ghost inverse = { λ b. record { addr = b.addr; len = b.len } };
}

impl Span {
    /// The span of all addresses, which holds this one.
    pub(crate) fn around(addr: Addr) -> Span
        ensures all { result ≡ all_addresses }
        ensures inside { IsTrue (contains result addr.0) }
    {
        Span { addr: 0, len: 0 }
    }

    /// All addresses.
    pub(crate) fn all() -> Span
        ensures { result ≡ all_addresses }
    {
        Span { addr: 0, len: 0 }
    }

    /// How many bits the addresses of the span share.
    pub(crate) fn len(self) -> u8
        ensures len { result ≡ self.len }
        ensures at_most { result ≤ 32 }
        ensures prefix { IsTrue (is_prefix self.addr self.len) }
    {
        self.len
    }

    /// Half as many addresses as there are in the block.
    fn half(self) -> u32
        requires { self.len < 32 }
        ensures { result ≡ size_of (self.len + 1) }
    {
        1u32 << (31 - self.len)
    }

    /// The first half.
    pub(crate) fn lower(self) -> Span
        requires { self.len < 32 }
        ensures { result ≡ lower_half self }
    {
        Span {
            addr: self.addr,
            len: self.len + 1,
        }
    }

    /// The second half.
    pub(crate) fn upper(self) -> Span
        requires { self.len < 32 }
        ensures { result ≡ upper_half self }
    {
        Span {
            addr: self.addr + self.half(),
            len: self.len + 1,
        }
    }

    /// Whether an address is none before those of the second half.
    pub(crate) fn turns_up(self, addr: Addr) -> bool
        requires { self.len < 32 }
        ensures turn { result ≡ nat_le (upper_half self).addr addr.0 }
        ensures up { IsTrue (contains self addr.0) → result ≡ true → IsTrue (contains (upper_half self) addr.0) }
        ensures down { IsTrue (contains self addr.0) → result ≡ false → IsTrue (contains (lower_half self) addr.0) }
    {
        self.addr + self.half() <= addr.0
    }

    /// The block as a prefix.
    pub(crate) fn prefix(self) -> Prefix
        ensures { result ≡ self }
    {
        Prefix::new(Addr(self.addr), self.len).unwrap()
    }
}
