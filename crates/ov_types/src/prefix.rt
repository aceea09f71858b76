//! IPv4 addresses and prefixes.
ghost use Rattle.std.specs.Prelude.{◌≡◌, ◌≤◌, ◌+◌, ◌↔◌, ◌&&◌, nat_le, ℕ, IsTrue};
ghost use Rattle.ov_types.specs.Prefix.{is_prefix, prefix_of, contains, size_of, is_inside, host_prefix};

use std::fmt;
use std::marker::Model;

/// An IPv4 address as a number, its first octet the most significant.
#[derive(Clone, Copy, Debug, PartialEq, Eq, PartialOrd, Ord)]
pub struct Addr(pub u32);

/// A block of addresses that agree in their first bits.
#[derive(Clone, Copy, Debug, PartialEq, Eq, PartialOrd, Ord)]
pub struct Prefix {
    addr: Addr,
    len: u8,
}

impl Model for Prefix {
    ghost use Rattle.std.specs.Prelude.{IsTrue};
    ghost use Rattle.ov_types.specs.Prefix.{Block, is_prefix};

    ghost Value = { Block };

    ghost view = { λ a. record { addr = a.addr.0; len = a.len } };

    ghost invariant = { λ a. IsTrue (is_prefix a.addr.0 a.len) };

    ghost inverse = { λ b. record { addr = record { 0 = b.addr }; len = b.len } };
}

impl Prefix {
    /// The prefix of these bits. There is none exactly where len is above 32 or a bit past len is set.
    pub fn new(addr: Addr, len: u8) -> Option<Prefix>
        ensures { result ≡ prefix_of addr.0 len }
    {
        if len > 32 {
            return None;
        }
        let size = 1u64 << (32 - len);
        if u64::from(addr.0) % size != 0 {
            return None;
        }
        Some(Prefix { addr, len })
    }

    /// The prefix of one address, which has length 32.
    pub fn host(addr: Addr) -> Prefix
        ensures { result ≡ host_prefix addr.0 }
    {
        Prefix { addr, len: 32 }
    }

    /// The first address.
    pub fn addr(&self) -> Addr
        ensures addr { result.0 ≡ self.now.addr }
        ensures prefix { IsTrue (is_prefix self.now.addr self.now.len) }
    {
        self.addr
    }

    /// How many bits the addresses of the prefix share.
    pub fn len(&self) -> u8
        ensures len { result ≡ self.now.len }
        ensures at_most { result ≤ 32 }
    {
        self.len
    }

    /// Whether an address begins with these bits.
    pub fn contains(&self, addr: Addr) -> bool
        ensures { result ≡ contains self.now addr.0 }
    {
        let start = u64::from(self.addr.0);
        let size = 1u64 << (32 - self.len);
        start <= u64::from(addr.0) && u64::from(addr.0) < start + size
    }

    /// Whether each address of `self` is in `other`.
    pub fn within(&self, other: &Prefix) -> bool
        ensures { IsTrue result ↔ ((a : ℕ) → IsTrue (contains self.now a) → IsTrue (contains other.now a)) }
    {
        is_inside(self.start(), self.end(), other.start(), other.end())
    }

    fn start(&self) -> u64
        ensures { result ≡ self.now.addr }
    {
        u64::from(self.addr.0)
    }

    fn end(&self) -> u64
        ensures { result ≡ self.now.addr + size_of self.now.len }
    {
        u64::from(self.addr.0) + (1u64 << (32 - self.len))
    }
}

fn is_inside(start: u64, end: u64, other_start: u64, other_end: u64) -> bool
    ensures { result ≡ (nat_le other_start start && nat_le end other_end) }
{
    other_start <= start && end <= other_end
}

impl fmt::Display for Addr {
    ghost use Rattle.std.specs.Prelude.{Some};
    ghost use Rattle.ov_types.specs.Texts.{address_text};

    ghost output = { λ a. Some (address_text a.0) };

    fn fmt<W: fmt::Write>(&self, f: &mut fmt::Formatter<W>) -> fmt::Result {
        let a = self.0 >> 24;
        let b = self.0 >> 16 & 0xff;
        let c = self.0 >> 8 & 0xff;
        let d = self.0 & 0xff;
        write!(f, "{a}.{b}.{c}.{d}")
    }
}

impl fmt::Display for Prefix {
    ghost use Rattle.std.specs.Prelude.{Some};
    ghost use Rattle.ov_types.specs.Texts.{prefix_text};

    ghost output = { λ p. Some (prefix_text p) };

    fn fmt<W: fmt::Write>(&self, f: &mut fmt::Formatter<W>) -> fmt::Result {
        let addr = self.addr;
        let len = self.len;
        write!(f, "{addr}/{len}")
    }
}
