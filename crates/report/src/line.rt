//! Lines of numbers and addresses, made of octets from their end to their front, without a formatter.
ghost use Rattle.std.specs.Prelude.{◌≡◌, ◌≤◌, ◌+◌, ◌/◌, ◌++◌, ◌^◌, [], length, decimal};
ghost use Rattle.std.specs.Prelude.{IsTrue};
ghost use Rattle.ov_types.specs.Texts.{address_text, distinguisher_text, kinded_text, prefix_text};
ghost use Rattle.report.specs.Objects.{range_text};

use itoa::write_digits;
use ov_types::{Addr, Name, Prefix, Range16, Rd};
use std::marker::Model;

/// How many octets a line has at most.
const ROOM: usize = 128;

/// A line before which more can be put: its octets stand at the end of those that there is room for.
#[derive(Drop)]
pub(crate) struct Line {
    octets: [u8; ROOM],
    start: usize,
}

impl Model for Line {
    ghost use Rattle.std.specs.Prelude.{List, ℕ, drop, ◌≤◌};

    ghost Value = { List ℕ };

    ghost view = { λ l. drop l.start l.octets };

    ghost invariant = { λ l. l.start ≤ 128 };
}

impl Line {
    /// No octets.
    pub(crate) fn new() -> Line
        ensures { result ≡ [] }
    {
        Line {
            octets: [0; ROOM],
            start: ROOM,
        }
    }

    pub(crate) fn octets(&self) -> &[u8]
        ensures { result.now ≡ self.now }
    {
        &self.octets[self.start..]
    }

    /// Puts a text before the line.
    #[inline(always)]
    pub(crate) fn prepend(&mut self, text: &[u8])
        requires { length self.old + length text.now ≤ 128 }
        ensures { self.new ≡ text.now ++ self.old }
    {
        let end = self.start;
        self.start -= text.len();
        self.octets[self.start..end].copy_from_slice(text);
    }

    /// Puts the digits of a number in decimal before the line.
    #[inline]
    fn prepend_digits(&mut self, n: u64)
        requires { length self.old + length (decimal n) ≤ 128 }
        ensures text { self.new ≡ decimal n ++ self.old }
        ensures longer { length self.new ≡ length self.old + length (decimal n) }
    {
        self.start = write_digits(n, &mut self.octets, self.start);
    }

    /// Puts a number in decimal before the line.
    pub(crate) fn prepend_number(&mut self, n: u32)
        requires { length self.old + 10 ≤ 128 }
        ensures text { self.new ≡ decimal n ++ self.old }
        ensures short { length self.new ≤ length self.old + 10 }
    {
        self.prepend_digits(u64::from(n));
    }

    /// Puts a number of two octets in decimal before the line.
    pub(crate) fn prepend_short_number(&mut self, n: u16)
        requires { length self.old + 5 ≤ 128 }
        ensures text { self.new ≡ decimal n ++ self.old }
        ensures short { length self.new ≤ length self.old + 5 }
    {
        self.prepend_digits(u64::from(n));
    }

    /// Puts a number of one octet in decimal before the line.
    pub(crate) fn prepend_octet(&mut self, n: u8)
        requires { length self.old + 3 ≤ 128 }
        ensures text { self.new ≡ decimal n ++ self.old }
        ensures short { length self.new ≤ length self.old + 3 }
    {
        self.prepend_digits(u64::from(n));
    }

    /// Puts an address before the line.
    pub(crate) fn prepend_address(&mut self, address: Addr)
        requires { length self.old + 15 ≤ 128 }
        ensures text { self.new ≡ address_text address.0 ++ self.old }
        ensures short { length self.new ≤ length self.old + 15 }
    {
        let [a, b, c, d] = address.0.to_be_bytes();
        self.prepend_octet(d);
        self.prepend(b".");
        self.prepend_octet(c);
        self.prepend(b".");
        self.prepend_octet(b);
        self.prepend(b".");
        self.prepend_octet(a);
    }

    /// Puts a prefix before the line.
    pub(crate) fn prepend_prefix(&mut self, prefix: &Prefix)
        requires { length self.old + 19 ≤ 128 }
        ensures text { self.new ≡ prefix_text prefix.now ++ self.old }
        ensures short { length self.new ≤ length self.old + 19 }
    {
        self.prepend_octet(prefix.len());
        self.prepend(b"/");
        self.prepend_address(prefix.addr());
    }

    /// Puts a range of ports before the line.
    pub(crate) fn prepend_range(&mut self, range: Range16)
        requires { length self.old + 11 ≤ 128 }
        ensures text { self.new ≡ range_text range ++ self.old }
        ensures short { length self.new ≤ length self.old + 11 }
    {
        self.prepend_short_number(range.hi);
        self.prepend(b"-");
        self.prepend_short_number(range.lo);
    }

    /// Puts a name before the line.
    pub(crate) fn prepend_name(&mut self, name: &Name)
        requires { length self.old + 32 ≤ 128 }
        ensures text { self.new ≡ name.now ++ self.old }
        ensures short { length self.new ≤ length self.old + 32 }
    {
        self.prepend(name.text().as_bytes());
    }

    /// Puts a distinguisher or a target before the line that is `AS:N` with two octets and four.
    #[tactic(auto, unfolding(ov_types::specs::Texts::kinded_text))]
    fn prepend_short(&mut self, octets: u64)
        requires { length self.old + 21 ≤ 128 }
        ensures text { self.new ≡ kinded_text 0 octets ++ self.old }
        ensures short { length self.new ≤ length self.old + 21 }
    {
        self.prepend_number((octets & 0xffff_ffff) as u32);
        self.prepend(b":");
        self.prepend_short_number((octets >> 32 & 0xffff) as u16);
    }

    /// Puts a distinguisher or a target before the line that is `ADDRESS:N`.
    #[tactic(auto, unfolding(ov_types::specs::Texts::kinded_text))]
    fn prepend_addressed(&mut self, octets: u64)
        requires { length self.old + 21 ≤ 128 }
        ensures text { self.new ≡ kinded_text 1 octets ++ self.old }
        ensures short { length self.new ≤ length self.old + 21 }
    {
        self.prepend_short_number((octets & 0xffff) as u16);
        self.prepend(b":");
        self.prepend_address(Addr((octets >> 16 & 0xffff_ffff) as u32));
    }

    /// Puts a distinguisher or a target before the line that is `LAS:N` with four octets and two.
    #[tactic(auto, unfolding(ov_types::specs::Texts::kinded_text))]
    fn prepend_long(&mut self, octets: u64)
        requires { length self.old + 21 ≤ 128 }
        ensures text { self.new ≡ kinded_text 2 octets ++ self.old }
        ensures short { length self.new ≤ length self.old + 21 }
    {
        self.prepend_short_number((octets & 0xffff) as u16);
        self.prepend(b":");
        self.prepend_number((octets >> 16 & 0xffff_ffff) as u32);
        self.prepend(b"L");
    }

    /// Puts a distinguisher or a target before the line, of one of the types that have a form of their own.
    fn prepend_kinded(&mut self, kind: u64, octets: u64)
        requires named { kind ≤ 2 }
        requires room { length self.old + 21 ≤ 128 }
        ensures text { self.new ≡ kinded_text kind octets ++ self.old }
        ensures short { length self.new ≤ length self.old + 21 }
    {
        match kind {
            0 => self.prepend_short(octets),
            1 => self.prepend_addressed(octets),
            _ => self.prepend_long(octets),
        }
    }

    /// Puts a distinguisher before the line, of a type that has a form of its own.
    pub(crate) fn prepend_distinguisher(&mut self, rd: Rd)
        requires named { rd.0 / 2 ^ 48 ≤ 2 }
        requires room { length self.old + 21 ≤ 128 }
        ensures text { self.new ≡ distinguisher_text rd.0 ++ self.old }
        ensures short { length self.new ≤ length self.old + 21 }
    {
        self.prepend_kinded(rd.0 >> 48, rd.0);
    }
}
