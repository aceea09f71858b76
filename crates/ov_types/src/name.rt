//! Names.
ghost use Rattle.std.specs.Prelude.{◌≡◌, ℕ, List, Some, nat_eq, IsTrue, refl};
ghost use Rattle.std.specs.Ordering.{nat_cmp};
ghost use Rattle.std.specs.Cmp.{partial_equiv_from_equiv};
ghost use Rattle.std.specs.Cmp.Lexicographic.{pointwise, slice_cmp, nat_list_eq_equiv, nat_list_cmp_total, texts_po};
ghost use Rattle.std.specs.Cmp.Lexicographic.{texts_ties};
ghost use Rattle.std.specs.List.{list_all};
ghost use Rattle.ov_types.specs.Name.{is_name, is_name_octet_of, name_of};

use std::cmp::Ordering;
use std::marker::Model;
use std::{fmt, str};

const SIZE: usize = 32;

/// 1 to 32 of the octets a to z, 0 to 9, `-` and `_`.
#[derive(Clone, Copy)]
pub struct Name {
    octets: [u8; 32],
    len: usize,
}

impl Model for Name {
    ghost use Rattle.std.specs.Prelude.{List, ℕ, ◌++◌, ◌-◌, take, replicate, length};
    ghost use Rattle.ov_types.specs.Name.{Holds, padded, len_again};

    ghost Value = { List ℕ };

    ghost view = { λ a. take a.len a.octets };

    ghost invariant = { λ a. Holds a.octets a.len };

    ghost inverse = { λ text. record { octets = text ++ replicate (32 - length text) 0; len = length text } };

    ghost inverse_ok = { λ a h i. record { octets = padded a.octets a.len h i; len = len_again a.octets a.len h i } };
}

fn is_name_octet(b: u8) -> bool
    ensures { result ≡ is_name_octet_of b }
{
    matches!(b, b'a'..=b'z' | b'0'..=b'9' | b'-' | b'_')
}

fn is_name_text(bytes: &[u8]) -> bool
    ensures { result ≡ is_name bytes.now }
{
    let len = bytes.len();
    if len == 0 || len > SIZE {
        return false;
    }
    are_name_octets(bytes)
}

fn are_name_octets(bytes: &[u8]) -> bool
    ensures { result ≡ list_all is_name_octet_of bytes.now }
{
    bytes.iter().all(|b| is_name_octet(*b))
}

impl Name {
    /// The name that is spelled so, if one is. It takes no memory.
    pub fn new(text: &str) -> Option<Name>
        ensures { result ≡ name_of text.now }
    {
        let bytes = text.as_bytes();
        if !is_name_text(bytes) {
            return None;
        }
        let mut octets = [0u8; 32];
        let len = bytes.len();
        octets[..len].copy_from_slice(bytes);
        Some(Name { octets, len })
    }

    /// The octets of the text.
    fn spelling(&self) -> &[u8]
        ensures { result.now ≡ self.now }
    {
        &self.octets[..self.len]
    }

    /// The text. It takes no memory.
    pub fn text(&self) -> &str
        ensures text { result.now ≡ self.now }
        ensures form { IsTrue (is_name self.now) }
    {
        let bytes = &self.octets[..self.len];
        match str::from_utf8(bytes) {
            Ok(text) => text,
            Err(_) => unreachable!(),
        }
    }
}

impl PartialEq for Name {
    ghost eq = { pointwise nat_eq };

    ghost laws = { partial_equiv_from_equiv nat_list_eq_equiv };

    fn eq(&self, other: &Self) -> bool {
        self.spelling() == other.spelling()
    }
}

impl Eq for Name {
    ghost laws = { nat_list_eq_equiv };
}

impl PartialOrd for Name {
    ghost partial_cmp = { λ s t. Some (slice_cmp nat_cmp s t) };

    ghost laws = { texts_po };

    fn partial_cmp(&self, other: &Self) -> Option<Ordering> {
        Some(self.cmp(other))
    }
}

impl Ord for Name {
    ghost cmp = { slice_cmp nat_cmp };

    ghost total = { nat_list_cmp_total };

    ghost matches_partial_cmp = { λ s t. refl };

    ghost matches_eq = { λ s t. texts_ties s t };

    fn cmp(&self, other: &Self) -> Ordering {
        self.spelling().cmp(other.spelling())
    }
}

impl fmt::Debug for Name {
    fn fmt<W: fmt::Write>(&self, f: &mut fmt::Formatter<W>) -> fmt::Result {
        fmt::Debug::fmt(&self.text(), f)
    }
}

impl fmt::Display for Name {
    ghost output = { λ s. Some s };

    fn fmt<W: fmt::Write>(&self, f: &mut fmt::Formatter<W>) -> fmt::Result {
        f.pad(self.text())
    }
}
