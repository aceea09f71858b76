//! The text that distinguishers and targets share.
use crate::prefix::Addr;
use std::fmt;

/// Eight octets whose first ones give their type: distinguishers and targets are printed alike.
#[derive(Clone, Copy)]
pub(crate) struct Kinded {
    pub(crate) kind: u64,
    pub(crate) octets: u64,
}

impl fmt::Display for Kinded {
    ghost use Rattle.std.specs.Prelude.{Some};
    ghost use Rattle.ov_types.specs.Texts.{kinded_text};

    ghost output = { λ k. Some (kinded_text k.kind k.octets) };

    #[tactic(auto, unfolding(crate::specs::Texts::kinded_text))]
    fn fmt<W: fmt::Write>(&self, f: &mut fmt::Formatter<W>) -> fmt::Result {
        let octets = self.octets;
        let high = octets >> 32 & 0xffff;
        let low = octets & 0xffff_ffff;
        let middle = (octets >> 16 & 0xffff_ffff) as u32;
        let address = Addr(middle);
        let last = octets & 0xffff;
        match self.kind {
            0 => write!(f, "{high}:{low}"),
            1 => write!(f, "{address}:{last}"),
            2 => write!(f, "L{middle}:{last}"),
            _ => write!(f, "x{octets:016x}"),
        }
    }
}
