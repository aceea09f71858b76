//! The numbers that name things, each a type of its own.
use crate::kinded::Kinded;
use std::fmt;

/// The number of an instance: a network's (1 to 16383), or a hop's (16384 to 65535).
#[derive(Clone, Copy, Debug, PartialEq, Eq, PartialOrd, Ord)]
pub struct InstanceId(pub u16);

/// An MPLS label (RFC 3032): 20 bits, of which 0 to 15 are reserved.
#[derive(Clone, Copy, Debug, PartialEq, Eq, PartialOrd, Ord)]
pub struct Label(pub u32);

/// The number of a port, 0 to 524271.
#[derive(Clone, Copy, Debug, PartialEq, Eq, PartialOrd, Ord)]
pub struct PortNo(pub u32);

/// The number of a service instance.
#[derive(Clone, Copy, Debug, Default, PartialEq, Eq, PartialOrd, Ord)]
pub struct ServiceNo(pub u16);

/// A route distinguisher: its eight octets as a number, big-endian (RFC 4364, section 4.2).
#[derive(Clone, Copy, Debug, PartialEq, Eq, PartialOrd, Ord)]
pub struct Rd(pub u64);

impl fmt::Display for InstanceId {
    ghost use Rattle.std.specs.Prelude.{Some, decimal};

    ghost output = { λ i. Some (decimal i.0) };

    fn fmt<W: fmt::Write>(&self, f: &mut fmt::Formatter<W>) -> fmt::Result {
        let number = self.0;
        write!(f, "{number}")
    }
}

impl fmt::Display for Label {
    ghost use Rattle.std.specs.Prelude.{Some, decimal};

    ghost output = { λ l. Some (decimal l.0) };

    fn fmt<W: fmt::Write>(&self, f: &mut fmt::Formatter<W>) -> fmt::Result {
        let number = self.0;
        write!(f, "{number}")
    }
}

impl fmt::Display for PortNo {
    ghost use Rattle.std.specs.Prelude.{Some, decimal};

    ghost output = { λ p. Some (decimal p.0) };

    fn fmt<W: fmt::Write>(&self, f: &mut fmt::Formatter<W>) -> fmt::Result {
        let number = self.0;
        write!(f, "{number}")
    }
}

impl fmt::Display for ServiceNo {
    ghost use Rattle.std.specs.Prelude.{Some, decimal};

    ghost output = { λ s. Some (decimal s.0) };

    fn fmt<W: fmt::Write>(&self, f: &mut fmt::Formatter<W>) -> fmt::Result {
        let number = self.0;
        write!(f, "{number}")
    }
}

impl fmt::Display for Rd {
    ghost use Rattle.std.specs.Prelude.{Some};
    ghost use Rattle.ov_types.specs.Texts.{distinguisher_text};

    ghost output = { λ r. Some (distinguisher_text r.0) };

    fn fmt<W: fmt::Write>(&self, f: &mut fmt::Formatter<W>) -> fmt::Result {
        let octets = self.0;
        let kind = octets >> 48;
        let text = Kinded { kind, octets };
        write!(f, "{text}")
    }
}
