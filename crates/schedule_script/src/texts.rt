//! How ties are printed.
use crate::breaking::Tie;
use std::fmt;

impl fmt::Display for Tie {
    ghost use Rattle.std.specs.Prelude.{Some};
    ghost use Rattle.schedule_script.specs.Texts.{tie_text};

    ghost output = { λ tie. Some (tie_text tie) };

    fn fmt<W: fmt::Write>(&self, f: &mut fmt::Formatter<W>) -> fmt::Result {
        match *self {
            Tie::Port(number) => write!(f, "port {number}"),
            Tie::ChainUse(number) => write!(f, "use {number}"),
            Tie::Node(address) => write!(f, "node {address}"),
        }
    }
}
