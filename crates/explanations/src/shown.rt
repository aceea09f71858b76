//! Text that is safe to show.
ghost use Rattle.std.specs.Prelude.{◌≡◌};
ghost use Rattle.explanations.specs.Words.{is_printable};

use std::fmt;

/// A text with each octet in hexadecimal that is no printable US-ASCII, so that none of it moves a terminal.
#[derive(Clone, Copy)]
pub(crate) struct Shown<'a>(pub(crate) &'a str);

impl fmt::Display for Shown<'_> {
    ghost use Rattle.std.specs.Prelude.{Some};
    ghost use Rattle.explanations.specs.Words.{shown};

    ghost output = { λ s. Some (shown s.0.now) };

    fn fmt<W: fmt::Write>(&self, f: &mut fmt::Formatter<W>) -> fmt::Result {
        for octet in self.0.as_bytes() {
            let written = ShownOctet(*octet);
            write!(f, "{written}")?;
        }
        Ok(())
    }
}

#[derive(Clone, Copy)]
struct ShownOctet(u8);

impl fmt::Display for ShownOctet {
    ghost use Rattle.std.specs.Prelude.{Some};
    ghost use Rattle.explanations.specs.Words.{shown_octet};

    ghost output = { λ o. Some (shown_octet o.0) };

    fn fmt<W: fmt::Write>(&self, f: &mut fmt::Formatter<W>) -> fmt::Result {
        let octet = self.0;
        if is_printable(octet) {
            let c = char::from(octet);
            write!(f, "{c}")
        } else {
            let (high, low) = (octet / 16, octet % 16);
            write!(f, "\\x{high:x}{low:x}")
        }
    }
}

/// Printable US-ASCII, but for the backslash.
fn is_printable(octet: u8) -> bool
    ensures { result ≡ is_printable octet }
{
    octet >= b' ' && octet <= b'~' && octet != b'\\'
}
