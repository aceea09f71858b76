//! Places in a text.
ghost use Rattle.std.specs.Prelude.{◌≡◌};
ghost use Rattle.explanations.specs.Places.{place_after, place_behind, start};

use std::fmt;

/// A place in octets: its line, and its column in this line, both counted from 1. A line ends with a line feed, and a
/// column is an octet.
#[derive(Clone, Copy, Debug, PartialEq, Eq)]
pub struct TextPlace {
    pub line: usize,
    pub column: usize,
}

impl TextPlace {
    /// The place of the first octet.
    pub fn start() -> TextPlace
        ensures { result ≡ start }
    {
        TextPlace { line: 1, column: 1 }
    }

    /// The place that follows that of an octet.
    pub(crate) fn after(self, octet: u8) -> TextPlace
        ensures { result ≡ place_after self octet }
    {
        match octet {
            b'\n' => TextPlace {
                line: self.line.saturating_add(1),
                column: 1,
            },
            _ => TextPlace {
                column: self.column.saturating_add(1),
                ..self
            },
        }
    }

    /// The place behind octets that begin here.
    #[tactic(auto, unfolding(crate::specs::Places::place_behind))]
    pub fn behind(self, octets: &[u8]) -> TextPlace
        ensures { result ≡ place_behind self octets.now }
    {
        let mut place = self;
        for octet in octets {
            place = place.after(*octet);
        }
        place
    }
}

impl fmt::Display for TextPlace {
    ghost use Rattle.std.specs.Prelude.{Some};
    ghost use Rattle.explanations.specs.Places.{place_text};

    ghost output = { λ p. Some (place_text p) };

    fn fmt<W: fmt::Write>(&self, f: &mut fmt::Formatter<W>) -> fmt::Result {
        let (line, column) = (self.line, self.column);
        write!(f, "line {line}, column {column}")
    }
}
