//! Building text.
ghost use Rattle.std.specs.Prelude.{◌≡◌, ◌++◌, [], OnOk, OnErr};
ghost use Rattle.std.specs.Fmt.{AppendsText};

use ov_types::NoMemory;
use std::alloc::Global;
use std::fmt::Display;
use std::marker::Model;

/// A builder of text.
#[derive(Drop)]
pub struct TextOut {
    octets: Vec<u8>,
    line: String,
}

impl Model for TextOut {
    ghost use Rattle.std.specs.Prelude.{List, ℕ};

    ghost Value = { List ℕ };

    ghost view = { λ t. t.octets.items };
}

impl TextOut {
    /// No text. It takes no memory.
    pub fn new(alloc: Global) -> TextOut
        ensures { result ≡ [] }
    {
        TextOut {
            octets: Vec::new(alloc),
            line: String::new(alloc),
        }
    }

    /// Appends the whole text.
    pub fn push(&mut self, text: &[u8]) -> Result<(), NoMemory>
        ensures ok { OnOk result (self.new ≡ self.old ++ text.now) }
        ensures err { OnErr result (self.new ≡ self.old) }
    {
        self.octets.extend_from_slice(text)?;
        Ok(())
    }

    /// Appends two texts, the second behind the first, whole or not at all.
    pub fn push_both(&mut self, front: &[u8], rest: &[u8]) -> Result<(), NoMemory>
        ensures ok { OnOk result (self.new ≡ self.old ++ (front.now ++ rest.now)) }
        ensures err { OnErr result (self.new ≡ self.old) }
    {
        self.octets.reserve(front.len() + rest.len())?;
        self.octets.extend_from_slice(front)?;
        self.octets.extend_from_slice(rest)?;
        Ok(())
    }

    /// Appends what a format makes, whole: this is what `write!` calls. The room that one text took serves the next.
    pub fn write_fmt<D: Display + Drop>(&mut self, value: D) -> Result<(), NoMemory>
        ensures ok { OnOk result (AppendsText self.old self.new (D.output value)) }
        ensures err { OnErr result (self.new ≡ self.old) }
    {
        self.line.clear();
        self.line.write(value)?;
        self.octets.extend_from_slice(self.line.as_bytes())?;
        Ok(())
    }

    /// Takes all text out, and keeps the room that it had.
    pub fn clear(&mut self)
        ensures { self.new ≡ [] }
    {
        self.octets.clear();
    }

    /// All that was appended since it was last cleared.
    pub fn octets(&self) -> &[u8]
        ensures { result.now ≡ self.now }
    {
        self.octets.as_slice()
    }
}
