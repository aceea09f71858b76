//! How cases went.

use ov_io::TextOut;
use ov_types::NoMemory;
use std::alloc::Global;
use std::{fmt, io};

/// How many cases there were and how many came to what is wanted; of each other one its line, and what it came to.
#[derive(Drop)]
pub struct Tally {
    right: u64,
    cases: u64,
    missed: TextOut,
}

impl Tally {
    /// No cases. It takes no memory.
    pub fn new(alloc: Global) -> Tally {
        Tally {
            right: 0,
            cases: 0,
            missed: TextOut::new(alloc),
        }
    }

    /// Counts a case that came to what is wanted.
    pub(crate) fn hit(&mut self) {
        self.cases = self.cases.saturating_add(1);
        self.right = self.right.saturating_add(1);
    }

    /// Counts a case that came to something else, or to nothing.
    pub fn miss<T: fmt::Display + Drop>(
        &mut self,
        name: &str,
        line: &str,
        came: T,
    ) -> Result<(), NoMemory> {
        self.cases = self.cases.saturating_add(1);
        write!(self.missed, "{name}: {line}\n    came to {came}\n")
    }

    /// Prints the cases that came to something else, and how many came to what is wanted or why not all were tried.
    pub fn print(&self, rt: &impl Print, end: Result<(), NoMemory>) -> io::Result<()> {
        rt.write_all(self.missed.octets())?;
        let right = self.right;
        let cases = self.cases;
        match end {
            Ok(()) => println!(rt; "{right} of {cases} cases hold"),
            Err(fault) => rt.println(fault),
        }
    }
}
