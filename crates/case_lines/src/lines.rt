//! The lines of a text, of which each has a case.

use crate::fault::CaseFault;
use crate::tally::Tally;
use ov_io::TextOut;
use ov_types::NoMemory;
use std::alloc::Global;
use std::io;

/// What cases are of.
pub trait Cases {
    /// Whether a line is a case that comes to what is wanted of it. What it comes to is left in `came`, which is empty at first.
    fn holds(&mut self, alloc: Global, line: &str, came: &mut TextOut) -> Result<bool, CaseFault>;
}

/// Begins one more thing that is told.
pub fn begin(out: &mut TextOut) -> Result<(), NoMemory> {
    if out.octets().is_empty() {
        Ok(())
    } else {
        out.push(b" / ")
    }
}

fn has_case(line: &str) -> bool {
    !line.is_empty() && !line.starts_with("#")
}

fn count<C: Cases>(
    alloc: Global,
    name: &str,
    line: &str,
    cases: &mut C,
    came: &mut TextOut,
    tally: &mut Tally,
) -> Result<(), NoMemory> {
    came.clear();
    match cases.holds(alloc, line, came) {
        Ok(true) => {
            tally.hit();
            Ok(())
        }
        Ok(false) => tally.miss(name, line, came.octets().escape_ascii()),
        Err(fault) => tally.miss(name, line, fault),
    }
}

/// Counts the cases of a text, which has this name where one comes to something else than is wanted. A line that is empty or
/// begins with `#` has none.
pub fn count_all<C: Cases>(
    alloc: Global,
    name: &str,
    text: &str,
    cases: &mut C,
    tally: &mut Tally,
) -> Result<(), NoMemory> {
    let mut came = TextOut::new(alloc);
    for line in text.split("\n") {
        if has_case(line) {
            count(alloc, name, line, cases, &mut came, tally)?;
        }
    }
    Ok(())
}

/// Counts the cases of a text, and prints how they went.
pub fn print_all<C: Cases>(
    rt: &impl Print,
    alloc: Global,
    text: &str,
    cases: &mut C,
) -> io::Result<()> {
    let mut tally = Tally::new(alloc);
    let end = count_all(alloc, "case", text, cases, &mut tally);
    tally.print(rt, end)
}
