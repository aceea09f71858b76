//! Cases of documents: what is read of them, which rule they break, what commands and edits make of them, and what is said of
//! them to people. Each line of standard input has one, with what is wanted of it; those that come to something else are
//! printed, and then how many come to what is wanted.
#![tactic(auto)]

mod answers;
mod cases;
mod chains;
mod decisions;
mod documents;
mod edits;
mod ends;
mod fault;
mod groups;
mod help;
mod hinting;
mod manual;
mod octets;
mod readings;
mod reports;
mod scenarios;
mod sentences;
mod ties;
mod words;

use crate::cases::{holds, is_passed_over};
use ov_io::TextOut;
use std::alloc::Global;
use std::io;

/// Whether the case of a line comes to what is wanted. What it comes to is printed where it does not.
fn check(rt: &impl Print, alloc: Global, line: &str, told: &mut TextOut) -> io::Result<bool> {
    match holds(alloc, line, told) {
        Ok(true) => return Ok(true),
        Ok(false) => println!(rt; "{line}\n{}", told.octets().escape_ascii())?,
        Err(fault) => println!(rt; "{line}\n{fault}")?,
    }
    Ok(false)
}

fn main(rt: HostRuntime) -> io::Result<()> {
    let mut told = TextOut::new(rt.alloc());
    let mut count = 0u64;
    let mut right = 0u64;
    for line in rt.lines(rt.alloc()) {
        let line = line?;
        if !is_passed_over(line.as_str()) {
            count = count.saturating_add(1);
            if check(&rt, rt.alloc(), line.as_str(), &mut told)? {
                right = right.saturating_add(1);
            }
        }
    }
    println!(rt; "{right} of {count} cases hold")
}
