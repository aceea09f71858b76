//! Runs of commands of `overlay` and of `inspect` over memory. Each line of standard input has one, with what is wanted of it;
//! those that come to something else are printed, and then how many come to what is wanted.
#![tactic(auto)]

mod cases;
mod ends;
mod fault;
mod inputs;
mod inspecting;
mod networks;
mod telling;

use crate::cases::{holds, is_passed_over};
use ov_io::TextOut;
use std::alloc::Global;
use std::{io, mem};
use top_call::Net;

/// Whether the case of a line comes to what is wanted. What it comes to is printed where it does not.
fn check(
    rt: &impl Print,
    alloc: Global,
    line: &str,
    net: &mut Option<Net>,
    told: &mut TextOut,
) -> io::Result<bool> {
    match holds(alloc, line, net, told) {
        Ok(true) => Ok(true),
        Ok(false) => {
            rt.println(line)?;
            rt.println(told.octets().escape_ascii())?;
            Ok(false)
        }
        Err(fault) => {
            rt.println(line)?;
            rt.println(fault)?;
            Ok(false)
        }
    }
}

/// Holds each line, and prints how many cases come to what is wanted. Each run takes the place of the network before it.
fn check_all(rt: &HostRuntime, net: &mut Option<Net>) -> io::Result<()> {
    let mut told = TextOut::new(rt.alloc());
    let mut count = 0u64;
    let mut right = 0u64;
    for line in rt.lines(rt.alloc()) {
        let line = line?;
        if !is_passed_over(line.as_str()) {
            count = count.saturating_add(1);
            if check(rt, rt.alloc(), line.as_str(), net, &mut told)? {
                right = right.saturating_add(1);
            }
        }
    }
    println!(rt; "{right} of {count} cases hold")
}

/// The network of the last run goes with the process: to let it go here would be proved of every type that it is made of.
fn main(rt: HostRuntime) -> io::Result<()> {
    let mut net = None;
    let ended = check_all(&rt, &mut net);
    mem::forget(net);
    ended
}
