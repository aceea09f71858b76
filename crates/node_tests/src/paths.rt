//! Which of several paths is used.

use case_lines::{CaseFault, both, number, short_number, told};
use ov_io::TextOut;
use ov_types::{Addr, Label, Rd};
use path_select::{Path, better, select};
use std::alloc::Global;

/// A path: the number of its next hop, its label, its distinguisher's number and its session.
fn path(words: &str) -> Result<Path, CaseFault> {
    let (next_hop, rest) = both(words)?;
    let (label, rest) = both(rest)?;
    let (rd, session) = both(rest)?;
    Ok(Path {
        session: short_number(session)?,
        rd: Rd(u64::from(number(rd)?)),
        next_hop: Addr(number(next_hop)?),
        label: Label(number(label)?),
    })
}

fn push_paths(words: &str, paths: &mut Vec<Path>) -> Result<(), CaseFault> {
    for one in words.split(", ") {
        if !one.is_empty() {
            paths.push(path(one)?)?;
        }
    }
    Ok(())
}

/// The place of the path that is used of those between commas, from 0.
pub(crate) fn tell_selected(
    alloc: Global,
    words: &str,
    out: &mut TextOut,
) -> Result<(), CaseFault> {
    let mut paths = Vec::new(alloc);
    push_paths(words, &mut paths)?;
    match select(&paths) {
        Some(place) => told(write!(out, "{place}")),
        None => Ok(()),
    }
}

/// Whether the first of two paths is used rather than the second.
pub(crate) fn tell_better(words: &str, out: &mut TextOut) -> Result<(), CaseFault> {
    let (first, second) = words.split_once(", ").ok_or(CaseFault::Unreadable)?;
    let is_better = better(&path(first)?, &path(second)?);
    told(write!(out, "{is_better}"))
}
