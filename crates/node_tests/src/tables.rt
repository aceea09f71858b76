//! The tables of a control node, as cases take them.

use crate::cases::is_wanted;
use crate::changed::tell_changed;
use crate::changes::change;
use crate::questions::ask;
use case_lines::{CaseFault, Cases, Tally, both, count_all, number};
use ov_io::TextOut;
use ov_types::NoMemory;
use std::alloc::Global;
use vpn_tables::VpnTables;

/// The tables of a case. A line is a question with what is wanted of it behind `=>`, or a change; behind `changed` it is both.
#[derive(Drop)]
struct Tables {
    tables: VpnTables,
}

impl Cases for Tables {
    fn holds(&mut self, alloc: Global, line: &str, came: &mut TextOut) -> Result<bool, CaseFault> {
        match line.split_once(" => ") {
            Some((question, wanted)) => {
                match question.strip_prefix("changed ") {
                    Some(change) => tell_changed(alloc, &mut self.tables, change, came)?,
                    None => ask(alloc, &self.tables, question, came)?,
                }
                Ok(is_wanted(wanted, came))
            }
            None => {
                change(alloc, &mut self.tables, line)?;
                Ok(true)
            }
        }
    }
}

/// Plays the steps of a case at new tables. In front of its name stands the number of their autonomous system.
pub(crate) fn play(
    alloc: Global,
    head: &str,
    steps: &str,
    tally: &mut Tally,
) -> Result<(), NoMemory> {
    match named(head) {
        Ok((asn, name)) => play_in(alloc, asn, name, steps, tally),
        Err(fault) => tally.miss(head, "tables", fault),
    }
}

fn named(head: &str) -> Result<(u32, &str), CaseFault> {
    let (asn, name) = both(head)?;
    Ok((number(asn)?, name))
}

fn play_in(
    alloc: Global,
    asn: u32,
    name: &str,
    steps: &str,
    tally: &mut Tally,
) -> Result<(), NoMemory> {
    let mut tables = Tables {
        tables: VpnTables::new(alloc, asn),
    };
    count_all(alloc, name, steps, &mut tables, tally)
}
