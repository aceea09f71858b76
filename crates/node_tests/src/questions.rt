//! Questions of tables.

use crate::held::{ask_all, ask_one};
use crate::paths::{tell_better, tell_selected};
use crate::touched::{tell_touched, tell_touches};
use crate::wanted::ask_wanted;
use crate::words::{instance, prefix};
use case_lines::{CaseFault, begin, both, told};
use ov_io::TextOut;
use ov_types::{InstanceId, NoMemory, Prefix, TableRow};
use std::alloc::Global;
use vpn_tables::VpnTables;

/// Tells what is asked.
pub(crate) fn ask(
    alloc: Global,
    tables: &VpnTables,
    question: &str,
    out: &mut TextOut,
) -> Result<(), CaseFault> {
    let (word, given) = question.split_once(" ").unwrap_or((question, ""));
    match word {
        "rows" => tell_rows(tables, instance(given)?, out),
        "count" => tell_count(tables, instance(given)?, out),
        "up" => tell_up(tables, given, out),
        "touched" => tell_touched(alloc, tables, given, out),
        "touches" => tell_touches(alloc, tables, given, out),
        "select" => tell_selected(alloc, given, out),
        "better" => tell_better(given, out),
        _ => ask_more(alloc, tables, word, given, out),
    }
}

fn ask_more(
    alloc: Global,
    tables: &VpnTables,
    word: &str,
    given: &str,
    out: &mut TextOut,
) -> Result<(), CaseFault> {
    match word {
        "own" | "known" | "asn" | "chain" => ask_all(tables, word, out),
        "publisher" | "subscribed" | "slice" | "address" => ask_one(tables, word, given, out),
        _ => ask_wanted(alloc, tables, word, given, out),
    }
}

/// The rows of an instance. Each is also that of its prefix alone.
fn tell_rows(tables: &VpnTables, instance: InstanceId, out: &mut TextOut) -> Result<(), CaseFault> {
    let rows = tables.table(instance)?;
    push_rows(tables, instance, &rows, out)
}

fn push_rows(
    tables: &VpnTables,
    instance: InstanceId,
    rows: &[(Prefix, TableRow)],
    out: &mut TextOut,
) -> Result<(), CaseFault> {
    for (prefix, row) in rows {
        push_row(prefix, row, out)?;
        if !is_alone(tables, instance, prefix, row)? {
            out.push(b", and another row alone")?;
        }
    }
    Ok(())
}

fn push_row(prefix: &Prefix, row: &TableRow, out: &mut TextOut) -> Result<(), NoMemory> {
    begin(out)?;
    write!(out, "{prefix} {row}")
}

/// Whether a row is that of its prefix alone.
fn is_alone(
    tables: &VpnTables,
    instance: InstanceId,
    prefix: &Prefix,
    row: &TableRow,
) -> Result<bool, CaseFault> {
    let alone = tables.row(instance, prefix)?;
    Ok(alone == Some(*row))
}

/// How many rows an instance has.
fn tell_count(
    tables: &VpnTables,
    instance: InstanceId,
    out: &mut TextOut,
) -> Result<(), CaseFault> {
    let rows = tables.table(instance)?;
    told(write!(out, "{}", rows.len()))
}

/// Whether a subnet is up at a place, seen from an end.
fn tell_up(tables: &VpnTables, given: &str, out: &mut TextOut) -> Result<(), CaseFault> {
    let (end, rest) = both(given)?;
    let (place, subnet) = both(rest)?;
    let is_up = tables.up(instance(place)?, &prefix(subnet)?, end == "right");
    told(write!(out, "{is_up}"))
}
