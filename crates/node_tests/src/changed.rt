//! Changes of tables by the calls that answer what they change.
ghost use Rattle.std.specs.Prelude.{◌≡◌, ◌<◌};

use crate::changes::{led, publication};
use case_lines::{CaseFault, begin, both, short_number, told};
use ov_io::TextOut;
use ov_sync::Delta;
use ov_types::{Label, NoMemory, UpKey, VpnKey};
use path_select::{Path, Steps};
use std::alloc::Global;
use std::marker::Brand;
use std::sync::ledger::{Blank, Ledger};
use vpn_tables::{Route, RowChange, VpnTables};

/// Makes a change, a publication or the withdrawal of a peer's route, and tells each row at which something else follows
/// then: the label of its path before and after, and those of the routes that lead on, where they are others.
pub(crate) fn tell_changed(
    alloc: Global,
    tables: &mut VpnTables,
    given: &str,
    out: &mut TextOut,
) -> Result<(), CaseFault> {
    let (word, rest) = both(given)?;
    if word == "unlead" {
        let (session, key) = led(alloc, rest)?;
        let changes = unlead::<Brand>(tables, session, key, Blank::new(1))?;
        return told(push_known(changes, out));
    }
    let (session, told_of) = both(rest)?;
    let session = short_number(session)?;
    let changes = publish::<Brand>(tables, session, publication(told_of)?, Blank::new(1))?;
    told(push_known(changes, out))
}

fn unlead<L: Ledger>(
    tables: &mut VpnTables,
    session: u16,
    key: VpnKey,
    blank: Blank,
) -> Result<Option<Vec<RowChange>>, CaseFault>
    requires name { blank.name ≡ L.name }
    requires parts { blank.parts ≡ L.parts }
    requires some { 0 < blank.parts }
{
    let mut steps = Steps::<L>::new(blank);
    Ok(tables.change_peer_route(session, Delta::Drop(key), &mut steps)?)
}

fn publish<L: Ledger>(
    tables: &mut VpnTables,
    session: u16,
    delta: Delta<UpKey, Label>,
    blank: Blank,
) -> Result<Option<Vec<RowChange>>, CaseFault>
    requires name { blank.name ≡ L.name }
    requires parts { blank.parts ≡ L.parts }
    requires some { 0 < blank.parts }
{
    let mut steps = Steps::<L>::new(blank);
    Ok(tables.change_publication(session, delta, &mut steps)?)
}

fn push_known(changes: Option<Vec<RowChange>>, out: &mut TextOut) -> Result<(), NoMemory> {
    match changes {
        Some(rows) => push_rows(&rows, out),
        None => out.push(b"not known"),
    }
}

fn push_rows(rows: &[RowChange], out: &mut TextOut) -> Result<(), NoMemory> {
    for row in rows {
        push_row(row, out)?;
    }
    Ok(())
}

fn push_row(row: &RowChange, out: &mut TextOut) -> Result<(), NoMemory> {
    begin(out)?;
    write!(out, "{} {}", row.instance, row.prefix)?;
    push_labels("", label_of(row.before.path), label_of(row.after.path), out)?;
    push_led("right", row.before.led_right, row.after.led_right, out)?;
    push_led("left", row.before.led_left, row.after.led_left, out)
}

fn push_led(
    end: &str,
    before: Option<Route>,
    after: Option<Route>,
    out: &mut TextOut,
) -> Result<(), NoMemory> {
    if before == after {
        return Ok(());
    }
    push_labels(end, label_led(before), label_led(after), out)
}

fn push_labels(
    end: &str,
    before: Option<Label>,
    after: Option<Label>,
    out: &mut TextOut,
) -> Result<(), NoMemory> {
    if !end.is_empty() {
        write!(out, ", {end}")?;
    }
    push_label(before, out)?;
    out.push(b" to")?;
    push_label(after, out)
}

fn push_label(label: Option<Label>, out: &mut TextOut) -> Result<(), NoMemory> {
    match label {
        Some(label) => write!(out, " {label}"),
        None => out.push(b" none"),
    }
}

fn label_of(path: Option<Path>) -> Option<Label> {
    match path {
        Some(path) => Some(path.label),
        None => None,
    }
}

fn label_led(route: Option<Route>) -> Option<Label> {
    match route {
        Some(route) => Some(route.path.label),
        None => None,
    }
}
