//! Questions of what a change of tables touches.

use crate::changes::{led, publication};
use crate::listing::push_key;
use case_lines::{CaseFault, begin, both, short_number, told};
use ov_io::TextOut;
use ov_sync::Delta;
use ov_types::{InstanceId, NoMemory, Prefix, VpnKey, VpnRoute};
use std::alloc::Global;
use vpn_tables::VpnTables;

/// The rows and the keys that are touched where a peer withdraws a route.
pub(crate) fn tell_touched(
    alloc: Global,
    tables: &VpnTables,
    given: &str,
    out: &mut TextOut,
) -> Result<(), CaseFault> {
    let (session, key) = led(alloc, given)?;
    let change = Delta::Drop(key);
    push_touched_rows(tables, session, &change, out)?;
    push_touched_keys(tables, session, &change, out)
}

fn push_touched_rows(
    tables: &VpnTables,
    session: u16,
    change: &Delta<VpnKey, VpnRoute>,
    out: &mut TextOut,
) -> Result<(), CaseFault> {
    let rows = tables.touched_by_route(session, change)?;
    told(push_places(&rows, out))
}

fn push_places(rows: &[(InstanceId, Prefix)], out: &mut TextOut) -> Result<(), NoMemory> {
    for (instance, prefix) in rows {
        begin(out)?;
        write!(out, "{instance} {prefix}")?;
    }
    Ok(())
}

/// The keys towards peers that the targets of the change lead.
fn push_touched_keys(
    tables: &VpnTables,
    session: u16,
    change: &Delta<VpnKey, VpnRoute>,
    out: &mut TextOut,
) -> Result<(), CaseFault> {
    let targets = tables.targets_by_route(session, change)?;
    let keys = tables.keys_led(&targets)?;
    told(push_keys(&keys, out))
}

fn push_keys(keys: &[VpnKey], out: &mut TextOut) -> Result<(), NoMemory> {
    for key in keys {
        push_key(key, out)?;
    }
    Ok(())
}

/// How many rows a publication touches, or the withdrawal of a peer's route.
pub(crate) fn tell_touches(
    alloc: Global,
    tables: &VpnTables,
    given: &str,
    out: &mut TextOut,
) -> Result<(), CaseFault> {
    let (word, rest) = both(given)?;
    let count = if word == "unlead" {
        touched_by_unlead(alloc, tables, rest)?
    } else {
        touched_by_publish(tables, rest)?
    };
    told(write!(out, "{count}"))
}

fn touched_by_unlead(alloc: Global, tables: &VpnTables, given: &str) -> Result<usize, CaseFault> {
    let (session, key) = led(alloc, given)?;
    let rows = tables.touched_by_route(session, &Delta::Drop(key))?;
    Ok(rows.len())
}

fn touched_by_publish(tables: &VpnTables, given: &str) -> Result<usize, CaseFault> {
    let (session, told) = both(given)?;
    let rows = tables.touched_by_publication(short_number(session)?, &publication(told)?)?;
    Ok(rows.len())
}
