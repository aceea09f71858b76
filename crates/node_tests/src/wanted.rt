//! What peers and agents are to be told.

use crate::listing::{push_rows, push_told};
use case_lines::{CaseFault, begin, short_number, told};
use chain_reorigin::reoriginated;
use control_wants::{rows, wanted_by_agent, wanted_by_peers};
use ov_io::TextOut;
use ov_types::{DownKey, DownValue, LowKey, NoMemory, VpnKey, VpnRoute};
use std::alloc::Global;
use std::collections::BTreeMap;
use vpn_tables::VpnTables;

/// Tells what is to be told or shown.
pub(crate) fn ask_wanted(
    alloc: Global,
    tables: &VpnTables,
    word: &str,
    given: &str,
    out: &mut TextOut,
) -> Result<(), CaseFault> {
    match word {
        "led" => tell_led(alloc, tables, out),
        "for-peers" => tell_for_peers(alloc, tables, out),
        "for-agent" => tell_for_agent(alloc, tables, short_number(given)?, out),
        "all-rows" => tell_all_rows(alloc, tables, out),
        _ => Err(CaseFault::Unreadable),
    }
}

/// The routes that lead on, as they are told.
fn tell_led(alloc: Global, tables: &VpnTables, out: &mut TextOut) -> Result<(), CaseFault> {
    let led = reoriginated(alloc, tables)?;
    told(push_led(&led, out))
}

fn push_led(led: &[(VpnKey, VpnRoute)], out: &mut TextOut) -> Result<(), NoMemory> {
    for (key, route) in led {
        push_told(key, route, out)?;
    }
    Ok(())
}

/// What peers are to be told.
fn tell_for_peers(alloc: Global, tables: &VpnTables, out: &mut TextOut) -> Result<(), CaseFault> {
    let wanted = wanted_by_peers(alloc, tables)?;
    told(push_for_peers(&wanted, out))
}

fn push_for_peers(wanted: &BTreeMap<VpnKey, VpnRoute>, out: &mut TextOut) -> Result<(), NoMemory> {
    for (key, route) in wanted {
        push_told(key, route, out)?;
    }
    Ok(())
}

/// What the agent of a session is to be told.
fn tell_for_agent(
    alloc: Global,
    tables: &VpnTables,
    session: u16,
    out: &mut TextOut,
) -> Result<(), CaseFault> {
    let wanted = wanted_by_agent(alloc, tables, session)?;
    told(push_for_agent(&wanted, out))
}

fn push_for_agent(
    wanted: &BTreeMap<DownKey, DownValue>,
    out: &mut TextOut,
) -> Result<(), NoMemory> {
    for (key, value) in wanted {
        begin(out)?;
        push_down_key(key, out)?;
        push_entry(value, out)?;
    }
    Ok(())
}

fn push_down_key(key: &DownKey, out: &mut TextOut) -> Result<(), NoMemory> {
    match key {
        DownKey::Slice(object) => push_object(object, out),
        DownKey::Route(instance, prefix) => write!(out, "{instance} {prefix}"),
    }
}

/// The key of an object of a slice.
pub(crate) fn push_object(key: &LowKey, out: &mut TextOut) -> Result<(), NoMemory> {
    match key {
        LowKey::Attach(label) => write!(out, "label {label}"),
        LowKey::Acl { from, to } => write!(out, "list {from} {to}"),
        _ => out.push(b"no object of a slice"),
    }
}

fn push_entry(value: &DownValue, out: &mut TextOut) -> Result<(), NoMemory> {
    match value {
        DownValue::Row(entry) => {
            let next_hop = entry.next_hop;
            let label = entry.label;
            write!(out, " {next_hop} {label}")
        }
        _ => Ok(()),
    }
}

/// The rows of every known instance.
fn tell_all_rows(alloc: Global, tables: &VpnTables, out: &mut TextOut) -> Result<(), CaseFault> {
    let shown = rows(alloc, tables)?;
    told(push_rows(shown.as_slice(), out))
}
