//! Scenarios beside documents.

use crate::documents::{number_of, value_of};
use crate::fault::{CaseFault, told};
use config_model::{RunInput, read_run};
use config_types::{Edit, Event};
use ov_io::TextOut;
use ov_types::{NoMemory, Packet};
use scenario_gen::{Scenario, scenario, tenants};
use std::alloc::Global;

/// How many tenants the scenario of a number has.
pub(crate) fn tell_tenants(number: &str, out: &mut TextOut) -> Result<(), CaseFault> {
    let n = number_of(number)?;
    if n < 1 {
        return Err(CaseFault::Unreadable);
    }
    let count = tenants(n);
    told(write!(out, "{count}"))
}

fn run_of(alloc: Global, document: &str) -> Result<RunInput, CaseFault> {
    let value = value_of(alloc, document)?;
    match read_run(alloc, &value) {
        Ok(input) => Ok(input),
        Err(_) => Err(CaseFault::Unreadable),
    }
}

/// Whether the scenario of a number is that of a document of `run`: its parts that are others are told.
pub(crate) fn tell_scenario(
    alloc: Global,
    number: &str,
    document: &str,
    out: &mut TextOut,
) -> Result<(), CaseFault> {
    let n = number_of(number)?;
    let input = run_of(alloc, document)?;
    tell_parts(alloc, n, &input, out)
}

fn tell_parts(alloc: Global, n: u16, input: &RunInput, out: &mut TextOut) -> Result<(), CaseFault> {
    if n < 1 || n > 999 {
        return Err(CaseFault::Unreadable);
    }
    let made = scenario(alloc, n)?;
    told(push_parts(&made, input, out))
}

fn push_parts(made: &Scenario, input: &RunInput, out: &mut TextOut) -> Result<(), NoMemory> {
    push_part(b" topology", made.topology == input.input.topology, out)?;
    push_part(b" configuration", made.config == input.input.config, out)?;
    let events = are_events(
        made.events.as_slice(),
        made.packets.as_slice(),
        input.events.as_slice(),
    );
    push_part(b" events", events, out)
}

/// Tells a part that is another.
fn push_part(part: &[u8], is_same: bool, out: &mut TextOut) -> Result<(), NoMemory> {
    if is_same {
        return out.push(b"=");
    }
    out.push(part)
}

/// Whether events are these, and behind them a trace of each packet.
fn are_events(events: &[Event], packets: &[Packet], given: &[Event]) -> bool {
    if given.len() < events.len() {
        return false;
    }
    let (first, traces) = given.split_at(events.len());
    events
        .iter()
        .zip(first)
        .all(|(event, other)| is_same(event, other))
        && are_traces(packets, traces)
}

/// Whether two events are the same, of the kinds that a scenario has.
fn is_same(event: &Event, given: &Event) -> bool {
    match (event, given) {
        (Event::Settle, Event::Settle) => true,
        (Event::Lose { a, b }, Event::Lose { a: c, b: d }) => a == c && b == d,
        (Event::Restart { node }, Event::Restart { node: given }) => node == given,
        (Event::Edit(Edit::Delete(kind, name)), Event::Edit(Edit::Delete(given, other))) => {
            kind == given && name == other
        }
        _ => false,
    }
}

fn are_traces(packets: &[Packet], traces: &[Event]) -> bool {
    let mut same = packets.len() == traces.len();
    for (packet, trace) in packets.iter().zip(traces) {
        same = same && matches!(trace, Event::Trace(traced) if traced == packet);
    }
    same
}
