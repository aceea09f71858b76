//! Reading events, and what `run` takes.
ghost use Rattle.std.specs.Prelude.{◌≡◌, [], IsTrue, Result, IfOk, option_map, ◌&&◌};
ghost use Rattle.std.specs.List.{list_all};
ghost use Rattle.serde_json.specs.View.{view, items_view};
ghost use Rattle.ov_types.specs.Name.{is_name};
ghost use Rattle.config_model.specs.Paths.{place_text};
ghost use Rattle.config_model.specs.Faults.{Gives};
ghost use Rattle.config_types.specs.Form.{is_from_to, has_topology_form, has_config_form};
ghost use Rattle.config_model.specs.Event.{two_names_at, three_of, three_at, names_and_number_at};
ghost use Rattle.config_model.specs.Event.{event_from, event_named, event_of_text, event_at, events_at, run_at};
ghost use Rattle.config_types.specs.Form.{has_event_form};

use crate::fault::{DocKind, DocumentPlace, ReadRefusal};
use crate::fields::{
    Count, FromDocument, check_others, list_member, object_of, read_list, read_member, whole_of,
};
use crate::input::{CompileInput, RunInput};
use crate::one_member::one_member_of;
use config_types::{Config, Edit, Event, Topology};
use ov_types::{Items, Name, Packet};
use serde_json::Value;
use std::alloc::Global;

/// The most messages or octets that one event delivers, and the most sends that a break waits for.
const MOST_AT_ONCE: u64 = 1_000_000;

/// A list of two names.
#[tactic(auto, unfolding(crate::specs::Event::two_names_at))]
fn two_names_of(
    alloc: Global,
    place: &DocumentPlace<'_>,
    value: &Value,
) -> Result<(Name, Name), ReadRefusal>
    ensures reads { Gives (λ p. (p.0, p.1)) result (two_names_at (place_text place.now) (view value.now)) }
    ensures form { IfOk result (λ p. IsTrue (is_name p.0 && is_name p.1)) }
{
    let names = read_list::<Name>(alloc, place, Count::Two, value)?;
    match names.as_slice() {
        [a, b] => Ok((*a, *b)),
        _ => Err(place.fault(alloc, DocKind::Range)),
    }
}

fn three_of(items: &[Value]) -> Option<(&Value, &Value, &Value)>
    ensures { option_map (λ p. (view p.0.now, view p.1.now, view p.2.now)) result ≡ three_of (items_view items.now) }
{
    let mut rest = items.iter();
    let a = rest.next()?;
    let b = rest.next()?;
    let c = rest.next()?;
    match rest.next() {
        Some(_) => None,
        None => Some((a, b, c)),
    }
}

/// The items of a list that has to have three.
#[tactic(auto, unfolding(crate::specs::Event::three_at))]
fn three_items_of<'v>(
    alloc: Global,
    place: &DocumentPlace<'_>,
    value: &'v Value,
) -> Result<(&'v Value, &'v Value, &'v Value), ReadRefusal>
    ensures { Gives (λ p. (view p.0.now, view p.1.now, view p.2.now)) result
        (three_at (place_text place.now) (view value.now)) }
{
    match value.as_array() {
        None => Err(place.fault(alloc, DocKind::Kind)),
        Some(items) => match three_of(items.as_slice()) {
            Some(three) => Ok(three),
            None => Err(place.fault(alloc, DocKind::Range)),
        },
    }
}

/// From, to, and a number of messages, octets or sends.
#[tactic(auto, unfolding(crate::specs::Event::names_and_number_at))]
fn names_and_number_of(
    alloc: Global,
    place: &DocumentPlace<'_>,
    value: &Value,
) -> Result<(Name, Name, u32), ReadRefusal>
    ensures reads { Gives (λ p. (p.0, p.1, p.2)) result (names_and_number_at (place_text place.now) (view value.now)) }
    ensures form { IfOk result (λ p. IsTrue (is_name p.0 && is_name p.1 && is_from_to 1 1000000 p.2)) }
{
    let (from, to, n) = three_items_of(alloc, place, value)?;
    let from = Name::read(alloc, &DocumentPlace::Item(place, 0), from)?;
    let to = Name::read(alloc, &DocumentPlace::Item(place, 1), to)?;
    let n = whole_of(alloc, &DocumentPlace::Item(place, 2), 1, MOST_AT_ONCE, n)?;
    Ok((from, to, n as u32))
}

/// The event that a member of an object names.
#[tactic(auto, unfolding(crate::specs::Event::event_from, config_types::specs::Form::has_event_form))]
fn event_from(
    alloc: Global,
    place: &DocumentPlace<'_>,
    word: &str,
    value: &Value,
) -> Result<Event, ReadRefusal>
    ensures reads { Gives (λ x. x) result (event_from word.now (place_text place.now) (view value.now)) }
    ensures form { IfOk result (λ x. IsTrue (has_event_form x)) }
{
    match word {
        "edit" => Ok(Event::Edit(Edit::read(alloc, place, value)?)),
        "deliver" => {
            let (from, to, n) = names_and_number_of(alloc, place, value)?;
            Ok(Event::Deliver { from, to, n })
        }
        "deliver-bytes" => {
            let (from, to, n) = names_and_number_of(alloc, place, value)?;
            Ok(Event::DeliverOctets { from, to, n })
        }
        "lose" => {
            let (a, b) = two_names_of(alloc, place, value)?;
            Ok(Event::Lose { a, b })
        }
        "connect" => {
            let (a, b) = two_names_of(alloc, place, value)?;
            Ok(Event::Connect { a, b })
        }
        "restart" => {
            let node = Name::read(alloc, place, value)?;
            Ok(Event::Restart { node })
        }
        "show" => {
            let node = Name::read(alloc, place, value)?;
            Ok(Event::Show { node })
        }
        "trace" => Ok(Event::Trace(Packet::read(alloc, place, value)?)),
        "break" => {
            let (from, to, n) = names_and_number_of(alloc, place, value)?;
            Ok(Event::Break { from, to, n })
        }
        _ => Err(place.fault(alloc, DocKind::Unknown)),
    }
}

fn event_named(text: &str) -> Option<Event>
    ensures { result ≡ event_named text.now }
{
    match text {
        "round" => Some(Event::Round),
        "settle" => Some(Event::Settle),
        _ => None,
    }
}

/// The event that a text is.
#[tactic(auto, unfolding(config_types::specs::Form::has_event_form))]
fn event_of_text(alloc: Global, place: &DocumentPlace<'_>, text: &str) -> Result<Event, ReadRefusal>
    ensures reads { Gives (λ x. x) result (event_of_text (place_text place.now) text.now) }
    ensures form { IfOk result (λ x. IsTrue (has_event_form x)) }
{
    let Some(event) = event_named(text) else {
        return Err(place.fault(alloc, DocKind::Range));
    };
    Ok(event)
}

impl FromDocument for Event {
    ghost reads = { event_at };

    ghost has_form = { has_event_form };

    #[tactic(auto, unfolding(crate::specs::Event::event_at))]
    fn read(alloc: Global, place: &DocumentPlace<'_>, value: &Value) -> Result<Self, ReadRefusal> {
        if let Some(text) = value.as_str() {
            return event_of_text(alloc, place, text);
        }
        let (word, described) = one_member_of(alloc, place, value)?;
        event_from(alloc, &DocumentPlace::Member(place, word), word, described)
    }
}

/// The events that a value writes: a list of them. Paths begin at the value.
pub fn read_events(alloc: Global, value: &Value) -> Result<Items<Event>, ReadRefusal>
    ensures reads { Gives (λ xs. xs) result (events_at [] (view value.now)) }
    ensures form { IfOk result (λ xs. IsTrue (list_all has_event_form xs)) }
{
    read_list(alloc, &DocumentPlace::Whole, Count::AnyNumber, value)
}

/// What `run` takes: an object with `topology`, `configuration` and `events`, a list.
#[tactic(auto, unfolding(crate::specs::Event::run_at))]
fn run_input_of(
    alloc: Global,
    place: &DocumentPlace<'_>,
    value: &Value,
) -> Result<RunInput, ReadRefusal>
    ensures reads { Gives (λ r. r) result (run_at (place_text place.now) (view value.now)) }
    ensures topology_form { IfOk result (λ r. IsTrue (has_topology_form r.input.topology)) }
    ensures config_form { IfOk result (λ r. IsTrue (has_config_form r.input.config)) }
    ensures events_form { IfOk result (λ r. IsTrue (list_all has_event_form r.events)) }
{
    let members = object_of(alloc, place, value)?;
    let topology = read_member::<Topology>(alloc, place, "topology", value)?;
    let config = read_member::<Config>(alloc, place, "configuration", value)?;
    let events = list_member::<Event>(alloc, place, "events", Count::AnyNumber, value)?;
    check_others(
        alloc,
        place,
        &["topology", "configuration", "events"],
        members,
    )?;
    Ok(RunInput {
        input: CompileInput { topology, config },
        events,
    })
}

/// The whole input of `run`: an object with `topology`, `configuration` and `events`, a list.
pub fn read_run(alloc: Global, value: &Value) -> Result<RunInput, ReadRefusal>
    ensures reads { Gives (λ r. r) result (run_at [] (view value.now)) }
    ensures topology_form { IfOk result (λ r. IsTrue (has_topology_form r.input.topology)) }
    ensures config_form { IfOk result (λ r. IsTrue (has_config_form r.input.config)) }
    ensures events_form { IfOk result (λ r. IsTrue (list_all has_event_form r.events)) }
{
    run_input_of(alloc, &DocumentPlace::Whole, value)
}
