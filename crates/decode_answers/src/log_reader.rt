//! Reading logs.
ghost use Rattle.std.specs.Prelude.{[], true, IfOk};
ghost use Rattle.std.specs.List.{AllByRecursion};
ghost use Rattle.serde_json.specs.View.{view};
ghost use Rattle.config_model.specs.Paths.{place_text};
ghost use Rattle.config_model.specs.Faults.{Gives};
ghost use Rattle.decode_answers.specs.Entries.{HasEntryForm};
ghost use Rattle.decode_answers.specs.LogReading.{octets_at, opened_at, updated_at, entry_from};
ghost use Rattle.decode_answers.specs.LogReading.{entry_of_text, entry_at, log_at};

use crate::entry::LogEntry;
use crate::one_message::{is_one_open, is_one_update};
use config_model::reading::{
    Count, DocumentPlace, FromDocument, check_others, list_member, object_of, one_member_of,
    text_of,
};
use config_model::{DocKind, ReadRefusal};
use hex::FromHexError;
use ov_types::{Items, NoMemory};
use serde_json::Value;
use std::alloc::Global;

/// The octets that a value spells.
#[tactic(auto, unfolding(crate::specs::LogReading::octets_at))]
fn octets_of(
    alloc: Global,
    place: &DocumentPlace<'_>,
    value: &Value,
) -> Result<Items<u8>, ReadRefusal>
    ensures { Gives (λ octets. octets) result (octets_at (place_text place.now) (view value.now)) }
{
    let text = text_of(alloc, place, value)?;
    match hex::decode(alloc, text) {
        Ok(octets) => Ok(Items::from_vec(octets)),
        Err(FromHexError::OutOfMemory) => Err(ReadRefusal::NoMemory),
        Err(_) => Err(place.fault(alloc, DocKind::Range)),
    }
}

/// An opening, by its OPEN.
#[tactic(auto, unfolding(crate::specs::LogReading::opened_at))]
fn opened_of(
    alloc: Global,
    place: &DocumentPlace<'_>,
    value: &Value,
) -> Result<LogEntry, ReadRefusal>
    ensures { Gives (λ entry. entry) result (opened_at (place_text place.now) (view value.now)) }
{
    let octets = octets_of(alloc, place, value)?;
    if !is_one_open(octets.as_slice()) {
        return Err(place.fault(alloc, DocKind::Range));
    }
    Ok(LogEntry::Opened(octets))
}

/// An UPDATE that came.
#[tactic(auto, unfolding(crate::specs::LogReading::updated_at))]
fn updated_of(
    alloc: Global,
    place: &DocumentPlace<'_>,
    value: &Value,
) -> Result<LogEntry, ReadRefusal>
    ensures { Gives (λ entry. entry) result (updated_at (place_text place.now) (view value.now)) }
{
    let octets = octets_of(alloc, place, value)?;
    if !is_one_update(octets.as_slice()) {
        return Err(place.fault(alloc, DocKind::Range));
    }
    Ok(LogEntry::Updated(octets))
}

/// The entry that a member of an object names.
#[tactic(auto, unfolding(crate::specs::LogReading::entry_from))]
fn entry_from(
    alloc: Global,
    place: &DocumentPlace<'_>,
    word: &str,
    value: &Value,
) -> Result<LogEntry, ReadRefusal>
    ensures { Gives (λ entry. entry) result (entry_from word.now (place_text place.now) (view value.now)) }
{
    match word {
        "opened" => opened_of(alloc, place, value),
        "update" => updated_of(alloc, place, value),
        _ => Err(place.fault(alloc, DocKind::Unknown)),
    }
}

/// The entry that a text is.
fn entry_of_text(
    alloc: Global,
    place: &DocumentPlace<'_>,
    text: &str,
) -> Result<LogEntry, ReadRefusal>
    ensures { Gives (λ entry. entry) result (entry_of_text (place_text place.now) text.now) }
{
    match text {
        "closed" => Ok(LogEntry::Closed),
        "expired" => Ok(LogEntry::Expired),
        "show" => Ok(LogEntry::Show),
        _ => Err(place.fault(alloc, DocKind::Range)),
    }
}

impl FromDocument for LogEntry {
    ghost reads = { entry_at };

    ghost has_form = { λ _. true };

    #[tactic(auto, unfolding(crate::specs::LogReading::entry_at))]
    fn read(alloc: Global, place: &DocumentPlace<'_>, value: &Value) -> Result<Self, ReadRefusal> {
        if let Some(text) = value.as_str() {
            return entry_of_text(alloc, place, text);
        }
        let (word, described) = one_member_of(alloc, place, value)?;
        entry_from(alloc, &DocumentPlace::Member(place, word), word, described)
    }
}

/// The log of a document at a place.
#[tactic(auto, unfolding(crate::specs::LogReading::log_at))]
fn log_of(
    alloc: Global,
    place: &DocumentPlace<'_>,
    value: &Value,
) -> Result<Items<LogEntry>, ReadRefusal>
    ensures { Gives (λ log. log) result (log_at (place_text place.now) (view value.now)) }
{
    let members = object_of(alloc, place, value)?;
    let log = list_member::<LogEntry>(alloc, place, "events", Count::AnyNumber, value)?;
    check_others(alloc, place, &["events"], members)?;
    Ok(log)
}

/// The log that a document writes: an object with the one member `events`, a list. An entry is the text `closed`,
/// `expired` or `show`, or an object with the one member `opened` or `update`, whose text is the hexadecimal digits of
/// one whole message.
pub fn read_log(alloc: Global, value: &Value) -> Result<Items<LogEntry>, ReadRefusal>
    ensures reads { Gives (λ log. log) result (log_at [] (view value.now)) }
    ensures form { IfOk result (λ log. AllByRecursion HasEntryForm log) }
{
    log_of(alloc, &DocumentPlace::Whole, value)
}
