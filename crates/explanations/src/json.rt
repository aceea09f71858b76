//! Where reading JSON stops.
ghost use Rattle.std.specs.Prelude.{◌≤◌, IfSome, IsSome, length};
ghost use Rattle.std.specs.Str.{IsUtf8};
ghost use Rattle.explanations.specs.Stops.{IsFaultIn, IsJsonFault, IsPlaceIn};

use crate::json_text::{JsonEnd, json_end};
use crate::place::TextPlace;
use serde_json::{Error, Value};
use std::alloc::Global;
use std::{fmt, str};

/// Why octets are no JSON that the reader takes.
#[derive(Clone, Copy, Debug, PartialEq, Eq)]
pub enum JsonFault {
    /// The octets before this place can be the front of a JSON text, and those up to the one that stands there cannot, or none
    /// stands there.
    Stop(TextPlace),
    /// A list or an object begins there that is deeper in others than the reader takes.
    TooDeep(TextPlace),
    /// A number is greater than the reader takes.
    Number,
    /// A text has half of a surrogate pair.
    Surrogate,
}

impl fmt::Display for JsonFault {
    ghost use Rattle.std.specs.Prelude.{Some};
    ghost use Rattle.explanations.specs.Stops.{json_sentence};

    ghost output = { λ f. Some (json_sentence f) };

    fn fmt<W: fmt::Write>(&self, f: &mut fmt::Formatter<W>) -> fmt::Result {
        match self {
            JsonFault::Stop(place) => {
                write!(f, "the input is no JSON, and reading it stopped at {place}")
            }
            JsonFault::TooDeep(place) => write!(
                f,
                "lists and objects stand at most 127 deep in each other, and at {place} a deeper one begins"
            ),
            JsonFault::Number => f.write_str(
                "a number of the input is greater than this program reads, which is about 1.8e308 at most",
            ),
            JsonFault::Surrogate => f.write_str(
                "a text of the input has half of a surrogate pair, as \\ud800 alone, which is no character",
            ),
        }
    }
}

/// Why octets are no JSON that the reader takes: by the grammar of RFC 8259 where they break it, at the latest behind the
/// longest front that is UTF-8. None where they are JSON, and where memory is wanting.
#[tactic(auto, using(ov_io::proofs::JsonLaws::json_of_text, ov_io::proofs::JsonLaws::json_of_other, crate::proofs::Fronts::whole_front))]
pub fn json_fault(alloc: Global, octets: &[u8]) -> Option<JsonFault>
    ensures stopped { IfSome result (IsJsonFault octets.now) }
    ensures octet { ¬ IsUtf8 octets.now → IsSome result }
{
    let text = match str::from_utf8(octets) {
        Ok(text) => text,
        Err(error) => return Some(stop_in(&octets[..error.valid_up_to()])),
    };
    match Value::from_str(alloc, text) {
        Ok(_) => None,
        Err(error) => {
            if error.is_memory() {
                return None;
            }
            Some(fault_in(alloc, text.as_bytes(), &error))
        }
    }
}

/// Where no JSON text goes on as a front of octets does, at the latest behind it.
fn stop_in(front: &[u8]) -> JsonFault
    ensures { IsFaultIn front.now result }
{
    match json_end(front) {
        JsonEnd::Stopped(count) => JsonFault::Stop(place_behind(front, count)),
        JsonEnd::TooDeep(count) => JsonFault::TooDeep(place_behind(front, count)),
        JsonEnd::Whole => JsonFault::Stop(place_behind(front, front.len())),
    }
}

/// Where no JSON text goes on as a text does that the reader refuses, or which of its limits the text is beyond.
fn fault_in(alloc: Global, text: &[u8], error: &Error) -> JsonFault
    ensures { IsFaultIn text.now result }
{
    match json_end(text) {
        JsonEnd::Stopped(count) => JsonFault::Stop(place_behind(text, count)),
        JsonEnd::TooDeep(count) => JsonFault::TooDeep(place_behind(text, count)),
        JsonEnd::Whole if is_of_number(alloc, error) => JsonFault::Number,
        JsonEnd::Whole => JsonFault::Surrogate,
    }
}

/// Whether the reader refuses a number, which its message alone tells.
fn is_of_number(alloc: Global, error: &Error) -> bool {
    match format!(in alloc; "{error}") {
        Ok(message) => message.starts_with("number"),
        Err(_) => false,
    }
}

/// The place behind a number of octets.
fn place_behind(octets: &[u8], count: usize) -> TextPlace
    requires { count ≤ length octets.now }
    ensures { IsPlaceIn octets.now result }
{
    TextPlace::start().behind(&octets[..count])
}
