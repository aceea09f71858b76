//! The value that octets write as JSON.
ghost use Rattle.std.specs.Prelude.{◌≡◌, IfOk, option_map};
ghost use Rattle.serde_json.specs.View.{view};
ghost use Rattle.ov_io.specs.Json.{json_of};

use ov_types::NoMemory;
use serde_json::Value;
use std::alloc::Global;
use std::str;

/// The value that octets write as JSON, where they write one.
pub fn value_of(alloc: Global, octets: &[u8]) -> Result<Option<Value>, NoMemory>
    ensures { IfOk result (λ o. option_map view o ≡ json_of octets.now) }
{
    let Ok(text) = str::from_utf8(octets) else {
        return Ok(None);
    };
    match Value::from_str(alloc, text) {
        Ok(value) => Ok(Some(value)),
        Err(error) => {
            if error.is_memory() {
                Err(NoMemory)
            } else {
                Ok(None)
            }
        }
    }
}
