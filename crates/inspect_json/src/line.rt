//! A value as a line.
ghost use Rattle.std.specs.Prelude.{◌≡◌, ◌++◌, false, OnOk, OnErr};
ghost use Rattle.serde_json.specs.View.{view};
ghost use Rattle.serde_json.specs.Written.{has_float};
ghost use Rattle.inspect_json.specs.Form.{json_line};

use ov_io::TextOut;
use ov_types::NoMemory;
use serde_json::Value;
use std::alloc::Global;

/// Appends a value that has no float as a line.
#[tactic(auto, unfolding(crate::specs::Form::json_line))]
pub fn append_line(alloc: Global, value: &Value, out: &mut TextOut) -> Result<(), NoMemory>
    requires { has_float (view value.now) ≡ false }
    ensures ok { OnOk result (out.new ≡ out.old ++ json_line (view value.now)) }
    ensures err { OnErr result (out.new ≡ out.old) }
{
    let text = value.to_string(alloc)?;
    write!(out, "{text}\n")
}
