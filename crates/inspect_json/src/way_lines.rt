//! The lines of ways, in a form.
ghost use Rattle.std.specs.Prelude.{◌≡◌, ◌++◌, OnOk, OnErr};
ghost use Rattle.inspect_json.specs.Form.{json_line};
ghost use Rattle.inspect_json.specs.Values.{way_value};
ghost use Rattle.inspect_json.specs.WayLines.{way_in};

use crate::form::Form;
use crate::line::append_line;
use crate::values::way_value;
use config_types::Config;
use inspect_changes::{LinesOf, Way, WayLines};
use ov_io::TextOut;
use ov_types::{Name, NoMemory};
use std::alloc::Global;

/// The line of a way in a form, behind the names of its two networks.
#[derive(Clone, Copy)]
pub struct WaysIn<'a> {
    pub form: Form,
    pub config: &'a Config,
    pub from: Name,
    pub to: Name,
}

/// Appends a way as a line of JSON.
#[tactic(auto, using(crate::proofs::NoFloats::way))]
fn append_way(
    alloc: Global,
    lines: &WaysIn<'_>,
    way: &Way,
    out: &mut TextOut,
) -> Result<(), NoMemory>
    ensures ok { OnOk result (out.new ≡ out.old
        ++ json_line (way_value lines.now.config.now lines.now.from lines.now.to way.now)) }
    ensures err { OnErr result (out.new ≡ out.old) }
{
    let value = way_value(alloc, lines.config, &lines.from, &lines.to, way)?;
    append_line(alloc, &value, out)
}

impl LinesOf<Way> for WaysIn<'_> {
    ghost lines = { λ w way. way_in w.form w.config.now w.from w.to way };

    fn append(&self, alloc: Global, way: &Way, out: &mut TextOut) -> Result<(), NoMemory> {
        match self.form {
            Form::Text => {
                let lines = WayLines {
                    from: self.from,
                    to: self.to,
                };
                lines.append(alloc, way, out)
            }
            Form::Json => append_way(alloc, self, way, out),
        }
    }
}
