//! The lines of what differs between two configurations, in a form.
ghost use Rattle.std.specs.Prelude.{◌≡◌, ◌++◌, OnOk, OnErr};
ghost use Rattle.inspect_json.specs.ChangeLines.{came_in, difference_in, went_in};
ghost use Rattle.inspect_json.specs.ChangeValues.{came_value, difference_value, went_value};
ghost use Rattle.inspect_json.specs.Form.{json_line};

use crate::change_values::{came_value, difference_value, went_value};
use crate::form::Form;
use crate::line::append_line;
use config_types::Config;
use inspect_changes::{CameLines, Difference, DifferenceLines, LinesOf, Object, WentLines};
use ov_io::TextOut;
use ov_types::NoMemory;
use std::alloc::Global;

/// The line of an object that went from a configuration, in a form.
#[derive(Clone, Copy)]
pub struct WentIn<'a> {
    pub form: Form,
    pub config: &'a Config,
}

/// The line of an object that came to a configuration, in a form.
#[derive(Clone, Copy)]
pub struct CameIn<'a> {
    pub form: Form,
    pub config: &'a Config,
}

/// The line of a difference between two configurations, in a form.
#[derive(Clone, Copy)]
pub struct DifferencesIn<'a> {
    pub form: Form,
    pub before: &'a Config,
    pub after: &'a Config,
}

/// Appends an object that went as a line of JSON.
#[tactic(auto, using(crate::proofs::NoFloats::went))]
fn append_went(
    alloc: Global,
    config: &Config,
    object: &Object,
    out: &mut TextOut,
) -> Result<(), NoMemory>
    ensures ok { OnOk result (out.new ≡ out.old ++ json_line (went_value config.now object.now)) }
    ensures err { OnErr result (out.new ≡ out.old) }
{
    let value = went_value(alloc, config, object)?;
    append_line(alloc, &value, out)
}

/// Appends an object that came as a line of JSON.
#[tactic(auto, using(crate::proofs::NoFloats::came))]
fn append_came(
    alloc: Global,
    config: &Config,
    object: &Object,
    out: &mut TextOut,
) -> Result<(), NoMemory>
    ensures ok { OnOk result (out.new ≡ out.old ++ json_line (came_value config.now object.now)) }
    ensures err { OnErr result (out.new ≡ out.old) }
{
    let value = came_value(alloc, config, object)?;
    append_line(alloc, &value, out)
}

/// Appends a difference as a line of JSON.
#[tactic(auto, using(crate::proofs::NoFloats::difference))]
fn append_difference(
    alloc: Global,
    lines: &DifferencesIn<'_>,
    difference: &Difference,
    out: &mut TextOut,
) -> Result<(), NoMemory>
    ensures ok { OnOk result (out.new ≡ out.old
        ++ json_line (difference_value lines.now.before.now lines.now.after.now difference.now)) }
    ensures err { OnErr result (out.new ≡ out.old) }
{
    let value = difference_value(alloc, lines.before, lines.after, difference)?;
    append_line(alloc, &value, out)
}

impl LinesOf<Object> for WentIn<'_> {
    ghost lines = { λ w o. went_in w.form w.config.now o };

    fn append(&self, alloc: Global, object: &Object, out: &mut TextOut) -> Result<(), NoMemory> {
        match self.form {
            Form::Text => WentLines.append(alloc, object, out),
            Form::Json => append_went(alloc, self.config, object, out),
        }
    }
}

impl LinesOf<Object> for CameIn<'_> {
    ghost lines = { λ w o. came_in w.form w.config.now o };

    fn append(&self, alloc: Global, object: &Object, out: &mut TextOut) -> Result<(), NoMemory> {
        match self.form {
            Form::Text => CameLines.append(alloc, object, out),
            Form::Json => append_came(alloc, self.config, object, out),
        }
    }
}

impl LinesOf<Difference> for DifferencesIn<'_> {
    ghost lines = { λ w x. difference_in w.form w.before.now w.after.now x };

    fn append(
        &self,
        alloc: Global,
        difference: &Difference,
        out: &mut TextOut,
    ) -> Result<(), NoMemory> {
        match self.form {
            Form::Text => DifferenceLines.append(alloc, difference, out),
            Form::Json => append_difference(alloc, self, difference, out),
        }
    }
}
