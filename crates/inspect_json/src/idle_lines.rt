//! The lines of JSON of what decides nothing, or is not in use.
ghost use Rattle.inspect_json.specs.Form.{json_line};
ghost use Rattle.inspect_json.specs.IdleValues.{idle_value};

use crate::idle_values::idle_value;
use crate::line::append_line;
use config_types::Config;
use inspect_changes::LinesOf;
use inspect_rules::Idle;
use ov_io::TextOut;
use ov_types::NoMemory;
use std::alloc::Global;

/// The line of JSON of what decides nothing, or is not in use, of a configuration.
#[derive(Clone, Copy)]
pub struct IdleJson<'a> {
    pub config: &'a Config,
}

impl LinesOf<Idle> for IdleJson<'_> {
    ghost lines = { λ w x. json_line (idle_value w.config.now x) };

    #[tactic(auto, using(crate::proofs::NoFloats::idle))]
    fn append(&self, alloc: Global, idle: &Idle, out: &mut TextOut) -> Result<(), NoMemory> {
        let value = idle_value(alloc, self.config, idle)?;
        append_line(alloc, &value, out)
    }
}
