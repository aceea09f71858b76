//! The lines of JSON of why packets have their outcomes.
ghost use Rattle.inspect_json.specs.Form.{json_line};
ghost use Rattle.inspect_json.specs.ReasonValues.{explained_value};

use crate::line::append_line;
use crate::reason_values::explained_value;
use config_types::Config;
use inspect_changes::LinesOf;
use inspect_rules::Cause;
use inspect_walks::ToldStep;
use ov_io::TextOut;
use ov_types::{NoMemory, Outcome};
use std::alloc::Global;

/// The line of JSON of an outcome, with the number of its packet, what it comes of, and the walk.
#[derive(Clone, Copy)]
pub struct ExplainedJson<'a> {
    pub config: &'a Config,
    pub number: usize,
    pub causes: &'a [Cause],
    pub walk: &'a [ToldStep],
}

impl LinesOf<Outcome> for ExplainedJson<'_> {
    ghost lines = { λ w outcome. json_line (explained_value w.config.now w.number outcome w.causes.now w.walk.now) };

    #[tactic(auto, using(crate::proofs::NoFloats::explained))]
    fn append(&self, alloc: Global, outcome: &Outcome, out: &mut TextOut) -> Result<(), NoMemory> {
        let value = explained_value(
            alloc,
            self.config,
            self.number,
            outcome,
            self.causes,
            self.walk,
        )?;
        append_line(alloc, &value, out)
    }
}
