//! What a document asks.
ghost use Rattle.std.specs.Prelude.{◌≡◌, Result, Ok, IfOk, IfErr};
ghost use Rattle.serde_json.specs.Data.{Data};
ghost use Rattle.serde_json.specs.View.{view};
ghost use Rattle.ov_io.specs.Json.{json_of};
ghost use Rattle.compile_answers.specs.Answers.{AreDocument, DocumentAnswer, IsUnfit, taken_from};

use crate::unfit::Unfit;
use ov_io::value_of;
use serde_json::Value;
use std::alloc::Global;

/// What a command takes from a document.
pub trait Question: Drop {
    /// What a value is taken as, or what is answered where it is not fit.
    ghost taken: { Data → Result Self DocumentAnswer };

    /// How a value is read that is taken as this.
    ghost reads: { Data → Self → Type 0 };

    /// The form of all that is taken.
    ghost form: { Self → Type 0 };

    fn from_value(alloc: Global, value: &Value) -> Result<Self, Unfit>
        ensures fit { IfOk result (λ asked. taken (view value.now) ≡ Ok asked) }
        ensures read { IfOk result (λ asked. reads (view value.now) asked) }
        ensures form { IfOk result (λ asked. form asked) }
        ensures unfit { IfErr result (λ unfit. IsUnfit unfit (taken (view value.now))) };
}

/// What is asked by octets that are a document of JSON.
pub fn read_question<Q: Question>(alloc: Global, octets: &[u8]) -> Result<Q, Unfit>
    ensures fit { IfOk result (λ asked. taken_from Q.taken (json_of octets.now) ≡ Ok asked) }
    ensures read { IfOk result (λ asked. AreDocument octets.now (λ d. Q.reads d asked)) }
    ensures form { IfOk result (λ asked. Q.form asked) }
    ensures unfit { IfErr result (λ unfit. IsUnfit unfit (taken_from Q.taken (json_of octets.now))) }
{
    match value_of(alloc, octets)? {
        Some(value) => Q::from_value(alloc, &value),
        None => Err(Unfit::NotJson),
    }
}
