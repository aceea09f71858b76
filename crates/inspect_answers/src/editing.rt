//! The answer of `hitless`.
ghost use Rattle.std.specs.Prelude.{◌≡◌, IfOk, OnErr};
ghost use Rattle.ov_io.specs.Inputs.{TookFront};
ghost use Rattle.ov_io.specs.Pieces.{HasWriteCause};
ghost use Rattle.hitless_answers.specs.Answers.{hitless_answer};
ghost use Rattle.hitless_answers.specs.Promise.{TookJudgements};
ghost use Rattle.inspect_answers.specs.Answers.{IsAnswer, WasGiven, judged};
ghost use Rattle.inspect_answers.specs.Runs.{status_of};
ghost use Rattle.inspect_answers.specs.declared.top.Status.TheVariants as Ended;

use crate::verdict::{Verdict, verdict_of};
use hitless_answers::answer_hitless;
use inspect_json::Form;
use ov_io::{Sink, WriteRefusal};
use std::alloc::Global;

/// Writes what `hitless` answers to an input.
#[tactic(auto, using(crate::proofs::JudgedEdits::kept_where_good))]
pub(crate) fn answer_edits<K: Sink>(
    alloc: Global,
    form: Form,
    octets: &[u8],
    sink: &mut K,
) -> Result<Verdict, WriteRefusal>
    ensures given { IfOk result (λ verdict. WasGiven (judged (hitless_answer form octets.now)) verdict
        (K.taken sink.old) (K.taken sink.new)) }
    ensures front { OnErr result (TookFront (K.taken sink.old) (K.taken sink.new)
        (judged (hitless_answer form octets.now)).text) }
    ensures cause { HasWriteCause (K.faults sink.old) (K.faults sink.new) result }
    ensures promise { IfOk result (λ verdict. IsAnswer verdict
        → (status_of verdict ≡ Ended.Done) × TookJudgements form octets.now (K.taken sink.old) (K.taken sink.new)) }
{
    let reception = answer_hitless(alloc, form, octets, sink)?;
    Ok(verdict_of(reception))
}
