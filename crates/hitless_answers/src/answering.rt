//! The answer of `hitless`.
ghost use Rattle.std.specs.Prelude.{◌≡◌, [], Ok, IfOk, OnErr, IsTrue};
ghost use Rattle.std.specs.List.{list_all};
ghost use Rattle.ov_io.specs.Inputs.{TookFront};
ghost use Rattle.ov_io.specs.Pieces.{HasWriteCause};
ghost use Rattle.config_types.specs.Form.{has_edit_form};
ghost use Rattle.compile_answers.specs.Answers.{WasGiven};
ghost use Rattle.hitless_answers.specs.Answers.{FitsEdits, hitless_answer, hitless_taken, input_of};
ghost use Rattle.hitless_cells.specs.Keeping.{IsValidAsWritten};
ghost use Rattle.hitless_answers.specs.Judging.{judgements, standing_first};
ghost use Rattle.hitless_answers.specs.Promise.{AllReadSo, AreSaidOf, TookJudgements};
ghost use Rattle.hitless_answers.specs.Reading.{hitless_at};

use crate::input::HitlessInput;
use crate::judging::know_written;
use crate::reader::read_hitless;
use crate::writing::write_hitless;
use compile_answers::{Question, Reception, Unfit, read_question, valid_of, write_unfit};
use config_check::Valid;
use config_types::Edit;
use inspect_json::Form;
use ov_io::{Sink, WriteRefusal};
use ov_types::Items;
use serde_json::Value;
use std::alloc::Global;

/// A valid opening configuration, and the edits that follow.
#[derive(Drop)]
struct AskedEdits {
    valid: Valid,
    edits: Items<Edit>,
}

impl Question for AskedEdits {
    ghost taken = { hitless_taken };

    ghost reads = { λ d asked. hitless_at [] d ≡ Ok (input_of asked.valid asked.edits) };

    ghost form = { FitsEdits };

    #[tactic(auto, using(compile_answers::proofs::Unfitting::fault_unfit, compile_answers::proofs::Unfitting::rule_unfit), unfolding(crate::specs::Answers::hitless_taken))]
    fn from_value(alloc: Global, value: &Value) -> Result<Self, Unfit> {
        let HitlessInput { input, edits } = read_hitless(alloc, value)?;
        match valid_of(alloc, input) {
            Ok(valid) => Ok(AskedEdits { valid, edits }),
            Err(unfit) => Err(unfit),
        }
    }
}

/// What is said of edits, and what its JSON reads as.
fn know_judgements(valid: &Valid, edits: &[Edit])
    requires { IsTrue (list_all has_edit_form edits.now) }
    ensures written { IsValidAsWritten valid.now }
    ensures said { AreSaidOf (standing_first valid.now) edits.now (judgements edits.now (standing_first valid.now)) }
    ensures read { AllReadSo 1 edits.now (standing_first valid.now) (judgements edits.now (standing_first valid.now)) }
{
    // (for its clause: the configuration is valid and of the written form)
    know_written(valid);
}

/// Writes what `hitless` answers to an input.
#[tactic(auto, using(compile_answers::proofs::Unfitting::unfit_answered), unfolding(crate::specs::Answers::hitless_answer))]
pub fn answer_hitless<K: Sink>(
    alloc: Global,
    form: Form,
    octets: &[u8],
    sink: &mut K,
) -> Result<Reception, WriteRefusal>
    ensures given { IfOk result (λ verdict. WasGiven (hitless_answer form octets.now) verdict
        (K.taken sink.old) (K.taken sink.new)) }
    ensures front { OnErr result (TookFront (K.taken sink.old) (K.taken sink.new) (hitless_answer form octets.now).text) }
    ensures cause { HasWriteCause (K.faults sink.old) (K.faults sink.new) result }
    ensures promise { IfOk result (λ verdict. verdict ≡ Reception.Good
        → TookJudgements form octets.now (K.taken sink.old) (K.taken sink.new)) }
{
    match read_question::<AskedEdits>(alloc, octets) {
        Ok(AskedEdits { valid, edits }) => {
            // (for its clause: what is said of the edits)
            know_judgements(&valid, edits.as_slice());
            write_hitless(alloc, form, valid, edits.as_slice(), sink)?;
            Ok(Reception::Good)
        }
        Err(unfit) => write_unfit(alloc, unfit, sink),
    }
}
