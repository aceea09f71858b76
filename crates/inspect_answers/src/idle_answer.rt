//! The answer of `unused`.
ghost use Rattle.std.specs.Prelude.{flat_map, IfOk, IsTrue, OnOk, OnErr};
ghost use Rattle.std.specs.Io.KnownBytes.{Appends};
ghost use Rattle.ov_io.specs.Inputs.{TookFront};
ghost use Rattle.ov_io.specs.Pieces.{HasWriteCause};
ghost use Rattle.config_types.specs.Form.{has_config_form};
ghost use Rattle.inspect_answers.specs.InForm.{AreWrittenInForm};
ghost use Rattle.inspect_answers.specs.Answers.{IsAnswer, WasGiven, unused_answer};
ghost use Rattle.inspect_answers.specs.IdleLines.{idle_in, idle_line_in};

use crate::idle_lines::IdleIn;
use crate::verdict::{Verdict, answer_unfit};
use crate::writing::write_each;
use compile_answers::read_question;
use config_check::Valid;
use inspect_json::Form;
use inspect_rules::{Idle, idle_of};
use ov_io::{Sink, TextOut, WriteRefusal, write_gathered};
use std::alloc::Global;

/// Writes the line of each.
fn write_found<K: Sink>(
    alloc: Global,
    lines: &IdleIn<'_>,
    found: &[Idle],
    sink: &mut K,
) -> Result<(), WriteRefusal>
    ensures ok { OnOk result (Appends (K.taken sink.old) (K.taken sink.new)
        (flat_map (idle_line_in lines.now.form lines.now.config.now) found.now)) }
    ensures front { OnErr result (TookFront (K.taken sink.old) (K.taken sink.new)
        (flat_map (idle_line_in lines.now.form lines.now.config.now) found.now)) }
    ensures cause { HasWriteCause (K.faults sink.old) (K.faults sink.new) result }
{
    let mut gathered = TextOut::new(alloc);
    write_each(alloc, lines, found, sink, &mut gathered)?;
    write_gathered(sink, &mut gathered)
}

/// Writes what of a valid configuration decides nothing, or is not in use.
#[tactic(auto, using(ov_io::proofs::PieceLemmas::took_nothing))]
fn write_idle<K: Sink>(
    alloc: Global,
    form: Form,
    valid: &Valid,
    sink: &mut K,
) -> Result<(), WriteRefusal>
    ensures ok { OnOk result (Appends (K.taken sink.old) (K.taken sink.new) (idle_in form valid.now.config)) }
    ensures front { OnErr result (TookFront (K.taken sink.old) (K.taken sink.new) (idle_in form valid.now.config)) }
    ensures cause { HasWriteCause (K.faults sink.old) (K.faults sink.new) result }
    ensures form { OnOk result (IsTrue (has_config_form valid.now.config)) }
{
    let found = idle_of(alloc, valid)?;
    let lines = IdleIn {
        form,
        config: valid.config(),
    };
    write_found(alloc, &lines, found.as_slice(), sink)
}

/// Writes what `unused` answers to an input.
#[tactic(auto, using(crate::proofs::Unfitting::unfit_judged, crate::proofs::Formed::never_answered), unfolding(crate::specs::Answers::unused_answer))]
pub(crate) fn answer_unused<K: Sink>(
    alloc: Global,
    form: Form,
    octets: &[u8],
    sink: &mut K,
) -> Result<Verdict, WriteRefusal>
    ensures given { IfOk result (λ verdict. WasGiven (unused_answer form octets.now) verdict
        (K.taken sink.old) (K.taken sink.new)) }
    ensures front { OnErr result (TookFront (K.taken sink.old) (K.taken sink.new) (unused_answer form octets.now).text) }
    ensures cause { HasWriteCause (K.faults sink.old) (K.faults sink.new) result }
    ensures in_form { IfOk result (λ verdict. IsAnswer verdict → AreWrittenInForm octets.now) }
{
    match read_question::<Valid>(alloc, octets) {
        Ok(valid) => {
            write_idle(alloc, form, &valid, sink)?;
            Ok(Verdict::Good)
        }
        Err(unfit) => answer_unfit(alloc, unfit, sink),
    }
}
