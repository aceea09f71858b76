//! The answer to a document.
ghost use Rattle.std.specs.Prelude.{◌≡◌, IfOk, OnErr};
ghost use Rattle.ov_io.specs.Inputs.{TookFront};
ghost use Rattle.ov_io.specs.Pieces.{HasWriteCause};
ghost use Rattle.inspect_answers.specs.InForm.{AreWrittenInForm};
ghost use Rattle.inspect_answers.specs.Answers.{IsAnswer, WasGiven, answer, missing, missing_of, ways_answer};
ghost use Rattle.inspect_answers.specs.Runs.{Keeps, status_of};

use crate::asked::Asked;
use crate::editing::answer_edits;
use crate::expecting::answer_expect;
use crate::explaining::answer_why;
use crate::idle_answer::answer_unused;
use crate::verdict::{Verdict, answer_unfit};
use crate::writing::write_all_ways;
use compile_answers::{Unfit, read_question};
use config_check::{Refusal, Valid, network_named};
use config_types::Config;
use inspect_changes::Pairs;
use inspect_json::Form;
use ov_io::{Sink, WriteRefusal};
use ov_types::Name;
use std::alloc::Global;

/// A network that is not there, as what is refused.
fn missing(config: &Config, name: &Name) -> Option<Refusal>
    ensures { result ≡ missing config.now name.now }
{
    match network_named(config, name) {
        Some(_) => None,
        None => Some(Refusal::BadReference { name: *name }),
    }
}

/// The first of the networks that are asked for which is not there.
fn missing_of(pairs: &Pairs, config: &Config) -> Option<Refusal>
    ensures { result ≡ missing_of pairs.now config.now }
{
    match pairs {
        Pairs::All => None,
        Pairs::Between { from, to } => match missing(config, from) {
            Some(refusal) => Some(refusal),
            None => missing(config, to),
        },
    }
}

/// Writes the ways that are asked for of an input.
#[tactic(auto, using(crate::proofs::Unfitting::unfit_judged, crate::proofs::Formed::never_answered), unfolding(crate::specs::Answers::ways_answer))]
fn answer_ways<K: Sink>(
    alloc: Global,
    form: Form,
    pairs: &Pairs,
    octets: &[u8],
    sink: &mut K,
) -> Result<Verdict, WriteRefusal>
    ensures given { IfOk result (λ verdict. WasGiven (ways_answer form pairs.now octets.now) verdict
        (K.taken sink.old) (K.taken sink.new)) }
    ensures front { OnErr result (TookFront (K.taken sink.old) (K.taken sink.new)
        (ways_answer form pairs.now octets.now).text) }
    ensures cause { HasWriteCause (K.faults sink.old) (K.faults sink.new) result }
    ensures in_form { IfOk result (λ verdict. IsAnswer verdict → AreWrittenInForm octets.now) }
{
    match read_question::<Valid>(alloc, octets) {
        Ok(valid) => match missing_of(pairs, valid.config()) {
            Some(refusal) => answer_unfit(alloc, Unfit::Refused(refusal), sink),
            None => {
                write_all_ways(alloc, form, pairs, &valid, sink)?;
                Ok(Verdict::Good)
            }
        },
        Err(unfit) => answer_unfit(alloc, unfit, sink),
    }
}

/// Writes what is answered to an input.
pub(crate) fn answer<K: Sink>(
    alloc: Global,
    asked: &Asked,
    octets: &[u8],
    sink: &mut K,
) -> Result<Verdict, WriteRefusal>
    ensures given { IfOk result (λ verdict. WasGiven (answer asked.now octets.now) verdict
        (K.taken sink.old) (K.taken sink.new)) }
    ensures front { OnErr result (TookFront (K.taken sink.old) (K.taken sink.new)
        (answer asked.now octets.now).text) }
    ensures cause { HasWriteCause (K.faults sink.old) (K.faults sink.new) result }
    ensures promise { IfOk result (λ verdict. IsAnswer verdict
        → Keeps asked.now (status_of verdict) octets.now (K.taken sink.old) (K.taken sink.new)) }
{
    match asked {
        Asked::Ways(form, pairs) => answer_ways(alloc, *form, pairs, octets, sink),
        Asked::Expect(form) => answer_expect(alloc, *form, octets, sink),
        Asked::Unused(form) => answer_unused(alloc, *form, octets, sink),
        Asked::Why(form) => answer_why(alloc, *form, octets, sink),
        Asked::Hitless(form) => answer_edits(alloc, *form, octets, sink),
    }
}
