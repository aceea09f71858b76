//! What an input is found to be, and the line of what is not fit.
ghost use Rattle.std.specs.Prelude.{◌≡◌, IfOk, OnErr};
ghost use Rattle.ov_io.specs.Inputs.{TookFront};
ghost use Rattle.ov_io.specs.Pieces.{HasWriteCause};
ghost use Rattle.inspect_answers.specs.Answers.{Answer, IsAnswer, IsUnfit, WasGiven, verdict_of};

use compile_answers::{Reception, Unfit, write_unfit};
use ov_io::{Sink, WriteRefusal};
use std::alloc::Global;

/// What an input is found to be, and what is found of that which is asked.
#[derive(Clone, Copy, PartialEq, Eq)]
pub enum Verdict {
    /// What is asked is answered, and nothing in it differs.
    Good,
    /// What is asked is answered, and something in it differs.
    Differs,
    NotJson,
    BadDocument,
    Refused,
}

/// The verdict on what was received.
pub(crate) fn verdict_of(reception: Reception) -> Verdict
    ensures { result ≡ verdict_of reception }
{
    match reception {
        Reception::Good => Verdict::Good,
        Reception::NotJson => Verdict::NotJson,
        Reception::BadDocument => Verdict::BadDocument,
        Reception::Refused => Verdict::Refused,
    }
}

/// Writes the one line of what is not fit.
pub(crate) fn answer_unfit<K: Sink>(
    alloc: Global,
    unfit: Unfit,
    sink: &mut K,
) -> Result<Verdict, WriteRefusal>
    ensures given { (answer : Answer) → IsUnfit unfit answer
        → IfOk result (λ verdict. WasGiven answer verdict (K.taken sink.old) (K.taken sink.new)) }
    ensures front { (answer : Answer) → IsUnfit unfit answer
        → OnErr result (TookFront (K.taken sink.old) (K.taken sink.new) answer.text) }
    ensures cause { HasWriteCause (K.faults sink.old) (K.faults sink.new) result }
    ensures unfit { IfOk result (λ verdict. ¬ IsAnswer verdict) }
{
    let reception = write_unfit(alloc, unfit, sink)?;
    Ok(verdict_of(reception))
}
