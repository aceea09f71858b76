//! The top call over two documents.
ghost use Rattle.std.specs.Prelude.{◌≡◌, ◌≢◌, ◌↔◌, ◌<◌, ◌⊎◌, false, true, length, IfSome};
ghost use Rattle.ov_io.specs.Causes.{Rose};
ghost use Rattle.ov_io.specs.Inputs.{WasReadWhole};
ghost use Rattle.ov_io.specs.Pieces.{TookFrontOf, TookText};
ghost use Rattle.compile_answers.specs.declared.unfit.Reception.TheVariants as Received;
ghost use Rattle.inspect_answers.specs.Changes.{TookDifferences};
ghost use Rattle.inspect_answers.specs.Commands as commands;
ghost use Rattle.inspect_answers.specs.Differences.{diff_answer};
ghost use Rattle.inspect_answers.specs.Runs.{IsAnswered, IsCut, IsSilent, IsWritten};
ghost use Rattle.inspect_answers.specs.TwoRuns.{AreAlike, AreOtherwise, AreShort, IsEndOf, IsFoundOf, OfBoth, OfWhich};
ghost use Rattle.inspect_answers.specs.TwoRuns.{WritesOf, status_found, which_found};

use crate::asked::{form_of, is_diff};
use crate::diffing::{Comparison, answer_diff};
use crate::top::{MAX_INPUT_OCTETS, Status, status_from};
use crate::verdict::verdict_of;
use ov_io::{InputRefusal, Sink, Source, WriteRefusal, read_all};
use std::alloc::Global;

/// One of two documents.
#[derive(Clone, Copy)]
pub enum Which {
    Before,
    After,
}

/// How a run over two documents ended.
#[derive(Clone, Copy)]
pub struct Ending {
    pub status: Status,
    /// The document that could not be read, is too long or is not fit. Where the status is of neither document, this is
    /// the one before the change.
    pub which: Which,
}

fn ended(status: Status, which: Which) -> Ending
    ensures { result ≡ record { status = status; which = which } }
{
    Ending { status, which }
}

/// The ending that tells what two documents are found to be.
fn ending_of(found: Comparison) -> Ending
    ensures { result ≡ record { status = status_found found; which = which_found found } }
{
    match found {
        Comparison::Same => ended(Status::Done, Which::Before),
        Comparison::Differs => ended(Status::Differs, Which::Before),
        Comparison::UnfitBefore(reception) => {
            ended(status_from(verdict_of(reception)), Which::Before)
        }
        Comparison::UnfitAfter(reception) => {
            ended(status_from(verdict_of(reception)), Which::After)
        }
    }
}

/// All that the program does once the two files that its words name are open as sources: what differs between two
/// documents, to a sink. The answer is written as it is made, once both are read and found good.
pub fn inspect_diff<S: Source, T: Source, K: Sink>(
    alloc: Global,
    words: &[String],
    before: &mut S,
    after: &mut T,
    sink: &mut K,
) -> Ending
    // Which status comes, and by which document.
    ensures usage { (result.status ≡ Status.Usage) ↔ (commands.is_diff words.now ≡ false) }
    ensures read_fault { result.status ≡ Status.ReadFault
        → OfWhich result.which (Rose (S.faults before.old) (S.faults before.new)) (Rose (T.faults after.old) (T.faults after.new)) }
    ensures too_long { result.status ≡ Status.TooLong
        → OfWhich result.which (IfSome (S.left before.old) (λ octets. MAX_INPUT_OCTETS < length octets))
        (IfSome (T.left after.old) (λ octets. MAX_INPUT_OCTETS < length octets)) }
    ensures not_json { result.status ≡ Status.NotJson
        → OfBoth (S.left before.old) (T.left after.old) (IsFoundOf MAX_INPUT_OCTETS result.which Received.NotJson) }
    ensures bad_document { result.status ≡ Status.BadDocument
        → OfBoth (S.left before.old) (T.left after.old) (IsFoundOf MAX_INPUT_OCTETS result.which Received.BadDocument) }
    ensures refused { result.status ≡ Status.Refused
        → OfBoth (S.left before.old) (T.left after.old) (IsFoundOf MAX_INPUT_OCTETS result.which Received.Refused) }
    ensures write_fault { result.status ≡ Status.WriteFault → Rose (K.faults sink.old) (K.faults sink.new) }
    ensures write_fault_within { result.status ≡ Status.WriteFault
        → OfBoth (S.left before.old) (T.left after.old) (AreShort MAX_INPUT_OCTETS) }
    ensures done { result.status ≡ Status.Done
        → OfBoth (S.left before.old) (T.left after.old) (AreAlike MAX_INPUT_OCTETS) }
    ensures differs { result.status ≡ Status.Differs
        → OfBoth (S.left before.old) (T.left after.old) (AreOtherwise MAX_INPUT_OCTETS) }

    // What is written.
    ensures written { IsWritten result.status → OfBoth (S.left before.old) (T.left after.old)
        (λ first second. TookText (WritesOf (commands.form_of words.now) first second) (K.taken sink.old) (K.taken sink.new)) }
    ensures front { IsCut result.status → OfBoth (S.left before.old) (T.left after.old)
        (λ first second. TookFrontOf (WritesOf (commands.form_of words.now) first second) (K.taken sink.old) (K.taken sink.new)) }
    ensures silent { IsSilent result.status → sink.new ≡ sink.old }

    // What is promised of packets.
    ensures promise { IsAnswered result.status → OfBoth (S.left before.old) (T.left after.old)
        (λ first second. TookDifferences (commands.form_of words.now) result.status first second
        (K.taken sink.old) (K.taken sink.new)) }

    // What is read.
    ensures read_whole { IsWritten result.status ⊎ (result.status ≡ Status.WriteFault)
        → OfBoth (S.left before.old) (T.left after.old)
        (λ first second. WasReadWhole (S.left before.old) (S.left before.new) first
        × WasReadWhole (T.left after.old) (T.left after.new) second) }
    ensures unread { result.status ≡ Status.Usage → (before.new ≡ before.old) × (after.new ≡ after.old) }

    // Nothing is refused without a cause, and only a fault is counted.
    ensures complete { ¬ Rose (S.faults before.old) (S.faults before.new)
        → ¬ Rose (T.faults after.old) (T.faults after.new)
        → ¬ Rose (K.faults sink.old) (K.faults sink.new)
        → commands.is_diff words.now ≡ true
        → OfBoth (S.left before.old) (T.left after.old) (λ first second. AreShort MAX_INPUT_OCTETS first second
        → IsEndOf result.status (diff_answer first second) ⊎ (result.status ≡ Status.NoMemory)) }
    ensures reads_kept { result.status ≢ Status.ReadFault
        → (S.faults before.new ≡ S.faults before.old) × (T.faults after.new ≡ T.faults after.old) }
    ensures other_reads_kept { result.status ≡ Status.ReadFault
        → OfWhich result.which (T.faults after.new ≡ T.faults after.old) (S.faults before.new ≡ S.faults before.old) }
    ensures writes_kept { result.status ≢ Status.WriteFault → K.faults sink.new ≡ K.faults sink.old }
{
    if !is_diff(words) {
        return ended(Status::Usage, Which::Before);
    }
    let first = match read_all(alloc, before, MAX_INPUT_OCTETS) {
        Ok(octets) => octets,
        Err(InputRefusal::Fault) => return ended(Status::ReadFault, Which::Before),
        Err(InputRefusal::TooLong) => return ended(Status::TooLong, Which::Before),
        Err(InputRefusal::NoMemory) => return ended(Status::NoMemory, Which::Before),
    };
    let second = match read_all(alloc, after, MAX_INPUT_OCTETS) {
        Ok(octets) => octets,
        Err(InputRefusal::Fault) => return ended(Status::ReadFault, Which::After),
        Err(InputRefusal::TooLong) => return ended(Status::TooLong, Which::After),
        Err(InputRefusal::NoMemory) => return ended(Status::NoMemory, Which::After),
    };
    let form = form_of(words);
    match answer_diff(alloc, form, first.as_slice(), second.as_slice(), sink) {
        Ok(found) => ending_of(found),
        Err(WriteRefusal::Fault) => ended(Status::WriteFault, Which::Before),
        Err(WriteRefusal::NoMemory) => ended(Status::NoMemory, Which::Before),
    }
}
