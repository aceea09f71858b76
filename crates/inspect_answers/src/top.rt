//! The top call.
ghost use Rattle.std.specs.Prelude.{◌≡◌, ◌≢◌, ◌↔◌, ◌<◌, ◌≤◌, ◌⊎◌, None, length};
ghost use Rattle.ov_io.specs.Causes.{Rose};
ghost use Rattle.ov_io.specs.Inputs.{WasReadWhole};
ghost use Rattle.ov_io.specs.Pieces.{TookFrontOf, TookText};
ghost use Rattle.inspect_answers.specs.Answers as answers;
ghost use Rattle.inspect_answers.specs.Commands as commands;
ghost use Rattle.inspect_answers.specs.Runs.{IfInput, IsAnswered, IsCut, IsFound, IsSilent, IsWritten, Keeps};
ghost use Rattle.inspect_answers.specs.Runs.{OfInput, Writes};
ghost use Rattle.inspect_answers.specs.Runs.{number_of, status_of};

use crate::answering::answer;
use crate::asked::asked_of;
use crate::verdict::Verdict;
use ov_io::{InputRefusal, Sink, Source, WriteRefusal, read_all};
use std::alloc::Global;

/// The most octets that an input may have.
pub(crate) const MAX_INPUT_OCTETS: usize = 16_777_216;

/// How a run ended. Its number is the exit status of the program.
#[derive(Clone, Copy, PartialEq, Eq)]
pub enum Status {
    /// What is asked is answered, and nothing in it differs.
    Done,
    /// What is asked is answered, and something in it differs: an outcome is otherwise than is expected, or what two
    /// configurations have.
    Differs,
    Usage,
    ReadFault,
    TooLong,
    NotJson,
    BadDocument,
    Refused,
    WriteFault,
    NoMemory,
}

impl Status {
    /// The exit status.
    pub fn number(self) -> u8
        ensures { result ≡ number_of self }
    {
        match self {
            Status::Done => 0,
            Status::Differs => 1,
            Status::Usage => 2,
            Status::ReadFault => 3,
            Status::TooLong => 4,
            Status::NotJson => 5,
            Status::BadDocument => 6,
            Status::Refused => 7,
            Status::WriteFault => 8,
            Status::NoMemory => 9,
        }
    }
}

/// All that the program does once the file that its words name is open as a source: what the words ask for, from the
/// source to a sink. The answer is written as it is made, once the source is read and what it holds is found good.
pub fn inspect<S: Source, K: Sink>(
    alloc: Global,
    words: &[String],
    source: &mut S,
    sink: &mut K,
) -> Status
    // Which status comes.
    ensures usage { (result ≡ Status.Usage) ↔ (commands.asked_of words.now ≡ None) }
    ensures read_fault { result ≡ Status.ReadFault → Rose (S.faults source.old) (S.faults source.new) }
    ensures too_long { result ≡ Status.TooLong
        → OfInput (commands.asked_of words.now) (S.left source.old) (λ asked octets. MAX_INPUT_OCTETS < length octets) }
    ensures not_json { result ≡ Status.NotJson
        → OfInput (commands.asked_of words.now) (S.left source.old) (IsFound MAX_INPUT_OCTETS Verdict.NotJson) }
    ensures bad_document { result ≡ Status.BadDocument
        → OfInput (commands.asked_of words.now) (S.left source.old) (IsFound MAX_INPUT_OCTETS Verdict.BadDocument) }
    ensures refused { result ≡ Status.Refused
        → OfInput (commands.asked_of words.now) (S.left source.old) (IsFound MAX_INPUT_OCTETS Verdict.Refused) }
    ensures write_fault { result ≡ Status.WriteFault → Rose (K.faults sink.old) (K.faults sink.new) }
    ensures write_fault_within { result ≡ Status.WriteFault
        → OfInput (commands.asked_of words.now) (S.left source.old) (λ asked octets. length octets ≤ MAX_INPUT_OCTETS) }
    ensures done { result ≡ Status.Done
        → OfInput (commands.asked_of words.now) (S.left source.old) (IsFound MAX_INPUT_OCTETS Verdict.Good) }
    ensures differs { result ≡ Status.Differs
        → OfInput (commands.asked_of words.now) (S.left source.old) (IsFound MAX_INPUT_OCTETS Verdict.Differs) }

    // What is written.
    ensures written { IsWritten result → OfInput (commands.asked_of words.now) (S.left source.old)
        (λ asked octets. TookText (Writes asked octets) (K.taken sink.old) (K.taken sink.new)) }
    ensures front { IsCut result → OfInput (commands.asked_of words.now) (S.left source.old)
        (λ asked octets. TookFrontOf (Writes asked octets) (K.taken sink.old) (K.taken sink.new)) }
    ensures silent { IsSilent result → sink.new ≡ sink.old }

    // What is promised of packets.
    ensures promise { IsAnswered result → OfInput (commands.asked_of words.now) (S.left source.old)
        (λ asked octets. Keeps asked result octets (K.taken sink.old) (K.taken sink.new)) }

    // What is read.
    ensures read_whole { IsWritten result ⊎ (result ≡ Status.WriteFault)
        → OfInput (commands.asked_of words.now) (S.left source.old)
        (λ asked octets. WasReadWhole (S.left source.old) (S.left source.new) octets) }
    ensures unread { result ≡ Status.Usage → source.new ≡ source.old }

    // Nothing is refused without a cause, and only a fault is counted.
    ensures complete { ¬ Rose (S.faults source.old) (S.faults source.new)
        → ¬ Rose (K.faults sink.old) (K.faults sink.new)
        → IfInput (commands.asked_of words.now) (S.left source.old) (λ asked octets. length octets ≤ MAX_INPUT_OCTETS
        → (result ≡ status_of (answers.answer asked octets).verdict) ⊎ (result ≡ Status.NoMemory)) }
    ensures reads_kept { result ≢ Status.ReadFault → S.faults source.new ≡ S.faults source.old }
    ensures writes_kept { result ≢ Status.WriteFault → K.faults sink.new ≡ K.faults sink.old }
{
    let Some(asked) = asked_of(words) else {
        return Status::Usage;
    };
    let octets = match read_all(alloc, source, MAX_INPUT_OCTETS) {
        Ok(octets) => octets,
        Err(InputRefusal::Fault) => return Status::ReadFault,
        Err(InputRefusal::TooLong) => return Status::TooLong,
        Err(InputRefusal::NoMemory) => return Status::NoMemory,
    };
    match answer(alloc, &asked, octets.as_slice(), sink) {
        Ok(verdict) => status_from(verdict),
        Err(WriteRefusal::Fault) => Status::WriteFault,
        Err(WriteRefusal::NoMemory) => Status::NoMemory,
    }
}

/// The status that tells a verdict.
pub(crate) fn status_from(verdict: Verdict) -> Status
    ensures { result ≡ status_of verdict }
{
    match verdict {
        Verdict::Good => Status::Done,
        Verdict::Differs => Status::Differs,
        Verdict::NotJson => Status::NotJson,
        Verdict::BadDocument => Status::BadDocument,
        Verdict::Refused => Status::Refused,
    }
}
