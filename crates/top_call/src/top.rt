//! The top call.
ghost use Rattle.std.specs.Prelude.{◌≡◌, ◌≢◌, ◌↔◌, ◌<◌, ◌≤◌, ◌⊎◌, Err, IfOk, None, Some, length, vec_len};
ghost use Rattle.ov_io.specs.Causes.{Rose};
ghost use Rattle.ov_io.specs.Pieces.{TookFrontOf, TookText};
ghost use Rattle.top_call.specs.Answers.{verdict_of, Writes};
ghost use Rattle.top_call.specs.Commands.{command_of};
ghost use Rattle.top_call.specs.Networks.{Leaves, MayLeave, Promises};
ghost use Rattle.top_call.specs.Runs.{IfInput, IsCut, IsFound, IsSilent, IsWritten, OfInput, OfOctets, Reads};
ghost use Rattle.top_call.specs.Runs.{ReadsInput, ReadsWhole, input_to, number_of, status_of};

use crate::answer::answer;
use crate::command::{Command, command_from};
use compile_answers::Reception;
use net_machine::{Net, leave_none};
use ov_io::{InputRefusal, Sink, Source, WriteRefusal, read_all};
use std::alloc::Global;

/// The most octets that an input may have.
pub(crate) const MAX_INPUT_OCTETS: usize = 16_777_216;

/// How a run ended. Its number is the exit status of the program.
#[derive(Clone, Copy, PartialEq, Eq)]
pub enum Status {
    Done,
    Usage,
    ReadFault,
    TooLong,
    NotJson,
    BadDocument,
    Refused,
    WriteFault,
    NoMemory,
}

impl Status {
    /// The exit status.
    pub fn number(self) -> u8
        ensures { result ≡ number_of self }
    {
        match self {
            Status::Done => 0,
            Status::Usage => 2,
            Status::ReadFault => 3,
            Status::TooLong => 4,
            Status::NotJson => 5,
            Status::BadDocument => 6,
            Status::Refused => 7,
            Status::WriteFault => 8,
            Status::NoMemory => 9,
        }
    }
}

/// All that the program does: what its words ask for, from a source to a sink. The answer is written as it is made,
/// once the source is read and what it holds is found good. `gen` reads nothing. `constrain`, `run` and `gen` leave
/// the network that took the events in `net`, where all was written; in every other case `net` is None.
pub fn overlay<S: Source, K: Sink>(
    alloc: Global,
    words: &[String],
    source: &mut S,
    sink: &mut K,
    net: &mut Option<Net>,
) -> Status
    // Which status comes.
    ensures usage { (result ≡ Status.Usage) ↔ (command_of words.now ≡ None) }
    ensures read_fault { result ≡ Status.ReadFault
        → ReadsInput (command_of words.now) × Rose (S.faults source.old) (S.faults source.new) }
    ensures too_long { result ≡ Status.TooLong
        → OfInput (command_of words.now) (S.left source.old) (λ command octets. MAX_INPUT_OCTETS < length octets) }
    ensures not_json { result ≡ Status.NotJson
        → OfInput (command_of words.now) (S.left source.old) (IsFound MAX_INPUT_OCTETS Reception.NotJson) }
    ensures bad_document { result ≡ Status.BadDocument
        → OfInput (command_of words.now) (S.left source.old) (IsFound MAX_INPUT_OCTETS Reception.BadDocument) }
    ensures refused { result ≡ Status.Refused
        → OfInput (command_of words.now) (S.left source.old) (IsFound MAX_INPUT_OCTETS Reception.Refused) }
    ensures write_fault { result ≡ Status.WriteFault → Rose (K.faults sink.old) (K.faults sink.new) }
    ensures write_fault_within { result ≡ Status.WriteFault
        → OfInput (command_of words.now) (S.left source.old) (λ command octets. length octets ≤ MAX_INPUT_OCTETS) }
    ensures done { result ≡ Status.Done
        → OfInput (command_of words.now) (S.left source.old) (IsFound MAX_INPUT_OCTETS Reception.Good) }
    ensures digits { command_of words.now ≡ Some Command.Decode
        → (result ≢ Status.BadDocument) × (result ≢ Status.Refused) }
    ensures log { command_of words.now ≡ Some Command.Graceful → result ≢ Status.Refused }

    // What is written.
    ensures written { IsWritten result → OfInput (command_of words.now) (S.left source.old)
        (λ command octets. TookText (Writes command octets) (K.taken sink.old) (K.taken sink.new)) }
    ensures front { IsCut result → OfInput (command_of words.now) (S.left source.old)
        (λ command octets. TookFrontOf (Writes command octets) (K.taken sink.old) (K.taken sink.new)) }
    ensures silent { IsSilent result → sink.new ≡ sink.old }

    // What `constrain`, `graceful`, `flows`, `run` and `gen` promise of their answers, and the network that `constrain`,
    // `run` and `gen` leave.
    ensures promise { result ≡ Status.Done → OfInput (command_of words.now) (S.left source.old)
        (λ command octets. Promises command octets (K.taken sink.old) (K.taken sink.new)) }
    ensures network { result ≡ Status.Done → OfInput (command_of words.now) (S.left source.old)
        (λ command octets. Leaves command octets net.new) }
    ensures no_network { (result ≢ Status.Done) ⊎ (¬ MayLeave (command_of words.now)) → net.new ≡ None }

    // What is read.
    ensures read_whole { IsWritten result ⊎ (result ≡ Status.WriteFault)
        → OfInput (command_of words.now) (S.left source.old)
        (ReadsWhole (S.left source.old) (S.left source.new)) }
    ensures unread { ¬ ReadsInput (command_of words.now) → source.new ≡ source.old }

    // Nothing is refused without a cause, and only a fault is counted.
    ensures complete { ¬ Rose (S.faults source.old) (S.faults source.new)
        → ¬ Rose (K.faults sink.old) (K.faults sink.new)
        → IfInput (command_of words.now) (S.left source.old) (λ command octets. length octets ≤ MAX_INPUT_OCTETS
        → (result ≡ status_of (verdict_of command octets)) ⊎ (result ≡ Status.NoMemory)) }
    ensures reads_kept { result ≢ Status.ReadFault → S.faults source.new ≡ S.faults source.old }
    ensures writes_kept { result ≢ Status.WriteFault → K.faults sink.new ≡ K.faults sink.old }
{
    leave_none(net);
    let Some(command) = command_from(words) else {
        return Status::Usage;
    };
    let octets = match read_input(alloc, command, source) {
        Ok(octets) => octets,
        Err(InputRefusal::Fault) => return Status::ReadFault,
        Err(InputRefusal::TooLong) => return Status::TooLong,
        Err(InputRefusal::NoMemory) => return Status::NoMemory,
    };
    match answer(alloc, command, octets.as_slice(), sink, net) {
        Ok(verdict) => status_from(verdict),
        Err(WriteRefusal::Fault) => Status::WriteFault,
        Err(WriteRefusal::NoMemory) => Status::NoMemory,
    }
}

/// Reads the input of a command whole. `gen` reads nothing.
#[tactic(auto, unfolding(crate::specs::Runs::input_to))]
fn read_input<S: Source>(
    alloc: Global,
    command: Command,
    source: &mut S,
) -> Result<Vec<u8>, InputRefusal>
    ensures input { IfOk result (λ v. OfOctets (input_to command (S.left source.old)) (λ octets. octets ≡ v.items)) }
    ensures whole { IfOk result (λ v. ReadsWhole (S.left source.old) (S.left source.new) command v.items) }
    ensures short { IfOk result (λ v. vec_len v ≤ MAX_INPUT_OCTETS) }
    ensures long { result ≡ Err InputRefusal.TooLong
        → OfOctets (input_to command (S.left source.old)) (λ octets. MAX_INPUT_OCTETS < length octets) }
    ensures fault { result ≡ Err InputRefusal.Fault → Reads command × Rose (S.faults source.old) (S.faults source.new) }
    ensures kept { result ≢ Err InputRefusal.Fault → S.faults source.new ≡ S.faults source.old }
    ensures unread { ¬ Reads command → source.new ≡ source.old }
{
    match command {
        Command::Gen(_) => Ok(Vec::new(alloc)),
        _ => read_all(alloc, source, MAX_INPUT_OCTETS),
    }
}

/// The status that tells a verdict.
fn status_from(verdict: Reception) -> Status
    ensures { result ≡ status_of verdict }
{
    match verdict {
        Reception::Good => Status::Done,
        Reception::NotJson => Status::NotJson,
        Reception::BadDocument => Status::BadDocument,
        Reception::Refused => Status::Refused,
    }
}
