//! The answer of `graceful`.
ghost use Rattle.std.specs.Prelude.{◌≡◌, ◌≢◌, [], Ok, IfOk, OnOk, OnErr};
ghost use Rattle.std.specs.List.{AllByRecursion};
ghost use Rattle.ov_io.specs.Pieces.{HasWriteCause, TookFrontOf, TookText};
ghost use Rattle.decode_answers.specs.Entries.{HasEntryForm};
ghost use Rattle.decode_answers.specs.LogReading.{log_at};
ghost use Rattle.decode_answers.specs.LogAnswers.{TookLog, WritesLog, graceful_verdict, log_in, log_taken};

use crate::entry::LogEntry;
use crate::log_reader::read_log;
use crate::replaying::write_log;
use compile_answers::{Question, Reception, Unfit, read_question, write_unfit};
use ov_io::{Sink, WriteRefusal};
use ov_types::Items;
use serde_json::Value;
use std::alloc::Global;

/// The log of a session.
#[derive(Drop)]
struct Log {
    entries: Items<LogEntry>,
}

impl Question for Log {
    ghost taken = { log_taken };

    ghost reads = { λ d log. log_at [] d ≡ Ok log.entries };

    ghost form = { λ log. AllByRecursion HasEntryForm log.entries };

    #[tactic(auto, using(compile_answers::proofs::Unfitting::fault_unfit), unfolding(crate::specs::LogAnswers::log_taken))]
    fn from_value(alloc: Global, value: &Value) -> Result<Self, Unfit> {
        let entries = read_log(alloc, value)?;
        Ok(Log { entries })
    }
}

/// Writes what `graceful` answers to an input.
#[tactic(auto, unfolding(crate::specs::LogAnswers::log_in))]
pub fn answer_graceful<K: Sink>(
    alloc: Global,
    octets: &[u8],
    sink: &mut K,
) -> Result<Reception, WriteRefusal>
    ensures verdict { IfOk result (λ verdict. verdict ≡ graceful_verdict (log_in octets.now)) }
    ensures unrefused { IfOk result (λ verdict. verdict ≢ Reception.Refused) }
    ensures written { OnOk result (TookText (WritesLog (log_in octets.now)) (K.taken sink.old) (K.taken sink.new)) }
    ensures front { OnErr result (TookFrontOf (WritesLog (log_in octets.now))
        (K.taken sink.old) (K.taken sink.new)) }
    ensures cause { HasWriteCause (K.faults sink.old) (K.faults sink.new) result }
    ensures promise { IfOk result (λ verdict. verdict ≡ Reception.Good
        → TookLog octets.now (K.taken sink.old) (K.taken sink.new)) }
{
    match read_question::<Log>(alloc, octets) {
        Ok(log) => {
            write_log(alloc, log.entries.as_slice(), sink)?;
            Ok(Reception::Good)
        }
        Err(unfit) => write_unfit(alloc, unfit, sink),
    }
}
