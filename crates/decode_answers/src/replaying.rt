//! Writing what a log answers: what each entry answers is handed on where enough is gathered.
ghost use Rattle.std.specs.Prelude.{[], OnOk, OnErr};
ghost use Rattle.std.specs.List.{AllByRecursion};
ghost use Rattle.ov_io.specs.Pieces.{HasWriteCause, TookFrontOf, TookText};
ghost use Rattle.bgp_restart.specs.Keeping.{StandsFor};
ghost use Rattle.decode_answers.specs.Entries.{HasEntryForm};
ghost use Rattle.decode_answers.specs.Logs.{IsLogText};

use crate::entries::push_entry;
use crate::entry::LogEntry;
use bgp_restart::Restart;
use ov_io::{Sink, TextOut, WriteRefusal, write_gathered, write_piece};
use std::alloc::Global;

/// Writes what the entries of a log answer, the first of them with the number 1, to a session that nothing came of yet.
fn write_entries<K: Sink>(
    alloc: Global,
    log: &[LogEntry],
    restart: &mut Restart,
    sink: &mut K,
) -> Result<(), WriteRefusal>
    requires form { AllByRecursion HasEntryForm log.now }
    requires first { StandsFor [] restart.old }
    ensures ok { OnOk result (TookText (IsLogText [] 1 log.now) (K.taken sink.old) (K.taken sink.new)) }
    ensures front { OnErr result (TookFrontOf (IsLogText [] 1 log.now) (K.taken sink.old) (K.taken sink.new)) }
    ensures cause { HasWriteCause (K.faults sink.old) (K.faults sink.new) result }
{
    let mut gathered = TextOut::new(alloc);
    for (index, entry) in log.iter().enumerate() {
        push_entry(alloc, entry, index + 1, restart, &mut gathered)?;
        write_piece(sink, &mut gathered)?;
    }
    write_gathered(sink, &mut gathered)
}

/// Writes what a log answers.
pub(crate) fn write_log<K: Sink>(
    alloc: Global,
    log: &[LogEntry],
    sink: &mut K,
) -> Result<(), WriteRefusal>
    requires form { AllByRecursion HasEntryForm log.now }
    ensures ok { OnOk result (TookText (IsLogText [] 1 log.now) (K.taken sink.old) (K.taken sink.new)) }
    ensures front { OnErr result (TookFrontOf (IsLogText [] 1 log.now) (K.taken sink.old) (K.taken sink.new)) }
    ensures cause { HasWriteCause (K.faults sink.old) (K.faults sink.new) result }
{
    let mut restart = Restart::new(alloc);
    write_entries(alloc, log, &mut restart, sink)
}
