//! Writing what `reach` writes: each line is made, and handed on where enough is gathered.
ghost use Rattle.std.specs.Prelude.{OnOk, OnErr};
ghost use Rattle.std.specs.Io.KnownBytes.{Appends};
ghost use Rattle.ov_io.specs.Inputs.{TookFront};
ghost use Rattle.ov_io.specs.Pieces.{HasWriteCause};
ghost use Rattle.compile_answers.specs.Outcomes.{reach_text};

use crate::lines::write_one;
use config_check::Valid;
use ov_io::{Sink, TextOut, WriteRefusal, write_gathered};
use ov_types::Packet;
use reach_plain::reach;
use report::OutcomeLines;
use std::alloc::Global;

/// Writes what `reach` writes of a valid configuration and of packets.
#[tactic(auto, unfolding(crate::specs::Outcomes::reach_text))]
pub(crate) fn write_outcomes<K: Sink>(
    alloc: Global,
    valid: &Valid,
    packets: &[Packet],
    sink: &mut K,
) -> Result<(), WriteRefusal>
    ensures ok { OnOk result (Appends (K.taken sink.old) (K.taken sink.new) (reach_text valid.now packets.now)) }
    ensures front { OnErr result (TookFront (K.taken sink.old) (K.taken sink.new) (reach_text valid.now packets.now)) }
    ensures cause { HasWriteCause (K.faults sink.old) (K.faults sink.new) result }
{
    let mut gathered = TextOut::new(alloc);
    for (index, packet) in packets.iter().enumerate() {
        let outcome = reach(valid, *packet);
        let lines = OutcomeLines { number: index + 1 };
        write_one(alloc, &lines, &outcome, sink, &mut gathered)?;
    }
    write_gathered(sink, &mut gathered)
}
