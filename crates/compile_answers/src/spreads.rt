//! Writing what `scale` writes: each line is made, and handed on where enough is gathered.
ghost use Rattle.std.specs.Prelude.{OnOk, OnErr};
ghost use Rattle.std.specs.Io.KnownBytes.{Appends};
ghost use Rattle.ov_io.specs.Inputs.{TookFront};
ghost use Rattle.ov_io.specs.Pieces.{HasWriteCause};
ghost use Rattle.compile_answers.specs.Spreads.{scale_text};

use crate::lines::write_one;
use config_check::Valid;
use ov_io::{Sink, TextOut, WriteRefusal, write_gathered};
use ov_types::Packet;
use report::SpreadLines;
use scale_out::{Groups, scale_reach};
use std::alloc::Global;

/// Writes what `scale` writes of a valid configuration, of groups and of packets.
#[tactic(auto, unfolding(crate::specs::Spreads::scale_text))]
pub(crate) fn write_spreads<K: Sink>(
    alloc: Global,
    valid: &Valid,
    groups: &Groups,
    packets: &[Packet],
    sink: &mut K,
) -> Result<(), WriteRefusal>
    ensures ok { OnOk result (Appends (K.taken sink.old) (K.taken sink.new)
        (scale_text valid.now groups.now packets.now)) }
    ensures front { OnErr result (TookFront (K.taken sink.old) (K.taken sink.new)
        (scale_text valid.now groups.now packets.now)) }
    ensures cause { HasWriteCause (K.faults sink.old) (K.faults sink.new) result }
{
    let mut gathered = TextOut::new(alloc);
    for (index, packet) in packets.iter().enumerate() {
        let spread = scale_reach(valid, groups, *packet);
        let lines = SpreadLines { number: index + 1 };
        write_one(alloc, &lines, &spread, sink, &mut gathered)?;
    }
    write_gathered(sink, &mut gathered)
}
