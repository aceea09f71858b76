//! Writing what `flows` writes: each line is made, and handed on where enough is gathered.
ghost use Rattle.std.specs.Prelude.{◌<◌, OnOk, OnErr, IsTrue};
ghost use Rattle.std.specs.Io.KnownBytes.{Appends};
ghost use Rattle.std.specs.List.{list_all};
ghost use Rattle.ov_io.specs.Inputs.{TookFront};
ghost use Rattle.ov_io.specs.Pieces.{HasWriteCause};
ghost use Rattle.flow_state.specs.Steps.{has_step_form};
ghost use Rattle.flow_state.specs.Playing.{answers_in, playing};
ghost use Rattle.flow_state.specs.Lines.{flows_text, lines_from};

use crate::lines::push_answer;
use crate::player::Player;
use crate::step::FlowStep;
use config_check::Valid;
use ov_io::{Sink, TextOut, WriteRefusal, write_gathered, write_piece};
use std::alloc::Global;

/// Writes what some steps answer, the first of them with the number 1.
fn write_steps<K: Sink>(
    alloc: Global,
    player: &mut Player,
    steps: &[FlowStep],
    sink: &mut K,
) -> Result<(), WriteRefusal>
    requires { IsTrue (list_all has_step_form steps.now) }
    ensures ok { OnOk result (Appends (K.taken sink.old) (K.taken sink.new)
        (lines_from 1 (answers_in steps.now (playing player.old)))) }
    ensures front { OnErr result (TookFront (K.taken sink.old) (K.taken sink.new)
        (lines_from 1 (answers_in steps.now (playing player.old)))) }
    ensures cause { HasWriteCause (K.faults sink.old) (K.faults sink.new) result }
{
    let mut gathered = TextOut::new(alloc);
    for (index, step) in steps.iter().enumerate() {
        let answer = player.step(alloc, step)?;
        push_answer(alloc, index + 1, &answer, &mut gathered)?;
        write_piece(sink, &mut gathered)?;
    }
    write_gathered(sink, &mut gathered)
}

/// Writes what `flows` writes of a valid configuration, of a table's capacity and of steps.
pub(crate) fn write_replay<K: Sink>(
    alloc: Global,
    valid: Valid,
    capacity: u16,
    steps: &[FlowStep],
    sink: &mut K,
) -> Result<(), WriteRefusal>
    requires capacity { 0 < capacity }
    requires form { IsTrue (list_all has_step_form steps.now) }
    ensures ok { OnOk result (Appends (K.taken sink.old) (K.taken sink.new) (flows_text valid capacity steps.now)) }
    ensures front { OnErr result (TookFront (K.taken sink.old) (K.taken sink.new)
        (flows_text valid capacity steps.now)) }
    ensures cause { HasWriteCause (K.faults sink.old) (K.faults sink.new) result }
{
    let mut player = Player::new(alloc, valid, capacity)?;
    write_steps(alloc, &mut player, steps, sink)
}
