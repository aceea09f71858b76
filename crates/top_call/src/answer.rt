//! The answer to an input.
ghost use Rattle.std.specs.Prelude.{◌≡◌, ◌≢◌, None, IfOk, OnOk, OnErr};
ghost use Rattle.ov_io.specs.Pieces.{HasWriteCause, TookFrontOf, TookText};
ghost use Rattle.top_call.specs.Answers.{Writes, verdict_of};
ghost use Rattle.top_call.specs.Commands.{IsCommand};
ghost use Rattle.top_call.specs.Networks.{LeavesOn, PromisesOn};

use crate::command::Command;
use crate::constraining::answer_constrain;
use crate::generating::answer_gen;
use crate::running::answer_run;
use compile_answers::{Reception, answer_compile, answer_reach, answer_scale};
use decode_answers::{answer_decode, answer_graceful};
use flow_state::answer_flows;
use net_machine::Net;
use ov_io::{Sink, WriteRefusal};
use std::alloc::Global;

/// Writes what a command answers to an input, as it is made, and tells what the input is found to be. `constrain`, `run`
/// and `gen` leave their network.
#[tactic(auto, using(crate::proofs::Left::left_or_none), unfolding(crate::specs::Answers::verdict_of, crate::specs::Answers::Writes))]
pub(crate) fn answer<K: Sink>(
    alloc: Global,
    command: Command,
    octets: &[u8],
    sink: &mut K,
    net: &mut Option<Net>,
) -> Result<Reception, WriteRefusal>
    requires command { IsCommand command }
    requires none { net.old ≡ None }
    ensures verdict { IfOk result (λ verdict. verdict ≡ verdict_of command octets.now) }
    ensures digits { command ≡ Command.Decode
        → IfOk result (λ verdict. (verdict ≢ Reception.BadDocument) × (verdict ≢ Reception.Refused)) }
    ensures log { command ≡ Command.Graceful → IfOk result (λ verdict. verdict ≢ Reception.Refused) }
    ensures written { OnOk result (TookText (Writes command octets.now) (K.taken sink.old) (K.taken sink.new)) }
    ensures front { OnErr result (TookFrontOf (Writes command octets.now) (K.taken sink.old) (K.taken sink.new)) }
    ensures cause { HasWriteCause (K.faults sink.old) (K.faults sink.new) result }
    ensures network { LeavesOn command octets.now result net.new }
    ensures promise { PromisesOn command octets.now result (K.taken sink.old) (K.taken sink.new) }
{
    match command {
        Command::Compile => answer_compile(alloc, octets, sink),
        Command::Reach => answer_reach(alloc, octets, sink),
        Command::Scale => answer_scale(alloc, octets, sink),
        Command::Constrain => answer_constrain(alloc, octets, sink, net),
        Command::Graceful => answer_graceful(alloc, octets, sink),
        Command::Flows => answer_flows(alloc, octets, sink),
        Command::Run => answer_run(alloc, octets, sink, net),
        Command::Decode => answer_decode(alloc, octets, sink),
        Command::Gen(n) => answer_gen(alloc, n, sink, net),
    }
}
