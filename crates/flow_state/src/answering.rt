//! The answer of `flows`.
ghost use Rattle.std.specs.Prelude.{◌≡◌, ◌<◌, [], Ok, IfOk, OnErr, IsTrue};
ghost use Rattle.std.specs.List.{list_all};
ghost use Rattle.ov_io.specs.Inputs.{TookFront};
ghost use Rattle.ov_io.specs.Pieces.{HasWriteCause};
ghost use Rattle.compile_answers.specs.Answers.{WasGiven};
ghost use Rattle.flow_state.specs.Steps.{flows_at, has_step_form};
ghost use Rattle.flow_state.specs.Laws.{AreAnswered};
ghost use Rattle.flow_state.specs.Replay.{answers, at_start};
ghost use Rattle.flow_state.specs.Answers.{FitsReplay, TookReplies, flows_answer, flows_taken, input_of};

use crate::laws::replays_are_answered;
use crate::replaying::write_replay;
use crate::script_reader::read_flows;
use crate::step::{FlowStep, FlowsInput};
use compile_answers::{Question, Reception, Unfit, read_question, valid_of, write_unfit};
use config_check::Valid;
use ov_io::{Sink, WriteRefusal};
use ov_types::Items;
use serde_json::Value;
use std::alloc::Global;

/// A valid opening configuration, how many flows the table has room for, and the steps that follow.
#[derive(Drop)]
struct AskedReplay {
    valid: Valid,
    capacity: u16,
    steps: Items<FlowStep>,
}

impl Question for AskedReplay {
    ghost taken = { flows_taken };

    ghost reads = { λ d asked. flows_at [] d ≡ Ok (input_of asked.valid asked.capacity asked.steps) };

    ghost form = { FitsReplay };

    #[tactic(auto, using(compile_answers::proofs::Unfitting::fault_unfit, compile_answers::proofs::Unfitting::rule_unfit), unfolding(crate::specs::Answers::flows_taken))]
    fn from_value(alloc: Global, value: &Value) -> Result<Self, Unfit> {
        let FlowsInput {
            input,
            capacity,
            steps,
        } = read_flows(alloc, value)?;
        match valid_of(alloc, input) {
            Ok(valid) => Ok(AskedReplay {
                valid,
                capacity,
                steps,
            }),
            Err(unfit) => Err(unfit),
        }
    }
}

/// What the steps of a replay are answered.
fn know_answers(valid: &Valid, capacity: u16, steps: &[FlowStep])
    requires { IsTrue (list_all has_step_form steps.now) }
    ensures { AreAnswered capacity (at_start valid.now) steps.now (answers capacity steps.now (at_start valid.now)) }
{
    // (for its clauses: the configuration is valid and of the written form)
    let _config = valid.config();
    replays_are_answered();
}

/// Writes what `flows` answers to an input.
#[tactic(auto, using(compile_answers::proofs::Unfitting::unfit_answered), unfolding(crate::specs::Answers::flows_answer))]
pub fn answer_flows<K: Sink>(
    alloc: Global,
    octets: &[u8],
    sink: &mut K,
) -> Result<Reception, WriteRefusal>
    ensures given { IfOk result (λ verdict. WasGiven (flows_answer octets.now) verdict
        (K.taken sink.old) (K.taken sink.new)) }
    ensures front { OnErr result (TookFront (K.taken sink.old) (K.taken sink.new) (flows_answer octets.now).text) }
    ensures cause { HasWriteCause (K.faults sink.old) (K.faults sink.new) result }
    ensures promise { IfOk result (λ verdict. verdict ≡ Reception.Good
        → TookReplies octets.now (K.taken sink.old) (K.taken sink.new)) }
{
    match read_question::<AskedReplay>(alloc, octets) {
        Ok(
            AskedReplay {
                valid,
                capacity,
                steps,
            },
        ) => {
            // (for its clause: what the steps of a replay are answered)
            know_answers(&valid, capacity, steps.as_slice());
            write_replay(alloc, valid, capacity, steps.as_slice(), sink)?;
            Ok(Reception::Good)
        }
        Err(unfit) => write_unfit(alloc, unfit, sink),
    }
}
