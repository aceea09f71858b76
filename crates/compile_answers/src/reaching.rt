//! The answer of `reach`.
ghost use Rattle.std.specs.Prelude.{◌≡◌, ⊤, [], Ok, IfOk, OnErr};
ghost use Rattle.config_model.specs.Input.{reach_at};
ghost use Rattle.ov_io.specs.Inputs.{TookFront};
ghost use Rattle.ov_io.specs.Pieces.{HasWriteCause};
ghost use Rattle.compile_answers.specs.Answers.{WasGiven, input_of, reach_answer, reach_taken};

use crate::outcomes::write_outcomes;
use crate::question::{Question, read_question};
use crate::unfit::{Reception, Unfit, valid_of, write_unfit};
use config_check::Valid;
use config_model::{ReachInput, read_reach};
use ov_io::{Sink, WriteRefusal};
use ov_types::{Items, Packet};
use serde_json::Value;
use std::alloc::Global;

/// Packets, and the valid configuration that decides them.
#[derive(Drop)]
struct AskedPackets {
    valid: Valid,
    packets: Items<Packet>,
}

impl Question for AskedPackets {
    ghost taken = { reach_taken };

    ghost reads = { λ d asked. reach_at [] d
        ≡ Ok (record { input = input_of asked.valid; packets = asked.packets }) };

    ghost form = { λ asked. ⊤ };

    #[tactic(auto, using(crate::proofs::Unfitting::fault_unfit, crate::proofs::Unfitting::rule_unfit), unfolding(crate::specs::Answers::reach_taken))]
    fn from_value(alloc: Global, value: &Value) -> Result<Self, Unfit> {
        let ReachInput { input, packets } = read_reach(alloc, value)?;
        match valid_of(alloc, input) {
            Ok(valid) => Ok(AskedPackets { valid, packets }),
            Err(unfit) => Err(unfit),
        }
    }
}

/// Writes what `reach` answers to an input.
#[tactic(auto, using(crate::proofs::Unfitting::unfit_answered), unfolding(crate::specs::Answers::reach_answer))]
pub fn answer_reach<K: Sink>(
    alloc: Global,
    octets: &[u8],
    sink: &mut K,
) -> Result<Reception, WriteRefusal>
    ensures given { IfOk result (λ verdict. WasGiven (reach_answer octets.now) verdict
        (K.taken sink.old) (K.taken sink.new)) }
    ensures front { OnErr result (TookFront (K.taken sink.old) (K.taken sink.new) (reach_answer octets.now).text) }
    ensures cause { HasWriteCause (K.faults sink.old) (K.faults sink.new) result }
{
    match read_question::<AskedPackets>(alloc, octets) {
        Ok(AskedPackets { valid, packets }) => {
            write_outcomes(alloc, &valid, packets.as_slice(), sink)?;
            Ok(Reception::Good)
        }
        Err(unfit) => write_unfit(alloc, unfit, sink),
    }
}
