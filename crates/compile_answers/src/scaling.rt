//! The answer of `scale`.
ghost use Rattle.std.specs.Prelude.{◌≡◌, ⊤, [], Ok, IfOk, OnErr};
ghost use Rattle.ov_io.specs.Inputs.{TookFront};
ghost use Rattle.ov_io.specs.Pieces.{HasWriteCause};
ghost use Rattle.scale_out.specs.Reading.{scale_at};
ghost use Rattle.compile_answers.specs.Answers.{WasGiven, input_of, scale_answer, scale_taken};

use crate::question::{Question, read_question};
use crate::spreads::write_spreads;
use crate::unfit::{Reception, Unfit, valid_of, write_unfit};
use config_check::Valid;
use ov_io::{Sink, WriteRefusal};
use ov_types::{Items, Packet};
use scale_out::{Groups, ScaleInput, read_scale};
use serde_json::Value;
use std::alloc::Global;

/// Packets, the valid configuration that decides them, and the members of its services.
#[derive(Drop)]
struct AskedVisits {
    valid: Valid,
    groups: Groups,
    packets: Items<Packet>,
}

impl Question for AskedVisits {
    ghost taken = { scale_taken };

    ghost reads = { λ d asked. scale_at [] d
        ≡ Ok (record { input = input_of asked.valid; groups = asked.groups; packets = asked.packets }) };

    ghost form = { λ asked. ⊤ };

    #[tactic(auto, using(crate::proofs::Unfitting::fault_unfit, crate::proofs::Unfitting::rule_unfit), unfolding(crate::specs::Answers::scale_taken))]
    fn from_value(alloc: Global, value: &Value) -> Result<Self, Unfit> {
        let ScaleInput {
            input,
            groups,
            packets,
        } = read_scale(alloc, value)?;
        match valid_of(alloc, input) {
            Ok(valid) => Ok(AskedVisits {
                valid,
                groups,
                packets,
            }),
            Err(unfit) => Err(unfit),
        }
    }
}

/// Writes what `scale` answers to an input.
#[tactic(auto, using(crate::proofs::Unfitting::unfit_answered), unfolding(crate::specs::Answers::scale_answer))]
pub fn answer_scale<K: Sink>(
    alloc: Global,
    octets: &[u8],
    sink: &mut K,
) -> Result<Reception, WriteRefusal>
    ensures given { IfOk result (λ verdict. WasGiven (scale_answer octets.now) verdict
        (K.taken sink.old) (K.taken sink.new)) }
    ensures front { OnErr result (TookFront (K.taken sink.old) (K.taken sink.new) (scale_answer octets.now).text) }
    ensures cause { HasWriteCause (K.faults sink.old) (K.faults sink.new) result }
{
    match read_question::<AskedVisits>(alloc, octets) {
        Ok(
            AskedVisits {
                valid,
                groups,
                packets,
            },
        ) => {
            write_spreads(alloc, &valid, &groups, packets.as_slice(), sink)?;
            Ok(Reception::Good)
        }
        Err(unfit) => write_unfit(alloc, unfit, sink),
    }
}
