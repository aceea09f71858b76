//! The answer of `compile`.
ghost use Rattle.std.specs.Prelude.{◌≡◌, ⊤, [], Ok, IfOk, OnErr};
ghost use Rattle.config_model.specs.Input.{compile_at};
ghost use Rattle.ov_io.specs.Inputs.{TookFront};
ghost use Rattle.ov_io.specs.Pieces.{HasWriteCause};
ghost use Rattle.compile_answers.specs.Answers.{WasGiven, compile_answer, compile_taken, input_of};

use crate::lines::write_tables;
use crate::question::{Question, read_question};
use crate::unfit::{Reception, Unfit, valid_of, write_unfit};
use config_check::Valid;
use config_model::read_compile;
use ov_io::{Sink, WriteRefusal};
use serde_json::Value;
use std::alloc::Global;

impl Question for Valid {
    ghost taken = { compile_taken };

    ghost reads = { λ d valid. compile_at [] d ≡ Ok (input_of valid) };

    ghost form = { λ valid. ⊤ };

    #[tactic(auto, using(crate::proofs::Unfitting::fault_unfit), unfolding(crate::specs::Answers::compile_taken))]
    fn from_value(alloc: Global, value: &Value) -> Result<Self, Unfit> {
        valid_of(alloc, read_compile(alloc, value)?)
    }
}

/// Writes what `compile` answers to an input.
#[tactic(auto, using(crate::proofs::Unfitting::unfit_answered), unfolding(crate::specs::Answers::compile_answer))]
pub fn answer_compile<K: Sink>(
    alloc: Global,
    octets: &[u8],
    sink: &mut K,
) -> Result<Reception, WriteRefusal>
    ensures given { IfOk result (λ verdict. WasGiven (compile_answer octets.now) verdict
        (K.taken sink.old) (K.taken sink.new)) }
    ensures front { OnErr result (TookFront (K.taken sink.old) (K.taken sink.new) (compile_answer octets.now).text) }
    ensures cause { HasWriteCause (K.faults sink.old) (K.faults sink.new) result }
{
    match read_question::<Valid>(alloc, octets) {
        Ok(valid) => {
            write_tables(alloc, &valid, sink)?;
            Ok(Reception::Good)
        }
        Err(unfit) => write_unfit(alloc, unfit, sink),
    }
}
