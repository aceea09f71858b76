//! What an input is found to be, and the one line of what is not fit.
ghost use Rattle.std.specs.Prelude.{◌≡◌, ◌≢◌, ℕ, List, None, IfOk, IfErr, OnOk, OnErr, IsTrue};
ghost use Rattle.config_types.specs.Form.{has_topology_form, has_config_form};
ghost use Rattle.config_check.specs.Rules.{first_broken};
ghost use Rattle.ov_io.specs.Inputs.{TookFront};
ghost use Rattle.ov_io.specs.Pieces.{HasWriteCause};
ghost use Rattle.compile_answers.specs.Answers.{DocumentAnswer, IsAnswered, IsUnfit, WasGiven, answer_checked};
ghost use Rattle.compile_answers.specs.Answers.{taken_valid, unfit_by};
ghost use Rattle.compile_answers.specs.declared.unfit.Unfit.TheVariants as unfits;

use config_check::{CheckRefusal, Refusal, Valid, check};
use config_model::{CompileInput, DocFault, ReadRefusal};
use ov_io::{Sink, TextOut, WriteRefusal, write_all};
use ov_types::NoMemory;
use report::{doc_fault_lines, refusal_lines};
use std::alloc::Global;

/// What an input is found to be.
#[derive(Clone, Copy)]
pub enum Reception {
    Good,
    NotJson,
    BadDocument,
    Refused,
}

/// Why a document is not answered with lines of its own: what its one line tells, or want of memory.
#[derive(Drop)]
pub enum Unfit {
    NotJson,
    BadDocument(DocFault),
    Refused(Refusal),
    NoMemory,
}

impl From<ReadRefusal> for Unfit {
    ghost from_gives = { λ e unfit. unfit ≡ unfit_by e };

    fn from(e: ReadRefusal) -> Unfit {
        match e {
            ReadRefusal::Doc(fault) => Unfit::BadDocument(fault),
            ReadRefusal::NoMemory => Unfit::NoMemory,
        }
    }
}

impl From<NoMemory> for Unfit {
    ghost from_gives = { λ _ unfit. unfit ≡ unfits.NoMemory };

    fn from(_e: NoMemory) -> Unfit {
        Unfit::NoMemory
    }
}

/// Writes the one line of what is not fit.
#[tactic(auto, using(ov_io::proofs::PieceLemmas::took_nothing))]
pub fn write_unfit<K: Sink>(
    alloc: Global,
    unfit: Unfit,
    sink: &mut K,
) -> Result<Reception, WriteRefusal>
    ensures given { (answer : DocumentAnswer) → IsAnswered unfit answer
        → IfOk result (λ verdict. WasGiven answer verdict (K.taken sink.old) (K.taken sink.new)) }
    ensures front { (answer : DocumentAnswer) → IsAnswered unfit answer
        → OnErr result (TookFront (K.taken sink.old) (K.taken sink.new) answer.text) }
    ensures cause { HasWriteCause (K.faults sink.old) (K.faults sink.new) result }
    ensures unfit { IfOk result (λ verdict. verdict ≢ Reception.Good) }
{
    match unfit {
        Unfit::NotJson => {
            write_all(sink, b"not json\n")?;
            Ok(Reception::NotJson)
        }
        Unfit::BadDocument(fault) => {
            let mut line = TextOut::new(alloc);
            doc_fault_lines(alloc, &fault, &mut line)?;
            write_all(sink, line.octets())?;
            Ok(Reception::BadDocument)
        }
        Unfit::Refused(refusal) => {
            let mut line = TextOut::new(alloc);
            refusal_lines(alloc, &refusal, &mut line)?;
            write_all(sink, line.octets())?;
            Ok(Reception::Refused)
        }
        Unfit::NoMemory => Err(WriteRefusal::NoMemory),
    }
}

/// The valid configuration that a command takes, with its topology.
#[tactic(auto, using(crate::proofs::Unfitting::no_memory))]
pub fn valid_of(alloc: Global, input: CompileInput) -> Result<Valid, Unfit>
    requires topology_form { IsTrue (has_topology_form input.topology) }
    requires config_form { IsTrue (has_config_form input.config) }
    ensures ok { IfOk result (λ valid. valid ≡ record { topology = input.topology; config = input.config }) }
    ensures valid { OnOk result (first_broken input.topology input.config ≡ None) }
    ensures unfit { IfErr result (λ unfit. (text : List ℕ)
        → IsAnswered unfit (answer_checked (first_broken input.topology input.config) text)) }
    ensures untaken { IfErr result (λ unfit. IsUnfit unfit (taken_valid (λ x. x) input)) }
{
    match check(alloc, input.topology, input.config) {
        Ok(valid) => Ok(valid),
        Err(CheckRefusal::Rule(refusal)) => Err(Unfit::Refused(refusal)),
        Err(CheckRefusal::NoMemory) => Err(Unfit::NoMemory),
    }
}
