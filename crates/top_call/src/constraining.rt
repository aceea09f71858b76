//! The answer of `constrain`.
ghost use Rattle.std.specs.Prelude.{◌≡◌, ◌≢◌, Ok, IfOk, OnOk, OnErr};
ghost use Rattle.std.specs.Io.KnownBytes.{Appends};
ghost use Rattle.compile_answers.specs.Answers.{WasGiven};
ghost use Rattle.net_machine.specs.RunningNodes.Stands.{moment};
ghost use Rattle.ov_io.specs.Inputs.{TookFront};
ghost use Rattle.ov_io.specs.Pieces.{HasWriteCause};
ghost use Rattle.top_call.specs.ConstraintAnswers.{constrain_answer};
ghost use Rattle.top_call.specs.Constraint.{constrain_text, settling};
ghost use Rattle.top_call.specs.ConstraintNetworks.{HasSettled, IsLeftSettled, NoneNeedsMore, TookConstraint};

use crate::running::know_valid;
use crate::sending::write_constraint;
use compile_answers::{Reception, read_question, write_unfit};
use config_check::Valid;
use config_types::Event;
use net_machine::{Net, leave};
use ov_io::{Sink, WriteRefusal};
use ov_types::NoMemory;
use std::alloc::Global;

/// A network in which the nodes of a valid configuration have settled.
#[tactic(auto, unfolding(config_types::specs::Form::has_event_form))]
fn settled(alloc: Global, valid: Valid) -> Result<Net, NoMemory>
    ensures { IfOk result (HasSettled valid) }
{
    let mut net = Net::new(alloc, valid)?;
    net.step(Event::Settle)?;
    Ok(net)
}

/// A network settles, and what its control nodes ask and send is written.
#[tactic(auto, unfolding(crate::specs::Constraint::constrain_text))]
fn settled_and_written<K: Sink>(
    alloc: Global,
    valid: Valid,
    sink: &mut K,
) -> Result<Net, WriteRefusal>
    ensures ok { OnOk result (Appends (K.taken sink.old) (K.taken sink.new) (constrain_text valid)) }
    ensures front { OnErr result (TookFront (K.taken sink.old) (K.taken sink.new) (constrain_text valid)) }
    ensures cause { HasWriteCause (K.faults sink.old) (K.faults sink.new) result }
    ensures settled { IfOk result (HasSettled valid) }
    ensures enough { OnOk result (NoneNeedsMore (moment valid settling)) }
{
    let net = settled(alloc, valid)?;
    write_constraint(alloc, &net, sink)?;
    Ok(net)
}

/// Writes what `constrain` answers to an input. The network that has settled is left where all was written, and else none
/// is.
#[tactic(auto, using(crate::proofs::ConstraintEnding::constrain_ends, compile_answers::proofs::Unfitting::unfit_answered), unfolding(crate::specs::ConstraintAnswers::constrain_answer))]
pub fn answer_constrain<K: Sink>(
    alloc: Global,
    octets: &[u8],
    sink: &mut K,
    net: &mut Option<Net>,
) -> Result<Reception, WriteRefusal>
    ensures given { IfOk result (λ verdict. WasGiven (constrain_answer octets.now) verdict
        (K.taken sink.old) (K.taken sink.new)) }
    ensures front { OnErr result (TookFront (K.taken sink.old) (K.taken sink.new) (constrain_answer octets.now).text) }
    ensures cause { HasWriteCause (K.faults sink.old) (K.faults sink.new) result }
    ensures network { result ≡ Ok Reception.Good → IsLeftSettled octets.now net.new }
    ensures no_network { result ≢ Ok Reception.Good → net.new ≡ net.old }
    ensures promise { result ≡ Ok Reception.Good → TookConstraint octets.now (K.taken sink.old) (K.taken sink.new) }
{
    match read_question::<Valid>(alloc, octets) {
        Ok(valid) => {
            // (for its clause: the configuration is valid and of the written form)
            know_valid(&valid);
            let settled = settled_and_written(alloc, valid, sink)?;
            leave(net, settled);
            Ok(Reception::Good)
        }
        Err(unfit) => write_unfit(alloc, unfit, sink),
    }
}
