//! Writing what `run` writes: a network takes the events in turn, and each answer is handed on as it comes.
ghost use Rattle.std.specs.Prelude.{◌≡◌, ◌+◌, ◌++◌, ◌∷◌, [], length, Ok, false, IfOk, OnOk, OnErr, IsTrue};
ghost use Rattle.std.specs.List.{list_all};
ghost use Rattle.std.specs.Io.KnownBytes.{Appends};
ghost use Rattle.config_model.specs.Event.{run_at};
ghost use Rattle.config_types.specs.Form.{has_event_form};
ghost use Rattle.schedule_script.specs.Kept.{AreAlike, ties_in};
ghost use Rattle.net_machine.specs.MachineLaws.Headline.{IsWritten};
ghost use Rattle.net_machine.specs.RunningNodes.Stands.{StandsFor};
ghost use Rattle.machine_model.specs.Events.{event_of};
ghost use Rattle.machine_model.specs.Setup.{opening};
ghost use Rattle.ov_io.specs.Inputs.{TookFront};
ghost use Rattle.ov_io.specs.Pieces.{HasWriteCause, IsOnItsWay};
ghost use Rattle.report.specs.Answers.{tied_answer_lines};
ghost use Rattle.net_machine.specs.MachineMomentLaws.Runs.{answer_tied, tied_moment};
ghost use Rattle.compile_answers.specs.Answers.{WasGiven};
ghost use Rattle.compile_answers.specs.Leaving.{LeftOn, PromisedOn};
ghost use Rattle.top_call.specs.RunAnswers.{run_answer, run_taken};
ghost use Rattle.net_machine.specs.Taken.{HasTaken};
ghost use Rattle.top_call.specs.RunNetworks.{IsLeftOf, TookAnswers, input_of};
ghost use Rattle.top_call.specs.Schedules.{run_text};

use compile_answers::{Question, Reception, Unfit, read_question, valid_of, write_unfit};
use config_check::Valid;
use config_model::{RunInput, read_run};
use config_types::Event;
use net_machine::{Net, leave, leave_none};
use ov_io::{Sink, TextOut, WriteRefusal, write_gathered, write_piece};
use ov_types::Items;
use report::tied_answer_lines;
use serde_json::Value;
use std::alloc::Global;

/// A valid opening configuration, and the events that follow.
#[derive(Drop)]
struct Schedule {
    valid: Valid,
    events: Items<Event>,
}

impl Question for Schedule {
    ghost taken = { run_taken };

    ghost reads = { λ d s. run_at [] d ≡ Ok (input_of s.valid s.events) };

    ghost form = { λ s. IsTrue (list_all has_event_form s.events) };

    #[tactic(auto, using(compile_answers::proofs::Unfitting::fault_unfit, compile_answers::proofs::Unfitting::rule_unfit), unfolding(crate::specs::RunAnswers::run_taken))]
    fn from_value(alloc: Global, value: &Value) -> Result<Self, Unfit> {
        let RunInput { input, events } = read_run(alloc, value)?;
        match valid_of(alloc, input) {
            Ok(valid) => Ok(Schedule { valid, events }),
            Err(unfit) => Err(unfit),
        }
    }
}

/// A network takes an event, and the lines of its answer are handed on.
#[tactic(auto, using(ov_io::proofs::PieceLemmas::took_nothing))]
fn write_step<K: Sink>(
    alloc: Global,
    net: &mut Net,
    event: Event,
    sink: &mut K,
    gathered: &mut TextOut,
) -> Result<(), WriteRefusal>
    requires form { IsTrue (has_event_form event) }
    ensures ok { OnOk result (IsOnItsWay (K.taken sink.old) (K.taken sink.new) gathered.new []
        (gathered.old ++ tied_answer_lines (length net.old.events + 1) event
        (answer_tied (tied_moment net.old.opening net.old.events) (event_of event)))) }
    ensures front { OnErr result (TookFront (K.taken sink.old) (K.taken sink.new)
        (gathered.old ++ tied_answer_lines (length net.old.events + 1) event
        (answer_tied (tied_moment net.old.opening net.old.events) (event_of event)))) }
    ensures cause { HasWriteCause (K.faults sink.old) (K.faults sink.new) result }
    ensures opening { net.new.opening ≡ net.old.opening }
    ensures events { OnOk result (net.new.events ≡ net.old.events ++ event ∷ []) }
    ensures works { OnOk result (net.new.failed ≡ false) }
    ensures state { OnOk result (StandsFor net.new.seats (tied_moment net.new.opening net.new.events).network) }
    ensures ties { OnOk result (AreAlike (ties_in net.new.ties) (tied_moment net.new.opening net.new.events).ties) }
{
    let answer = net.step(event)?;
    let events = net.events();
    let number = events.len();
    tied_answer_lines(alloc, number, &events[number - 1], &answer, gathered)?;
    write_piece(sink, gathered)
}

/// A network without events takes these in turn, and what they answer is written.
#[tactic(auto, unfolding(crate::specs::Schedules::run_text))]
fn write_answers<K: Sink>(
    alloc: Global,
    net: &mut Net,
    events: Vec<Event>,
    sink: &mut K,
) -> Result<(), WriteRefusal>
    requires form { IsTrue (list_all has_event_form events.items) }
    requires begins { net.old.events ≡ [] }
    requires works { net.old.failed ≡ false }
    requires state { StandsFor net.old.seats (tied_moment net.old.opening net.old.events).network }
    requires ties { AreAlike (ties_in net.old.ties) (tied_moment net.old.opening net.old.events).ties }
    ensures ok { OnOk result (Appends (K.taken sink.old) (K.taken sink.new) (run_text net.old.opening events.items)) }
    ensures front { OnErr result (TookFront (K.taken sink.old) (K.taken sink.new)
        (run_text net.old.opening events.items)) }
    ensures cause { HasWriteCause (K.faults sink.old) (K.faults sink.new) result }
    ensures opening { net.new.opening ≡ net.old.opening }
    ensures events { OnOk result (net.new.events ≡ events.items) }
    ensures works { OnOk result (net.new.failed ≡ false) }
    ensures state { OnOk result (StandsFor net.new.seats (tied_moment net.new.opening net.new.events).network) }
    ensures ties { OnOk result (AreAlike (ties_in net.new.ties) (tied_moment net.new.opening net.new.events).ties) }
{
    let mut gathered = TextOut::new(alloc);
    for event in events {
        write_step(alloc, net, event, sink, &mut gathered)?;
    }
    write_gathered(sink, &mut gathered)
}

/// Makes a network, which takes the events in turn, and writes what they answer.
fn run_written<K: Sink>(
    alloc: Global,
    valid: Valid,
    events: Vec<Event>,
    sink: &mut K,
) -> Result<Net, WriteRefusal>
    requires form { IsTrue (list_all has_event_form events.items) }
    ensures ok { OnOk result (Appends (K.taken sink.old) (K.taken sink.new) (run_text valid events.items)) }
    ensures front { OnErr result (TookFront (K.taken sink.old) (K.taken sink.new) (run_text valid events.items)) }
    ensures cause { HasWriteCause (K.faults sink.old) (K.faults sink.new) result }
    ensures took { IfOk result (HasTaken valid events.items) }
{
    let mut net = Net::new(alloc, valid)?;
    write_answers(alloc, &mut net, events, sink)?;
    Ok(net)
}

/// What a valid configuration is.
pub(crate) fn know_valid(valid: &Valid)
    ensures { IsWritten (opening valid.now) }
{
    // (for its clauses: the configuration is valid and of the written form)
    let _topology = valid.topology();
}

/// Writes what `run` answers to an input. The network that took the events is left where all was written.
#[tactic(auto, using(crate::proofs::Ending::run_ends, compile_answers::proofs::Unfitting::unfit_answered), unfolding(crate::specs::RunAnswers::run_answer))]
pub fn answer_run<K: Sink>(
    alloc: Global,
    octets: &[u8],
    sink: &mut K,
    net: &mut Option<Net>,
) -> Result<Reception, WriteRefusal>
    ensures given { IfOk result (λ verdict. WasGiven (run_answer octets.now) verdict
        (K.taken sink.old) (K.taken sink.new)) }
    ensures front { OnErr result (TookFront (K.taken sink.old) (K.taken sink.new) (run_answer octets.now).text) }
    ensures cause { HasWriteCause (K.faults sink.old) (K.faults sink.new) result }
    ensures network { LeftOn (IsLeftOf octets.now) result net.new }
    ensures promise { PromisedOn (TookAnswers octets.now (K.taken sink.old) (K.taken sink.new)) result }
{
    leave_none(net);
    match read_question::<Schedule>(alloc, octets) {
        Ok(Schedule { valid, events }) => {
            // (for its clause: the configuration is valid and of the written form)
            know_valid(&valid);
            let took = run_written(alloc, valid, events.into_vec(), sink)?;
            leave(net, took);
            Ok(Reception::Good)
        }
        Err(unfit) => write_unfit(alloc, unfit, sink),
    }
}
