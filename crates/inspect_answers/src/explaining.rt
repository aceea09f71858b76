//! The answer of `why`.
ghost use Rattle.std.specs.Prelude.{◌≡◌, ◌++◌, [], None, Ok, IfOk, OnOk, OnErr, IsTrue};
ghost use Rattle.std.specs.Io.KnownBytes.{Appends};
ghost use Rattle.std.specs.List.{list_all};
ghost use Rattle.ov_io.specs.Inputs.{TookFront};
ghost use Rattle.ov_io.specs.Pieces.{HasWriteCause, IsOnItsWay};
ghost use Rattle.config_types.specs.Form.{has_config_form};
ghost use Rattle.config_model.specs.Input.{reach_at};
ghost use Rattle.config_check.specs.Rules.{first_broken};
ghost use Rattle.compile_answers.specs.Answers.{input_of};
ghost use Rattle.inspect_rules.specs.CauseLines.{cause_line};
ghost use Rattle.inspect_walks.specs.Lines.{step_line};
ghost use Rattle.inspect_walks.specs.TransformModel.Compiled.{compiled_tables};
ghost use Rattle.inspect_walks.specs.Walks.{compiled_agents};
ghost use Rattle.inspect_answers.specs.Answers.{IsAnswer, WasGiven, why_answer, why_taken};
ghost use Rattle.inspect_answers.specs.Explained.{TookExplained, explained_in, explained_text};
ghost use Rattle.inspect_answers.specs.Explained.{has_walk_size, packet_in, packets_from, why_in};
ghost use Rattle.inspect_answers.specs.Runs.{status_of};
ghost use Rattle.inspect_answers.specs.declared.top.Status.TheVariants as Ended;

use crate::verdict::{Verdict, answer_unfit};
use crate::writing::write_each;
use compile_answers::{Question, Unfit, read_question, valid_of, write_one};
use config_check::Valid;
use config_model::{ReachInput, read_reach};
use inspect_changes::LinesOf;
use inspect_json::{ExplainedJson, Form};
use inspect_rules::{Cause, CauseText, causes_of};
use inspect_walks::{Compiled, StepText, TableAgent, ToldStep, agents_of, compiled, walk_of};
use ov_io::{Sink, TextOut, WriteRefusal, write_gathered};
use ov_types::{Items, NoMemory, Outcome, Packet};
use reach_plain::reach;
use report::OutcomeLines;
use serde_json::Value;
use std::alloc::Global;

/// The line of what an outcome comes of, behind the number of the packet.
#[derive(Clone, Copy)]
struct CauseLines {
    number: usize,
}

impl LinesOf<Cause> for CauseLines {
    ghost lines = { λ w cause. cause_line w.number cause };

    #[tactic(auto, unfolding(inspect_rules::specs::CauseLines::cause_line))]
    fn append(&self, _alloc: Global, cause: &Cause, out: &mut TextOut) -> Result<(), NoMemory> {
        let number = self.number;
        let cause = CauseText(*cause);
        write!(out, "{number} {cause}\n")
    }
}

/// The line of a step of a walk, behind the number of the packet.
#[derive(Clone, Copy)]
struct StepLines {
    number: usize,
}

impl LinesOf<ToldStep> for StepLines {
    ghost lines = { λ w step. step_line w.number step };

    #[tactic(auto, unfolding(inspect_walks::specs::Lines::step_line))]
    fn append(&self, _alloc: Global, step: &ToldStep, out: &mut TextOut) -> Result<(), NoMemory> {
        let number = self.number;
        let step = StepText(*step);
        write!(out, "{number} {step}\n")
    }
}

/// Hands on the lines of text of an outcome, of what it comes of and of the walk, behind the number of the packet.
fn write_explained<K: Sink>(
    alloc: Global,
    number: usize,
    outcome: &Outcome,
    causes: &[Cause],
    walk: &[ToldStep],
    sink: &mut K,
    gathered: &mut TextOut,
) -> Result<(), WriteRefusal>
    ensures ok { OnOk result (IsOnItsWay (K.taken sink.old) (K.taken sink.new) gathered.new []
        (gathered.old ++ explained_text number outcome.now causes.now walk.now)) }
    ensures front { OnErr result (TookFront (K.taken sink.old) (K.taken sink.new)
        (gathered.old ++ explained_text number outcome.now causes.now walk.now)) }
    ensures cause { HasWriteCause (K.faults sink.old) (K.faults sink.new) result }
{
    write_one(alloc, &OutcomeLines { number }, outcome, sink, gathered)?;
    write_each(alloc, &CauseLines { number }, causes, sink, gathered)?;
    write_each(alloc, &StepLines { number }, walk, sink, gathered)
}

/// Hands on an outcome, what it comes of and the walk, in a form.
fn write_in<K: Sink>(
    alloc: Global,
    form: Form,
    told: &ExplainedJson<'_>,
    outcome: &Outcome,
    sink: &mut K,
    gathered: &mut TextOut,
) -> Result<(), WriteRefusal>
    ensures ok { OnOk result (IsOnItsWay (K.taken sink.old) (K.taken sink.new) gathered.new [] (gathered.old
        ++ explained_in form told.now.config.now told.now.number outcome.now told.now.causes.now told.now.walk.now)) }
    ensures front { OnErr result (TookFront (K.taken sink.old) (K.taken sink.new) (gathered.old
        ++ explained_in form told.now.config.now told.now.number outcome.now told.now.causes.now told.now.walk.now)) }
    ensures cause { HasWriteCause (K.faults sink.old) (K.faults sink.new) result }
{
    match form {
        Form::Text => write_explained(
            alloc,
            told.number,
            outcome,
            told.causes,
            told.walk,
            sink,
            gathered,
        ),
        Form::Json => write_one(alloc, told, outcome, sink, gathered),
    }
}

/// Hands on the lines of a packet of this number.
#[tactic(auto, using(ov_io::proofs::PieceLemmas::took_nothing))]
fn write_packet<K: Sink>(
    alloc: Global,
    form: Form,
    number: usize,
    valid: &Valid,
    agents: &mut [TableAgent<'_>],
    packet: &Packet,
    sink: &mut K,
    gathered: &mut TextOut,
) -> Result<(), WriteRefusal>
    requires { agents.old ≡ compiled_agents valid.now }
    ensures ok { OnOk result (IsOnItsWay (K.taken sink.old) (K.taken sink.new) gathered.new []
        (gathered.old ++ packet_in form valid.now number packet.now)) }
    ensures front { OnErr result (TookFront (K.taken sink.old) (K.taken sink.new)
        (gathered.old ++ packet_in form valid.now number packet.now)) }
    ensures cause { HasWriteCause (K.faults sink.old) (K.faults sink.new) result }
    ensures kept { agents.new ≡ agents.old }
    ensures sized { OnOk result (IsTrue (has_walk_size valid.now packet.now)) }
{
    let walk = walk_of(alloc, valid, agents, *packet)?;
    let causes = causes_of(alloc, valid, *packet)?;
    let outcome = reach(valid, *packet);
    let told = ExplainedJson {
        config: valid.config(),
        number,
        causes: causes.as_slice(),
        walk: walk.as_slice(),
    };
    write_in(alloc, form, &told, &outcome, sink, gathered)
}

/// Hands on the lines of each packet, in order.
fn write_packets<K: Sink>(
    alloc: Global,
    form: Form,
    valid: &Valid,
    agents: &mut [TableAgent<'_>],
    packets: &[Packet],
    sink: &mut K,
    gathered: &mut TextOut,
) -> Result<(), WriteRefusal>
    requires { agents.old ≡ compiled_agents valid.now }
    ensures ok { OnOk result (IsOnItsWay (K.taken sink.old) (K.taken sink.new) gathered.new []
        (gathered.old ++ packets_from form valid.now 1 packets.now)) }
    ensures front { OnErr result (TookFront (K.taken sink.old) (K.taken sink.new)
        (gathered.old ++ packets_from form valid.now 1 packets.now)) }
    ensures cause { HasWriteCause (K.faults sink.old) (K.faults sink.new) result }
    ensures sized { OnOk result (IsTrue (list_all (has_walk_size valid.now) packets.now)) }
{
    for (index, packet) in packets.iter().enumerate() {
        write_packet(
            alloc,
            form,
            index + 1,
            valid,
            agents,
            packet,
            sink,
            gathered,
        )?;
    }
    Ok(())
}

/// Writes the outcome of each packet, what it comes of and its walk over these agents.
#[tactic(auto, unfolding(crate::specs::Explained::why_in))]
fn write_over<K: Sink>(
    alloc: Global,
    form: Form,
    valid: &Valid,
    agents: &mut [TableAgent<'_>],
    packets: &[Packet],
    sink: &mut K,
) -> Result<(), WriteRefusal>
    requires { agents.old ≡ compiled_agents valid.now }
    ensures ok { OnOk result (Appends (K.taken sink.old) (K.taken sink.new) (why_in form valid.now packets.now)) }
    ensures front { OnErr result (TookFront (K.taken sink.old) (K.taken sink.new) (why_in form valid.now packets.now)) }
    ensures cause { HasWriteCause (K.faults sink.old) (K.faults sink.new) result }
    ensures sized { OnOk result (IsTrue (list_all (has_walk_size valid.now) packets.now)) }
{
    let mut gathered = TextOut::new(alloc);
    write_packets(alloc, form, valid, agents, packets, sink, &mut gathered)?;
    write_gathered(sink, &mut gathered)
}

/// Writes the outcome of each packet, what it comes of and its walk over the tables that the configuration was compiled
/// to.
#[tactic(auto, using(ov_io::proofs::PieceLemmas::took_nothing))]
fn write_over_tables<K: Sink>(
    alloc: Global,
    form: Form,
    valid: &Valid,
    tables: &Compiled,
    packets: &[Packet],
    sink: &mut K,
) -> Result<(), WriteRefusal>
    requires { tables.now ≡ compiled_tables valid.now }
    ensures ok { OnOk result (Appends (K.taken sink.old) (K.taken sink.new) (why_in form valid.now packets.now)) }
    ensures front { OnErr result (TookFront (K.taken sink.old) (K.taken sink.new) (why_in form valid.now packets.now)) }
    ensures cause { HasWriteCause (K.faults sink.old) (K.faults sink.new) result }
    ensures sized { OnOk result (IsTrue (list_all (has_walk_size valid.now) packets.now)) }
{
    let mut agents = agents_of(alloc, valid, tables)?;
    write_over(alloc, form, valid, agents.as_mut_slice(), packets, sink)
}

/// Compiles the tables once, and writes the outcome of each packet, what it comes of and its walk.
#[tactic(auto, using(ov_io::proofs::PieceLemmas::took_nothing))]
fn write_why<K: Sink>(
    alloc: Global,
    form: Form,
    valid: &Valid,
    packets: &[Packet],
    sink: &mut K,
) -> Result<(), WriteRefusal>
    ensures ok { OnOk result (Appends (K.taken sink.old) (K.taken sink.new) (why_in form valid.now packets.now)) }
    ensures front { OnErr result (TookFront (K.taken sink.old) (K.taken sink.new) (why_in form valid.now packets.now)) }
    ensures cause { HasWriteCause (K.faults sink.old) (K.faults sink.new) result }
    ensures sized { OnOk result (IsTrue (list_all (has_walk_size valid.now) packets.now)) }
{
    let tables = compiled(alloc, valid)?;
    write_over_tables(alloc, form, valid, &tables, packets, sink)
}

/// Packets, and the valid configuration that decides them.
#[derive(Drop)]
struct AskedReasons {
    valid: Valid,
    packets: Items<Packet>,
}

impl Question for AskedReasons {
    ghost taken = { why_taken };

    ghost reads = { λ d asked. reach_at [] d
        ≡ Ok (record { input = input_of asked.valid; packets = asked.packets }) };

    ghost form = { λ asked. IsTrue (has_config_form asked.valid.config)
        × (first_broken asked.valid.topology asked.valid.config ≡ None) };

    #[tactic(auto, using(compile_answers::proofs::Unfitting::fault_unfit, compile_answers::proofs::Unfitting::rule_unfit), unfolding(crate::specs::Answers::why_taken))]
    fn from_value(alloc: Global, value: &Value) -> Result<Self, Unfit> {
        let ReachInput { input, packets } = read_reach(alloc, value)?;
        match valid_of(alloc, input) {
            Ok(valid) => Ok(AskedReasons { valid, packets }),
            Err(unfit) => Err(unfit),
        }
    }
}

/// Writes what `why` answers to an input.
#[tactic(auto, using(crate::proofs::Unfitting::unfit_judged), unfolding(crate::specs::Answers::why_answer))]
pub(crate) fn answer_why<K: Sink>(
    alloc: Global,
    form: Form,
    octets: &[u8],
    sink: &mut K,
) -> Result<Verdict, WriteRefusal>
    ensures given { IfOk result (λ verdict. WasGiven (why_answer form octets.now) verdict
        (K.taken sink.old) (K.taken sink.new)) }
    ensures front { OnErr result (TookFront (K.taken sink.old) (K.taken sink.new) (why_answer form octets.now).text) }
    ensures cause { HasWriteCause (K.faults sink.old) (K.faults sink.new) result }
    ensures promise { IfOk result (λ verdict. IsAnswer verdict
        → (status_of verdict ≡ Ended.Done) × TookExplained form octets.now (K.taken sink.old) (K.taken sink.new)) }
{
    match read_question::<AskedReasons>(alloc, octets) {
        Ok(AskedReasons { valid, packets }) => {
            write_why(alloc, form, &valid, packets.as_slice(), sink)?;
            Ok(Verdict::Good)
        }
        Err(unfit) => answer_unfit(alloc, unfit, sink),
    }
}
