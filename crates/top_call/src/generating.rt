//! Writing what `gen` writes: a network takes the events of a scenario, and what it answers is summed up.
ghost use Rattle.std.specs.Prelude.{◌≡◌, ◌≤◌, IfOk, IfErr, OnOk, OnErr, IsTrue, length, None};
ghost use Rattle.std.specs.List.{list_all};
ghost use Rattle.std.specs.Io.KnownBytes.{Appends};
ghost use Rattle.config_check.specs.Rules.{first_broken};
ghost use Rattle.config_types.specs.Form.{has_event_form};
ghost use Rattle.config_types.specs.Form.{has_config_form, has_topology_form};
ghost use Rattle.ov_io.specs.Inputs.{TookFront};
ghost use Rattle.ov_io.specs.Pieces.{HasWriteCause};
ghost use Rattle.scenario_gen.specs.Scenario.{scenario};
ghost use Rattle.top_call.specs.Scenarios.{opening, schedule};
ghost use Rattle.top_call.specs.Tallies.{tally};
ghost use Rattle.compile_answers.specs.Answers.{IsAnswered, WasGiven, answer_good};
ghost use Rattle.compile_answers.specs.Leaving.{LeftOn, PromisedOn};
ghost use Rattle.top_call.specs.ScenarioAnswers.{IsLeftOfScenario, TookSummary, gen_answer};
ghost use Rattle.top_call.specs.Generating.{summary_of, summary_text};

use crate::tally::Tally;
use crate::tallying::{Ran, run_counted};
use crate::traces::with_traces;
use compile_answers::{Reception, Unfit, valid_of, write_unfit};
use config_check::Valid;
use config_model::CompileInput;
use config_types::Event;
use net_machine::{Net, leave, leave_none};
use ov_io::{Sink, TextOut, WriteRefusal, write_all};
use ov_types::NoMemory;
use report::summary_lines;
use scenario_gen::{Scenario, scenario, tenants};
use std::alloc::Global;

/// A scenario: what is checked of it, what is run, and how many networks and ports it has.
#[derive(Drop)]
struct Made {
    input: CompileInput,
    events: Vec<Event>,
    networks: usize,
    ports: usize,
}

/// The scenario of a number. Only want of memory keeps it from being made.
fn make(alloc: Global, n: u16) -> Result<Made, NoMemory>
    requires first { 1 ≤ n }
    requires last { n ≤ 999 }
    ensures topology { IfOk result (λ m. m.input.topology ≡ (scenario n).topology) }
    ensures config { IfOk result (λ m. m.input.config ≡ (scenario n).config) }
    ensures topology_form { IfOk result (λ m. IsTrue (has_topology_form m.input.topology)) }
    ensures config_form { IfOk result (λ m. IsTrue (has_config_form m.input.config)) }
    ensures events { IfOk result (λ m. m.events.items ≡ schedule n) }
    ensures form { IfOk result (λ m. IsTrue (list_all has_event_form m.events.items)) }
    ensures networks { IfOk result (λ m. m.networks ≡ length (scenario n).config.networks) }
    ensures ports { IfOk result (λ m. m.ports ≡ length (scenario n).config.ports) }
{
    let Scenario {
        topology,
        config,
        events,
        packets,
    } = scenario(alloc, n)?;
    let networks = config.networks.len();
    let ports = config.ports.len();
    let input = CompileInput { topology, config };
    let events = with_traces(events.into_vec(), packets.into_vec())?;
    Ok(Made {
        input,
        events,
        networks,
        ports,
    })
}

/// Writes the summary of a scenario that was run.
#[tactic(auto, using(ov_io::proofs::PieceLemmas::took_nothing))]
fn write_summary<K: Sink>(
    alloc: Global,
    n: u16,
    networks: usize,
    ports: usize,
    tally: &Tally,
    sink: &mut K,
) -> Result<(), WriteRefusal>
    requires first { 1 ≤ n }
    requires networks { networks ≡ length (scenario n).config.networks }
    requires ports { ports ≡ length (scenario n).config.ports }
    ensures ok { OnOk result (Appends (K.taken sink.old) (K.taken sink.new) (summary_of n tally.now)) }
    ensures front { OnErr result (TookFront (K.taken sink.old) (K.taken sink.new) (summary_of n tally.now)) }
    ensures cause { HasWriteCause (K.faults sink.old) (K.faults sink.new) result }
{
    let mut lines = TextOut::new(alloc);
    let uses = usize::from(tenants(n));
    summary_lines(
        alloc,
        n,
        networks,
        ports,
        uses,
        tally.rounds,
        tally.delivered,
        tally.agreed,
        &mut lines,
    )?;
    write_all(sink, lines.octets())?;
    Ok(())
}

/// The configuration of a scenario, with its topology, where it is valid.
#[tactic(auto, unfolding(crate::specs::ScenarioAnswers::gen_answer))]
fn valid_scenario(alloc: Global, n: u16, input: CompileInput) -> Result<Valid, Unfit>
    requires topology { input.topology ≡ (scenario n).topology }
    requires config { input.config ≡ (scenario n).config }
    requires topology_form { IsTrue (has_topology_form input.topology) }
    requires config_form { IsTrue (has_config_form input.config) }
    ensures valid { IfOk result (λ valid. valid ≡ opening n) }
    ensures kept { OnOk result (first_broken (scenario n).topology (scenario n).config ≡ None) }
    ensures fit { OnOk result (gen_answer n ≡ answer_good (summary_text n)) }
    ensures unfit { IfErr result (λ unfit. IsAnswered unfit (gen_answer n)) }
{
    valid_of(alloc, input)
}

/// A scenario's schedule has few events.
fn know_short(n: u16)
    ensures { length (schedule n) ≤ 1000 }
{}

/// Runs the events of a scenario, and leaves the network that took them.
#[tactic(auto, using(crate::proofs::ScenarioEnding::scenario_ends))]
fn run_scenario(
    alloc: Global,
    n: u16,
    valid: Valid,
    events: Vec<Event>,
    net: &mut Option<Net>,
) -> Result<Tally, NoMemory>
    requires valid { valid ≡ opening n }
    requires events { events.items ≡ schedule n }
    requires form { IsTrue (list_all has_event_form events.items) }
    ensures tally { IfOk result (λ t. t ≡ tally (opening n) (schedule n)) }
    ensures left { OnOk result (IsLeftOfScenario n net.new) }
    ensures kept { OnErr result (net.new ≡ net.old) }
    ensures written { IsTrue (list_all has_event_form (schedule n)) }
{
    // (for its clause: the schedule of a scenario has few events)
    know_short(n);
    let Ran { net: took, tally } = run_counted(alloc, valid, events)?;
    leave(net, took);
    Ok(tally)
}

/// Writes what `gen` answers. The network that took the scenario's events is left where all was written.
#[tactic(auto, using(crate::proofs::Summed::gen_ends))]
pub fn answer_gen<K: Sink>(
    alloc: Global,
    n: u16,
    sink: &mut K,
    net: &mut Option<Net>,
) -> Result<Reception, WriteRefusal>
    requires first { 1 ≤ n }
    requires last { n ≤ 999 }
    ensures given { IfOk result (λ verdict. WasGiven (gen_answer n) verdict (K.taken sink.old) (K.taken sink.new)) }
    ensures front { OnErr result (TookFront (K.taken sink.old) (K.taken sink.new) (gen_answer n).text) }
    ensures cause { HasWriteCause (K.faults sink.old) (K.faults sink.new) result }
    ensures network { LeftOn (IsLeftOfScenario n) result net.new }
    ensures promise { PromisedOn (TookSummary n (K.taken sink.old) (K.taken sink.new)) result }
{
    leave_none(net);
    let Made {
        input,
        events,
        networks,
        ports,
    } = make(alloc, n)?;
    match valid_scenario(alloc, n, input) {
        Ok(valid) => {
            let tally = run_scenario(alloc, n, valid, events, net)?;
            match write_summary(alloc, n, networks, ports, &tally, sink) {
                Ok(()) => Ok(Reception::Good),
                Err(refusal) => {
                    leave_none(net);
                    Err(refusal)
                }
            }
        }
        Err(unfit) => write_unfit(alloc, unfit, sink),
    }
}
