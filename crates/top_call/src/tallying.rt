//! Running a schedule, and counting what it answers.
ghost use Rattle.std.specs.Prelude.{◌≡◌, ◌≤◌, ◌<◌, ◌^◌, ◌+◌, ◌++◌, ◌∷◌, [], length, false, IfOk, OnOk, IsTrue};
ghost use Rattle.std.specs.List.{list_all};
ghost use Rattle.config_types.specs.Form.{has_event_form};
ghost use Rattle.schedule_script.specs.Kept.{AreAlike, ties_in};
ghost use Rattle.net_machine.specs.RunningNodes.Stands.{StandsFor};
ghost use Rattle.machine_model.specs.Events.{event_of};
ghost use Rattle.machine_model.specs.Setup.{checked};
ghost use Rattle.net_machine.specs.MachineMomentLaws.Runs.{answer_tied, tied_moment};
ghost use Rattle.top_call.specs.Tallies.{counted, tally};

use crate::tally::Tally;
use config_check::Valid;
use config_types::Event;
use net_machine::Net;
use ov_types::NoMemory;
use std::alloc::Global;

/// A network that took the events of a schedule, and what it answered, counted.
#[derive(Drop)]
pub struct Ran {
    pub net: Net,
    pub tally: Tally,
}

/// A network takes an event, and its answer is counted.
fn count_step(net: &mut Net, event: Event, tally: Tally) -> Result<Tally, NoMemory>
    requires form { IsTrue (has_event_form event) }
    requires delivered { tally.delivered < 2 ^ 31 }
    requires agreed { tally.agreed < 2 ^ 31 }
    ensures tally { IfOk result (λ t. t ≡ counted (checked (tied_moment net.new.opening net.new.events).network.setup)
        event (answer_tied (tied_moment net.old.opening net.old.events) (event_of event)) tally) }
    ensures opening { net.new.opening ≡ net.old.opening }
    ensures events { OnOk result (net.new.events ≡ net.old.events ++ event ∷ []) }
    ensures works { OnOk result (net.new.failed ≡ false) }
    ensures state { OnOk result (StandsFor net.new.seats (tied_moment net.new.opening net.new.events).network) }
    ensures ties { OnOk result (AreAlike (ties_in net.new.ties) (tied_moment net.new.opening net.new.events).ties) }
{
    let answer = net.step(event)?;
    let events = net.events();
    Ok(tally.counted(net.config(), &events[events.len() - 1], &answer))
}

/// A network without events takes these in turn, and what they answer is counted.
#[tactic(auto, unfolding(crate::specs::Tallies::tally))]
fn count_all(net: &mut Net, events: Vec<Event>) -> Result<Tally, NoMemory>
    requires form { IsTrue (list_all has_event_form events.items) }
    requires few { length events.items ≤ 1000 }
    requires begins { net.old.events ≡ [] }
    requires works { net.old.failed ≡ false }
    requires state { StandsFor net.old.seats (tied_moment net.old.opening net.old.events).network }
    requires ties { AreAlike (ties_in net.old.ties) (tied_moment net.old.opening net.old.events).ties }
    ensures tally { IfOk result (λ t. t ≡ tally net.old.opening events.items) }
    ensures opening { net.new.opening ≡ net.old.opening }
    ensures events { OnOk result (net.new.events ≡ events.items) }
    ensures works { OnOk result (net.new.failed ≡ false) }
    ensures state { OnOk result (StandsFor net.new.seats (tied_moment net.new.opening net.new.events).network) }
    ensures ties { OnOk result (AreAlike (ties_in net.new.ties) (tied_moment net.new.opening net.new.events).ties) }
{
    let mut tally = Tally::nothing();
    for event in events {
        tally = count_step(net, event, tally)?;
    }
    Ok(tally)
}

/// Runs a schedule from a valid configuration, and counts what it answers. Only want of memory keeps it from being run.
pub fn run_counted(alloc: Global, valid: Valid, events: Vec<Event>) -> Result<Ran, NoMemory>
    requires form { IsTrue (list_all has_event_form events.items) }
    requires few { length events.items ≤ 1000 }
    ensures tally { IfOk result (λ ran. ran.tally ≡ tally valid events.items) }
    ensures opening { IfOk result (λ ran. ran.net.opening ≡ valid) }
    ensures events { IfOk result (λ ran. ran.net.events ≡ events.items) }
    ensures works { IfOk result (λ ran. ran.net.failed ≡ false) }
    ensures state { IfOk result (λ ran. StandsFor ran.net.seats (tied_moment ran.net.opening ran.net.events).network) }
    ensures ties { IfOk result (λ ran. AreAlike (ties_in ran.net.ties) (tied_moment ran.net.opening ran.net.events).ties) }
{
    let mut net = Net::new(alloc, valid)?;
    let tally = count_all(&mut net, events)?;
    Ok(Ran { net, tally })
}
