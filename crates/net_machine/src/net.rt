//! A network that runs: it takes the events of a schedule.
ghost use Rattle.std.specs.Prelude.{◌≡◌, ◌++◌, ◌∷◌, [], map, true, false, IfOk, IsErr, IsTrue, OnErr, OnOk};
ghost use Rattle.report.specs.Answers.{IsAnswerTo};
ghost use Rattle.config_types.specs.Form.{has_event_form};
ghost use Rattle.schedule_script.specs.Kept.{AreAlike, ties_in};
ghost use Rattle.schedule_script.specs.Tying.{ties_of};
ghost use Rattle.running_nodes.specs.MachineModel.Events.{event_of};
ghost use Rattle.running_nodes.specs.MachineModel.Setup.{checked};
ghost use Rattle.running_nodes.specs.MachineModel.Setup.{opening as opening_setup};
ghost use Rattle.running_nodes.specs.MachineModel.Steps.{is_settled};
ghost use Rattle.running_laws.specs.MachineLaws.Moments.{SettlesInTime};
ghost use Rattle.running_nodes.specs.Seats.{whos};
ghost use Rattle.running_nodes.specs.Stands.{StandsFor, message_size};
ghost use Rattle.running_nodes.specs.Steps.{fresh_seat};
ghost use Rattle.schedule_script.specs.Answers.{OfAnswer};
ghost use Rattle.machine_moment_laws.specs.TiedCompiled.{EndsAtOnce, IsAsCompiled};
ghost use Rattle.machine_moment_laws.specs.Isolated.{DeliversSoFar, DeliversTied};
ghost use Rattle.machine_moment_laws.specs.RevocationSchedules.{RevokedSoFar};
ghost use Rattle.machine_moment_laws.specs.PermissionSchedules.{PermittedSoFar};
ghost use Rattle.machine_moment_laws.specs.KeptSchedules.{KeptSoFar};
ghost use Rattle.machine_moment_laws.specs.AgainSchedules.{AgainSoFar};
ghost use Rattle.machine_moment_laws.specs.Runs.{answer_tied, tied_moment};
ghost use Rattle.net_machine.specs.Shown.{ShowsCompiled};
ghost use Rattle.net_machine.specs.Tying.{OfTie};

use crate::ends::SessionEnds;
use crate::order::order_of;
use crate::settle::is_settled;
use crate::tying::happen_tied;
use config_check::Valid;
use config_types::Event;
use ov_types::{Items, NoMemory};
use running_nodes::Nodes;
use schedule_script::{TiedAnswer, Ties};
use std::alloc::Global;
use std::marker::Model;

/// The nodes of a topology over queue links, with the events that they took. Contracts see the opening configuration,
/// the ties of the configurations so far, the events, the nodes' seats, and whether memory was wanting in an event: after
/// that every event fails. The ties and the seats are those of the state that the network's machine, which refuses edits
/// that would break a tie, has after these events.
#[derive(Drop)]
pub struct Net {
    alloc: Global,
    pub(crate) nodes: Nodes,
    /// The sessions, in the order of a round.
    order: Vec<SessionEnds>,
    opening: Valid,
    /// The ties of the configurations so far.
    ties: Ties,
    events: Items<Event>,
    failed: bool,
}

impl Model for Net {
    ghost use Rattle.std.specs.Prelude.{◌≡◌, false};
    ghost use Rattle.net_machine.specs.Codes.{coded_net};
    ghost use Rattle.net_machine.specs.NetState.{NetState};
    ghost use Rattle.net_machine.specs.Running.{IsRunning};

    ghost Value = { NetState };

    ghost coded = { coded_net };

    ghost view = { λ n. record {
      opening = n.opening;
      ties = n.ties;
      events = n.events;
      seats = n.nodes.seats;
      failed = n.failed;
    } };

    ghost invariant = { λ n. n.failed ≡ false
        → IsRunning n.opening n.events n.ties n.nodes.seats n.order.items × (n.nodes.failed ≡ false) };
}

/// A network of nodes that have nothing of each other, with the ties of its configuration.
fn with_nodes(alloc: Global, nodes: Nodes, opening: Valid, ties: Ties) -> Result<Net, NoMemory>
    requires seats { nodes.seats ≡ map fresh_seat (whos (opening_setup opening)) }
    requires ties { AreAlike (ties_in ties) (ties_of opening) }
    requires works { nodes.failed ≡ false }
    ensures opening { IfOk result (λ net. net.opening ≡ opening) }
    ensures events { IfOk result (λ net. net.events ≡ []) }
    ensures works { IfOk result (λ net. net.failed ≡ false) }
    ensures state { IfOk result (λ net. StandsFor net.seats (tied_moment net.opening net.events).network) }
    ensures ties { IfOk result (λ net. AreAlike (ties_in net.ties) (tied_moment net.opening net.events).ties) }
    ensures rounds { IfOk result (λ net. SettlesInTime message_size (tied_moment net.opening net.events).network) }
{
    // (for its clauses: the configuration is valid and of the written form)
    let _config = opening.config();
    let order = order_of(alloc, &nodes, opening.topology())?;
    Ok(Net {
        alloc,
        nodes,
        order,
        opening,
        ties,
        events: Items::new(alloc),
        failed: false,
    })
}

impl Net {
    /// A network in which nothing has happened: no session is open, and no node has anything of another. Its ties are
    /// those of its configuration.
    pub fn new(alloc: Global, valid: Valid) -> Result<Net, NoMemory>
        ensures opening { IfOk result (λ net. net.opening ≡ valid) }
        ensures events { IfOk result (λ net. net.events ≡ []) }
        ensures works { IfOk result (λ net. net.failed ≡ false) }
        ensures state { IfOk result (λ net. StandsFor net.seats (tied_moment net.opening net.events).network) }
        ensures ties { IfOk result (λ net. AreAlike (ties_in net.ties) (tied_moment net.opening net.events).ties) }
        ensures rounds { IfOk result (λ net. SettlesInTime message_size (tied_moment net.opening net.events).network) }
    {
        let ties = Ties::new(alloc, &valid)?;
        let opening = valid.copy()?;
        let nodes = Nodes::new(alloc, valid)?;
        with_nodes(alloc, nodes, opening, ties)
    }

    /// The network takes an event. An edit that has no other fault and would break a tie is answered with that tie, and
    /// nothing changes but `events`. Where memory is wanting, what its nodes have then is not said, and every later event
    /// fails.
    pub fn step(&mut self, event: Event) -> Result<TiedAnswer, NoMemory>
        requires form { IsTrue (has_event_form event) }
        ensures answer { IfOk result (λ a. a
            ≡ answer_tied (tied_moment self.old.opening self.old.events) (event_of event)) }
        ensures shown { IfOk result (λ a. OfAnswer (IsAnswerTo event) event a) }
        ensures unchanged { IfOk result (OfTie (λ _. (self.new.ties ≡ self.old.ties) × (self.new.seats ≡ self.old.seats))) }
        ensures state { OnOk result (StandsFor self.new.seats (tied_moment self.new.opening self.new.events).network) }
        ensures ties { OnOk result (AreAlike (ties_in self.new.ties)
            (tied_moment self.new.opening self.new.events).ties) }
        ensures rounds { OnOk result (SettlesInTime message_size
            (tied_moment self.new.opening self.new.events).network) }
        ensures settles { IfOk result (λ a. EndsAtOnce (tied_moment self.old.opening self.old.events) event a
            (tied_moment self.new.opening self.new.events)) }
        ensures compiled { IfOk result (IsAsCompiled (tied_moment self.old.opening self.old.events) event) }

        // Isolation, settled or not.
        ensures every_moment { IfOk result (DeliversSoFar self.old.opening self.old.events event) }
        ensures joined { IfOk result (DeliversTied (ties_in self.old.ties) event) }

        // What configurations so far permitted, settled or not.
        ensures permitted { IfOk result (PermittedSoFar self.old.opening self.old.events event) }

        // What an edit took away, two rounds later.
        ensures revoked { IfOk result (RevokedSoFar self.old.opening self.old.events event) }

        // What all configurations of a change keep, while the change goes on.
        ensures uninterrupted { IfOk result (KeptSoFar self.old.opening self.old.events event) }

        // What it interrupted, so many rounds later.
        ensures again { IfOk result (AgainSoFar self.old.opening self.old.events event) }

        ensures opening { self.new.opening ≡ self.old.opening }
        ensures events { OnOk result (self.new.events ≡ self.old.events ++ event ∷ []) }
        ensures kept { OnErr result (self.new.events ≡ self.old.events) }
        ensures works { OnOk result (self.new.failed ≡ false) }
        ensures failed { OnErr result (self.new.failed ≡ true) }
        ensures ended { self.old.failed ≡ true → IsErr result }
    {
        if self.failed {
            return Err(NoMemory);
        }
        self.failed = true;
        let answer = happen_tied(
            self.alloc,
            &mut self.nodes,
            &mut self.order,
            &mut self.ties,
            &event,
        )?;
        self.events.push(event)?;
        self.failed = false;
        Ok(answer)
    }

    /// Whether every session is up at both ends, and no message and no notice is in flight. It takes no memory.
    pub fn settled(&self) -> bool
        requires { self.now.failed ≡ false }
        ensures settled { result ≡ is_settled (tied_moment self.now.opening self.now.events).network }
        ensures compiled { result ≡ true
            → ShowsCompiled (checked (tied_moment self.now.opening self.now.events).network.setup) self.now.seats }
    {
        is_settled(&self.nodes, self.order.as_slice())
    }

    /// The configuration that is valid now, with its topology. It takes no memory.
    pub fn config(&self) -> &Valid
        requires { self.now.failed ≡ false }
        ensures { result.now ≡ checked (tied_moment self.now.opening self.now.events).network.setup }
    {
        self.nodes.valid()
    }

    /// The ties of the configurations so far: of the opening one, and of each that an edit led to. It takes no memory.
    pub fn ties(&self) -> &Ties
        requires { self.now.failed ≡ false }
        ensures kept { result.now ≡ self.now.ties }
        ensures ties { AreAlike (ties_in result.now) (tied_moment self.now.opening self.now.events).ties }
    {
        &self.ties
    }

    /// The configuration that the network began with. It takes no memory.
    pub fn opening(&self) -> &Valid
        ensures { result.now ≡ self.now.opening }
    {
        &self.opening
    }

    /// The events that the network took, in order. It takes no memory.
    pub fn events(&self) -> &[Event]
        ensures { result.now ≡ self.now.events }
    {
        self.events.as_slice()
    }

    /// Whether memory was wanting in an event. It takes no memory.
    pub fn failed(&self) -> bool
        ensures { result ≡ self.now.failed }
    {
        self.failed
    }
}
