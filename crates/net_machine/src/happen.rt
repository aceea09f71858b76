//! Events.
ghost use Rattle.std.specs.Prelude.{◌≡◌, ◌≤◌, false, IfOk, IsTrue};
ghost use Rattle.std.specs.List.{All};
ghost use Rattle.report.specs.Answers.{IsAnswerTo};
ghost use Rattle.config_types.specs.Form.{has_event_form};
ghost use Rattle.config_types.specs.declared.event.Event.{Event as Written};
ghost use Rattle.config_check.specs.Checked.{Checked};
ghost use Rattle.running_nodes.specs.MachineModel.Events.{unless};
ghost use Rattle.running_nodes.specs.Seats as seats_of;
ghost use Rattle.running_nodes.specs.Seats.{Configuring, seat};
ghost use Rattle.net_machine.specs.Happenings.{BreaksOn, ConnectsOn, DeliversOctetsOn, DeliversOn, Happens, IsNotEdit};
ghost use Rattle.net_machine.specs.Happenings.{LosesOn, RestartsAt, SettlesAs, earlier_first, shown_at};
ghost use Rattle.net_machine.specs.Seating.{AreLong, AreSeated, Keeps, ends_of};

use crate::connect::{connect, may_connect};
use crate::deliver::{deliver_many, deliver_octets};
use crate::ends::{SessionEnds, ends_of, is_down, is_earlier, turned, waiting};
use crate::longest::longest;
use crate::lose::{lose, restart};
use crate::round::round;
use crate::settle::{is_settled, settle};
use config_types::Event;
use ov_types::{Name, NoMemory};
use running_nodes::Nodes;
use schedule_script::Answer;
use std::alloc::Global;

fn unless(is_idle: bool) -> Answer
    ensures { result ≡ unless is_idle }
{
    if is_idle { Answer::Idle } else { Answer::Did }
}

/// Delivers up to n messages from one node to another.
fn delivered(nodes: &mut Nodes, from: &Name, to: &Name, n: u32) -> Result<Answer, NoMemory>
    requires { AreLong nodes.old.seats }
    ensures delivers { IfOk result (λ a. DeliversOn (ends_of nodes.old.seats to.now from.now) n
        nodes.old.seats a nodes.new.seats) }
    ensures keeps { IfOk result (λ _. Keeps nodes.old.seats nodes.new.seats) }
    ensures failed { IfOk result (λ _. nodes.new.failed ≡ nodes.old.failed) }
{
    let Some(ends) = ends_of(nodes, to, from) else {
        return Ok(Answer::Idle);
    };
    let answer = unless(waiting(nodes, ends) == 0);
    deliver_many(nodes, ends, n)?;
    Ok(answer)
}

/// Delivers up to n octets from one node to another.
fn octets_delivered(
    alloc: Global,
    nodes: &mut Nodes,
    from: &Name,
    to: &Name,
    n: u32,
) -> Result<Answer, NoMemory>
    requires { AreLong nodes.old.seats }
    ensures delivers { IfOk result (λ a. DeliversOctetsOn (ends_of nodes.old.seats to.now from.now) n
        nodes.old.seats a nodes.new.seats) }
    ensures keeps { IfOk result (λ _. Keeps nodes.old.seats nodes.new.seats) }
    ensures failed { IfOk result (λ _. nodes.new.failed ≡ nodes.old.failed) }
{
    let Some(ends) = ends_of(nodes, to, from) else {
        return Ok(Answer::Idle);
    };
    let answer = unless(waiting(nodes, ends) == 0);
    deliver_octets(alloc, nodes, ends, n)?;
    Ok(answer)
}

/// Lets a send fail: the n-th from now on that goes from one node to another.
fn broken(nodes: &mut Nodes, from: &Name, to: &Name, n: u32) -> Result<Answer, NoMemory>
    requires long { AreLong nodes.old.seats }
    requires some { 1 ≤ n }
    ensures breaks { IfOk result (λ a. BreaksOn (ends_of nodes.old.seats from.now to.now) n
        nodes.old.seats a nodes.new.seats) }
    ensures keeps { IfOk result (λ _. Keeps nodes.old.seats nodes.new.seats) }
    ensures failed { IfOk result (λ _. nodes.new.failed ≡ nodes.old.failed) }
{
    let Some(ends) = ends_of(nodes, from, to) else {
        return Ok(Answer::Idle);
    };
    nodes.add_break(ends.near, n)?;
    Ok(Answer::Did)
}

/// Loses the session of two nodes, where it is not down.
fn lost(nodes: &mut Nodes, a: &Name, b: &Name) -> Answer
    requires { AreLong nodes.old.seats }
    ensures loses { LosesOn (ends_of nodes.old.seats a.now b.now) nodes.old.seats result
        nodes.new.seats }
    ensures keeps { Keeps nodes.old.seats nodes.new.seats }
    ensures failed { nodes.new.failed ≡ nodes.old.failed }
{
    let Some(ends) = ends_of(nodes, a, b) else {
        return Answer::Idle;
    };
    let answer = unless(is_down(nodes, ends));
    lose(nodes, ends);
    answer
}

/// A session, with the end near that comes first in the order of a round.
fn earlier_first(order: &[SessionEnds], ends: SessionEnds) -> SessionEnds
    ensures { result ≡ earlier_first order.now ends }
{
    if is_earlier(order, ends) {
        ends
    } else {
        turned(ends)
    }
}

/// Connects two nodes, where both ends are closed.
fn connected(
    nodes: &mut Nodes,
    order: &[SessionEnds],
    a: &Name,
    b: &Name,
) -> Result<Answer, NoMemory>
    requires { AreLong nodes.old.seats }
    ensures connects { IfOk result (λ answer. ConnectsOn (ends_of nodes.old.seats a.now b.now) order.now
        nodes.old.seats answer nodes.new.seats) }
    ensures keeps { IfOk result (λ _. Keeps nodes.old.seats nodes.new.seats) }
    ensures failed { IfOk result (λ _. nodes.new.failed ≡ nodes.old.failed) }
{
    let Some(ends) = ends_of(nodes, a, b) else {
        return Ok(Answer::Idle);
    };
    let answer = unless(!may_connect(nodes, ends));
    connect(nodes, earlier_first(order, ends))?;
    Ok(answer)
}

/// Restarts a control node or an agent.
fn restarted(nodes: &mut Nodes, name: &Name) -> Answer
    requires { AreLong nodes.old.seats }
    ensures restarts { RestartsAt (seats_of.seat_named nodes.old.seats name.now) nodes.old.seats result
        nodes.new.seats }
    ensures keeps { Keeps nodes.old.seats nodes.new.seats }
    ensures failed { nodes.old.failed ≡ false → nodes.new.failed ≡ false }
{
    match nodes.seat_named(name) {
        None => Answer::Idle,
        Some(0) => Answer::Idle,
        Some(node) => {
            restart(nodes, node);
            Answer::Did
        }
    }
}

/// Settles the network.
fn settled(alloc: Global, nodes: &mut Nodes, order: &[SessionEnds]) -> Result<Answer, NoMemory>
    requires long { AreLong nodes.old.seats }
    requires seated { All (AreSeated nodes.old.seats) order.now }
    ensures plain { IfOk result (λ a. (event : Written) → IsAnswerTo event a) }
    ensures settles { IfOk result (λ a. (x : Checked) → (seat nodes.old.seats 0).who ≡ Configuring x
        → SettlesAs x order.now nodes.old.seats a nodes.new.seats) }
    ensures keeps { IfOk result (λ _. Keeps nodes.old.seats nodes.new.seats) }
    ensures failed { IfOk result (λ _. nodes.new.failed ≡ nodes.old.failed) }
{
    let longest = longest(nodes.valid());
    let rounds = settle(alloc, nodes, order, longest)?;
    let settled = is_settled(nodes, order);
    Ok(Answer::Rounds { rounds, settled })
}

/// The tables of a control node or of an agent.
fn shown(nodes: &Nodes, name: &Name) -> Result<Answer, NoMemory>
    requires { nodes.now.failed ≡ false }
    ensures { IfOk result (λ a. a
        ≡ shown_at (seats_of.seat_named nodes.now.seats name.now) nodes.now.seats) }
{
    match nodes.seat_named(name) {
        None => Ok(Answer::Idle),
        Some(0) => Ok(Answer::Idle),
        Some(node) => {
            let rows = nodes.rows(node)?;
            Ok(Answer::Shown(rows))
        }
    }
}

/// An event happens that is no edit.
pub(crate) fn happen(
    alloc: Global,
    nodes: &mut Nodes,
    order: &[SessionEnds],
    event: &Event,
) -> Result<Answer, NoMemory>
    requires form { IsTrue (has_event_form event.now) }
    requires long { AreLong nodes.old.seats }
    requires seated { All (AreSeated nodes.old.seats) order.now }
    requires works { nodes.old.failed ≡ false }
    requires not_edit { IsNotEdit event.now }
    ensures happens { IfOk result (λ a. (x : Checked) → (seat nodes.old.seats 0).who ≡ Configuring x
        → Happens x order.now event.now nodes.old.seats a nodes.new.seats) }
    ensures keeps { IfOk result (λ _. Keeps nodes.old.seats nodes.new.seats) }
    ensures works { IfOk result (λ _. nodes.new.failed ≡ false) }
    ensures shown { IfOk result (λ a. IsAnswerTo event.now a) }
{
    match event {
        Event::Edit(_) => unreachable!(),
        Event::Deliver { from, to, n } => delivered(nodes, from, to, *n),
        Event::DeliverOctets { from, to, n } => octets_delivered(alloc, nodes, from, to, *n),
        Event::Lose { a, b } => Ok(lost(nodes, a, b)),
        Event::Connect { a, b } => connected(nodes, order, a, b),
        Event::Restart { node } => Ok(restarted(nodes, node)),
        Event::Round => {
            round(alloc, nodes, order)?;
            Ok(Answer::Did)
        }
        Event::Settle => settled(alloc, nodes, order),
        Event::Show { node } => shown(nodes, node),
        Event::Trace(packet) => Ok(Answer::Traced(nodes.trace(*packet))),
        Event::Break { from, to, n } => broken(nodes, from, to, *n),
    }
}
