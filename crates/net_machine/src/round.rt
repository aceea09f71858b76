//! Rounds.
ghost use Rattle.std.specs.Prelude.{◌≡◌, ◌++◌, ◌∷◌, [], IfOk, OnOk};
ghost use Rattle.std.specs.List.{All};
ghost use Rattle.net_machine.specs.Rounds.{DeliversDue, DeliversDues, IsDueSeated, IsRound, due_at, dues};
ghost use Rattle.net_machine.specs.Seating.{AreLong, AreSeated, Keeps, turned as turned_ends};

use crate::deliver::deliver;
use crate::ends::{SessionEnds, turned, waiting};
use ov_types::NoMemory;
use running_nodes::Nodes;
use std::alloc::Global;

/// What waits towards the near end of a session as a round begins: whether it is a notice, and how many there are.
#[derive(Clone, Copy, PartialEq, Eq)]
pub struct Due {
    pub ends: SessionEnds,
    pub is_notice: bool,
    pub count: usize,
}

fn due_at(nodes: &Nodes, ends: SessionEnds) -> Due
    requires { AreSeated nodes.now.seats ends }
    ensures { result ≡ due_at nodes.now.seats ends }
{
    Due {
        ends,
        is_notice: nodes.has_notice(ends.near),
        count: waiting(nodes, ends),
    }
}

/// Appends what waits in a session, from its near node to its far one, and then back.
fn push_dues(nodes: &Nodes, ends: SessionEnds, due: &mut Vec<Due>) -> Result<(), NoMemory>
    requires { AreSeated nodes.now.seats ends }
    ensures { OnOk result (due.new.items
        ≡ due.old.items ++ due_at nodes.now.seats (turned_ends ends) ∷ due_at nodes.now.seats ends ∷ []) }
{
    due.push(due_at(nodes, turned(ends)))?;
    due.push(due_at(nodes, ends))?;
    Ok(())
}

/// What waits as a round begins.
fn dues(alloc: Global, nodes: &Nodes, order: &[SessionEnds]) -> Result<Vec<Due>, NoMemory>
    requires { All (AreSeated nodes.now.seats) order.now }
    ensures dues { IfOk result (λ due. due.items ≡ dues nodes.now.seats order.now) }
    ensures seated { IfOk result (λ due. All (IsDueSeated nodes.now.seats) due.items) }
{
    let mut due = Vec::new(alloc);
    for ends in order {
        push_dues(nodes, *ends, &mut due)?;
    }
    Ok(due)
}

/// Delivers one message or notice of those that waited when the round began, where it is still there.
fn deliver_due(nodes: &mut Nodes, due: &Due) -> Result<(), NoMemory>
    requires long { AreLong nodes.old.seats }
    requires seated { AreSeated nodes.old.seats due.now.ends }
    ensures delivers { IfOk result (λ _. DeliversDue due.now nodes.old.seats nodes.new.seats) }
    ensures keeps { IfOk result (λ _. Keeps nodes.old.seats nodes.new.seats) }
    ensures failed { IfOk result (λ _. nodes.new.failed ≡ nodes.old.failed) }
{
    if nodes.has_notice(due.ends.near) == due.is_notice {
        deliver(nodes, due.ends)
    } else {
        Ok(())
    }
}

/// Delivers all that waited in one direction when the round began.
fn deliver_dues(nodes: &mut Nodes, due: &Due) -> Result<(), NoMemory>
    requires long { AreLong nodes.old.seats }
    requires seated { AreSeated nodes.old.seats due.now.ends }
    ensures delivers { IfOk result (λ _. DeliversDues due.now.count due.now nodes.old.seats
        nodes.new.seats) }
    ensures keeps { IfOk result (λ _. Keeps nodes.old.seats nodes.new.seats) }
    ensures failed { IfOk result (λ _. nodes.new.failed ≡ nodes.old.failed) }
{
    for _ in 0..due.count {
        deliver_due(nodes, due)?;
    }
    Ok(())
}

/// All that waits as the round begins is taken, each direction in its turn.
pub(crate) fn round(alloc: Global, nodes: &mut Nodes, order: &[SessionEnds]) -> Result<(), NoMemory>
    requires long { AreLong nodes.old.seats }
    requires seated { All (AreSeated nodes.old.seats) order.now }
    ensures round { IfOk result (λ _. IsRound order.now nodes.old.seats nodes.new.seats) }
    ensures keeps { IfOk result (λ _. Keeps nodes.old.seats nodes.new.seats) }
    ensures failed { IfOk result (λ _. nodes.new.failed ≡ nodes.old.failed) }
{
    let due = dues(alloc, nodes, order)?;
    for one in &due {
        deliver_dues(nodes, one)?;
    }
    Ok(())
}
