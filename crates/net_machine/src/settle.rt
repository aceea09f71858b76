//! Settling.
ghost use Rattle.std.specs.Prelude.{◌≡◌, ◌≤◌, ◌<◌, ◌+◌, ◌^◌, map, IfOk};
ghost use Rattle.std.specs.List.{All};
ghost use Rattle.running_nodes.specs.Steps.{unbroken};
ghost use Rattle.net_machine.specs.Seating.{AreLong, AreSeated, Keeps};
ghost use Rattle.net_machine.specs.Settling.{RoundsFrom, Settles, is_quiet, is_rested, is_settled, is_still};

use crate::connect::connect_all;
use crate::ends::{SessionEnds, turned, waiting};
use crate::round::round;
use ov_types::NoMemory;
use running_nodes::Nodes;
use std::alloc::Global;

/// Whether nothing is in flight on a session.
fn is_still(nodes: &Nodes, ends: SessionEnds) -> bool
    requires { AreSeated nodes.now.seats ends }
    ensures { result ≡ is_still nodes.now.seats ends }
{
    waiting(nodes, ends) == 0 && waiting(nodes, turned(ends)) == 0
}

fn is_quiet(nodes: &Nodes, order: &[SessionEnds]) -> bool
    requires { All (AreSeated nodes.now.seats) order.now }
    ensures { result ≡ is_quiet nodes.now.seats order.now }
{
    for ends in order {
        if !is_still(nodes, *ends) {
            return false;
        }
    }
    true
}

/// Whether a session is up at both ends, and nothing is in flight on it.
fn is_rested(nodes: &Nodes, ends: SessionEnds) -> bool
    requires { AreSeated nodes.now.seats ends }
    ensures { result ≡ is_rested nodes.now.seats ends }
{
    nodes.is_up(ends.near) && nodes.is_up(ends.far) && is_still(nodes, ends)
}

pub(crate) fn is_settled(nodes: &Nodes, order: &[SessionEnds]) -> bool
    requires { All (AreSeated nodes.now.seats) order.now }
    ensures { result ≡ is_settled nodes.now.seats order.now }
{
    for ends in order {
        if !is_rested(nodes, *ends) {
            return false;
        }
    }
    true
}

/// Rounds until nothing is in flight, at most so many. Answers their number, after the one that was done before.
fn rounds(
    alloc: Global,
    nodes: &mut Nodes,
    order: &[SessionEnds],
    most: u32,
) -> Result<u32, NoMemory>
    requires most { most < 2 ^ 31 }
    requires long { AreLong nodes.old.seats }
    requires seated { All (AreSeated nodes.old.seats) order.now }
    ensures rounds { IfOk result (λ n. RoundsFrom most 1 order.now nodes.old.seats n nodes.new.seats) }
    ensures keeps { IfOk result (λ _. Keeps nodes.old.seats nodes.new.seats) }
    ensures failed { IfOk result (λ _. nodes.new.failed ≡ nodes.old.failed) }
{
    let mut done = 1;
    for _ in 0..most {
        if is_quiet(nodes, order) {
            return Ok(done);
        }
        round(alloc, nodes, order)?;
        done += 1;
    }
    Ok(done)
}

/// No send is to fail any more.
fn drop_breaks(nodes: &mut Nodes)
    requires long { AreLong nodes.old.seats }
    ensures dropped { nodes.new.seats ≡ map unbroken nodes.old.seats }
    ensures keeps { Keeps nodes.old.seats nodes.new.seats }
    ensures failed { nodes.new.failed ≡ nodes.old.failed }
{
    nodes.drop_breaks();
}

/// Breaks that were not met are removed. Then one round, then every session that may be is connected, and then rounds
/// until nothing is in flight, at most 6 more in all than the longest chain in effect has services. Answers the number of
/// rounds.
pub(crate) fn settle(
    alloc: Global,
    nodes: &mut Nodes,
    order: &[SessionEnds],
    longest: u32,
) -> Result<u32, NoMemory>
    requires longest { longest ≤ 15 }
    requires long { AreLong nodes.old.seats }
    requires seated { All (AreSeated nodes.old.seats) order.now }
    ensures settles { IfOk result (λ n. Settles longest order.now nodes.old.seats n nodes.new.seats) }
    ensures keeps { IfOk result (λ _. Keeps nodes.old.seats nodes.new.seats) }
    ensures failed { IfOk result (λ _. nodes.new.failed ≡ nodes.old.failed) }
{
    drop_breaks(nodes);
    round(alloc, nodes, order)?;
    connect_all(nodes, order)?;
    rounds(alloc, nodes, order, longest + 5)
}
