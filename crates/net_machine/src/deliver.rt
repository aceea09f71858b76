//! Deliveries.
ghost use Rattle.std.specs.Prelude.{◌≡◌, ◌<◌, drop, length, true, false, IfOk, Some};
ghost use Rattle.node_core.specs.Whole.{Comes, session_of};
ghost use Rattle.running_nodes.specs.MachineModel.Setup.{Name as NameOf};
ghost use Rattle.running_nodes.specs.Seats.{is_live, other, seat};
ghost use Rattle.net_machine.specs.Deliveries.{Delivers, DeliversMany, DeliversOctets, TakesAt};
ghost use Rattle.net_machine.specs.Seating.{AreLong, AreSeated, Keeps};

use crate::clear::clear_node;
use crate::ends::{SessionEnds, waiting};
use ov_link::Input;
use ov_types::NoMemory;
use running_nodes::Nodes;
use std::alloc::Global;

/// A node takes an input on a session that is somebody's, and the sessions of which it closed its end go down.
pub(crate) fn take(nodes: &mut Nodes, node: u16, input: Input<'_>) -> Result<(), NoMemory>
    requires node { node < length nodes.old.seats }
    requires session { session_of input < length (seat nodes.old.seats node).posts }
    requires taken { (b : NameOf) × (other (seat nodes.old.seats node) (session_of input) ≡ Some b) }
    requires comes { Comes (λ i. is_live (seat nodes.old.seats node) i ≡ true)
        (λ i. is_live (seat nodes.old.seats node) i ≡ false) input }
    requires long { AreLong nodes.old.seats }
    ensures takes { IfOk result (λ _. TakesAt nodes.old.seats node input.entry nodes.new.seats) }
    ensures keeps { IfOk result (λ _. Keeps nodes.old.seats nodes.new.seats) }
    ensures failed { IfOk result (λ _. nodes.new.failed ≡ nodes.old.failed) }
{
    nodes.take(node, input)?;
    clear_node(nodes, node);
    Ok(())
}

/// What is behind a number of octets, if anything.
fn behind(octets: &[u8], taken: usize) -> &[u8]
    ensures { result.now ≡ drop taken octets.now }
{
    octets.get(taken..).unwrap_or_default()
}

/// The near end takes the notice that waits there, else the first message that left the far end, where there is one, as
/// far as its octets were not taken.
pub(crate) fn deliver(nodes: &mut Nodes, ends: SessionEnds) -> Result<(), NoMemory>
    requires long { AreLong nodes.old.seats }
    requires seated { AreSeated nodes.old.seats ends }
    ensures delivers { IfOk result (λ _. Delivers nodes.old.seats ends nodes.new.seats) }
    ensures keeps { IfOk result (λ _. Keeps nodes.old.seats nodes.new.seats) }
    ensures failed { IfOk result (λ _. nodes.new.failed ≡ nodes.old.failed) }
{
    let node = ends.near.node;
    let session = ends.near.session;
    if !nodes.is_live(ends.near) {
        return Ok(());
    }
    if nodes.has_notice(ends.near) {
        nodes.set_notice(ends.near, false);
        return take(nodes, node, Input::Closed { session });
    }
    let kept = nodes.kept(ends.near);
    match nodes.pop(ends.far) {
        None => Ok(()),
        Some(octets) => take(
            nodes,
            node,
            Input::Bytes {
                session,
                bytes: behind(&octets, kept),
            },
        ),
    }
}

/// The near end takes the notice that waits there, else the next octets that left the far end, up to so many. They may
/// end within a message, which stays in flight until its last octet is taken.
pub(crate) fn deliver_octets(
    alloc: Global,
    nodes: &mut Nodes,
    ends: SessionEnds,
    n: u32,
) -> Result<(), NoMemory>
    requires long { AreLong nodes.old.seats }
    requires seated { AreSeated nodes.old.seats ends }
    ensures delivers { IfOk result (λ _. DeliversOctets nodes.old.seats ends n nodes.new.seats) }
    ensures keeps { IfOk result (λ _. Keeps nodes.old.seats nodes.new.seats) }
    ensures failed { IfOk result (λ _. nodes.new.failed ≡ nodes.old.failed) }
{
    let node = ends.near.node;
    let session = ends.near.session;
    if !nodes.is_live(ends.near) {
        return Ok(());
    }
    if nodes.has_notice(ends.near) {
        nodes.set_notice(ends.near, false);
        return take(nodes, node, Input::Closed { session });
    }
    if nodes.sent(ends.far) == 0 {
        return Ok(());
    }
    let kept = nodes.kept(ends.near);
    let octets = nodes.take_octets(alloc, ends.far, kept, n as usize)?;
    take(
        nodes,
        node,
        Input::Bytes {
            session,
            bytes: &octets,
        },
    )
}

/// Delivers n times, or as often as something waits.
pub(crate) fn deliver_many(nodes: &mut Nodes, ends: SessionEnds, n: u32) -> Result<(), NoMemory>
    requires long { AreLong nodes.old.seats }
    requires seated { AreSeated nodes.old.seats ends }
    ensures delivers { IfOk result (λ _. DeliversMany n nodes.old.seats ends nodes.new.seats) }
    ensures keeps { IfOk result (λ _. Keeps nodes.old.seats nodes.new.seats) }
    ensures failed { IfOk result (λ _. nodes.new.failed ≡ nodes.old.failed) }
{
    for _ in 0..n {
        if waiting(nodes, ends) == 0 {
            return Ok(());
        }
        deliver(nodes, ends)?;
    }
    Ok(())
}
