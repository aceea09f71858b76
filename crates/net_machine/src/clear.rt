//! What follows a node's step: sessions of which it closed its end go down, and what was sent on sessions that are down
//! is discarded.
ghost use Rattle.std.specs.Prelude.{◌≡◌, ◌<◌, [], false, length};
ghost use Rattle.running_nodes.specs.Seats as seats_of;
ghost use Rattle.running_nodes.specs.Steps.{cleared, cleared_at, told_of_loss, with_link, with_notice};
ghost use Rattle.net_machine.specs.Seating.{AreLong, IsSeated, Keeps};

use crate::ends::is_whole;
use crate::lose::{clear, set_notice, tell_of_loss};
use running_nodes::{Nodes, SessionPlace};

/// Whether the other end of a session is live, with no notice.
fn is_whole_there(nodes: &Nodes, place: SessionPlace) -> bool
    requires long { AreLong nodes.now.seats }
    requires seated { IsSeated nodes.now.seats place }
    ensures { result ≡ seats_of.whole_there nodes.now.seats (seats_of.far_of nodes.now.seats place) }
{
    match nodes.far_of(place) {
        None => false,
        Some(far) => is_whole(nodes, far),
    }
}

/// Whether the session of a place is down.
fn is_down_at(nodes: &Nodes, place: SessionPlace) -> bool
    requires long { AreLong nodes.now.seats }
    requires seated { IsSeated nodes.now.seats place }
    ensures { result ≡ seats_of.is_down_at nodes.now.seats place }
{
    !(is_whole(nodes, place) && is_whole_there(nodes, place))
}

/// At an end that is not live no notice waits and nothing is in flight, and the other end is told of the loss.
fn close(nodes: &mut Nodes, place: SessionPlace)
    requires long { AreLong nodes.old.seats }
    requires seated { IsSeated nodes.old.seats place }
    ensures closed { nodes.new.seats ≡ told_of_loss (with_notice place false (with_link place [] nodes.old.seats))
        (seats_of.far_of nodes.old.seats place) }
    ensures keeps { Keeps nodes.old.seats nodes.new.seats }
    ensures failed { nodes.new.failed ≡ nodes.old.failed }
{
    clear(nodes, place);
    set_notice(nodes, place, false);
    tell_of_loss(nodes, place);
}

/// What left a live end is taken out, where its session is down. One that is not live is closed.
fn clear_at(nodes: &mut Nodes, place: SessionPlace)
    requires long { AreLong nodes.old.seats }
    requires seated { IsSeated nodes.old.seats place }
    ensures cleared { nodes.new.seats ≡ cleared_at nodes.old.seats place }
    ensures keeps { Keeps nodes.old.seats nodes.new.seats }
    ensures failed { nodes.new.failed ≡ nodes.old.failed }
{
    if !nodes.is_live(place) {
        close(nodes, place);
    } else if is_down_at(nodes, place) {
        clear(nodes, place);
    }
}

/// Clears all ends of a node, after its step.
pub(crate) fn clear_node(nodes: &mut Nodes, node: u16)
    requires node { node < length nodes.old.seats }
    requires long { AreLong nodes.old.seats }
    ensures cleared { nodes.new.seats ≡ cleared nodes.old.seats node }
    ensures keeps { Keeps nodes.old.seats nodes.new.seats }
    ensures failed { nodes.new.failed ≡ nodes.old.failed }
{
    let sessions = nodes.sessions(node);
    for session in 0..sessions {
        clear_at(nodes, SessionPlace { node, session });
    }
}
