//! Lost sessions, and nodes that restart.
ghost use Rattle.std.specs.Prelude.{◌≡◌, ◌<◌, [], length, false};
ghost use Rattle.running_nodes.specs.Seats as seats_of;
ghost use Rattle.running_nodes.specs.Steps.{told_of_loss, with_link, with_notice};
ghost use Rattle.running_laws.specs.Losing.{cut, restarted};
ghost use Rattle.net_machine.specs.Losses.{lost};
ghost use Rattle.net_machine.specs.Seating.{AreLong, AreSeated, IsSeated, Keeps};

use crate::ends::{SessionEnds, is_down};
use running_nodes::{Nodes, SessionPlace};

/// Whether a notice waits at an end from now on.
pub(crate) fn set_notice(nodes: &mut Nodes, place: SessionPlace, waits: bool)
    requires long { AreLong nodes.old.seats }
    requires seated { IsSeated nodes.old.seats place }
    ensures set { nodes.new.seats ≡ with_notice place waits nodes.old.seats }
    ensures keeps { Keeps nodes.old.seats nodes.new.seats }
    ensures failed { nodes.new.failed ≡ nodes.old.failed }
{
    nodes.set_notice(place, waits);
}

/// Takes out all messages that left an end.
pub(crate) fn clear(nodes: &mut Nodes, place: SessionPlace)
    requires long { AreLong nodes.old.seats }
    requires seated { IsSeated nodes.old.seats place }
    ensures cleared { nodes.new.seats ≡ with_link place [] nodes.old.seats }
    ensures keeps { Keeps nodes.old.seats nodes.new.seats }
    ensures failed { nodes.new.failed ≡ nodes.old.failed }
{
    nodes.clear(place);
}

/// A notice waits at each end then, and nothing is in flight.
fn cut(nodes: &mut Nodes, ends: SessionEnds)
    requires long { AreLong nodes.old.seats }
    requires seated { AreSeated nodes.old.seats ends }
    ensures cut { nodes.new.seats ≡ cut ends.near ends.far nodes.old.seats }
    ensures keeps { Keeps nodes.old.seats nodes.new.seats }
    ensures failed { nodes.new.failed ≡ nodes.old.failed }
{
    set_notice(nodes, ends.near, true);
    set_notice(nodes, ends.far, true);
    clear(nodes, ends.near);
    clear(nodes, ends.far);
}

/// A session that is not down is lost.
pub(crate) fn lose(nodes: &mut Nodes, ends: SessionEnds)
    requires long { AreLong nodes.old.seats }
    requires seated { AreSeated nodes.old.seats ends }
    ensures lost { nodes.new.seats ≡ lost nodes.old.seats ends }
    ensures keeps { Keeps nodes.old.seats nodes.new.seats }
    ensures failed { nodes.new.failed ≡ nodes.old.failed }
{
    if !is_down(nodes, ends) {
        cut(nodes, ends);
    }
}

/// Tells the far end of a session of its loss, where that end is live, and discards what left it.
pub(crate) fn tell_of_loss(nodes: &mut Nodes, place: SessionPlace)
    requires long { AreLong nodes.old.seats }
    requires seated { IsSeated nodes.old.seats place }
    ensures told { nodes.new.seats
        ≡ told_of_loss nodes.old.seats (seats_of.far_of nodes.old.seats place) }
    ensures keeps { Keeps nodes.old.seats nodes.new.seats }
    ensures failed { nodes.new.failed ≡ nodes.old.failed }
{
    if let Some(far) = nodes.far_of(place) {
        let is_live = nodes.is_live(far);
        set_notice(nodes, far, is_live);
        clear(nodes, far);
    }
}

/// A node loses all that it has, and then the other end of each of its sessions is told.
pub(crate) fn restart(nodes: &mut Nodes, node: u16)
    requires above { 0 < node }
    requires node { node < length nodes.old.seats }
    requires long { AreLong nodes.old.seats }
    ensures restarted { nodes.new.seats ≡ restarted nodes.old.seats node }
    ensures keeps { Keeps nodes.old.seats nodes.new.seats }
    ensures failed { nodes.old.failed ≡ false → nodes.new.failed ≡ false }
{
    let sessions = nodes.sessions(node);
    nodes.restart(node);
    for session in 0..sessions {
        tell_of_loss(nodes, SessionPlace { node, session });
    }
}
