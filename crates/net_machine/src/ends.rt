//! The sessions of a network, by their two ends.
ghost use Rattle.std.specs.Prelude.{◌≡◌, IfSome};
ghost use Rattle.running_nodes.specs.Seats.{whole_at};
ghost use Rattle.net_machine.specs.Seating.{AreLong, AreSeated, IsSeated, ends_of, is_down, is_earlier, same_ends};
ghost use Rattle.net_machine.specs.Seating.{same_place, turned, waiting};

use ov_types::Name;
use running_nodes::{Nodes, SessionPlace};

/// A session, by its two ends.
#[derive(Clone, Copy, PartialEq, Eq)]
pub struct SessionEnds {
    pub near: SessionPlace,
    pub far: SessionPlace,
}

/// A session by its two ends, as its far end sees it.
pub(crate) fn turned(ends: SessionEnds) -> SessionEnds
    ensures { result ≡ turned ends }
{
    SessionEnds {
        near: ends.far,
        far: ends.near,
    }
}

/// The session of two nodes, with the first one's end near.
pub(crate) fn ends_of(nodes: &Nodes, a: &Name, b: &Name) -> Option<SessionEnds>
    requires { AreLong nodes.now.seats }
    ensures ends { result ≡ ends_of nodes.now.seats a.now b.now }
    ensures seated { IfSome result (λ e. AreSeated nodes.now.seats e) }
{
    let Some(near) = nodes.place_of(a, b) else {
        return None;
    };
    let Some(far) = nodes.far_of(near) else {
        return None;
    };
    Some(SessionEnds { near, far })
}

fn same_place(a: SessionPlace, b: SessionPlace) -> bool
    ensures { result ≡ same_place a b }
{
    a.node == b.node && a.session == b.session
}

fn same_ends(a: SessionEnds, b: SessionEnds) -> bool
    ensures { result ≡ same_ends a b }
{
    same_place(a.near, b.near) && same_place(a.far, b.far)
}

/// Whether the near node of a session comes before the far one in the order of a round.
pub(crate) fn is_earlier(order: &[SessionEnds], ends: SessionEnds) -> bool
    ensures { result ≡ is_earlier order.now ends }
{
    for other in order {
        if same_ends(*other, ends) {
            return true;
        }
        if same_ends(*other, turned(ends)) {
            return false;
        }
    }
    true
}

/// Whether an end is live, with no notice.
pub(crate) fn is_whole(nodes: &Nodes, place: SessionPlace) -> bool
    requires { IsSeated nodes.now.seats place }
    ensures { result ≡ whole_at nodes.now.seats place }
{
    nodes.is_live(place) && !nodes.has_notice(place)
}

/// Whether a session is down: an end is not live, or a notice waits there.
pub(crate) fn is_down(nodes: &Nodes, ends: SessionEnds) -> bool
    requires { AreSeated nodes.now.seats ends }
    ensures { result ≡ is_down nodes.now.seats ends }
{
    !(is_whole(nodes, ends.near) && is_whole(nodes, ends.far))
}

/// How many messages and notices wait to be taken at the near end.
pub(crate) fn waiting(nodes: &Nodes, ends: SessionEnds) -> usize
    requires { AreSeated nodes.now.seats ends }
    ensures { result ≡ waiting nodes.now.seats ends }
{
    if nodes.has_notice(ends.near) {
        1
    } else {
        nodes.sent(ends.far)
    }
}
