//! Connections.
ghost use Rattle.std.specs.Prelude.{◌≡◌, false, IfOk};
ghost use Rattle.std.specs.List.{All};
ghost use Rattle.running_nodes.specs.Seats.{live_at};
ghost use Rattle.net_machine.specs.Connections.{Connects, ConnectsAll, ConnectsAt, Opens, OpensFar, may_connect};
ghost use Rattle.net_machine.specs.Seating.{AreLong, AreSeated, HasOther, IsSeated, Keeps};

use crate::clear::clear_node;
use crate::ends::SessionEnds;
use ov_link::Input;
use ov_types::NoMemory;
use running_nodes::{Nodes, SessionPlace};

/// Whether both ends are closed.
pub(crate) fn may_connect(nodes: &Nodes, ends: SessionEnds) -> bool
    requires { AreSeated nodes.now.seats ends }
    ensures { result ≡ may_connect nodes.now.seats ends }
{
    !nodes.is_live(ends.near) && !nodes.is_live(ends.far)
}

/// A node opens its end of a session that is somebody's.
fn open(nodes: &mut Nodes, place: SessionPlace) -> Result<(), NoMemory>
    requires long { AreLong nodes.old.seats }
    requires seated { IsSeated nodes.old.seats place }
    requires somebody { HasOther nodes.old.seats place }
    requires closed { live_at nodes.old.seats place ≡ false }
    ensures opens { IfOk result (λ _. Opens nodes.old.seats place nodes.new.seats) }
    ensures keeps { IfOk result (λ _. Keeps nodes.old.seats nodes.new.seats) }
    ensures failed { IfOk result (λ _. nodes.new.failed ≡ nodes.old.failed) }
{
    nodes.take(
        place.node,
        Input::Opened {
            session: place.session,
        },
    )
}

/// The far node opens, after the near one.
fn open_far(nodes: &mut Nodes, ends: SessionEnds) -> Result<(), NoMemory>
    requires long { AreLong nodes.old.seats }
    requires seated { AreSeated nodes.old.seats ends }
    requires closed { live_at nodes.old.seats ends.far ≡ false }
    ensures opens { IfOk result (λ _. OpensFar nodes.old.seats ends nodes.new.seats) }
    ensures keeps { IfOk result (λ _. Keeps nodes.old.seats nodes.new.seats) }
    ensures failed { IfOk result (λ _. nodes.new.failed ≡ nodes.old.failed) }
{
    open(nodes, ends.far)?;
    clear_node(nodes, ends.near.node);
    clear_node(nodes, ends.far.node);
    Ok(())
}

/// Opens both ends of a session, the near one first. Where a send of the near node closed its end again, the far end
/// does not open.
fn open_both(nodes: &mut Nodes, ends: SessionEnds) -> Result<(), NoMemory>
    requires long { AreLong nodes.old.seats }
    requires seated { AreSeated nodes.old.seats ends }
    requires closed { live_at nodes.old.seats ends.near ≡ false }
    ensures connects { IfOk result (λ _. ConnectsAt nodes.old.seats ends nodes.new.seats) }
    ensures keeps { IfOk result (λ _. Keeps nodes.old.seats nodes.new.seats) }
    ensures failed { IfOk result (λ _. nodes.new.failed ≡ nodes.old.failed) }
{
    open(nodes, ends.near)?;
    if nodes.is_live(ends.near) && !nodes.is_live(ends.far) {
        return open_far(nodes, ends);
    }
    clear_node(nodes, ends.near.node);
    Ok(())
}

/// A session is connected, where both its ends are closed.
pub(crate) fn connect(nodes: &mut Nodes, ends: SessionEnds) -> Result<(), NoMemory>
    requires long { AreLong nodes.old.seats }
    requires seated { AreSeated nodes.old.seats ends }
    ensures connects { IfOk result (λ _. Connects nodes.old.seats ends nodes.new.seats) }
    ensures keeps { IfOk result (λ _. Keeps nodes.old.seats nodes.new.seats) }
    ensures failed { IfOk result (λ _. nodes.new.failed ≡ nodes.old.failed) }
{
    if may_connect(nodes, ends) {
        open_both(nodes, ends)
    } else {
        Ok(())
    }
}

/// Each session is connected that may be, one after the other.
pub(crate) fn connect_all(nodes: &mut Nodes, order: &[SessionEnds]) -> Result<(), NoMemory>
    requires long { AreLong nodes.old.seats }
    requires seated { All (AreSeated nodes.old.seats) order.now }
    ensures connects { IfOk result (λ _. ConnectsAll order.now nodes.old.seats nodes.new.seats) }
    ensures keeps { IfOk result (λ _. Keeps nodes.old.seats nodes.new.seats) }
    ensures failed { IfOk result (λ _. nodes.new.failed ≡ nodes.old.failed) }
{
    for ends in order {
        connect(nodes, *ends)?;
    }
    Ok(())
}
