//! What inputs make of one end, and of what is held of its session.
ghost use Rattle.std.specs.Prelude.{◌≡◌, ◌≢◌, ◌≤◌, ◌∷◌, [], List, true, false, drop, length, map, IfOk};
ghost use Rattle.ov_sync.specs.Embed.{moved_delta};
ghost use Rattle.ov_sync.specs.declared.Delta.{Delta as DeltaOf};
ghost use Rattle.ov_types.specs.declared.vpn.VpnKey.{VpnKey as KeyOf};
ghost use Rattle.ov_types.specs.declared.vpn.VpnRoute.{VpnRoute as RouteOf};
ghost use Rattle.bgp_session.specs.declared.event.State.TheVariants as State;
ghost use Rattle.item_wire.specs.Records.{spelling};
ghost use Rattle.item_wire.specs.declared.event.ItemFrom.TheVariants as From;
ghost use Rattle.item_wire.specs.declared.event.ItemState.TheVariants as ItemState;
ghost use Rattle.item_wire.specs.declared.item.Item.TheVariants.{Hello};
ghost use Rattle.node_core.specs.NodeModel.Keys.{Vpn};
ghost use Rattle.node_core.specs.NodeModel.Maps.{Change};
ghost use Rattle.node_core.specs.NodeModel.Values.{Route};
ghost use Rattle.node_routes.specs.Hearing.{open_octets};
ghost use Rattle.control_node.specs.Ends.{opened_agent, opened_peer};
ghost use Rattle.control_node.specs.Stays.{StaysHeld};
ghost use Rattle.control_wants.specs.Marks.{IsWithin};
ghost use Rattle.control_node.specs.Planning.{agent_sends, peer_sends};
ghost use Rattle.control_node.specs.Taking.{ItemsHeard, RoutesHeard, agent_by, feed_by, peer_by, taken};
ghost use Rattle.control_node.specs.Tracking.{AreMarked};

use crate::ends::{AgentEnd, PeerEnd};
use crate::taking::{take_objects, take_publications, take_routes};
use bgp_session::Cause;
use control_wants::Dirty;
use item_wire::{ItemCause, ItemSession};
use ov_types::{Addr, Items, Name, NoMemory};
use std::alloc::Global;
use vpn_tables::VpnTables;

/// Opens the end of a session with a peer: its OPEN is to be sent.
pub(crate) fn greet_peer(
    alloc: Global,
    end: &mut PeerEnd,
    asn: u32,
    me: Addr,
) -> Result<Items<Items<u8>>, NoMemory>
    requires idle { end.old.session.state ≡ State.Idle }
    requires identifier { me.0 ≢ 0 }
    ensures opened { end.new ≡ opened_peer end.old }
    ensures hello { IfOk result (λ replies. replies ≡ open_octets asn me ∷ []) }
{
    node_routes::greet(alloc, &mut end.session, asn, me)
}

/// Opens the end of a session with an agent: its hello is to be sent.
pub(crate) fn greet_agent(
    alloc: Global,
    end: &mut AgentEnd,
    me: &Name,
) -> Result<Items<Items<u8>>, NoMemory>
    requires idle { end.old.session.state ≡ ItemState.Idle }
    ensures opened { end.new ≡ opened_agent end.old }
    ensures hello { IfOk result (λ replies. replies ≡ spelling (Hello me.now) ∷ []) }
{
    node_core::greet(alloc, &mut end.session, me)
}

/// What octets of the feed or of an agent brought, but for the changes.
#[derive(Drop)]
pub(crate) struct HeardItems {
    /// How many octets were taken.
    pub(crate) taken: usize,
    pub(crate) cause: Option<ItemCause>,
}

/// Hears octets on the feed. Where there is a cause, the end is still to be closed.
pub(crate) fn hear_from_feed(
    alloc: Global,
    feed: &mut ItemSession,
    dirty: &mut Dirty,
    tables: &mut VpnTables,
    bytes: &[u8],
) -> Result<HeardItems, NoMemory>
    requires from { feed.old.from ≡ From.Feed }
    ensures heard { IfOk result (λ w. (changes : List Change)
        × ItemsHeard feed.old feed.new bytes.now (drop w.taken bytes.now) changes w.cause
        × (tables.new ≡ feed_by (taken w.cause changes) tables.old)) }
    ensures taken { IfOk result (λ w. w.taken ≤ length bytes.now) }
    ensures peer { feed.new.peer ≡ feed.old.peer }
    ensures from { feed.new.from ≡ feed.old.from }
    ensures stays { StaysHeld tables.old tables.new }
    ensures marked { AreMarked dirty.old dirty.new tables.old tables.new }
{
    let heard = node_core::hear(alloc, feed, bytes)?;
    match heard.cause {
        Some(cause) => Ok(HeardItems {
            taken: heard.taken,
            cause: Some(cause),
        }),
        None => {
            take_objects(dirty, tables, heard.records)?;
            Ok(HeardItems {
                taken: heard.taken,
                cause: None,
            })
        }
    }
}

/// Marks everything where an agent may not be told yet, since it may be told all from now on.
fn mark_silent_agent(dirty: &mut Dirty, end: &AgentEnd)
    ensures within { IsWithin dirty.old dirty.new }
    ensures sends { dirty.new.all ≡ false → agent_sends end.now ≡ true }
{
    if !end.is_live() {
        dirty.set_all();
    }
}

/// Hears octets of an agent. Where there is a cause, the end is still to be closed.
pub(crate) fn hear_from_agent(
    alloc: Global,
    end: &mut AgentEnd,
    dirty: &mut Dirty,
    tables: &mut VpnTables,
    session: u16,
    bytes: &[u8],
) -> Result<HeardItems, NoMemory>
    requires from { end.old.session.from ≡ From.Agent }
    ensures heard { IfOk result (λ w. (changes : List Change)
        × ItemsHeard end.old.session end.new.session bytes.now (drop w.taken bytes.now) changes w.cause
        × (tables.new ≡ agent_by (taken w.cause changes) tables.old session)) }
    ensures taken { IfOk result (λ w. w.taken ≤ length bytes.now) }
    ensures sends { dirty.new.all ≡ false → agent_sends end.old ≡ true }
    ensures id { end.new.id ≡ end.old.id }
    ensures sent { end.new.sent ≡ end.old.sent }
    ensures peer { end.new.session.peer ≡ end.old.session.peer }
    ensures from { end.new.session.from ≡ end.old.session.from }
    ensures stays { StaysHeld tables.old tables.new }
    ensures marked { AreMarked dirty.old dirty.new tables.old tables.new }
{
    mark_silent_agent(dirty, end);
    let heard = node_core::hear(alloc, &mut end.session, bytes)?;
    match heard.cause {
        Some(cause) => Ok(HeardItems {
            taken: heard.taken,
            cause: Some(cause),
        }),
        None => {
            take_publications(dirty, tables, session, heard.records)?;
            Ok(HeardItems {
                taken: heard.taken,
                cause: None,
            })
        }
    }
}

/// What octets of a peer brought, but for the changes of routes.
#[derive(Drop)]
pub(crate) struct HeardPeer {
    pub(crate) replies: Items<Items<u8>>,
    /// How many octets were taken.
    pub(crate) taken: usize,
    pub(crate) cause: Option<Cause>,
}

/// Marks everything where a peer may not be told yet, since it may be told all from now on.
fn mark_silent_peer(dirty: &mut Dirty, end: &PeerEnd)
    ensures within { IsWithin dirty.old dirty.new }
    ensures sends { dirty.new.all ≡ false → peer_sends end.now ≡ true }
{
    if !end.is_up() {
        dirty.set_all();
    }
}

/// Hears octets of a peer. Where there is a cause, the end is still to be closed.
pub(crate) fn hear_from_peer(
    alloc: Global,
    end: &mut PeerEnd,
    dirty: &mut Dirty,
    tables: &mut VpnTables,
    session: u16,
    asn: u32,
    me: Addr,
    bytes: &[u8],
) -> Result<HeardPeer, NoMemory>
    requires own { end.old.session.asn ≡ asn }
    requires identifier { me.0 ≢ 0 }
    requires known { session ≤ length tables.old.peers }
    ensures heard { IfOk result (λ w. (changes : List (DeltaOf KeyOf RouteOf))
        × RoutesHeard me end.old.session end.new.session bytes.now (drop w.taken bytes.now) w.replies changes w.cause
        × (tables.new ≡ peer_by (taken w.cause (map (moved_delta Vpn Route) changes)) tables.old session)) }
    ensures taken { IfOk result (λ w. w.taken ≤ length bytes.now) }
    ensures sends { dirty.new.all ≡ false → peer_sends end.old ≡ true }
    ensures sent { end.new.sent ≡ end.old.sent }
    ensures asn { end.new.session.asn ≡ end.old.session.asn }
    ensures peer { end.new.session.peer ≡ end.old.session.peer }
    ensures stays { StaysHeld tables.old tables.new }
    ensures marked { AreMarked dirty.old dirty.new tables.old tables.new }
{
    mark_silent_peer(dirty, end);
    let heard = node_routes::hear(alloc, &mut end.session, asn, me, bytes)?;
    match heard.cause {
        Some(cause) => Ok(HeardPeer {
            replies: heard.replies,
            taken: heard.taken,
            cause: Some(cause),
        }),
        None => {
            take_routes(dirty, tables, session, heard.changes)?;
            Ok(HeardPeer {
                replies: heard.replies,
                taken: heard.taken,
                cause: None,
            })
        }
    }
}
