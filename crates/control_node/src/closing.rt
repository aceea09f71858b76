//! Ends that are closed.
ghost use Rattle.std.specs.Prelude.{◌≡◌, ◌<◌, ◌+◌, suc, true, false, length, slice_set};
ghost use Rattle.item_wire.specs.declared.event.ItemState.TheVariants as ItemState;
ghost use Rattle.node_core.specs.NodeModel.Step.{nothing};
ghost use Rattle.vpn_tables.specs.Changes.{without};
ghost use Rattle.vpn_tables.specs.Listing.{told_in};
ghost use Rattle.vpn_tables.specs.NodeLaws.Quiet.{PublishesNothing};
ghost use Rattle.control_node.specs.Places.{IsPlace};
ghost use Rattle.control_node.specs.Ends.{closed_peer, closed_agent};

use crate::ends::{AgentEnd, ControlEnds, PeerEnd};
use control_wants::Dirty;
use item_wire::ItemSession;
use vpn_tables::VpnTables;

/// Where the end of a session stands.
#[derive(Clone, Copy)]
pub(crate) enum EndPlace {
    Feed,
    /// Among the ends of peers.
    Peer(usize),
    /// Among the ends of agents.
    Agent(usize),
}

/// The place of a session's end, where there are so many peers.
pub(crate) fn place_of(session: u16, peers: usize) -> EndPlace
    ensures { IsPlace peers session result }
{
    if session == 0 {
        return EndPlace::Feed;
    }
    let among = usize::from(session - 1);
    if among < peers {
        EndPlace::Peer(among)
    } else {
        EndPlace::Agent(among - peers)
    }
}

fn shut_feed(feed: &mut ItemSession)
    ensures { feed.new ≡ record feed.old { state = ItemState.Idle } }
{
    let _event = feed.closed();
}

fn shut_peer(end: &mut PeerEnd)
    ensures { end.new ≡ closed_peer end.old }
{
    let _event = end.session.closed();
    end.sent.reset();
}

fn shut_agent(end: &mut AgentEnd)
    ensures { end.new ≡ closed_agent end.old }
{
    let _event = end.session.closed();
    end.sent.reset();
}

/// Nothing is held any more of a session, and everything is marked.
fn lose(tables: &mut VpnTables, dirty: &mut Dirty, session: u16)
    ensures tables { tables.new ≡ without tables.old session }
    ensures all { dirty.new.all ≡ true }
{
    tables.drop_session(session);
    dirty.set_all();
}

/// Nothing is held any more of an agent's session. Where something was published on it, everything is marked, and else
/// nothing is: what it told was told to nobody else.
pub(crate) fn lose_agent(tables: &mut VpnTables, dirty: &mut Dirty, session: u16)
    ensures tables { tables.new ≡ without tables.old session }
    ensures kept { dirty.new.all ≡ false → dirty.new ≡ dirty.old }
    ensures silent { dirty.new.all ≡ false → PublishesNothing (told_in tables.old.agents session).map }
{
    if tables.publishes_nothing(session) {
        tables.drop_session(session);
    } else {
        lose(tables, dirty, session);
    }
}

impl ControlEnds {
    fn close_feed(&mut self)
        ensures plan { self.new.plan ≡ self.old.plan }
        ensures closed { self.new.posts ≡ slice_set self.old.posts 0 nothing }
    {
        shut_feed(&mut self.feed);
        lose(&mut self.tables, &mut self.dirty, 0);
    }

    fn close_peer(&mut self, session: u16, place: usize)
        requires among { place < length self.old.plan.peers }
        requires session { session ≡ suc place }
        ensures plan { self.new.plan ≡ self.old.plan }
        ensures closed { self.new.posts ≡ slice_set self.old.posts session nothing }
    {
        shut_peer(&mut self.peers[place]);
        lose(&mut self.tables, &mut self.dirty, session);
    }

    fn close_agent(&mut self, session: u16, place: usize)
        requires among { place < length self.old.plan.agents }
        requires session { session ≡ suc (length self.old.plan.peers + place) }
        ensures plan { self.new.plan ≡ self.old.plan }
        ensures closed { self.new.posts ≡ slice_set self.old.posts session nothing }
    {
        shut_agent(&mut self.agents[place]);
        lose_agent(&mut self.tables, &mut self.dirty, session);
    }

    /// Closes an end: it is idle, and nothing was sent on it and nothing is held of it. It takes no memory.
    pub(crate) fn close_end(&mut self, session: u16)
        requires { session < length self.old.posts }
        ensures plan { self.new.plan ≡ self.old.plan }
        ensures closed { self.new.posts ≡ slice_set self.old.posts session nothing }
    {
        match place_of(session, self.peers.len()) {
            EndPlace::Feed => self.close_feed(),
            EndPlace::Peer(place) => self.close_peer(session, place),
            EndPlace::Agent(place) => self.close_agent(session, place),
        }
    }
}
