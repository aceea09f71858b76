//! The ends of a control node's sessions.
ghost use Rattle.std.specs.Prelude.{◌≡◌, length, not, refl};
ghost use Rattle.std.proofs.Common.{◌∙◌};
ghost use Rattle.node_core.specs.Beginning as item;
ghost use Rattle.node_routes.specs.Beginning as route;
ghost use Rattle.control_node.specs.Beginning.{BeginsKeeping};
ghost use Rattle.control_node.specs.Behind.{begins_behind};
ghost use Rattle.control_node.specs.Core.{sessions};
ghost use Rattle.control_node.specs.Wanting.{idle_is_silent, is_idle, is_up, kind};

use crate::cause::NodeCause;
use crate::closing::{EndPlace, place_of};
use crate::looking::{item_end, peer_end};
use crate::planning::plan_marked;
use bgp_session::{Session, State};
use control_wants::Dirty;
use item_wire::{ItemSession, ItemState};
use node_core::{EndState, Ends, Plan, Started};
use ov_link::Input;
use ov_sync::SyncOut;
use ov_types::{DownKey, DownValue, NoMemory, NodeId, VpnKey, VpnRoute};
use std::alloc::Global;
use std::marker::Model;
use vpn_tables::VpnTables;

/// The end of a session with a peer, and what was sent on it.
#[derive(Drop)]
pub(crate) struct PeerEnd {
    pub(crate) session: Session,
    pub(crate) sent: SyncOut<VpnKey, VpnRoute>,
}

impl PeerEnd {
    pub(crate) fn is_up(&self) -> bool
        ensures { result ≡ is_up (route.phase_of self.now.session.state) }
    {
        matches!(self.session.state(), State::Established)
    }
}

/// The end of a session with an agent, and what was sent on it.
#[derive(Drop)]
pub(crate) struct AgentEnd {
    pub(crate) id: NodeId,
    pub(crate) session: ItemSession,
    pub(crate) sent: SyncOut<DownKey, DownValue>,
}

impl AgentEnd {
    pub(crate) fn is_live(&self) -> bool
        ensures { result ≡ not (is_idle (item.phase_of self.now.session.state)) }
    {
        !matches!(self.session.state(), ItemState::Idle)
    }
}

/// The ends of all sessions, and what is held of them.
#[derive(Drop)]
pub(crate) struct ControlEnds {
    pub(crate) me: NodeId,
    pub(crate) asn: u32,
    pub(crate) tables: VpnTables,
    /// What may have changed of what sessions are to be told, since the last pass.
    pub(crate) dirty: Dirty,
    pub(crate) feed: ItemSession,
    /// The ends of the peers: session 1, 2 and so on.
    pub(crate) peers: Vec<PeerEnd>,
    /// The ends of the agents: the sessions after those of the peers.
    pub(crate) agents: Vec<AgentEnd>,
    pub(crate) alloc: Global,
}

impl Model for ControlEnds {
    ghost use Rattle.control_node.specs.Ends.{Ends as Seen, coded_ends, plan_of, posts_of};
    ghost use Rattle.control_node.specs.Tracking.{AreEndsTracked};

    ghost Value = { Seen };

    ghost coded = { coded_ends };

    ghost view = { λ s. record {
      plan = plan_of s.me s.asn s.peers.items s.agents.items;
      posts = posts_of s.feed.state s.peers.items s.agents.items s.tables;
    } };

    ghost invariant = { λ s. AreEndsTracked s.me s.asn s.feed s.peers.items s.agents.items s.tables s.dirty };
}

impl Ends for ControlEnds {
    type Cause = NodeCause;

    ghost kind = { λ e. kind e.plan };

    ghost posts = { λ e. e.posts };

    ghost stays = { λ before after. after.plan ≡ before.plan };

    ghost begins = { λ e. BeginsKeeping e.plan };

    ghost stays_itself = { λ _. refl };

    ghost stays_on = { λ _ _ _ first then. then ∙ first };

    ghost begins_behind = { λ e session p kept came whole given cause left.
        begins_behind e.plan session p given cause left kept came whole };

    ghost idle_is_silent = { λ e session. idle_is_silent e.plan session };

    fn sessions(&self) -> u16
        ensures posts { result ≡ length self.now.posts }
        ensures plan { result ≡ sessions self.now.plan }
    {
        1 + self.peers.len() as u16 + self.agents.len() as u16
    }

    fn state(&self, session: u16) -> EndState {
        match place_of(session, self.peers.len()) {
            EndPlace::Feed => item_end(self.feed.state()),
            EndPlace::Peer(place) => peer_end(self.peers[place].session.state()),
            EndPlace::Agent(place) => item_end(self.agents[place].session.state()),
        }
    }

    fn begin(&mut self, input: Input<'_>) -> Result<Started<NodeCause>, NoMemory> {
        // (for its clauses: there are as many ends as sessions, fewer than 65,536)
        let _before = self.sessions();
        let applied = self.apply(input);
        let _after = self.sessions();
        let started = applied?;
        Ok(started)
    }

    fn plan(&mut self) -> Result<Vec<Plan>, NoMemory> {
        plan_marked(
            self.alloc,
            &self.tables,
            &mut self.dirty,
            &mut self.peers,
            &mut self.agents,
        )
    }

    fn close(&mut self, session: u16) {
        self.close_end(session);
    }
}
