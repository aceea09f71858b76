//! Ends of sessions with agents that come while the node runs.
ghost use Rattle.std.specs.Prelude.{◌≡◌, ◌<◌, ◌≤◌, ◌+◌, ◌++◌, [], ◌∷◌, suc, length, slice_set, OnOk, OnErr};
ghost use Rattle.node_core.specs.NodeModel.Step.{nothing};
ghost use Rattle.control_node.specs.Agents.{is_agent};
ghost use Rattle.control_node.specs.Core.{sessions};
ghost use Rattle.control_node.specs.Made.{new_agent};
ghost use Rattle.control_node.specs.Seating.{seated};

use crate::closing::lose_agent;
use crate::ends::{AgentEnd, ControlEnds};
use crate::making::new_agent;
use item_wire::{ItemFrom, ItemSession};
use node_core::Ends;
use ov_types::{NoMemory, NodeId};
use std::alloc::Global;

/// The end is that of another agent, with which no session was opened yet.
fn hand_over(end: &mut AgentEnd, agent: &NodeId)
    ensures { end.new ≡ new_agent agent.now }
{
    end.id = *agent;
    end.session = ItemSession::new(agent.name, ItemFrom::Agent);
    end.sent.reset();
}

impl ControlEnds {
    /// Where the ends are made.
    pub(crate) fn alloc(&self) -> Global {
        self.alloc
    }

    /// Whether the session is with an agent.
    pub(crate) fn is_agent(&self, session: u16) -> bool
        ensures { result ≡ is_agent self.now.plan session }
    {
        if usize::from(session) <= self.peers.len() {
            return false;
        }
        session < self.sessions()
    }

    /// Gives the session of one agent to another.
    fn seat_again(&mut self, session: u16, place: usize, agent: &NodeId) -> Result<(), NoMemory>
        requires among { place < length self.old.plan.agents }
        requires session { session ≡ suc (length self.old.plan.peers + place) }
        ensures ok { OnOk result (self.new ≡ record {
          plan = record self.old.plan { agents = slice_set self.old.plan.agents place agent.now };
          posts = slice_set self.old.posts session nothing;
        }) }
        ensures err { OnErr result (self.new ≡ self.old) }
    {
        self.tables.set_agent(session, agent.address)?;
        hand_over(&mut self.agents[place], agent);
        lose_agent(&mut self.tables, &mut self.dirty, session);
        Ok(())
    }

    /// An agent gets a session behind all others.
    fn seat_behind(&mut self, session: u16, agent: &NodeId) -> Result<(), NoMemory>
        requires few { session < 65535 }
        requires behind { session ≡ sessions self.old.plan }
        ensures ok { OnOk result (self.new ≡ record {
          plan = record self.old.plan { agents = self.old.plan.agents ++ agent.now ∷ [] };
          posts = self.old.posts ++ nothing ∷ [];
        }) }
        ensures err { OnErr result (self.new ≡ self.old) }
    {
        self.agents.reserve(1)?;
        self.tables.set_agent(session, agent.address)?;
        self.agents.push_reserved(new_agent(self.alloc, agent));
        Ok(())
    }

    /// An agent gets a session, that of another agent or one behind all others. Its end is closed. Where the other agent
    /// published something, everything is marked, and else nothing is.
    pub(crate) fn seat(&mut self, session: u16, agent: &NodeId) -> Result<(), NoMemory>
        requires agents { length self.old.plan.peers < session }
        requires few { session < 65535 }
        requires next { session ≤ sessions self.old.plan }
        ensures ok { OnOk result (self.new ≡ seated self.old session agent.now) }
        ensures err { OnErr result (self.new ≡ self.old) }
    {
        let place = usize::from(session) - 1 - self.peers.len();
        if place < self.agents.len() {
            self.seat_again(session, place, agent)
        } else {
            self.seat_behind(session, agent)
        }
    }
}
