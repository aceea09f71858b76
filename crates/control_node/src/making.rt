//! Ends of sessions, as they are made.
ghost use Rattle.std.specs.Prelude.{◌≡◌, ◌≢◌, ◌≤◌, ◌<◌, ◌+◌, [], length, map, replicate, IfOk, OnOk};
ghost use Rattle.std.specs.FinMap.{empty};
ghost use Rattle.control_node.specs.Core.{told_from};
ghost use Rattle.control_node.specs.Made.{new_agent, new_ends, new_peer, none_told};

use crate::ends::{AgentEnd, ControlEnds, PeerEnd};
use crate::plan::ControlPlan;
use bgp_session::Session;
use control_wants::Dirty;
use item_wire::{ItemFrom, ItemSession};
use node_core::config_name;
use ov_sync::{Delta, SyncOut};
use ov_types::{Addr, NoMemory, NodeId, Prefix, Rd, VpnKey};
use std::alloc::Global;
use vpn_tables::VpnTables;

fn new_peers(alloc: Global, asn: u32, ids: &[NodeId]) -> Result<Vec<PeerEnd>, NoMemory>
    ensures { IfOk result (λ ends. ends.items ≡ map (new_peer asn) ids.now) }
{
    let mut ends = Vec::new(alloc);
    for id in ids {
        ends.push(PeerEnd {
            session: Session::new(asn, *id),
            sent: SyncOut::new(alloc),
        })?;
    }
    Ok(ends)
}

/// The end of a session with an agent, which was not opened yet.
pub(crate) fn new_agent(alloc: Global, agent: &NodeId) -> AgentEnd
    ensures { result ≡ new_agent agent.now }
{
    AgentEnd {
        id: *agent,
        session: ItemSession::new(agent.name, ItemFrom::Agent),
        sent: SyncOut::new(alloc),
    }
}

fn new_agents(alloc: Global, ids: &[NodeId]) -> Result<Vec<AgentEnd>, NoMemory>
    ensures { IfOk result (λ ends. ends.items ≡ map new_agent ids.now) }
{
    let mut ends = Vec::new(alloc);
    for id in ids {
        ends.push(new_agent(alloc, id))?;
    }
    Ok(ends)
}

/// Makes a place in the tables for each peer up to the last, by a change that tells nothing.
fn seat_peers(tables: &mut VpnTables, last: u16) -> Result<(), NoMemory>
    requires { tables.old.peers ≡ [] }
    ensures { OnOk result (tables.new ≡ record tables.old { peers = replicate last empty }) }
{
    let key = VpnKey {
        rd: Rd(0),
        prefix: Prefix::host(Addr(0)),
    };
    tables.set_peer_route(last, Delta::Drop(key))?;
    Ok(())
}

/// Makes a place in the tables for each agent, whose sessions have the numbers from the first on.
fn seat_agents(tables: &mut VpnTables, first: u16, agents: &[NodeId]) -> Result<(), NoMemory>
    requires few { first + length agents.now ≤ 65535 }
    requires none { tables.old.agents ≡ [] }
    ensures { OnOk result (tables.new ≡ record tables.old { agents = told_from first agents.now [] }) }
{
    let mut session = first;
    for agent in agents {
        tables.set_agent(session, agent.address)?;
        session += 1;
    }
    Ok(())
}

/// Tables in which every peer and every agent has its place.
fn new_tables(
    alloc: Global,
    asn: u32,
    peers: &[NodeId],
    agents: &[NodeId],
) -> Result<VpnTables, NoMemory>
    requires few { length peers.now + length agents.now < 65535 }
    ensures { IfOk result (λ tables. tables ≡ none_told asn peers.now agents.now) }
{
    let mut tables = VpnTables::new(alloc, asn);
    let last = peers.len() as u16;
    seat_peers(&mut tables, last)?;
    seat_agents(&mut tables, last + 1, agents)?;
    Ok(tables)
}

impl ControlEnds {
    /// The ends of a plan's sessions, each closed.
    pub(crate) fn new(alloc: Global, plan: ControlPlan) -> Result<ControlEnds, NoMemory>
        requires few { length plan.peers + length plan.agents < 65535 }
        requires address { plan.me.address.0 ≢ 0 }
        requires retired { plan.retired ≡ [] }
        ensures { IfOk result (λ ends. ends ≡ new_ends plan) }
    {
        let ids = plan.peers.as_slice();
        let agent_ids = plan.agents.as_slice();
        let peers = new_peers(alloc, plan.asn, ids)?;
        let agents = new_agents(alloc, agent_ids)?;
        let tables = new_tables(alloc, plan.asn, ids, agent_ids)?;
        Ok(ControlEnds {
            me: plan.me,
            asn: plan.asn,
            tables,
            dirty: Dirty::new(alloc),
            feed: ItemSession::new(config_name(), ItemFrom::Feed),
            peers,
            agents,
            alloc,
        })
    }
}
