//! The plans of a pass: what each session is to be told.
ghost use Rattle.std.specs.Prelude.{◌≡◌, ◌<◌, ◌≤◌, ◌+◌, ◌^◌, ◌++◌, false, length, map, IfOk};
ghost use Rattle.std.specs.List.{AllByRecursion};
ghost use Rattle.ov_sync.specs.Embed.{moved_delta};
ghost use Rattle.bgp_session.specs.BgpVpn.Written.{IfPut};
ghost use Rattle.node_core.specs.NodeModel.Keys.{Vpn, of_down};
ghost use Rattle.node_core.specs.NodeModel.Values.{Route};
ghost use Rattle.node_core.specs.Told.{ChangeFits, down_value, spelled as spelled_item};
ghost use Rattle.node_routes.specs.Told.{IsWritable, spelled as spelled_route};
ghost use Rattle.control_wants.specs.Held.{HoldingsFit};
ghost use Rattle.control_node.specs.Ends.{IsAgentEnd};
ghost use Rattle.control_node.specs.Planning.{
  AreAgentsTold,
  ArePeersTold,
  ArePlanned,
  IsAgentTold,
  IsPeerTold,
  agent_plan,
  agent_plans,
  peer_plan,
};
ghost use Rattle.control_node.specs.Tracking.{AreAgentsTracked, IsAgentTracked, IsPeerTracked, Tracks};
ghost use Rattle.control_wants.specs.Marked.{AreMarkedItems};
ghost use Rattle.control_wants.specs.Wanted.{AreRoutesWanted};

use crate::ends::{AgentEnd, PeerEnd};
use control_wants::{
    Dirty, MarkedItem, RoutesWanted, items_marked, routes_wanted, tell_agent, tell_peer,
};
use node_core::Plan;
use ov_sync::Delta;
use ov_types::{DownKey, DownValue, Items, NoMemory, VpnKey, VpnRoute};
use std::alloc::Global;
use vpn_tables::VpnTables;

/// The octets of changes of routes, each a message.
fn spell_routes(
    alloc: Global,
    deltas: &[Delta<VpnKey, VpnRoute>],
) -> Result<Items<Items<u8>>, NoMemory>
    requires { AllByRecursion (λ d. IfPut d IsWritable) deltas.now }
    ensures { IfOk result (λ messages. messages ≡ map (λ d. spelled_route (moved_delta Vpn Route d)) deltas.now) }
{
    let mut messages = Vec::new(alloc);
    for delta in deltas {
        messages.push(node_routes::spell(alloc, delta)?)?;
    }
    Ok(Items::from_vec(messages))
}

/// The octets of changes of items, each a message.
fn spell_items(
    alloc: Global,
    deltas: &[Delta<DownKey, DownValue>],
) -> Result<Items<Items<u8>>, NoMemory>
    requires { AllByRecursion (λ d. ChangeFits (moved_delta of_down down_value d)) deltas.now }
    ensures { IfOk result (λ messages. messages
        ≡ map (λ d. spelled_item (moved_delta of_down down_value d)) deltas.now) }
{
    let mut messages = Vec::new(alloc);
    for delta in deltas {
        messages.push(node_core::spell_down(alloc, delta)?)?;
    }
    Ok(Items::from_vec(messages))
}

/// The plan of a peer, which is told once its session is up. The routes count as sent then.
fn plan_peer(
    alloc: Global,
    end: &mut PeerEnd,
    tables: &VpnTables,
    dirty: &Dirty,
    wanted: &RoutesWanted,
) -> Result<Plan, NoMemory>
    requires asn { tables.now.asn < 2 ^ 32 }
    requires held { HoldingsFit tables.now }
    requires wanted { AreRoutesWanted dirty.now tables.now wanted.now }
    requires tracked { IsPeerTracked dirty.now tables.now end.old }
    ensures session { end.new.session ≡ end.old.session }
    ensures told { IfOk result (λ plan. IsPeerTold tables.now end.old end.new) }
    ensures plan { IfOk result (λ plan. plan ≡ peer_plan tables.now end.old) }
{
    if !end.is_up() {
        return Ok(Plan {
            messages: Items::new(alloc),
        });
    }
    let changes = tell_peer(alloc, &mut end.sent, tables, dirty, wanted)?;
    Ok(Plan {
        messages: spell_routes(alloc, &changes)?,
    })
}

/// The plan of an agent, which is told from the opening of its session on. What it is to be told counts as sent then.
fn plan_agent(
    alloc: Global,
    end: &mut AgentEnd,
    tables: &VpnTables,
    dirty: &Dirty,
    marked: &[MarkedItem],
    session: u16,
) -> Result<Plan, NoMemory>
    requires held { HoldingsFit tables.now }
    requires end { IsAgentEnd end.old }
    requires marked { AreMarkedItems dirty.now tables.now marked.now }
    requires tracked { IsAgentTracked dirty.now tables.now session end.old }
    ensures end { IsAgentEnd end.new }
    ensures id { end.new.id ≡ end.old.id }
    ensures told { IfOk result (λ plan. IsAgentTold tables.now session end.old end.new) }
    ensures plan { IfOk result (λ plan. plan ≡ agent_plan tables.now session end.old) }
{
    if !end.is_live() {
        return Ok(Plan {
            messages: Items::new(alloc),
        });
    }
    let changes = tell_agent(alloc, &mut end.sent, tables, session, dirty, marked)?;
    Ok(Plan {
        messages: spell_items(alloc, &changes)?,
    })
}

/// The plans of the peers, which are all told the same routes.
fn plan_peers(
    alloc: Global,
    ends: &mut [PeerEnd],
    tables: &VpnTables,
    dirty: &Dirty,
    wanted: &RoutesWanted,
    plans: &mut Vec<Plan>,
) -> Result<(), NoMemory>
    requires asn { tables.now.asn < 2 ^ 32 }
    requires held { HoldingsFit tables.now }
    requires wanted { AreRoutesWanted dirty.now tables.now wanted.now }
    requires tracked { dirty.now.all ≡ false → AllByRecursion (IsPeerTracked dirty.now tables.now) ends.old }
    ensures sessions { map (λ e. e.session) ends.new ≡ map (λ e. e.session) ends.old }
    ensures told { IfOk result (λ _. ArePeersTold tables.now ends.old ends.new) }
    ensures plans { IfOk result (λ _. plans.new.items ≡ plans.old.items ++ map (peer_plan tables.now) ends.old) }
{
    for end in ends.iter_mut() {
        plans.push(plan_peer(alloc, end, tables, dirty, wanted)?)?;
    }
    Ok(())
}

/// The plans of the agents, whose sessions have the numbers from the first on.
fn plan_agents(
    alloc: Global,
    ends: &mut [AgentEnd],
    tables: &VpnTables,
    dirty: &Dirty,
    marked: &[MarkedItem],
    first: u16,
    plans: &mut Vec<Plan>,
) -> Result<(), NoMemory>
    requires few { first + length ends.old ≤ 65535 }
    requires held { HoldingsFit tables.now }
    requires ends { AllByRecursion IsAgentEnd ends.old }
    requires marked { AreMarkedItems dirty.now tables.now marked.now }
    requires tracked { dirty.now.all ≡ false → AreAgentsTracked dirty.now tables.now first ends.old }
    ensures ends { AllByRecursion IsAgentEnd ends.new }
    ensures ids { map (λ e. e.id) ends.new ≡ map (λ e. e.id) ends.old }
    ensures told { IfOk result (λ _. AreAgentsTold tables.now first ends.old ends.new) }
    ensures plans { IfOk result (λ _. plans.new.items ≡ plans.old.items ++ agent_plans tables.now first ends.old) }
{
    let mut session = first;
    for end in ends.iter_mut() {
        plans.push(plan_agent(alloc, end, tables, dirty, marked, session)?)?;
        session += 1;
    }
    Ok(())
}

/// The plans of all sessions by what is held: the feed is told nothing, peers the routes that they are to have, agents
/// their slices and rows. Where not everything is marked, it looks at the marked keys alone, of agents with their rows.
fn plan_sessions(
    alloc: Global,
    tables: &VpnTables,
    dirty: &Dirty,
    marked: &[MarkedItem],
    peers: &mut [PeerEnd],
    agents: &mut [AgentEnd],
) -> Result<Vec<Plan>, NoMemory>
    requires few { length peers.old + length agents.old < 65535 }
    requires asn { tables.now.asn < 2 ^ 32 }
    requires held { HoldingsFit tables.now }
    requires agents { AllByRecursion IsAgentEnd agents.old }
    requires marked { AreMarkedItems dirty.now tables.now marked.now }
    requires tracked { Tracks dirty.now tables.now peers.old agents.old }
    ensures sessions { map (λ e. e.session) peers.new ≡ map (λ e. e.session) peers.old }
    ensures agents { AllByRecursion IsAgentEnd agents.new }
    ensures ids { map (λ e. e.id) agents.new ≡ map (λ e. e.id) agents.old }
    ensures told { IfOk result (λ plans. ArePlanned tables.now peers.old peers.new agents.old agents.new plans.items) }
{
    let wanted = routes_wanted(alloc, tables, dirty)?;
    let first = 1 + peers.len() as u16;
    let mut plans = Vec::new(alloc);
    plans.push(Plan {
        messages: Items::new(alloc),
    })?;
    plan_peers(alloc, peers, tables, dirty, &wanted, &mut plans)?;
    plan_agents(alloc, agents, tables, dirty, marked, first, &mut plans)?;
    Ok(plans)
}

/// The plans of all sessions by what is held. Each row of a marked key is selected once for all agents.
fn plan_all(
    alloc: Global,
    tables: &VpnTables,
    dirty: &Dirty,
    peers: &mut [PeerEnd],
    agents: &mut [AgentEnd],
) -> Result<Vec<Plan>, NoMemory>
    requires few { length peers.old + length agents.old < 65535 }
    requires asn { tables.now.asn < 2 ^ 32 }
    requires held { HoldingsFit tables.now }
    requires agents { AllByRecursion IsAgentEnd agents.old }
    requires tracked { Tracks dirty.now tables.now peers.old agents.old }
    ensures sessions { map (λ e. e.session) peers.new ≡ map (λ e. e.session) peers.old }
    ensures agents { AllByRecursion IsAgentEnd agents.new }
    ensures ids { map (λ e. e.id) agents.new ≡ map (λ e. e.id) agents.old }
    ensures told { IfOk result (λ plans. ArePlanned tables.now peers.old peers.new agents.old agents.new plans.items) }
{
    let marked = items_marked(alloc, tables, dirty)?;
    plan_sessions(alloc, tables, dirty, &marked, peers, agents)
}

/// The plans of all sessions by what is held, after which nothing is marked. Where memory is wanting, everything is.
pub(crate) fn plan_marked(
    alloc: Global,
    tables: &VpnTables,
    dirty: &mut Dirty,
    peers: &mut [PeerEnd],
    agents: &mut [AgentEnd],
) -> Result<Vec<Plan>, NoMemory>
    requires few { length peers.old + length agents.old < 65535 }
    requires asn { tables.now.asn < 2 ^ 32 }
    requires held { HoldingsFit tables.now }
    requires agents { AllByRecursion IsAgentEnd agents.old }
    requires tracked { Tracks dirty.old tables.now peers.old agents.old }
    ensures sessions { map (λ e. e.session) peers.new ≡ map (λ e. e.session) peers.old }
    ensures agents { AllByRecursion IsAgentEnd agents.new }
    ensures ids { map (λ e. e.id) agents.new ≡ map (λ e. e.id) agents.old }
    ensures told { IfOk result (λ plans. ArePlanned tables.now peers.old peers.new agents.old agents.new plans.items) }
    ensures tracked { Tracks dirty.new tables.now peers.new agents.new }
{
    match plan_all(alloc, tables, dirty, peers, agents) {
        Ok(plans) => {
            dirty.clear();
            Ok(plans)
        }
        Err(e) => {
            dirty.set_all();
            Err(e)
        }
    }
}
