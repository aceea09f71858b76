//! A control node and its step.
ghost use Rattle.std.specs.Prelude.{◌≡◌, ◌≢◌, ◌<◌, ◌≤◌, ◌↔◌, ◌+◌, ℕ, List, [], length, map, not, false, true, IfOk};
ghost use Rattle.std.specs.List.{slice_set};
ghost use Rattle.std.specs.List.Sorted.{IsStrictlySortedBy};
ghost use Rattle.ov_types.specs.Keys.{row_key_cmp};
ghost use Rattle.ov_link.specs.declared.step.Stepped.TheVariants.{Closed};
ghost use Rattle.bgp_session.specs.declared.event.Cause.TheVariants.{Ended as PeerEnded};
ghost use Rattle.item_wire.specs.declared.event.ItemCause.TheVariants.{Ended as ItemEnded};
ghost use Rattle.node_core.specs.Whole.{Comes, IsWholeStep, session_of};
ghost use Rattle.node_core.specs.NodeModel.Step.{post};
ghost use Rattle.node_core.specs.NodeModel.Tables.{rows as rows_of};
ghost use Rattle.node_laws.specs.Stepped.{AreTold};
ghost use Rattle.control_node.specs.Agents.{AreRetired, is_agent, is_retired};
ghost use Rattle.control_node.specs.Core.{AreSwept, fresh, holdings, kept_at, sessions};
ghost use Rattle.control_node.specs.Wanting.{is_idle, is_up, kind};
ghost use Rattle.control_node.specs.Beginning.{BeginsKeeping};
ghost use Rattle.control_node.specs.declared.cause.NodeCause.TheVariants as Because;

use crate::cause::NodeCause;
use crate::ends::ControlEnds;
use crate::plan::ControlPlan;
use node_core::{Ends, NodeCore};
use ov_link::{Input, Link, Links, NodeFault, Stepped};
use ov_types::{ControlRows, NoMemory};
use std::alloc::Global;
use std::marker::Model;
use vpn_tables::VpnTables;

/// A control node, which contracts see as its plan, its ends, the octets that it keeps, and whether it failed.
#[derive(Drop)]
pub struct ControlNode {
    pub(crate) node: NodeCore<ControlEnds>,
    /// The numbers of sessions that no agent has now, ascending.
    pub(crate) retired: Vec<u16>,
}

impl Model for ControlNode {
    ghost use Rattle.std.specs.Prelude.{◌≡◌, length};
    ghost use Rattle.control_node.specs.Agents.{AreRetired, with_retired};
    ghost use Rattle.control_node.specs.Core.{AreFew, AreOfLive, Core};
    ghost use Rattle.control_node.specs.Codes.{coded_core};

    ghost Value = { Core };

    ghost coded = { coded_core };

    ghost view = { λ n. record {
      plan = with_retired n.node.ends.plan n.retired.items;
      posts = n.node.ends.posts;
      kept = n.node.inboxes.items;
      failed = n.node.failed;
    } };

    ghost invariant = { λ n. (length n.node.inboxes.items ≡ length n.node.ends.posts) × AreFew n.node.inboxes.items
        × AreOfLive n.node.ends.posts n.node.inboxes.items
        × AreRetired (with_retired n.node.ends.plan n.retired.items) };
}

impl ControlNode {
    /// A node whose sessions are all closed.
    pub fn new(alloc: Global, plan: ControlPlan) -> Result<ControlNode, NoMemory>
        requires few { length plan.peers + length plan.agents < 65535 }
        requires address { plan.me.address.0 ≢ 0 }
        requires retired { plan.retired ≡ [] }
        ensures { IfOk result (λ node. node ≡ fresh plan) }
    {
        let ends = ControlEnds::new(alloc, plan)?;
        let node = NodeCore::new(alloc, ends)?;
        Ok(ControlNode {
            node,
            retired: Vec::new(alloc),
        })
    }

    /// How many sessions there are. It takes no memory.
    pub fn sessions(&self) -> u16
        ensures { result ≡ sessions self.now.plan }
    {
        self.node.ends.sessions()
    }

    /// Whether the session is with an agent, or was until its agent was removed. It takes no memory.
    pub fn is_agent(&self, session: u16) -> bool
        ensures { result ≡ is_agent self.now.plan session }
    {
        self.node.ends.is_agent(session)
    }

    /// Whether no agent has the session now, since the one that had it was removed. It takes no memory.
    pub fn is_retired(&self, session: u16) -> bool
        ensures retired { result ≡ is_retired self.now.plan session }
        ensures numbers { AreRetired self.now.plan }
    {
        self.retired.iter().any(|number| *number == session)
    }

    /// Whether an end is not idle. It takes no memory.
    pub fn is_live(&self, session: u16) -> bool
        requires { session < sessions self.now.plan }
        ensures { result ≡ not (is_idle (post self.now.posts session).phase) }
    {
        // (for its clauses: there are as many ends as sessions, fewer than 65,536)
        let _sessions = self.node.ends.sessions();
        self.node.is_live(session)
    }

    /// Whether an end is up. It takes no memory.
    pub fn is_up(&self, session: u16) -> bool
        requires { session < sessions self.now.plan }
        ensures { result ≡ is_up (post self.now.posts session).phase }
    {
        // (for its clauses: there are as many ends as sessions, fewer than 65,536)
        let _sessions = self.node.ends.sessions();
        self.node.is_up(session)
    }

    /// Whether memory was wanting in a step since the node was made or restarted. It takes no memory.
    pub fn failed(&self) -> bool
        ensures { result ≡ self.now.failed }
    {
        self.node.failed
    }

    /// How many octets are kept of a session, those of a message that is not whole yet. It takes no memory.
    pub fn pending(&self, session: u16) -> usize
        requires { session < sessions self.now.plan }
        ensures kept { result ≡ length (kept_at self.now.kept session) }
        ensures few { result ≤ 65539 }
        ensures closed { is_idle (post self.now.posts session).phase ≡ true → result ≡ 0 }
    {
        // (for its clauses: there are as many ends as sessions, fewer than 65,536)
        let _sessions = self.node.ends.sessions();
        self.node.pending(session)
    }

    /// Closes every end, holds nothing, and keeps no octets. Retired sessions stay so. It takes no memory.
    pub fn restart(&mut self)
        ensures { self.new ≡ fresh self.old.plan }
    {
        // (for its clauses: there are as many ends as sessions, fewer than 65,536)
        let _sessions = self.node.ends.sessions();
        self.node.restart();
    }

    /// The table of every known instance, in the order of keys.
    pub fn rows(&self) -> Result<ControlRows, NoMemory>
        ensures shown { IfOk result (λ rows. rows ≡ rows_of (holdings self.now.plan self.now.posts)) }
        ensures ascending { IfOk result (λ rows. IsStrictlySortedBy row_key_cmp (map (λ row. row.0) rows)) }
    {
        self.node.ends.rows()
    }

    /// What is held of all sessions. It takes no memory.
    pub fn tables(&self) -> &VpnTables
        ensures { result.now ≡ holdings self.now.plan self.now.posts }
    {
        self.node.ends.held()
    }

    /// One step: the input is applied to its session, its replies are sent, and then each session is told what has
    /// changed for it. A link that fails closes its session. Octets at the end that are no whole message are kept, and
    /// heard again before those that come next. After want of memory every step answers it, until a restart.
    pub fn step<L: Link>(
        &mut self,
        input: Input<'_>,
        links: &mut Links<L>,
    ) -> Result<Stepped<NodeCause>, NodeFault>
        requires known { session_of input < sessions self.old.plan }
        requires kept { is_retired self.old.plan (session_of input) ≡ false }
        requires linked { length links.old ≡ sessions self.old.plan }
        requires comes { Comes (λ i. is_idle (post self.old.posts i).phase ≡ false)
            (λ i. is_idle (post self.old.posts i).phase ≡ true) input }
        ensures step { result ≢ Err NodeFault.NoMemory → (left : List ℕ)
            × IsWholeStep L.accepted L.breaks L.faults (kind self.old.plan)
            (λ given cause. BeginsKeeping self.old.plan (session_of input.entry)
            (post self.old.posts (session_of input.entry)) (kept_at self.old.kept (session_of input.entry)) input.entry
            given cause left)
            self.old.posts self.new.posts (session_of input.entry) links.old links.new result
            × AreSwept self.new.posts (slice_set self.old.kept (session_of input.entry) left) self.new.kept }
        ensures told { IfOk result (λ _. AreTold (kind self.new.plan) self.new.posts) }
        ensures never_ended { (session : ℕ) → (result ≢ Ok (Closed session (Because.Item ItemEnded)))
            × (result ≢ Ok (Closed session (Because.Peer PeerEnded))) }
        ensures plan { self.new.plan ≡ self.old.plan }
        ensures links { length links.new ≡ length links.old }
        ensures failed { (self.new.failed ≡ true) ↔ (result ≡ Err NodeFault.NoMemory) }
        ensures until_restart { self.old.failed ≡ true → result ≡ Err NodeFault.NoMemory }
    {
        // (for its clauses: there are as many ends as sessions, fewer than 65,536)
        let _sessions = self.node.ends.sessions();
        self.node.step(input, links)
    }
}
