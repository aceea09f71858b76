//! An agent and its step.
ghost use Rattle.std.specs.Prelude.{◌≡◌, ◌≢◌, ◌≤◌, ◌<◌, ◌↔◌, ℕ, List, length, not, slice_set, true, false, IfOk};
ghost use Rattle.ov_link.specs.declared.step.Stepped.TheVariants.{Closed};
ghost use Rattle.item_wire.specs.declared.event.ItemCause.TheVariants.{Ended};
ghost use Rattle.node_core.specs.Whole.{Comes, IsWholeStep, session_of};
ghost use Rattle.node_core.specs.NodeModel.Agent.{rows as rows_of};
ghost use Rattle.node_core.specs.NodeModel.Step.{post};
ghost use Rattle.node_laws.specs.Stepped.{AreTold};
ghost use Rattle.flow_acl.specs.Flows.{AreOf};
ghost use Rattle.agent_node.specs.Beginning.{BeginsKeeping};
ghost use Rattle.agent_node.specs.Core.{AreSwept, fresh, holdings, is_idle, is_up, kept_at, kind, sessions};

use crate::plan::AgentPlan;
use crate::tabled::TabledEnds;
use flow_acl::{FlowCache, FlowKey};
use item_wire::ItemCause;
use lru::Iter;
use node_core::{Ends, NodeCore};
use ov_link::{Input, Link, Links, NodeFault, Stepped};
use ov_types::{Addr, AgentRows, Attached, Entry, InstanceId, Label, NoMemory, Packet, Verdict};
use packet_trace::Vrouter;
use std::alloc::Global;
use std::marker::Model;

/// An agent: the ends of its sessions with control nodes, and what it forwards packets by.
#[derive(Drop)]
pub struct AgentNode {
    node: NodeCore<TabledEnds>,
    /// Verdicts of the access lists in use.
    flows: FlowCache,
}

impl Model for AgentNode {
    ghost use Rattle.std.specs.Prelude.{◌≡◌, false, length};
    ghost use Rattle.node_core.specs.NodeModel.Agent.{rows as rows_of};
    ghost use Rattle.agent_node.specs.Codes.{coded_core};
    ghost use Rattle.agent_node.specs.Core.{AreFew, AreOfLive, Core, holdings};
    ghost use Rattle.flow_acl.specs.Flows.{AreOf};

    ghost Value = { Core };

    ghost coded = { coded_core };

    ghost view = { λ n. record {
      plan = n.node.ends.plan;
      posts = n.node.ends.posts;
      kept = n.node.inboxes.items;
      rows = n.node.ends.rows;
      failed = n.node.failed;
    } };

    ghost invariant = { λ n. (n.node.failed ≡ false → n.node.ends.rows ≡ rows_of (holdings n.node.ends.posts))
        × AreOf n.node.ends.rows.acls n.flows
        × (length n.node.inboxes.items ≡ length n.node.ends.posts) × AreFew n.node.inboxes.items
        × AreOfLive n.node.ends.posts n.node.inboxes.items };
}

impl AgentNode {
    /// An agent whose sessions are all closed.
    pub fn new(alloc: Global, plan: AgentPlan) -> Result<AgentNode, NoMemory>
        requires few { length plan.controllers ≤ 2 }
        ensures { IfOk result (λ node. node ≡ fresh plan) }
    {
        let ends = TabledEnds::new(alloc, plan)?;
        let flows = FlowCache::new(alloc)?;
        // (for its clauses: there are as many ends as sessions, fewer than 65,536)
        let _sessions = ends.sessions();
        let node = NodeCore::new(alloc, ends)?;
        Ok(AgentNode { node, flows })
    }

    /// How many sessions there are. It takes no memory.
    pub fn sessions(&self) -> u16
        ensures { result ≡ sessions self.now.plan }
    {
        self.node.ends.sessions()
    }

    /// Whether an end is not idle. It takes no memory.
    pub fn is_live(&self, session: u16) -> bool
        requires { session < sessions self.now.plan }
        ensures { result ≡ not (is_idle (post self.now.posts session).phase) }
    {
        // (for its clauses: there are as many ends as sessions, fewer than 65,536)
        let _sessions = self.node.ends.sessions();
        self.node.is_live(session)
    }

    /// Whether an end is up. It takes no memory.
    pub fn is_up(&self, session: u16) -> bool
        requires { session < sessions self.now.plan }
        ensures { result ≡ is_up (post self.now.posts session).phase }
    {
        // (for its clauses: there are as many ends as sessions, fewer than 65,536)
        let _sessions = self.node.ends.sessions();
        self.node.is_up(session)
    }

    /// How many octets are kept of a session, those of a record that is not whole yet. It takes no memory.
    pub fn pending(&self, session: u16) -> usize
        requires { session < sessions self.now.plan }
        ensures kept { result ≡ length (kept_at self.now.kept session) }
        ensures few { result ≤ 65539 }
        ensures closed { is_idle (post self.now.posts session).phase ≡ true → result ≡ 0 }
    {
        // (for its clauses: there are as many ends as sessions, fewer than 65,536)
        let _sessions = self.node.ends.sessions();
        self.node.pending(session)
    }

    /// Whether memory was wanting in a step since the agent was made or restarted. It takes no memory.
    pub fn failed(&self) -> bool
        ensures answer { result ≡ self.now.failed }
        ensures held { self.now.failed ≡ false → self.now.rows ≡ rows_of (holdings self.now.posts) }
    {
        self.node.failed
    }

    /// Closes every end, holds nothing, and keeps no octets. It takes no memory.
    pub fn restart(&mut self)
        ensures { self.new ≡ fresh self.old.plan }
    {
        // (for its clauses: there are as many ends as sessions, fewer than 65,536)
        let _sessions = self.node.ends.sessions();
        self.node.restart();
        self.node.ends.forget();
        self.flows.clear();
    }

    /// The flows of which verdicts are kept, the last used first, each with what the access lists say of it.
    pub fn flows(&self) -> Iter<'_, FlowKey, Verdict>
        ensures { AreOf self.now.rows.acls result }
    {
        self.flows.entries()
    }

    /// What the agent forwards by: its labels, its access lists and its routes, each in the order of their keys.
    pub fn rows(&self) -> Result<AgentRows, NoMemory>
        ensures shown { IfOk result (λ rows. rows ≡ self.now.rows) }
        ensures held { self.now.failed ≡ false → self.now.rows ≡ rows_of (holdings self.now.posts) }
    {
        self.node.ends.rows()
    }

    /// One step: the input is applied to its session, its replies are sent, and then each session is told what has
    /// changed for it. A link that fails closes its session. Octets at the end that are no whole record are kept, and
    /// heard again before those that come next. After want of memory every step answers it, until a restart.
    pub fn step<L: Link>(
        &mut self,
        input: Input<'_>,
        links: &mut Links<L>,
    ) -> Result<Stepped<ItemCause>, NodeFault>
        requires known { session_of input < sessions self.old.plan }
        requires linked { length links.old ≡ sessions self.old.plan }
        requires comes { Comes (λ i. is_idle (post self.old.posts i).phase ≡ false)
            (λ i. is_idle (post self.old.posts i).phase ≡ true) input }
        ensures step { result ≢ Err NodeFault.NoMemory → (left : List ℕ)
            × IsWholeStep L.accepted L.breaks L.faults kind
            (λ given cause. BeginsKeeping self.old.plan (session_of input.entry)
            (post self.old.posts (session_of input.entry)) (kept_at self.old.kept (session_of input.entry)) input.entry
            given cause left)
            self.old.posts self.new.posts (session_of input.entry) links.old links.new result
            × AreSwept self.new.posts (slice_set self.old.kept (session_of input.entry) left) self.new.kept }
        ensures told { IfOk result (λ _. AreTold kind self.new.posts) }
        ensures never_ended { (session : ℕ) → result ≢ Ok (Closed session Ended) }
        ensures plan { self.new.plan ≡ self.old.plan }
        ensures links { length links.new ≡ length links.old }
        ensures failed { (self.new.failed ≡ true) ↔ (result ≡ Err NodeFault.NoMemory) }
        ensures until_restart { self.old.failed ≡ true → result ≡ Err NodeFault.NoMemory }
    {
        // (for its clauses: there are as many ends as sessions, fewer than 65,536)
        let _sessions = self.node.ends.sessions();
        let stepped = self.node.step(input, links);
        if self.node.failed {
            return stepped;
        }
        match self.node.ends.renew(&mut self.flows) {
            Ok(()) => stepped,
            Err(NoMemory) => {
                self.node.failed = true;
                Err(NodeFault::NoMemory)
            }
        }
    }
}

impl Vrouter for AgentNode {
    ghost forwarder = { λ n. record { address = n.plan.me.address; rows = n.rows } };

    fn address(&self) -> Addr {
        self.node.ends.address()
    }

    fn find(&self, label: Label) -> Option<Attached> {
        self.node.ends.find(label)
    }

    fn verdict(&mut self, network: InstanceId, packet: &Packet) -> Verdict {
        self.node.ends.verdict(&mut self.flows, network, packet)
    }

    fn route(&self, i: InstanceId, a: Addr) -> Option<Entry> {
        self.node.ends.route(i, a)
    }
}
