//! The configuration node, its step and what is set as valid.
ghost use Rattle.std.specs.Prelude.{◌≡◌, ◌≢◌, ◌<◌, ◌≤◌, ◌↔◌, ◌⊎◌, ℕ, List, length, not, slice_set, true, false};
ghost use Rattle.std.specs.Prelude.{None, IfOk, IsTrue};
ghost use Rattle.ov_link.specs.declared.step.Stepped.TheVariants.{Closed};
ghost use Rattle.item_wire.specs.declared.event.ItemCause.TheVariants.{Ended};
ghost use Rattle.config_types.specs.Form.{has_config_form, has_topology_form};
ghost use Rattle.config_check.specs.Rules.{first_broken};
ghost use Rattle.node_core.specs.Whole.{Comes, IsWholeStep, session_of};
ghost use Rattle.node_core.specs.NodeModel.Step.{post};
ghost use Rattle.node_laws.specs.Stepped.{AreTold};
ghost use Rattle.config_node.specs.Beginning.{BeginsKeeping};
ghost use Rattle.config_node.specs.Core.{AreSwept, fresh, is_idle, is_up, kept_at, kind, sessions};
ghost use Rattle.config_node.specs.Setting.{IsToldOf, failed_link};

use crate::ends::ConfigEnds;
use config_check::Valid;
use item_wire::ItemCause;
use node_core::{Ends, NodeCore, tell};
use ov_link::{Input, Link, Links, NodeFault, Stepped};
use ov_types::NoMemory;
use std::alloc::Global;
use std::marker::Model;

/// Sets what is valid, and tells each session what has changed for it. Gives the lowest session whose link failed then.
fn set_and_tell<L: Link>(
    ends: &mut ConfigEnds,
    valid: Valid,
    links: &mut Links<L>,
) -> Result<Option<u16>, NoMemory>
    requires same { valid.topology.controllers ≡ ends.old.setup.topology.controllers }
    requires linked { length links.old ≡ sessions ends.old.setup }
    ensures set { IfOk result (λ _. ends.new.setup ≡ valid) }
    ensures setup { (ends.new.setup ≡ ends.old.setup) ⊎ (ends.new.setup ≡ valid) }
    ensures told { IfOk result (λ lowest. IsToldOf L.accepted L.breaks L.faults valid ends.old.posts ends.new.posts
        links.old links.new lowest) }
    ensures links { length links.new ≡ length links.old }
    ensures sessions { length ends.new.posts ≡ length ends.old.posts }
{
    ends.set_valid(valid)?;
    // (for its clauses: there are as many ends as sessions, fewer than 65,536)
    let _sessions = ends.sessions();
    let lowest = tell(ends, links, 0, &[])?;
    Ok(lowest)
}

/// The configuration node: a valid configuration, and the ends of its sessions with the control nodes.
#[derive(Drop)]
pub struct ConfigNode {
    node: NodeCore<ConfigEnds>,
}

impl Model for ConfigNode {
    ghost use Rattle.std.specs.Prelude.{◌≡◌, length};
    ghost use Rattle.config_node.specs.Core.{AreFew, AreOfLive, Core, coded_core};

    ghost Value = { Core };

    ghost coded = { coded_core };

    ghost view = { λ n. record {
      setup = n.node.ends.setup;
      posts = n.node.ends.posts;
      kept = n.node.inboxes.items;
      failed = n.node.failed;
    } };

    ghost invariant = { λ n. (length n.node.inboxes.items ≡ length n.node.ends.posts) × AreFew n.node.inboxes.items
        × AreOfLive n.node.ends.posts n.node.inboxes.items };
}

impl ConfigNode {
    /// A configuration node whose sessions are all closed.
    pub fn new(alloc: Global, valid: Valid) -> Result<ConfigNode, NoMemory>
        ensures { IfOk result (λ node. node ≡ fresh valid) }
    {
        let ends = ConfigEnds::new(alloc, valid)?;
        // (for its clauses: there are as many ends as sessions, fewer than 65,536)
        let _sessions = ends.sessions();
        let node = NodeCore::new(alloc, ends)?;
        Ok(ConfigNode { node })
    }

    /// What is valid now. It takes no memory.
    pub fn valid(&self) -> &Valid
        ensures setup { result.now ≡ self.now.setup }
        ensures topology_form { IsTrue (has_topology_form self.now.setup.topology) }
        ensures config_form { IsTrue (has_config_form self.now.setup.config) }
        ensures valid { first_broken self.now.setup.topology self.now.setup.config ≡ None }
    {
        self.node.ends.valid()
    }

    /// How many sessions there are. It takes no memory.
    pub fn sessions(&self) -> u16
        ensures { result ≡ sessions self.now.setup }
    {
        self.node.ends.sessions()
    }

    /// Whether an end is not idle. It takes no memory.
    pub fn is_live(&self, session: u16) -> bool
        requires { session < sessions self.now.setup }
        ensures { result ≡ not (is_idle (post self.now.posts session).phase) }
    {
        // (for its clauses: there are as many ends as sessions, fewer than 65,536)
        let _sessions = self.node.ends.sessions();
        self.node.is_live(session)
    }

    /// Whether an end is up. It takes no memory.
    pub fn is_up(&self, session: u16) -> bool
        requires { session < sessions self.now.setup }
        ensures { result ≡ is_up (post self.now.posts session).phase }
    {
        // (for its clauses: there are as many ends as sessions, fewer than 65,536)
        let _sessions = self.node.ends.sessions();
        self.node.is_up(session)
    }

    /// How many octets are kept of a session, those of a record that is not whole yet. It takes no memory.
    pub fn pending(&self, session: u16) -> usize
        requires { session < sessions self.now.setup }
        ensures kept { result ≡ length (kept_at self.now.kept session) }
        ensures few { result ≤ 65539 }
        ensures closed { is_idle (post self.now.posts session).phase ≡ true → result ≡ 0 }
    {
        // (for its clauses: there are as many ends as sessions, fewer than 65,536)
        let _sessions = self.node.ends.sessions();
        self.node.pending(session)
    }

    /// Whether memory was wanting in a step, or as something valid was set, since the node was made or restarted. It takes no memory.
    pub fn failed(&self) -> bool
        ensures { result ≡ self.now.failed }
    {
        self.node.failed
    }

    /// Closes every end, and keeps no octets. What is valid stays. It takes no memory.
    pub fn restart(&mut self)
        ensures { self.new ≡ fresh self.old.setup }
    {
        // (for its clauses: there are as many ends as sessions, fewer than 65,536)
        let _sessions = self.node.ends.sessions();
        self.node.restart();
    }

    /// One step: the input is applied to its session, its replies are sent, and then each session is told what has
    /// changed for it. A link that fails closes its session. Octets at the end that are no whole record are kept, and
    /// heard again before those that come next. After want of memory every step answers it, until a restart.
    pub fn step<L: Link>(
        &mut self,
        input: Input<'_>,
        links: &mut Links<L>,
    ) -> Result<Stepped<ItemCause>, NodeFault>
        requires known { session_of input < sessions self.old.setup }
        requires linked { length links.old ≡ sessions self.old.setup }
        requires comes { Comes (λ i. is_idle (post self.old.posts i).phase ≡ false)
            (λ i. is_idle (post self.old.posts i).phase ≡ true) input }
        ensures step { result ≢ Err NodeFault.NoMemory → (left : List ℕ)
            × IsWholeStep L.accepted L.breaks L.faults (kind self.old.setup)
            (λ given cause. BeginsKeeping self.old.setup (session_of input.entry)
            (post self.old.posts (session_of input.entry)) (kept_at self.old.kept (session_of input.entry)) input.entry
            given cause left)
            self.old.posts self.new.posts (session_of input.entry) links.old links.new result
            × AreSwept self.new.posts (slice_set self.old.kept (session_of input.entry) left) self.new.kept }
        ensures told { IfOk result (λ _. AreTold (kind self.new.setup) self.new.posts) }
        ensures never_ended { (session : ℕ) → result ≢ Ok (Closed session Ended) }
        ensures setup { self.new.setup ≡ self.old.setup }
        ensures links { length links.new ≡ length links.old }
        ensures failed { (self.new.failed ≡ true) ↔ (result ≡ Err NodeFault.NoMemory) }
        ensures until_restart { self.old.failed ≡ true → result ≡ Err NodeFault.NoMemory }
    {
        // (for its clauses: there are as many ends as sessions, fewer than 65,536)
        let _sessions = self.node.ends.sessions();
        self.node.step(input, links)
    }

    /// Sets what is valid, with the same control nodes, and then tells each session what has changed for it. Where a link
    /// fails it is set all the same, and the session of that link is closed. After want of memory every call answers it,
    /// until a restart, and it may have been set.
    pub fn set_valid<L: Link>(
        &mut self,
        valid: Valid,
        links: &mut Links<L>,
    ) -> Result<(), NodeFault>
        requires same { valid.topology.controllers ≡ self.old.setup.topology.controllers }
        requires linked { length links.old ≡ sessions self.old.setup }
        ensures set { result ≢ Err NodeFault.NoMemory → self.new.setup ≡ valid }
        ensures told { result ≢ Err NodeFault.NoMemory → IsToldOf L.accepted L.breaks L.faults valid self.old.posts
            self.new.posts links.old links.new (failed_link result) }
        ensures swept { result ≢ Err NodeFault.NoMemory → AreSwept self.new.posts self.old.kept self.new.kept }
        ensures controllers { self.new.setup.topology.controllers ≡ self.old.setup.topology.controllers }
        ensures setup { (self.new.setup ≡ self.old.setup) ⊎ (self.new.setup ≡ valid) }
        ensures links { length links.new ≡ length links.old }
        ensures failed { (self.new.failed ≡ true) ↔ (result ≡ Err NodeFault.NoMemory) }
        ensures until_restart { self.old.failed ≡ true → result ≡ Err NodeFault.NoMemory }
    {
        if self.node.failed {
            return Err(NodeFault::NoMemory);
        }
        match set_and_tell(&mut self.node.ends, valid, links) {
            Ok(None) => {
                self.node.sweep();
                Ok(())
            }
            Ok(Some(session)) => {
                self.node.sweep();
                Err(NodeFault::LinkFailed { session })
            }
            Err(_) => {
                self.node.sweep();
                self.node.failed = true;
                Err(NodeFault::NoMemory)
            }
        }
    }
}
