//! Agents that go while a control node runs.
ghost use Rattle.std.specs.Prelude.{◌≡◌, ◌≢◌, ◌<◌, ◌↔◌, [], length, nat_lt, slice_set, true, false, IfOk, OnOk, OnErr};
ghost use Rattle.std.specs.List.{filter};
ghost use Rattle.node_core.specs.Keeping.{AreFew, AreOfLive, AreSwept};
ghost use Rattle.node_core.specs.Naming.{Names};
ghost use Rattle.node_laws.specs.Stepped.{AreTold};
ghost use Rattle.node_core.specs.NodeModel.Step.{Steps, nothing};
ghost use Rattle.control_node.specs.Agents.{IsPass, IsRemoval, as_it_is, closing, departed, failed_in, inserted};
ghost use Rattle.control_node.specs.Agents.{is_agent, is_retired, retiring};
ghost use Rattle.control_node.specs.Core.{sessions};
ghost use Rattle.control_node.specs.Wanting.{kind};

use crate::ends::ControlEnds;
use crate::node::ControlNode;
use node_core::{Ends, NodeCore, tell};
use ov_link::{Link, Links, NodeFault};
use ov_types::NoMemory;
use std::alloc::{AllocError, Global};

/// The numbers of a list that are below a given one.
fn below(alloc: Global, numbers: &[u16], number: u16) -> Result<Vec<u16>, AllocError>
    ensures { IfOk result (λ found. found.items ≡ filter (λ m. nat_lt m number) numbers.now) }
{
    numbers
        .iter()
        .filter(|found| **found < number)
        .copied()
        .collect(alloc)
}

/// The numbers of a list that are above a given one.
fn above(alloc: Global, numbers: &[u16], number: u16) -> Result<Vec<u16>, AllocError>
    ensures { IfOk result (λ found. found.items ≡ filter (λ m. nat_lt number m) numbers.now) }
{
    numbers
        .iter()
        .filter(|found| number < **found)
        .copied()
        .collect(alloc)
}

/// Numbers with one more, in ascending order.
fn with_number(alloc: Global, numbers: &[u16], number: u16) -> Result<Vec<u16>, NoMemory>
    ensures { IfOk result (λ all. all.items ≡ inserted numbers.now number) }
{
    let mut all = below(alloc, numbers, number)?;
    let rest = above(alloc, numbers, number)?;
    all.push(number)?;
    all.extend_from_slice(&rest)?;
    Ok(all)
}

/// The end of a session is closed, and then all sessions are told. Gives the lowest session whose link failed.
fn tell_closed<L: Link>(
    ends: &mut ControlEnds,
    session: u16,
    links: &mut Links<L>,
) -> Result<Option<u16>, NoMemory>
    requires known { session < length ends.old.posts }
    requires linked { length links.old ≡ length ends.old.posts }
    ensures plan { ends.new.plan ≡ ends.old.plan }
    ensures sessions { length ends.new.posts ≡ length ends.old.posts }
    ensures steps { IfOk result (λ lowest. Steps (kind ends.old.plan) L.accepted L.breaks L.faults ends.old.posts
        ends.new.posts session closing links.old links.new lowest) }
    ensures names { IfOk result (λ lowest. Names L.faults links.old links.new lowest) }
    ensures links { length links.new ≡ length links.old }
{
    ends.close(session);
    let lowest = tell(ends, links, session, &[])?;
    Ok(lowest)
}

/// The end of a session is closed, nothing is kept of it, and then all sessions are told. Gives the lowest session whose
/// link failed.
fn close_and_tell<L: Link>(
    node: &mut NodeCore<ControlEnds>,
    session: u16,
    links: &mut Links<L>,
) -> Result<Option<u16>, NoMemory>
    requires known { session < length node.old.ends.posts }
    requires linked { length links.old ≡ length node.old.ends.posts }
    requires many { length node.old.inboxes.items ≡ length node.old.ends.posts }
    ensures plan { node.new.ends.plan ≡ node.old.ends.plan }
    ensures sessions { length node.new.ends.posts ≡ length node.old.ends.posts }
    ensures steps { IfOk result (λ lowest. Steps (kind node.old.ends.plan) L.accepted L.breaks L.faults
        node.old.ends.posts node.new.ends.posts session closing links.old links.new lowest) }
    ensures names { IfOk result (λ lowest. Names L.faults links.old links.new lowest) }
    ensures swept { AreSwept node.new.ends.posts (slice_set node.old.inboxes.items session []) node.new.inboxes.items }
    ensures few { AreFew node.old.inboxes.items → AreFew node.new.inboxes.items }
    ensures live { AreOfLive node.new.ends.posts node.new.inboxes.items }
    ensures links { length links.new ≡ length links.old }
    ensures failed { node.new.failed ≡ node.old.failed }
{
    let told = tell_closed(&mut node.ends, session, links);
    node.inboxes[usize::from(session)].clear();
    node.sweep();
    told
}

/// The end of a session is closed, and nothing is kept of it.
fn forget(node: &mut NodeCore<ControlEnds>, session: u16)
    requires known { session < length node.old.ends.posts }
    requires many { length node.old.inboxes.items ≡ length node.old.ends.posts }
    ensures plan { node.new.ends.plan ≡ node.old.ends.plan }
    ensures closed { node.new.ends.posts ≡ slice_set node.old.ends.posts session nothing }
    ensures kept { node.new.inboxes.items ≡ slice_set node.old.inboxes.items session [] }
    ensures failed { node.new.failed ≡ node.old.failed }
{
    node.ends.close_end(session);
    node.inboxes[usize::from(session)].clear();
}

/// All sessions are told. Gives the lowest session whose link failed.
fn tell_ends<L: Link>(ends: &mut ControlEnds, links: &mut Links<L>) -> Result<Option<u16>, NoMemory>
    requires some { 0 < length ends.old.posts }
    requires linked { length links.old ≡ length ends.old.posts }
    ensures plan { ends.new.plan ≡ ends.old.plan }
    ensures sessions { length ends.new.posts ≡ length ends.old.posts }
    ensures steps { IfOk result (λ lowest. Steps (kind ends.old.plan) L.accepted L.breaks L.faults ends.old.posts
        ends.new.posts 0 (as_it_is ends.old.posts) links.old links.new lowest) }
    ensures names { IfOk result (λ lowest. Names L.faults links.old links.new lowest) }
    ensures links { length links.new ≡ length links.old }
{
    let lowest = tell(ends, links, 0, &[])?;
    Ok(lowest)
}

/// All sessions are told, and nothing is kept of those that are closed then. Gives the lowest session whose link failed.
fn tell_all<L: Link>(
    node: &mut NodeCore<ControlEnds>,
    links: &mut Links<L>,
) -> Result<Option<u16>, NoMemory>
    requires some { 0 < length node.old.ends.posts }
    requires linked { length links.old ≡ length node.old.ends.posts }
    requires many { length node.old.inboxes.items ≡ length node.old.ends.posts }
    ensures plan { node.new.ends.plan ≡ node.old.ends.plan }
    ensures sessions { length node.new.ends.posts ≡ length node.old.ends.posts }
    ensures steps { IfOk result (λ lowest. Steps (kind node.old.ends.plan) L.accepted L.breaks L.faults
        node.old.ends.posts node.new.ends.posts 0 (as_it_is node.old.ends.posts) links.old links.new lowest) }
    ensures names { IfOk result (λ lowest. Names L.faults links.old links.new lowest) }
    ensures swept { AreSwept node.new.ends.posts node.old.inboxes.items node.new.inboxes.items }
    ensures few { AreFew node.old.inboxes.items → AreFew node.new.inboxes.items }
    ensures live { AreOfLive node.new.ends.posts node.new.inboxes.items }
    ensures links { length links.new ≡ length links.old }
    ensures failed { node.new.failed ≡ node.old.failed }
{
    let told = tell_ends(&mut node.ends, links);
    node.sweep();
    told
}

fn removal(lowest: Option<u16>) -> Result<(), NodeFault>
    ensures lowest { failed_in result ≡ lowest }
    ensures memory { result ≢ Err NodeFault.NoMemory }
{
    match lowest {
        Some(session) => Err(NodeFault::LinkFailed { session }),
        None => Ok(()),
    }
}

impl ControlNode {
    /// Retires a session, closes its end, and tells all sessions. Gives the lowest session whose link failed.
    fn retire<L: Link>(
        &mut self,
        session: u16,
        links: &mut Links<L>,
    ) -> Result<Option<u16>, NoMemory>
        requires agent { length self.old.plan.peers < session }
        requires known { session < sessions self.old.plan }
        requires kept { is_retired self.old.plan session ≡ false }
        requires linked { length links.old ≡ sessions self.old.plan }
        ensures steps { IfOk result (λ lowest. Steps (kind self.old.plan) L.accepted L.breaks L.faults
            self.old.posts self.new.posts session closing links.old links.new lowest) }
        ensures names { IfOk result (λ lowest. Names L.faults links.old links.new lowest) }
        ensures swept { IfOk result (λ _. AreSwept self.new.posts (slice_set self.old.kept session []) self.new.kept) }
        ensures plan { OnOk result (self.new.plan ≡ retiring self.old.plan session) }
        ensures stays { OnErr result (self.new.plan ≡ self.old.plan) }
        ensures links { length links.new ≡ length links.old }
        ensures failed { self.new.failed ≡ self.old.failed }
    {
        // (for its clauses: there are as many ends as sessions, fewer than 65,536)
        let _sessions = self.node.ends.sessions();
        let retired = with_number(self.node.ends.alloc(), &self.retired, session)?;
        let lowest = close_and_tell(&mut self.node, session, links)?;
        self.retired = retired;
        Ok(lowest)
    }

    /// The agent of a session goes: the session is closed, nothing is kept of it, all other sessions are told what
    /// changes by that, and the session's number is retired. A link that fails closes its session. After want of memory
    /// the number is not retired, and every step answers that, until a restart.
    pub fn remove_agent<L: Link>(
        &mut self,
        session: u16,
        links: &mut Links<L>,
    ) -> Result<(), NodeFault>
        requires agent { is_agent self.old.plan session ≡ true }
        requires kept { is_retired self.old.plan session ≡ false }
        requires linked { length links.old ≡ sessions self.old.plan }
        ensures removal { result ≢ Err NodeFault.NoMemory
            → IsRemoval L.accepted L.breaks L.faults (kind self.old.plan) self.old.posts self.new.posts session
            links.old links.new result
            × AreSwept self.new.posts (slice_set self.old.kept session []) self.new.kept }
        ensures told { IfOk result (λ _. AreTold (kind self.new.plan) self.new.posts) }
        ensures plan { result ≢ Err NodeFault.NoMemory → self.new.plan ≡ retiring self.old.plan session }
        ensures stays { result ≡ Err NodeFault.NoMemory → self.new.plan ≡ self.old.plan }
        ensures links { length links.new ≡ length links.old }
        ensures failed { (self.new.failed ≡ true) ↔ (result ≡ Err NodeFault.NoMemory) }
        ensures until_restart { self.old.failed ≡ true → result ≡ Err NodeFault.NoMemory }
    {
        if self.node.failed {
            return Err(NodeFault::NoMemory);
        }
        match self.retire(session, links) {
            Ok(lowest) => removal(lowest),
            Err(NoMemory) => {
                self.node.failed = true;
                Err(NodeFault::NoMemory)
            }
        }
    }

    /// The agent of a session goes: the session is closed, nothing is kept of it, and its number is retired. No session
    /// is told yet what changes by that. Where memory is wanting, nothing changes.
    pub fn retire_agent(&mut self, session: u16) -> Result<(), NoMemory>
        requires agent { is_agent self.old.plan session ≡ true }
        requires kept { is_retired self.old.plan session ≡ false }
        ensures departed { OnOk result (self.new ≡ departed self.old session) }
        ensures err { OnErr result (self.new ≡ self.old) }
    {
        // (for its clauses: there are as many ends as sessions, fewer than 65,536)
        let _sessions = self.node.ends.sessions();
        let retired = with_number(self.node.ends.alloc(), &self.retired, session)?;
        forget(&mut self.node, session);
        self.retired = retired;
        Ok(())
    }

    /// Tells all sessions. Gives the lowest session whose link failed.
    fn tell_each<L: Link>(&mut self, links: &mut Links<L>) -> Result<Option<u16>, NoMemory>
        requires linked { length links.old ≡ sessions self.old.plan }
        ensures steps { IfOk result (λ lowest. Steps (kind self.old.plan) L.accepted L.breaks L.faults
            self.old.posts self.new.posts 0 (as_it_is self.old.posts) links.old links.new lowest) }
        ensures names { IfOk result (λ lowest. Names L.faults links.old links.new lowest) }
        ensures swept { AreSwept self.new.posts self.old.kept self.new.kept }
        ensures plan { self.new.plan ≡ self.old.plan }
        ensures links { length links.new ≡ length links.old }
        ensures failed { self.new.failed ≡ self.old.failed }
    {
        // (for its clauses: there are as many ends as sessions, fewer than 65,536)
        let _sessions = self.node.ends.sessions();
        tell_all(&mut self.node, links)
    }

    /// Tells each session what is wanted now. A link that fails closes its session. After want of memory every step
    /// answers that, until a restart.
    pub fn tell<L: Link>(&mut self, links: &mut Links<L>) -> Result<(), NodeFault>
        requires linked { length links.old ≡ sessions self.old.plan }
        ensures passes { result ≢ Err NodeFault.NoMemory
            → IsPass L.accepted L.breaks L.faults (kind self.old.plan) self.old.posts self.new.posts links.old
            links.new result }
        ensures swept { result ≢ Err NodeFault.NoMemory → AreSwept self.new.posts self.old.kept self.new.kept }
        ensures told { IfOk result (λ _. AreTold (kind self.new.plan) self.new.posts) }
        ensures plan { self.new.plan ≡ self.old.plan }
        ensures links { length links.new ≡ length links.old }
        ensures failed { (self.new.failed ≡ true) ↔ (result ≡ Err NodeFault.NoMemory) }
        ensures until_restart { self.old.failed ≡ true → result ≡ Err NodeFault.NoMemory }
    {
        if self.node.failed {
            return Err(NodeFault::NoMemory);
        }
        match self.tell_each(links) {
            Ok(lowest) => removal(lowest),
            Err(NoMemory) => {
                self.node.failed = true;
                Err(NodeFault::NoMemory)
            }
        }
    }
}
