//! Agents that come while a control node runs.
ghost use Rattle.std.specs.Prelude.{◌≡◌, ◌<◌, ◌≤◌, [], drop, length, false, IfOk, OnOk, OnErr};
ghost use Rattle.control_node.specs.Agents.{is_retired, joined, number_for, put_at};
ghost use Rattle.control_node.specs.Core.{sessions};
ghost use Rattle.control_node.specs.Seating.{seated};

use crate::ends::ControlEnds;
use crate::node::ControlNode;
use node_core::{Ends, NodeCore};
use ov_link::Inbox;
use ov_types::{NoMemory, NodeId};

/// An agent gets a session, that of another agent or one behind all others. Its end is closed, and nothing is kept of it.
fn seat(node: &mut NodeCore<ControlEnds>, session: u16, agent: &NodeId) -> Result<(), NoMemory>
    requires agents { length node.old.ends.plan.peers < session }
    requires few { session < 65535 }
    requires next { session ≤ sessions node.old.ends.plan }
    requires many { length node.old.inboxes.items ≡ sessions node.old.ends.plan }
    ensures ends { OnOk result (node.new.ends ≡ seated node.old.ends session agent.now) }
    ensures kept { OnOk result (node.new.inboxes.items ≡ put_at node.old.inboxes.items session []) }
    ensures ends_stay { OnErr result (node.new.ends ≡ node.old.ends) }
    ensures kept_stay { OnErr result (node.new.inboxes.items ≡ node.old.inboxes.items) }
    ensures failed { node.new.failed ≡ node.old.failed }
{
    let alloc = node.ends.alloc();
    node.inboxes.reserve(1)?;
    node.ends.seat(session, agent)?;
    if usize::from(session) < node.inboxes.len() {
        node.inboxes[usize::from(session)].clear();
    } else {
        node.inboxes.push_reserved(Inbox::new(alloc));
    }
    Ok(())
}

/// The first number is not retired any more, where there is one.
fn drop_first(numbers: &mut Vec<u16>)
    ensures { numbers.new.items ≡ drop 1 numbers.old.items }
{
    if !numbers.is_empty() {
        numbers.remove(0);
    }
}

impl ControlNode {
    /// The session of the next agent.
    fn number(&self) -> u16
        ensures { result ≡ number_for self.now.plan }
    {
        match self.retired.first() {
            Some(number) => *number,
            None => self.node.ends.sessions(),
        }
    }

    /// An agent comes: it gets the session with the least retired number, which is not retired then, and where none is
    /// retired a session behind all others. The session is not live. Nothing is sent. Where memory is wanting, nothing
    /// changes.
    pub fn add_agent(&mut self, agent: NodeId) -> Result<u16, NoMemory>
        requires room { self.old.plan.retired ≡ [] → sessions self.old.plan < 65535 }
        ensures number { IfOk result (λ number. number ≡ number_for self.old.plan) }
        ensures joined { OnOk result (self.new ≡ joined self.old agent) }
        ensures taken { IfOk result (λ number. is_retired self.new.plan number ≡ false) }
        ensures err { OnErr result (self.new ≡ self.old) }
    {
        let number = self.number();
        // (for its clauses: there are as many ends as sessions, fewer than 65,536)
        let _sessions = self.node.ends.sessions();
        seat(&mut self.node, number, &agent)?;
        drop_first(&mut self.retired);
        Ok(number)
    }
}
