//! A node of any kind, and its step.
ghost use Rattle.std.specs.Prelude.{◌≡◌, ◌≢◌, ◌<◌, ◌↔◌, ℕ, List, length, not, slice_set, true, false, IfOk};
ghost use Rattle.node_model.specs.Step.{post};
ghost use Rattle.node_core.specs.Keeping.{AreFew, AreOfLive, AreSwept, kept_at, nothing_kept};
ghost use Rattle.node_core.specs.Resting.{is_idle, is_up, nothings};
ghost use Rattle.node_core.specs.Whole.{Comes, IsWholeStep, session_of};

use crate::advancing::{advance_keeping, session_of};
use crate::ends::{EndState, Ends};
use crate::keeping::{empty_inboxes, is_live, sweep};
use ov_link::{Inbox, Input, Link, Links, NodeFault, Stepped};
use ov_types::NoMemory;
use std::alloc::Global;

/// Closes every end. It takes no memory.
fn close_all<E: Ends>(ends: &mut E)
    ensures kept { E.kind ends.new ≡ E.kind ends.old }
    ensures stays { E.stays ends.old ends.new }
    ensures posts { E.posts ends.new ≡ nothings (length (E.posts ends.old)) }
{
    for session in 0..ends.sessions() {
        ends.close(session);
    }
}

/// A node: the ends of its sessions, the octets that it keeps of each, and whether memory was wanting.
#[derive(Drop)]
pub struct NodeCore<E> {
    pub ends: E,
    /// The octets of each session that are no whole message yet.
    pub inboxes: Vec<Inbox>,
    /// Whether memory was wanting in a step since the node was made or restarted.
    pub failed: bool,
}

impl<E: Ends> NodeCore<E> {
    /// A node with these ends, of which nothing is kept.
    pub fn new(alloc: Global, ends: E) -> Result<NodeCore<E>, NoMemory>
    where
        E: Drop,
        ensures ends { IfOk result (λ node. node.ends ≡ ends) }
        ensures kept { IfOk result (λ node. node.inboxes.items ≡ nothing_kept (length (E.posts ends))) }
        ensures works { IfOk result (λ node. node.failed ≡ false) }
    {
        let inboxes = empty_inboxes(alloc, ends.sessions())?;
        Ok(NodeCore {
            ends,
            inboxes,
            failed: false,
        })
    }

    /// How many sessions there are. It takes no memory.
    pub fn sessions(&self) -> u16
        ensures { result ≡ length (E.posts self.now.ends) }
    {
        self.ends.sessions()
    }

    /// Whether an end is not idle. It takes no memory.
    pub fn is_live(&self, session: u16) -> bool
        requires { session < length (E.posts self.now.ends) }
        ensures { result ≡ not (is_idle (post (E.posts self.now.ends) session).phase) }
    {
        is_live(&self.ends, session)
    }

    /// Whether an end is up. It takes no memory.
    pub fn is_up(&self, session: u16) -> bool
        requires { session < length (E.posts self.now.ends) }
        ensures { result ≡ is_up (post (E.posts self.now.ends) session).phase }
    {
        match self.ends.state(session) {
            EndState::Up => true,
            EndState::Idle | EndState::Opened => false,
        }
    }

    /// How many octets are kept of a session, until more come. It takes no memory.
    pub fn pending(&self, session: u16) -> usize
        requires { session < length self.now.inboxes.items }
        ensures { result ≡ length (kept_at self.now.inboxes.items session) }
    {
        self.inboxes[usize::from(session)].octets().len()
    }

    /// Keeps nothing of the ends that are closed. It takes no memory.
    pub fn sweep(&mut self)
        requires { length self.old.inboxes.items ≡ length (E.posts self.old.ends) }
        ensures ends { self.new.ends ≡ self.old.ends }
        ensures swept { AreSwept (E.posts self.old.ends) self.old.inboxes.items self.new.inboxes.items }
        ensures few { AreFew self.old.inboxes.items → AreFew self.new.inboxes.items }
        ensures live { AreOfLive (E.posts self.old.ends) self.new.inboxes.items }
        ensures failed { self.new.failed ≡ self.old.failed }
    {
        sweep(&self.ends, &mut self.inboxes);
    }

    /// Closes every end, and keeps nothing. It takes no memory.
    pub fn restart(&mut self)
        requires { length self.old.inboxes.items ≡ length (E.posts self.old.ends) }
        ensures kept { E.kind self.new.ends ≡ E.kind self.old.ends }
        ensures stays { E.stays self.old.ends self.new.ends }
        ensures posts { E.posts self.new.ends ≡ nothings (length (E.posts self.old.ends)) }
        ensures none { self.new.inboxes.items ≡ nothing_kept (length (E.posts self.old.ends)) }
        ensures works { self.new.failed ≡ false }
    {
        close_all(&mut self.ends);
        sweep(&self.ends, &mut self.inboxes);
        self.failed = false;
    }

    /// One step: the input is applied to its session, its replies are sent, and then each session is told what has
    /// changed for it. A link that fails closes its session. Octets at the end that are no whole message are kept, and
    /// heard again before those that come next. After want of memory every step answers it, until a restart.
    pub fn step<L: Link>(
        &mut self,
        input: Input<'_>,
        links: &mut Links<L>,
    ) -> Result<Stepped<E::Cause>, NodeFault>
        requires known { session_of input < length (E.posts self.old.ends) }
        requires linked { length links.old ≡ length (E.posts self.old.ends) }
        requires many { length self.old.inboxes.items ≡ length (E.posts self.old.ends) }
        requires comes { Comes (λ i. is_idle (post (E.posts self.old.ends) i).phase ≡ false)
            (λ i. is_idle (post (E.posts self.old.ends) i).phase ≡ true) input }
        ensures step { result ≢ Err NodeFault.NoMemory → (left : List ℕ)
            × IsWholeStep L.accepted L.breaks L.faults (E.kind self.old.ends)
            (λ given cause. E.begins self.old.ends (session_of input.entry)
            (post (E.posts self.old.ends) (session_of input.entry))
            (kept_at self.old.inboxes.items (session_of input.entry)) input.entry given cause left)
            (E.posts self.old.ends) (E.posts self.new.ends) (session_of input.entry) links.old links.new result
            × AreSwept (E.posts self.new.ends) (slice_set self.old.inboxes.items (session_of input.entry) left)
            self.new.inboxes.items }
        ensures kept { E.kind self.new.ends ≡ E.kind self.old.ends }
        ensures stays { E.stays self.old.ends self.new.ends }
        ensures sessions { length (E.posts self.new.ends) ≡ length (E.posts self.old.ends) }
        ensures many { length self.new.inboxes.items ≡ length self.old.inboxes.items }
        ensures few { AreFew self.old.inboxes.items → AreFew self.new.inboxes.items }
        ensures live { AreOfLive (E.posts self.old.ends) self.old.inboxes.items
            → AreOfLive (E.posts self.new.ends) self.new.inboxes.items }
        ensures links { length links.new ≡ length links.old }
        ensures failed { (self.new.failed ≡ true) ↔ (result ≡ Err NodeFault.NoMemory) }
        ensures until_restart { self.old.failed ≡ true → result ≡ Err NodeFault.NoMemory }
    {
        if self.failed {
            return Err(NodeFault::NoMemory);
        }
        let inbox = &mut self.inboxes[usize::from(session_of(&input))];
        let stepped = advance_keeping(&mut self.ends, inbox, input, links);
        sweep(&self.ends, &mut self.inboxes);
        self.failed = matches!(stepped, Err(NodeFault::NoMemory));
        stepped
    }
}
