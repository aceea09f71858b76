//! The octets that a node keeps of its sessions.
ghost use Rattle.std.specs.Prelude.{◌≡◌, ◌<◌, [], length, not, IfOk, if◌then◌else◌};
ghost use Rattle.node_model.specs.Step.{post};
ghost use Rattle.node_core.specs.Keeping.{AreSwept, nothing_kept};
ghost use Rattle.node_core.specs.Resting.{is_idle};

use crate::ends::{EndState, Ends};
use ov_link::Inbox;
use ov_types::NoMemory;
use std::alloc::Global;

/// An empty inbox for each session.
pub(crate) fn empty_inboxes(alloc: Global, sessions: u16) -> Result<Vec<Inbox>, NoMemory>
    ensures { IfOk result (λ inboxes. inboxes.items ≡ nothing_kept sessions) }
{
    let mut inboxes = Vec::new(alloc);
    for _session in 0..sessions {
        inboxes.push(Inbox::new(alloc))?;
    }
    Ok(inboxes)
}

/// Whether an end is not idle.
pub(crate) fn is_live<E: Ends>(ends: &E, session: u16) -> bool
    requires { session < length (E.posts ends.now) }
    ensures { result ≡ not (is_idle (post (E.posts ends.now) session).phase) }
{
    match ends.state(session) {
        EndState::Idle => false,
        EndState::Opened | EndState::Up => true,
    }
}

/// Keeps the octets of an end that is live, and nothing of another.
fn sweep_one(live: bool, inbox: &mut Inbox)
    ensures { inbox.new ≡ (if live then inbox.old else []) }
{
    if !live {
        inbox.clear();
    }
}

/// Keeps nothing of the ends that are closed. It takes no memory.
pub(crate) fn sweep<E: Ends>(ends: &E, inboxes: &mut Vec<Inbox>)
    requires { length inboxes.old.items ≡ length (E.posts ends.now) }
    ensures { AreSwept (E.posts ends.now) inboxes.old.items inboxes.new.items }
{
    for session in 0..ends.sessions() {
        sweep_one(is_live(ends, session), &mut inboxes[usize::from(session)]);
    }
}
