//! The ends of a node's sessions.
ghost use Rattle.std.specs.Prelude.{◌≡◌, ◌<◌, ◌≤◌, ℕ, List, [], true, false, length, slice_set, IfOk};
ghost use Rattle.std.specs.declared.option.Option.{Option};
ghost use Rattle.ov_link.specs.declared.step.Input.{Input as Came};
ghost use Rattle.node_model.specs.Step.{Beginning, NodeKind, Post, nothing, post, Idle};
ghost use Rattle.node_core.specs.Begun.{HasBegun};
ghost use Rattle.node_core.specs.Keeping.{IsBehind, left_in, size_of};
ghost use Rattle.node_core.specs.Plans.{ArePlans};
ghost use Rattle.node_core.specs.Resting.{end_at, is_idle};
ghost use Rattle.node_core.specs.Whole.{Comes, session_of};

use ov_link::Input;
use ov_types::{Items, NoMemory};

/// What one session is to be told in a pass.
#[derive(Drop)]
pub struct Plan {
    /// The octets of each message, in the order in which they are sent.
    pub messages: Items<Items<u8>>,
}

/// What an input came to at its end.
#[derive(Drop)]
pub struct Started<C> {
    /// The octets that are to be sent on the session, message by message.
    pub replies: Items<Items<u8>>,
    /// How many octets of the input were taken: all but those of a message that is not whole.
    pub taken: usize,
    /// Why the octets took the session down, where they did.
    pub cause: Option<C>,
}

/// How an end is.
pub enum EndState {
    Idle,
    /// The end was opened, and is not up yet.
    Opened,
    Up,
}

/// The ends of a node's sessions, by their numbers: the state of each, what was sent on it and what is held of it.
pub trait Ends {
    /// Why octets take a session down.
    type Cause: Drop;

    /// What kind of node this is: what it wants, where it may send, and how it spells a change.
    ghost kind: { Self → NodeKind };

    /// What is kept of each session.
    ghost posts: { Self → List Post };

    /// What stays as it is from some ends to later ones, as who is at them.
    ghost stays: { Self → Self → Type 0 };

    /// What an input makes of the end of its session, where these octets were kept of it before: the cause for which it
    /// goes down, and the octets that are left then.
    ghost begins: { Self → ℕ → Post → List ℕ → Came → Beginning → Option Self.Cause → List ℕ → Type 0 };

    /// How many sessions there are.
    fn sessions(&self) -> u16
        ensures { result ≡ length (posts self.now) };

    /// How the end of a session is.
    fn state(&self, session: u16) -> EndState
        requires { session < length (posts self.now) }
        ensures { result ≡ end_at (post (posts self.now) session).phase };

    /// Applies an input to the end of its session, which is closed where octets bring a cause for which it goes down.
    /// Octets at the end that are no whole message are left.
    fn begin(&mut self, input: Input<'_>) -> Result<Started<Self::Cause>, NoMemory>
        requires known { session_of input < length (posts self.old) }
        requires comes { Comes (λ i. is_idle (post (posts self.old) i).phase ≡ false)
            (λ i. is_idle (post (posts self.old) i).phase ≡ true) input }
        ensures kept { kind self.new ≡ kind self.old }
        ensures stays { stays self.old self.new }
        ensures long { length (posts self.new) ≡ length (posts self.old) }
        ensures begins { IfOk result (λ started. (given : Beginning)
            × begins self.old (session_of input.entry) (post (posts self.old) (session_of input.entry)) [] input.entry
            given started.cause (left_in input.entry started.taken)
            × HasBegun (posts self.old) (session_of input.entry) given started.replies (posts self.new)) }
        ensures taken { IfOk result (λ started. started.taken ≤ size_of input.entry) }
        ensures few { IfOk result (λ started. length (left_in input.entry started.taken) ≤ 65539) };

    /// The plan of every session: the changes from what was sent to what is wanted now, each as its octets, and none
    /// where the session may not send. What is wanted counts as sent from then on, where the session may send.
    fn plan(&mut self) -> Result<Vec<Plan>, NoMemory>
        ensures kept { kind self.new ≡ kind self.old }
        ensures stays { stays self.old self.new }
        ensures long { length (posts self.new) ≡ length (posts self.old) }
        ensures plans { IfOk result (λ plans. ArePlans (kind self.old) (posts self.old) (posts self.new) plans.items) };

    /// Closes an end: it is idle, and nothing was sent on it and nothing is held of it. It takes no memory.
    fn close(&mut self, session: u16)
        requires { session < length (posts self.old) }
        ensures kept { kind self.new ≡ kind self.old }
        ensures stays { stays self.old self.new }
        ensures closed { posts self.new ≡ slice_set (posts self.old) session nothing };

    ghost stays_itself: { (ends : Self) → stays ends ends };

    ghost stays_on: { (first then last : Self) → stays first then → stays then last → stays first last };

    /// Octets that are heard behind those that were kept are heard as all of them at once.
    ghost begins_behind: { (ends : Self) (session : ℕ) (p : Post) (kept : List ℕ) (came whole : Came) (given : Beginning)
        (cause : Option Self.Cause) (left : List ℕ) → IsBehind kept came whole
        → begins ends session p [] whole given cause left → begins ends session p kept came given cause left };

    /// An idle end may not send.
    ghost idle_is_silent: { (ends : Self) (session : ℕ) → (kind ends).may_send session Idle ≡ false };
}
