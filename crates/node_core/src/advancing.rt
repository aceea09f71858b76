//! One step of the ends of a node.
ghost use Rattle.std.specs.Prelude.{◌≡◌, ◌≢◌, ◌<◌, ◌≤◌, [], length, true, false, IfOk};
ghost use Rattle.ov_link.specs.declared.step.Input.TheVariants as input;
ghost use Rattle.node_model.specs.Step.{post};
ghost use Rattle.node_core.specs.Keeping.{IsSilent, left_in, size_of};
ghost use Rattle.node_core.specs.Resting.{is_idle};
ghost use Rattle.node_core.specs.Whole.{Comes, IsWholeStep, session_of};

use crate::answers::answer;
use crate::ends::{Ends, Started};
use crate::telling::tell;
use ov_link::{Inbox, Input, Link, Links, NodeFault, Stepped};
use ov_types::NoMemory;

/// The session of an input.
pub(crate) fn session_of(input: &Input<'_>) -> u16
    ensures { result ≡ session_of input.now }
{
    match input {
        Input::Opened { session } => *session,
        Input::Bytes { session, .. } => *session,
        Input::Closed { session } => *session,
    }
}

/// What a step of the ends came to, where it found memory.
#[derive(Drop)]
struct Advanced<C> {
    /// How the step is answered.
    stepped: Result<Stepped<C>, NodeFault>,
    /// How many octets of the input were taken.
    taken: usize,
}

/// One step of the ends: the input is applied to the end of its session, and then all sessions are told.
fn advance<E: Ends, L: Link>(
    ends: &mut E,
    input: Input<'_>,
    links: &mut Links<L>,
) -> Result<Advanced<E::Cause>, NoMemory>
    requires known { session_of input < length (E.posts ends.old) }
    requires linked { length links.old ≡ length (E.posts ends.old) }
    requires comes { Comes (λ i. is_idle (post (E.posts ends.old) i).phase ≡ false)
        (λ i. is_idle (post (E.posts ends.old) i).phase ≡ true) input }
    ensures kept { E.kind ends.new ≡ E.kind ends.old }
    ensures stays { E.stays ends.old ends.new }
    ensures sessions { length (E.posts ends.new) ≡ length (E.posts ends.old) }
    ensures links { length links.new ≡ length links.old }
    ensures step { IfOk result (λ advanced. IsWholeStep L.accepted L.breaks L.faults (E.kind ends.old)
        (λ given cause. E.begins ends.old (session_of input.entry) (post (E.posts ends.old) (session_of input.entry)) []
        input.entry given cause (left_in input.entry advanced.taken))
        (E.posts ends.old) (E.posts ends.new) (session_of input.entry) links.old links.new advanced.stepped) }
    ensures taken { IfOk result (λ advanced. advanced.taken ≤ size_of input.entry) }
    ensures few { IfOk result (λ advanced. length (left_in input.entry advanced.taken) ≤ 65539) }
{
    let session = session_of(&input);
    let Started {
        replies,
        taken,
        cause,
    } = ends.begin(input)?;
    let lowest = tell(ends, links, session, replies.as_slice())?;
    Ok(Advanced {
        stepped: answer(lowest, session, cause),
        taken,
    })
}

/// One step where octets come and none were kept of the session: they are heard where they lie, and what is left of
/// them is kept.
fn hear_alone<E: Ends, L: Link>(
    ends: &mut E,
    inbox: &mut Inbox,
    session: u16,
    bytes: &[u8],
    links: &mut Links<L>,
) -> Result<Stepped<E::Cause>, NodeFault>
    requires known { session < length (E.posts ends.old) }
    requires linked { length links.old ≡ length (E.posts ends.old) }
    requires live { is_idle (post (E.posts ends.old) session).phase ≡ false }
    requires none { inbox.old ≡ [] }
    ensures kept { E.kind ends.new ≡ E.kind ends.old }
    ensures stays { E.stays ends.old ends.new }
    ensures sessions { length (E.posts ends.new) ≡ length (E.posts ends.old) }
    ensures links { length links.new ≡ length links.old }
    ensures step { result ≢ Err NodeFault.NoMemory
        → IsWholeStep L.accepted L.breaks L.faults (E.kind ends.old)
        (λ given cause. E.begins ends.old session (post (E.posts ends.old) session) [] (input.Bytes session bytes.entry)
        given cause inbox.new)
        (E.posts ends.old) (E.posts ends.new) session links.old links.new result }
    ensures few { length inbox.new ≤ 65539 }
{
    match advance(ends, Input::Bytes { session, bytes }, links) {
        Ok(Advanced { stepped, taken }) => match inbox.push(&bytes[taken..]) {
            Ok(()) => stepped,
            Err(NoMemory) => Err(NodeFault::NoMemory),
        },
        Err(NoMemory) => Err(NodeFault::NoMemory),
    }
}

/// One step where octets come behind those that were kept of the session. What is left of them all is kept, and nothing
/// where memory is wanting once they came.
fn hear_behind<E: Ends, L: Link>(
    ends: &mut E,
    inbox: &mut Inbox,
    session: u16,
    bytes: &[u8],
    links: &mut Links<L>,
) -> Result<Stepped<E::Cause>, NodeFault>
    requires known { session < length (E.posts ends.old) }
    requires linked { length links.old ≡ length (E.posts ends.old) }
    requires live { is_idle (post (E.posts ends.old) session).phase ≡ false }
    ensures kept { E.kind ends.new ≡ E.kind ends.old }
    ensures stays { E.stays ends.old ends.new }
    ensures sessions { length (E.posts ends.new) ≡ length (E.posts ends.old) }
    ensures links { length links.new ≡ length links.old }
    ensures step { result ≢ Err NodeFault.NoMemory
        → IsWholeStep L.accepted L.breaks L.faults (E.kind ends.old)
        (λ given cause. E.begins ends.old session (post (E.posts ends.old) session) inbox.old
        (input.Bytes session bytes.entry) given cause inbox.new)
        (E.posts ends.old) (E.posts ends.new) session links.old links.new result }
    ensures few { length inbox.old ≤ 65539 → length inbox.new ≤ 65539 }
{
    if inbox.push(bytes).is_err() {
        return Err(NodeFault::NoMemory);
    }
    let whole = Input::Bytes {
        session,
        bytes: inbox.octets(),
    };
    match advance(ends, whole, links) {
        Ok(Advanced { stepped, taken }) => {
            inbox.take(taken);
            stepped
        }
        Err(NoMemory) => {
            inbox.clear();
            Err(NodeFault::NoMemory)
        }
    }
}

/// One step by an input that brings no octets. Nothing is kept of the session then.
fn turn<E: Ends, L: Link>(
    ends: &mut E,
    inbox: &mut Inbox,
    input: Input<'_>,
    links: &mut Links<L>,
) -> Result<Stepped<E::Cause>, NodeFault>
    requires known { session_of input < length (E.posts ends.old) }
    requires linked { length links.old ≡ length (E.posts ends.old) }
    requires comes { Comes (λ i. is_idle (post (E.posts ends.old) i).phase ≡ false)
        (λ i. is_idle (post (E.posts ends.old) i).phase ≡ true) input }
    requires silent { IsSilent input }
    ensures kept { E.kind ends.new ≡ E.kind ends.old }
    ensures stays { E.stays ends.old ends.new }
    ensures sessions { length (E.posts ends.new) ≡ length (E.posts ends.old) }
    ensures links { length links.new ≡ length links.old }
    ensures step { result ≢ Err NodeFault.NoMemory
        → IsWholeStep L.accepted L.breaks L.faults (E.kind ends.old)
        (λ given cause. E.begins ends.old (session_of input.entry) (post (E.posts ends.old) (session_of input.entry))
        inbox.old input.entry given cause inbox.new)
        (E.posts ends.old) (E.posts ends.new) (session_of input.entry) links.old links.new result }
    ensures none { inbox.new ≡ [] }
{
    inbox.clear();
    match advance(ends, input, links) {
        Ok(Advanced { stepped, .. }) => stepped,
        Err(NoMemory) => Err(NodeFault::NoMemory),
    }
}

/// One step of the ends, where octets may have been kept of the session before: those that come are heard behind them.
pub(crate) fn advance_keeping<E: Ends, L: Link>(
    ends: &mut E,
    inbox: &mut Inbox,
    input: Input<'_>,
    links: &mut Links<L>,
) -> Result<Stepped<E::Cause>, NodeFault>
    requires known { session_of input < length (E.posts ends.old) }
    requires linked { length links.old ≡ length (E.posts ends.old) }
    requires comes { Comes (λ i. is_idle (post (E.posts ends.old) i).phase ≡ false)
        (λ i. is_idle (post (E.posts ends.old) i).phase ≡ true) input }
    ensures kept { E.kind ends.new ≡ E.kind ends.old }
    ensures stays { E.stays ends.old ends.new }
    ensures sessions { length (E.posts ends.new) ≡ length (E.posts ends.old) }
    ensures links { length links.new ≡ length links.old }
    ensures step { result ≢ Err NodeFault.NoMemory
        → IsWholeStep L.accepted L.breaks L.faults (E.kind ends.old)
        (λ given cause. E.begins ends.old (session_of input.entry) (post (E.posts ends.old) (session_of input.entry))
        inbox.old input.entry given cause inbox.new)
        (E.posts ends.old) (E.posts ends.new) (session_of input.entry) links.old links.new result }
    ensures few { length inbox.old ≤ 65539 → length inbox.new ≤ 65539 }
{
    match input {
        Input::Bytes { session, bytes } => if inbox.octets().is_empty() {
            hear_alone(ends, inbox, session, bytes, links)
        } else {
            hear_behind(ends, inbox, session, bytes, links)
        },
        Input::Opened { .. } => turn(ends, inbox, input, links),
        Input::Closed { .. } => turn(ends, inbox, input, links),
    }
}
