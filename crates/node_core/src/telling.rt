//! The replies of a step, and then one pass over all sessions.
ghost use Rattle.std.specs.Prelude.{◌≡◌, ◌<◌, List, length, IfOk};
ghost use Rattle.node_model.specs.Step.{Beginning, Post, Steps};
ghost use Rattle.node_core.specs.Passing.{Passes, Serves, closed_if, earlier, noted};
ghost use Rattle.node_core.specs.Begun.{HasBegun};
ghost use Rattle.node_core.specs.Naming.{Names};

use crate::ends::{Ends, Plan};
use ov_link::{Link, LinkFault, Links, send_all};
use ov_types::{Items, NoMemory};

/// Sends the messages on the link of a session, until a send fails. Then the end is closed. Says whether one failed.
fn serve<E: Ends, L: Link>(
    ends: &mut E,
    links: &mut Links<L>,
    session: u16,
    messages: &[Items<u8>],
) -> Result<bool, NoMemory>
    requires known { session < length (E.posts ends.old) }
    requires linked { length links.old ≡ length (E.posts ends.old) }
    ensures kind { E.kind ends.new ≡ E.kind ends.old }
    ensures stays { E.stays ends.old ends.new }
    ensures sessions { length (E.posts ends.new) ≡ length (E.posts ends.old) }
    ensures links { length links.new ≡ length links.old }
    ensures ends { IfOk result (λ failed. E.posts ends.new ≡ closed_if failed (E.posts ends.old) session) }
    ensures serves { IfOk result (λ failed. Serves L.accepted L.breaks L.faults messages.now failed links.old links.new
        session) }
{
    match send_all(links.get_mut(session), messages) {
        Ok(()) => Ok(false),
        Err(LinkFault::Failed) => {
            ends.close(session);
            Ok(true)
        }
        Err(LinkFault::NoMemory) => Err(NoMemory),
    }
}

/// The lowest session whose link failed, after one more session.
fn noted(lowest: Option<u16>, session: u16, failed: bool) -> Option<u16>
    ensures { result ≡ noted lowest session failed }
{
    match lowest {
        None => if failed { Some(session) } else { None },
        Some(first) => Some(first),
    }
}

/// Carries out the plan of each session, in the order of their numbers. Gives the lowest whose link failed.
fn pass<E: Ends, L: Link>(
    ends: &mut E,
    links: &mut Links<L>,
    plans: &[Plan],
) -> Result<Option<u16>, NoMemory>
    requires planned { length plans.now ≡ length (E.posts ends.old) }
    requires linked { length links.old ≡ length (E.posts ends.old) }
    ensures kind { E.kind ends.new ≡ E.kind ends.old }
    ensures stays { E.stays ends.old ends.new }
    ensures sessions { length (E.posts ends.new) ≡ length (E.posts ends.old) }
    ensures links { length links.new ≡ length links.old }
    ensures passes { IfOk result (λ lowest. Passes L.accepted L.breaks L.faults plans.now (E.posts ends.old)
        (E.posts ends.new) links.old links.new lowest (length (E.posts ends.old))) }
{
    let mut lowest = None;
    for session in 0..links.len() {
        let plan = &plans[session as usize];
        let failed = serve(ends, links, session, plan.messages.as_slice())?;
        lowest = noted(lowest, session, failed);
    }
    Ok(lowest)
}

/// The lower of the session, where its reply failed, and the lowest whose link failed in the pass.
fn earlier(failed: bool, session: u16, lowest: Option<u16>) -> Option<u16>
    ensures { result ≡ earlier failed session lowest }
{
    if !failed {
        return lowest;
    }
    match lowest {
        None => Some(session),
        Some(first) => if first < session {
            Some(first)
        } else {
            Some(session)
        },
    }
}

/// Tells the sessions of a node what a step makes, once the input was applied to its end: the replies on its session,
/// and then, in one pass over all sessions in the order of their numbers, the changes from what was sent to what is
/// wanted as the pass begins. A send that fails closes its end, and the pass goes on with the next session. Gives the
/// lowest session whose link failed.
pub fn tell<E: Ends, L: Link>(
    ends: &mut E,
    links: &mut Links<L>,
    session: u16,
    replies: &[Items<u8>],
) -> Result<Option<u16>, NoMemory>
    requires known { session < length (E.posts ends.old) }
    requires linked { length links.old ≡ length (E.posts ends.old) }
    ensures kind { E.kind ends.new ≡ E.kind ends.old }
    ensures stays { E.stays ends.old ends.new }
    ensures sessions { length (E.posts ends.new) ≡ length (E.posts ends.old) }
    ensures links { length links.new ≡ length links.old }
    ensures steps { IfOk result (λ lowest. (before : List Post) (given : Beginning)
        → HasBegun before session given replies.now (E.posts ends.old)
        → Steps (E.kind ends.old) L.accepted L.breaks L.faults before (E.posts ends.new) session given links.old
        links.new lowest) }
    ensures names { IfOk result (λ lowest. Names L.faults links.old links.new lowest) }
{
    let failed = serve(ends, links, session, replies)?;
    let plans = ends.plan()?;
    let lowest = pass(ends, links, &plans)?;
    Ok(earlier(failed, session, lowest))
}
