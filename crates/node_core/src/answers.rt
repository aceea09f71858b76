//! What a step comes to.
ghost use Rattle.std.specs.Prelude.{◌≡◌};
ghost use Rattle.node_core.specs.Answers.{answer, failed_link};

use ov_link::{NodeFault, Stepped};

/// What a step of a node comes to: the failure of the lowest link that failed, else the cause for which the octets
/// closed their session.
pub fn answer<C: Drop>(
    lowest: Option<u16>,
    session: u16,
    cause: Option<C>,
) -> Result<Stepped<C>, NodeFault>
    ensures answer { result ≡ answer lowest session cause }
    ensures lowest { failed_link result ≡ lowest }
{
    if let Some(session) = lowest {
        return Err(NodeFault::LinkFailed { session });
    }
    match cause {
        Some(cause) => Ok(Stepped::Closed { session, cause }),
        None => Ok(Stepped::Done),
    }
}
