//! Why a session of a control node went down.
use bgp_session::Cause;
use item_wire::ItemCause;

/// Why a session went down for what came on it.
#[derive(Clone, Copy, Debug, PartialEq, Eq)]
pub enum NodeCause {
    /// A session with another control node.
    Peer(Cause),
    /// The feed, or a session with an agent.
    Item(ItemCause),
}
