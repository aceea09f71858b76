//! The sessions of a control node.
use ov_types::{Items, NodeId};

/// Who a control node is, and who is at the other ends of its sessions: session 0 is the feed, then come the peers and
/// then the agents, each in the order of the topology.
#[derive(Clone, Drop, PartialEq, Eq)]
pub struct ControlPlan {
    pub me: NodeId,
    pub asn: u32,
    pub peers: Items<NodeId>,
    /// At a retired number the agent that had it last.
    pub agents: Items<NodeId>,
    /// The numbers of sessions that no agent has now, ascending.
    pub retired: Items<u16>,
}
