//! The sessions of an agent.
use ov_types::{Items, NodeId};

/// Who an agent is, and the control nodes at the other ends of its sessions, in the order in which it lists them, at
/// most two. Sessions are numbered from 0 in that order.
#[derive(Clone, Drop, PartialEq, Eq)]
pub struct AgentPlan {
    pub me: NodeId,
    pub controllers: Items<NodeId>,
}
