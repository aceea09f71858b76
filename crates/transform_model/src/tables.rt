//! The rows of all nodes.
use ov_types::{AgentRows, ControlRows, Items};

/// The rows that a configuration asks for: those of each control node, and those of each agent, in the topology's
/// order.
#[derive(Drop)]
pub struct Compiled {
    pub controls: Items<ControlRows>,
    pub agents: Items<AgentRows>,
}
