//! The nodes of a network, joined by links that keep their messages until they are taken, and on which sends may fail; and
//! which state of the network's machine it is that they have, with what is in flight between them.
#![tactic(auto)]

mod acting;
mod cores;
mod edges;
mod finding;
mod kinds;
mod making;
mod nodes;
mod octets;
mod place;
mod plans;

pub use agent_node::{AgentNode, AgentPlan};
pub use config_node::ConfigNode;
pub use control_node::{ControlNode, ControlPlan};
pub use nodes::Nodes;
pub use place::SessionPlace;
pub use plans::lists;
