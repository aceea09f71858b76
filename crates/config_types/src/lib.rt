//! What documents hold: topologies, configurations, edits and events, and which of them have the written form.
#![tactic(auto)]

mod config;
mod edit;
mod event;
mod topology;

pub use config::{
    Action, Chain, Config, Direction, End, Network, Policy, Port, Protocol, Rule, Service,
};
pub use edit::{Edit, Object, ObjectKind};
pub use event::Event;
pub use topology::{Node, Topology};
