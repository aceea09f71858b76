//! What is told of a step of a walk.
use ov_types::{Entry, InstanceId, Name, PortNo, Prefix, ServiceNo};
use route_targets::UseHop;

/// What an instance is of.
#[derive(Clone, Copy)]
pub enum Owner {
    Network(Name),
    Hop(UseHop),
    Nothing,
}

/// What a step leads to. A name is absent where nothing has the number.
#[derive(Clone, Copy)]
pub enum LeadsTo {
    Port(PortNo, Option<Name>),
    Service(ServiceNo, Option<Name>),
    Nothing,
}

/// A lookup, the row that it takes, and what that leads to.
#[derive(Clone, Copy)]
pub struct ToldStep {
    /// The compute node of the agent.
    pub agent: Option<Name>,
    pub instance: InstanceId,
    pub owner: Owner,
    /// The row of the longest prefix that contains the address.
    pub row: Option<(Prefix, Entry)>,
    pub leads: LeadsTo,
}
