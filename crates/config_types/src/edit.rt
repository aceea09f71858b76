//! Edits of a configuration and of its compute nodes.
use crate::config::{Chain, Network, Policy, Port, Service};
use crate::topology::Node;
use ov_types::Name;

/// An object of a configuration, or a compute node.
#[derive(Clone, Debug, Drop)]
pub enum Object {
    Network(Network),
    Port(Port),
    Policy(Policy),
    Service(Service),
    Chain(Chain),
    Node(Node),
}

/// The kinds of objects. Names are looked up among those of one kind.
#[derive(Clone, Copy, Debug, PartialEq, Eq)]
pub enum ObjectKind {
    Network,
    Port,
    Policy,
    Service,
    Chain,
    Node,
}

/// A change of one object: a put replaces or appends it, a delete removes it.
#[derive(Debug, Drop)]
pub enum Edit {
    Put(Object),
    Delete(ObjectKind, Name),
}
