//! Topologies.
use ov_types::{Addr, Items, Name, NodeId};

/// A compute node, and the one or two control nodes that it listens to, the preferred one first.
#[derive(Clone, Debug, Drop, PartialEq, Eq)]
pub struct Node {
    pub name: Name,
    pub address: Addr,
    pub controllers: Items<Name>,
}

/// The nodes there are, all in one autonomous system.
#[derive(Clone, Debug, Drop, PartialEq, Eq)]
pub struct Topology {
    pub asn: u32,
    pub controllers: Items<NodeId>,
    pub nodes: Items<Node>,
}
