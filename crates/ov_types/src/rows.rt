//! Nodes, and the rows of their tables.
use crate::items::Items;
use crate::name::Name;
use crate::numbers::{InstanceId, Label, PortNo, Rd, ServiceNo};
use crate::objects::Low;
use crate::prefix::{Addr, Prefix};
use std::fmt;

/// A node's name and address.
#[derive(Clone, Copy, Debug, PartialEq, Eq)]
pub struct NodeId {
    pub name: Name,
    pub address: Addr,
}

/// Where a control node's table leads for one prefix.
#[derive(Clone, Copy, PartialEq, Eq)]
pub struct TableRow {
    pub rd: Rd,
    pub next_hop: Addr,
    pub label: Label,
}

impl fmt::Display for TableRow {
    ghost use Rattle.std.specs.Prelude.{Some};
    ghost use Rattle.ov_types.specs.Rows.{table_row_text};

    ghost output = { λ r. Some (table_row_text r) };

    #[tactic(auto, unfolding(crate::specs::Rows::table_row_text))]
    fn fmt<W: fmt::Write>(&self, f: &mut fmt::Formatter<W>) -> fmt::Result {
        let rd = self.rd;
        let next_hop = self.next_hop;
        let label = self.label;
        write!(f, "{rd} {next_hop} {label}")
    }
}

/// Where an agent's table leads for one prefix.
#[derive(Clone, Copy, Debug, PartialEq, Eq)]
pub struct Entry {
    pub next_hop: Addr,
    pub label: Label,
}

/// What a label leads to at an agent.
#[derive(Clone, Copy, Debug, PartialEq, Eq)]
pub enum Attached {
    Port { port: PortNo, instance: InstanceId },
    Circuit { circuit: u32, service: ServiceNo },
}

/// The rows of a control node's instances, in the order of their keys.
pub type ControlRows = Items<((InstanceId, Prefix), TableRow)>;

/// The rows of an agent, each list in the order of its keys: what its labels lead to, its access lists, and its routes.
#[derive(Clone, Debug, Drop, PartialEq, Eq)]
pub struct AgentRows {
    pub labels: Items<(Label, Attached)>,
    pub acls: Low,
    pub routes: Items<((InstanceId, Prefix), Entry)>,
}

/// The rows of a node.
#[derive(Clone, Drop, PartialEq, Eq)]
pub enum NodeRows {
    Control(ControlRows),
    Agent(AgentRows),
}
