//! The nodes, which are the same in each scenario.
ghost use Rattle.std.specs.Prelude.{◌≡◌, ◌≤◌, IfOk};
ghost use Rattle.scenario_gen.specs.Nodes.{controller, node, topology};

use crate::listing::{Numbered, all_numbered};
use crate::naming::{address, controller_at, numbered};
use config_types::{Node, Topology};
use ov_types::{Items, NoMemory, NodeId};
use std::alloc::Global;

/// The number of the autonomous system.
const AS_NUMBER: u32 = 64_512;

/// How many control nodes and compute nodes there are.
const CONTROLLERS: u16 = 3;

const NODES: u16 = 20;

impl Numbered for NodeId {
    ghost by_number = { λ n i. controller i };

    #[tactic(auto, unfolding(crate::specs::Nodes::controller))]
    fn numbered(alloc: Global, _scenario: u16, number: u16) -> Result<Self, NoMemory> {
        let name = numbered(alloc, "c", number)?;
        let address = address(192, 0, 2, number);
        Ok(NodeId { name, address })
    }
}

impl Numbered for Node {
    ghost by_number = { λ n i. node i };

    #[tactic(auto, unfolding(crate::specs::Nodes::node))]
    fn numbered(alloc: Global, _scenario: u16, number: u16) -> Result<Self, NoMemory> {
        let mut controllers = Items::new(alloc);
        controllers.push(controller_at(alloc, number)?)?;
        controllers.push(controller_at(alloc, number + 1)?)?;
        Ok(Node {
            name: numbered(alloc, "n", number)?,
            address: address(192, 0, 2, 10 + number),
            controllers,
        })
    }
}

/// The topology of the scenario.
#[tactic(auto, unfolding(crate::specs::Nodes::topology))]
pub(crate) fn topology(alloc: Global, scenario: u16) -> Result<Topology, NoMemory>
    requires first { 1 ≤ scenario }
    requires last { scenario ≤ 999 }
    ensures { IfOk result (λ t. t ≡ topology) }
{
    let controllers = all_numbered::<NodeId>(alloc, scenario, 1, CONTROLLERS)?;
    let nodes = all_numbered::<Node>(alloc, scenario, 1, NODES)?;
    Ok(Topology {
        asn: AS_NUMBER,
        controllers,
        nodes,
    })
}
