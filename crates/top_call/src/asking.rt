//! What the control nodes of a settled network ask of their peers.
ghost use Rattle.std.specs.Prelude.{◌≡◌, false, map, true, IfOk, OnOk};
ghost use Rattle.net_machine.specs.Runs.{tied_moment};
ghost use Rattle.net_machine.specs.Looking.{held_at, is_control_node};
ghost use Rattle.rt_constrain.specs.Asking.{asked as asked_of};
ghost use Rattle.top_call.specs.Constraint.{AreControlNodes, asking_of, askings};
ghost use Rattle.top_call.specs.ConstraintNetworks.{EachNeedsNoMore, NeedsNoMore, NoneNeedsMore};

use net_machine::Net;
use ov_types::{Items, Name, NoMemory, NodeId};
use rt_constrain::asked;
use rt_membership::Asked;
use std::alloc::Global;
use vpn_tables::VpnTables;

/// A control node, and what it asks of its peers.
#[derive(Drop)]
pub(crate) struct Asking {
    pub(crate) node: Name,
    pub(crate) asked: Items<Asked>,
}

/// What is asked by whoever holds so much.
fn asked_by(alloc: Global, tables: &VpnTables) -> Result<Items<Asked>, NoMemory>
    ensures asked { IfOk result (λ found. found ≡ asked_of tables.now) }
    ensures enough { OnOk result (NeedsNoMore tables.now) }
{
    let found = asked(alloc, tables, tables.asn())?;
    Ok(Items::from_vec(found))
}

/// What a control node asks of its peers.
fn asking_at(alloc: Global, net: &Net, node: &NodeId) -> Result<Asking, NoMemory>
    requires works { net.now.failed ≡ false }
    requires there { is_control_node (tied_moment net.now.opening net.now.events).network.setup.topology node.now.name ≡ true }
    ensures asking { IfOk result (λ a. a ≡ asking_of (tied_moment net.now.opening net.now.events).network node.now) }
    ensures enough { OnOk result (NeedsNoMore (held_at (tied_moment net.now.opening net.now.events).network node.now.name)) }
{
    let Some(control) = net.control(&node.name) else {
        unreachable!()
    };
    let asked = asked_by(alloc, control.tables())?;
    Ok(Asking {
        node: node.name,
        asked,
    })
}

/// What each of these control nodes asks of its peers, in their order.
fn askings_of(alloc: Global, net: &Net, controllers: &[NodeId]) -> Result<Vec<Asking>, NoMemory>
    requires works { net.now.failed ≡ false }
    requires there { AreControlNodes (tied_moment net.now.opening net.now.events).network.setup.topology controllers.now }
    ensures askings { IfOk result (λ all. all.items
        ≡ map (asking_of (tied_moment net.now.opening net.now.events).network) controllers.now) }
    ensures enough { OnOk result (EachNeedsNoMore (tied_moment net.now.opening net.now.events).network controllers.now) }
{
    let mut all = Vec::new(alloc);
    for controller in controllers {
        let asking = asking_at(alloc, net, controller)?;
        all.push(asking)?;
    }
    Ok(all)
}

/// What each control node asks of its peers, in the order of the topology.
pub(crate) fn askings_in(alloc: Global, net: &Net) -> Result<Vec<Asking>, NoMemory>
    requires works { net.now.failed ≡ false }
    ensures askings { IfOk result (λ all. all.items ≡ askings (tied_moment net.now.opening net.now.events).network) }
    ensures enough { OnOk result (NoneNeedsMore (tied_moment net.now.opening net.now.events).network) }
{
    let topology = net.config().topology();
    askings_of(alloc, net, topology.controllers.as_slice())
}
