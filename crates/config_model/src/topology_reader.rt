//! Reading topologies.
ghost use Rattle.std.specs.Prelude.{◌≡◌, [], IsTrue, Result, IfOk};
ghost use Rattle.serde_json.specs.View.{view};
ghost use Rattle.config_model.specs.Paths.{place_text};
ghost use Rattle.config_model.specs.Faults.{Gives};
ghost use Rattle.config_types.specs.Form.{is_as_number, is_reserved_as, has_controller_form, has_node_form, has_topology_form};
ghost use Rattle.config_model.specs.Fields.{in_member};
ghost use Rattle.config_model.specs.Topology.{as_at, controller_at, node_at, topology_at};

use crate::bounds::{FIRST_NODE_ADDRESS, LAST_AS, LAST_NODE_ADDRESS, LAST_SHORT_AS, STAND_IN_AS};
use crate::fault::{DocKind, DocumentPlace, ReadRefusal};
use crate::fields::{
    Count, FromDocument, check_others, list_member, member_of, object_of, whole_of,
};
use crate::values::{address_member, name_but_member};
use config_types::{Node, Topology};
use ov_types::{Name, NodeId};
use serde_json::Value;
use std::alloc::Global;

/// Whether no autonomous system has a number, although it lies within the bounds.
fn is_reserved_as(n: u64) -> bool
    ensures { result ≡ is_reserved_as n }
{
    n == STAND_IN_AS || n == LAST_SHORT_AS
}

/// The number of an autonomous system.
#[tactic(auto, unfolding(crate::specs::Topology::as_at))]
fn as_of(alloc: Global, place: &DocumentPlace<'_>, value: &Value) -> Result<u32, ReadRefusal>
    ensures reads { Gives (λ n. n) result (as_at (place_text place.now) (view value.now)) }
    ensures form { IfOk result (λ n. IsTrue (is_as_number n)) }
{
    let number = whole_of(alloc, place, 1, LAST_AS, value)?;
    if is_reserved_as(number) {
        return Err(place.fault(alloc, DocKind::Range));
    }
    Ok(number as u32)
}

#[tactic(auto, unfolding(crate::specs::Fields::in_member))]
fn as_member(
    alloc: Global,
    place: &DocumentPlace<'_>,
    name: &str,
    value: &Value,
) -> Result<u32, ReadRefusal>
    ensures reads { Gives (λ n. n) result (in_member as_at (place_text place.now) name.now (view value.now)) }
    ensures form { IfOk result (λ n. IsTrue (is_as_number n)) }
{
    let found = member_of(alloc, place, name, value)?;
    as_of(alloc, &DocumentPlace::Member(place, name), found)
}

impl FromDocument for NodeId {
    ghost reads = { controller_at };

    ghost has_form = { has_controller_form };

    #[tactic(auto, unfolding(crate::specs::Topology::controller_at, config_types::specs::Form::has_controller_form))]
    fn read(alloc: Global, place: &DocumentPlace<'_>, value: &Value) -> Result<Self, ReadRefusal> {
        let members = object_of(alloc, place, value)?;
        let name = name_but_member(alloc, place, "name", "config", value)?;
        let address = address_member(
            alloc,
            place,
            "address",
            FIRST_NODE_ADDRESS,
            LAST_NODE_ADDRESS,
            value,
        )?;
        check_others(alloc, place, &["name", "address"], members)?;
        Ok(NodeId { name, address })
    }
}

impl FromDocument for Node {
    ghost reads = { node_at };

    ghost has_form = { has_node_form };

    #[tactic(auto, unfolding(crate::specs::Topology::node_at, config_types::specs::Form::has_node_form))]
    fn read(alloc: Global, place: &DocumentPlace<'_>, value: &Value) -> Result<Self, ReadRefusal> {
        let members = object_of(alloc, place, value)?;
        let name = name_but_member(alloc, place, "name", "config", value)?;
        let address = address_member(
            alloc,
            place,
            "address",
            FIRST_NODE_ADDRESS,
            LAST_NODE_ADDRESS,
            value,
        )?;
        let controllers = list_member::<Name>(alloc, place, "controllers", Count::OneOrTwo, value)?;
        check_others(alloc, place, &["name", "address", "controllers"], members)?;
        Ok(Node {
            name,
            address,
            controllers,
        })
    }
}

impl FromDocument for Topology {
    ghost reads = { topology_at };

    ghost has_form = { has_topology_form };

    #[tactic(auto, unfolding(crate::specs::Topology::topology_at, config_types::specs::Form::has_topology_form))]
    fn read(alloc: Global, place: &DocumentPlace<'_>, value: &Value) -> Result<Self, ReadRefusal> {
        let members = object_of(alloc, place, value)?;
        let asn = as_member(alloc, place, "as", value)?;
        let controllers = list_member::<NodeId>(
            alloc,
            place,
            "controllers",
            Count::AtLeastOne,
            value,
        )?;
        let nodes = list_member::<Node>(alloc, place, "nodes", Count::AtLeastOne, value)?;
        check_others(alloc, place, &["as", "controllers", "nodes"], members)?;
        Ok(Topology {
            asn,
            controllers,
            nodes,
        })
    }
}

/// The topology that a value writes, with `as`, `controllers` and `nodes`. Paths begin at the value.
pub fn read_topology(alloc: Global, value: &Value) -> Result<Topology, ReadRefusal>
    ensures reads { Gives (λ t. t) result (topology_at [] (view value.now)) }
    ensures form { IfOk result (λ t. IsTrue (has_topology_form t)) }
{
    Topology::read(alloc, &DocumentPlace::Whole, value)
}
