//! Records, read.
ghost use Rattle.std.specs.Prelude.{◌≤◌, length, IsTrue, IfOk};
ghost use Rattle.serde_json.specs.View.{view};
ghost use Rattle.item_wire.specs.Faults.{IsRead, Gives};
ghost use Rattle.item_wire.specs.Ranges.{is_in_range};
ghost use Rattle.item_wire.specs.Reading.{hello_of, instance_of, port_of, circuit_of, acl_of, use_of, no_instance_of};
ghost use Rattle.item_wire.specs.Reading.{no_attach_of, no_acl_of, no_use_of, publish_of, unpublish_of, subscribe_of};
ghost use Rattle.item_wire.specs.Reading.{unsubscribe_of, route_of, unroute_of, by_op, item_of, item_in};
ghost use Rattle.item_wire.specs.Records.{json_text};

use crate::bounds::{
    FIRST_ATTACHED_LABEL, FIRST_CIRCUIT, LAST_ATTACHED_LABEL, LAST_CIRCUIT, LAST_LABEL, LAST_PORT,
    LAST_SERVICE, LAST_USE,
};
use crate::fault::{Field, ItemFault, ItemRefusal};
use crate::field::{
    any_address_in, instance_in, list_in, name_in, network_in, node_address_in, number_in,
    prefix_in,
};
use crate::item::Item;
use crate::list::Count;
use crate::op::{Op, op_in};
use ov_io::value_of;
use ov_types::{AclRule, Addr, InstanceId, Label, PortNo, Prefix, ServiceNo};
use serde_json::Value;
use std::alloc::Global;

#[tactic(auto, unfolding(crate::specs::Reading::hello_of))]
fn hello_of(value: &Value) -> Result<Item, ItemFault>
    ensures reads { IsRead (λ x. x) result (hello_of (view value.now)) }
    ensures form { IfOk result (λ item. IsTrue (is_in_range item)) }
{
    let name = name_in(Field::Name, value)?;
    Ok(Item::Hello { name })
}

#[tactic(auto, unfolding(crate::specs::Reading::instance_of))]
fn instance_of(alloc: Global, value: &Value) -> Result<Item, ItemRefusal>
    ensures reads { Gives result (instance_of (view value.now)) }
    ensures form { IfOk result (λ item. IsTrue (is_in_range item)) }
{
    let imports = list_in::<InstanceId>(alloc, Count::AtLeastOne, Field::Imports, value)?;
    let instance = network_in(Field::Instance, value)?;
    Ok(Item::Instance {
        imports,
        instance: InstanceId(instance),
    })
}

#[tactic(auto, unfolding(crate::specs::Reading::port_of))]
fn port_of(value: &Value) -> Result<Item, ItemFault>
    ensures reads { IsRead (λ x. x) result (port_of (view value.now)) }
    ensures form { IfOk result (λ item. IsTrue (is_in_range item)) }
{
    let address = any_address_in(Field::Address, value)?;
    let instance = network_in(Field::Instance, value)?;
    let node = node_address_in(Field::Node, value)?;
    let port = number_in(Field::Port, 0, LAST_PORT, value)?;
    Ok(Item::Port {
        address,
        instance: InstanceId(instance),
        node,
        port: PortNo(port as u32),
    })
}

#[tactic(auto, unfolding(crate::specs::Reading::circuit_of))]
fn circuit_of(value: &Value) -> Result<Item, ItemFault>
    ensures reads { IsRead (λ x. x) result (circuit_of (view value.now)) }
    ensures form { IfOk result (λ item. IsTrue (is_in_range item)) }
{
    let circuit = number_in(Field::Circuit, FIRST_CIRCUIT, LAST_CIRCUIT, value)?;
    let node = node_address_in(Field::Node, value)?;
    let service = number_in(Field::Service, 0, LAST_SERVICE, value)?;
    Ok(Item::Circuit {
        circuit: circuit as u32,
        node,
        service: ServiceNo(service as u16),
    })
}

#[tactic(auto, unfolding(crate::specs::Reading::acl_of))]
fn acl_of(alloc: Global, value: &Value) -> Result<Item, ItemRefusal>
    ensures reads { Gives result (acl_of (view value.now)) }
    ensures form { IfOk result (λ item. IsTrue (is_in_range item)) }
{
    let from = network_in(Field::From, value)?;
    let rules = list_in::<AclRule>(alloc, Count::AnyNumber, Field::Rules, value)?;
    let subnets = list_in::<Prefix>(alloc, Count::AnyNumber, Field::Subnets, value)?;
    let to = network_in(Field::To, value)?;
    Ok(Item::Acl {
        from,
        rules,
        subnets,
        to,
    })
}

#[tactic(auto, unfolding(crate::specs::Reading::use_of))]
fn use_of(alloc: Global, value: &Value) -> Result<Item, ItemRefusal>
    ensures reads { Gives result (use_of (view value.now)) }
    ensures form { IfOk result (λ item. IsTrue (is_in_range item)) }
{
    let hops = list_in::<(ServiceNo, Addr)>(alloc, Count::OneToFifteen, Field::Hops, value)?;
    let left = network_in(Field::Left, value)?;
    let left_prefixes = list_in::<Prefix>(alloc, Count::AnyNumber, Field::LeftPrefixes, value)?;
    let right = network_in(Field::Right, value)?;
    let right_prefixes = list_in::<Prefix>(alloc, Count::AnyNumber, Field::RightPrefixes, value)?;
    let use_no = number_in(Field::Use, 0, LAST_USE, value)?;
    Ok(Item::Use {
        hops,
        left: InstanceId(left),
        left_prefixes,
        right: InstanceId(right),
        right_prefixes,
        use_no: use_no as u16,
    })
}

#[tactic(auto, unfolding(crate::specs::Reading::no_instance_of))]
fn no_instance_of(value: &Value) -> Result<Item, ItemFault>
    ensures reads { IsRead (λ x. x) result (no_instance_of (view value.now)) }
    ensures form { IfOk result (λ item. IsTrue (is_in_range item)) }
{
    let instance = network_in(Field::Instance, value)?;
    Ok(Item::NoInstance {
        instance: InstanceId(instance),
    })
}

#[tactic(auto, unfolding(crate::specs::Reading::no_attach_of))]
fn no_attach_of(value: &Value) -> Result<Item, ItemFault>
    ensures reads { IsRead (λ x. x) result (no_attach_of (view value.now)) }
    ensures form { IfOk result (λ item. IsTrue (is_in_range item)) }
{
    let label = number_in(
        Field::Label,
        FIRST_ATTACHED_LABEL,
        LAST_ATTACHED_LABEL,
        value,
    )?;
    Ok(Item::NoAttach {
        label: Label(label as u32),
    })
}

#[tactic(auto, unfolding(crate::specs::Reading::no_acl_of))]
fn no_acl_of(value: &Value) -> Result<Item, ItemFault>
    ensures reads { IsRead (λ x. x) result (no_acl_of (view value.now)) }
    ensures form { IfOk result (λ item. IsTrue (is_in_range item)) }
{
    let from = network_in(Field::From, value)?;
    let to = network_in(Field::To, value)?;
    Ok(Item::NoAcl { from, to })
}

#[tactic(auto, unfolding(crate::specs::Reading::no_use_of))]
fn no_use_of(value: &Value) -> Result<Item, ItemFault>
    ensures reads { IsRead (λ x. x) result (no_use_of (view value.now)) }
    ensures form { IfOk result (λ item. IsTrue (is_in_range item)) }
{
    let use_no = number_in(Field::Use, 0, LAST_USE, value)?;
    Ok(Item::NoUse {
        use_no: use_no as u16,
    })
}

#[tactic(auto, unfolding(crate::specs::Reading::publish_of))]
fn publish_of(value: &Value) -> Result<Item, ItemFault>
    ensures reads { IsRead (λ x. x) result (publish_of (view value.now)) }
    ensures form { IfOk result (λ item. IsTrue (is_in_range item)) }
{
    let instance = instance_in(Field::Instance, value)?;
    let label = number_in(
        Field::Label,
        FIRST_ATTACHED_LABEL,
        LAST_ATTACHED_LABEL,
        value,
    )?;
    let prefix = prefix_in(Field::Prefix, value)?;
    Ok(Item::Publish {
        instance: InstanceId(instance),
        label: Label(label as u32),
        prefix,
    })
}

#[tactic(auto, unfolding(crate::specs::Reading::unpublish_of))]
fn unpublish_of(value: &Value) -> Result<Item, ItemFault>
    ensures reads { IsRead (λ x. x) result (unpublish_of (view value.now)) }
    ensures form { IfOk result (λ item. IsTrue (is_in_range item)) }
{
    let instance = instance_in(Field::Instance, value)?;
    let prefix = prefix_in(Field::Prefix, value)?;
    Ok(Item::Unpublish {
        instance: InstanceId(instance),
        prefix,
    })
}

#[tactic(auto, unfolding(crate::specs::Reading::subscribe_of))]
fn subscribe_of(value: &Value) -> Result<Item, ItemFault>
    ensures reads { IsRead (λ x. x) result (subscribe_of (view value.now)) }
    ensures form { IfOk result (λ item. IsTrue (is_in_range item)) }
{
    let instance = instance_in(Field::Instance, value)?;
    Ok(Item::Subscribe {
        instance: InstanceId(instance),
    })
}

#[tactic(auto, unfolding(crate::specs::Reading::unsubscribe_of))]
fn unsubscribe_of(value: &Value) -> Result<Item, ItemFault>
    ensures reads { IsRead (λ x. x) result (unsubscribe_of (view value.now)) }
    ensures form { IfOk result (λ item. IsTrue (is_in_range item)) }
{
    let instance = instance_in(Field::Instance, value)?;
    Ok(Item::Unsubscribe {
        instance: InstanceId(instance),
    })
}

#[tactic(auto, unfolding(crate::specs::Reading::route_of))]
fn route_of(value: &Value) -> Result<Item, ItemFault>
    ensures reads { IsRead (λ x. x) result (route_of (view value.now)) }
    ensures form { IfOk result (λ item. IsTrue (is_in_range item)) }
{
    let instance = instance_in(Field::Instance, value)?;
    let label = number_in(Field::Label, 0, LAST_LABEL, value)?;
    let next_hop = any_address_in(Field::NextHop, value)?;
    let prefix = prefix_in(Field::Prefix, value)?;
    Ok(Item::Route {
        instance: InstanceId(instance),
        label: Label(label as u32),
        next_hop,
        prefix,
    })
}

#[tactic(auto, unfolding(crate::specs::Reading::unroute_of))]
fn unroute_of(value: &Value) -> Result<Item, ItemFault>
    ensures reads { IsRead (λ x. x) result (unroute_of (view value.now)) }
    ensures form { IfOk result (λ item. IsTrue (is_in_range item)) }
{
    let instance = instance_in(Field::Instance, value)?;
    let prefix = prefix_in(Field::Prefix, value)?;
    Ok(Item::Unroute {
        instance: InstanceId(instance),
        prefix,
    })
}

/// The record with this op.
fn by_op(alloc: Global, op: Op, value: &Value) -> Result<Item, ItemRefusal>
    ensures reads { Gives result (by_op op (view value.now)) }
    ensures form { IfOk result (λ item. IsTrue (is_in_range item)) }
{
    let item = match op {
        Op::Hello => hello_of(value)?,
        Op::Instance => instance_of(alloc, value)?,
        Op::Port => port_of(value)?,
        Op::Circuit => circuit_of(value)?,
        Op::Acl => acl_of(alloc, value)?,
        Op::Use => use_of(alloc, value)?,
        Op::NoInstance => no_instance_of(value)?,
        Op::NoAttach => no_attach_of(value)?,
        Op::NoAcl => no_acl_of(value)?,
        Op::NoUse => no_use_of(value)?,
        Op::Publish => publish_of(value)?,
        Op::Unpublish => unpublish_of(value)?,
        Op::Subscribe => subscribe_of(value)?,
        Op::Unsubscribe => unsubscribe_of(value)?,
        Op::Route => route_of(value)?,
        Op::Unroute => unroute_of(value)?,
    };
    Ok(item)
}

/// The item that a value is.
#[tactic(auto, unfolding(crate::specs::Reading::item_of))]
fn item_of(alloc: Global, value: &Value) -> Result<Item, ItemRefusal>
    ensures reads { Gives result (item_of (view value.now)) }
    ensures form { IfOk result (λ item. IsTrue (is_in_range item)) }
{
    let op = op_in(value)?;
    by_op(alloc, op, value)
}

/// The item that octets of JSON are: an object with `op`, and with each member of that record. Other members are passed
/// over.
#[tactic(auto, unfolding(crate::specs::Reading::item_in))]
pub fn read_item(alloc: Global, bytes: &[u8]) -> Result<Item, ItemRefusal>
    ensures reads { Gives result (item_in bytes.now) }
    ensures form { IfOk result (λ item. IsTrue (is_in_range item)) }
    ensures length { IfOk result (λ item. length (json_text item) ≤ length bytes.now) }
{
    match value_of(alloc, bytes)? {
        Some(value) => item_of(alloc, &value),
        None => Err(ItemRefusal::Fault(ItemFault::NotJson)),
    }
}
