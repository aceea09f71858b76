//! Records, written.
ghost use Rattle.std.specs.Prelude.{◌≡◌, ◌≤◌, ◌++◌, length, IsTrue, IfOk, OnOk, OnErr, string_bytes};
ghost use Rattle.serde_json.specs.View.{view};
ghost use Rattle.item_wire.specs.Frames.{framed};
ghost use Rattle.item_wire.specs.Ranges.{is_in_range};
ghost use Rattle.item_wire.specs.Records.{prefix_record, record_of, json_text, spelling};

use crate::hop::address_value;
use crate::item::Item;
use crate::list::list_value;
use byteorder::{BigEndian, ByteOrder};
use ov_types::{
    AclRule, Addr, InstanceId, Items, Label, Name, NoMemory, PortNo, Prefix, ServiceNo,
};
use serde_json::{Value, json};
use std::alloc::{AllocError, Global};

fn prefix_value(alloc: Global, prefix: Prefix) -> Result<Value, AllocError>
    ensures { IfOk result (λ v. view v ≡ prefix_record prefix) }
{
    Ok(Value::String(format!(in alloc; "{prefix}")?))
}

fn instance_record(
    alloc: Global,
    imports: &Items<InstanceId>,
    instance: InstanceId,
) -> Result<Value, AllocError>
    ensures { IfOk result (λ v. view v ≡ record_of (Item.Instance imports.now instance)) }
{
    let imports = list_value(alloc, imports)?;
    json!(in alloc; {"imports": imports, "instance": (instance.0), "op": "instance"})
}

fn port_record(
    alloc: Global,
    address: Addr,
    instance: InstanceId,
    node: Addr,
    port: PortNo,
) -> Result<Value, AllocError>
    ensures { IfOk result (λ v. view v ≡ record_of (Item.Port address instance node port)) }
{
    let address = address_value(alloc, address)?;
    let node = address_value(alloc, node)?;
    json!(in alloc; {
        "address": address,
        "instance": (instance.0),
        "node": node,
        "op": "port",
        "port": (port.0)
    })
}

fn circuit_record(
    alloc: Global,
    circuit: u32,
    node: Addr,
    service: ServiceNo,
) -> Result<Value, AllocError>
    ensures { IfOk result (λ v. view v ≡ record_of (Item.Circuit circuit node service)) }
{
    let node = address_value(alloc, node)?;
    json!(in alloc; {"circuit": circuit, "node": node, "op": "circuit", "service": (service.0)})
}

fn acl_record(
    alloc: Global,
    from: u16,
    rules: &Items<AclRule>,
    subnets: &Items<Prefix>,
    to: u16,
) -> Result<Value, AllocError>
    ensures { IfOk result (λ v. view v ≡ record_of (Item.Acl from rules.now subnets.now to)) }
{
    let rules = list_value(alloc, rules)?;
    let subnets = list_value(alloc, subnets)?;
    json!(in alloc; {"from": from, "op": "acl", "rules": rules, "subnets": subnets, "to": to})
}

/// One of the two networks of a use, and its subnets.
#[derive(Clone, Copy)]
struct UseEnd<'a> {
    network: InstanceId,
    prefixes: &'a Items<Prefix>,
}

fn use_record(
    alloc: Global,
    hops: &Items<(ServiceNo, Addr)>,
    left: UseEnd<'_>,
    right: UseEnd<'_>,
    use_no: u16,
) -> Result<Value, AllocError>
    ensures { IfOk result (λ v. view v ≡ record_of (Item.Use hops.now left.entry.network left.entry.prefixes.now
        right.entry.network right.entry.prefixes.now use_no)) }
{
    let hops = list_value(alloc, hops)?;
    let left_prefixes = list_value(alloc, left.prefixes)?;
    let right_prefixes = list_value(alloc, right.prefixes)?;
    json!(in alloc; {
        "hops": hops,
        "left": (left.network.0),
        "left_prefixes": left_prefixes,
        "op": "use",
        "right": (right.network.0),
        "right_prefixes": right_prefixes,
        "use": use_no
    })
}

fn publish_record(
    alloc: Global,
    instance: InstanceId,
    label: Label,
    prefix: Prefix,
) -> Result<Value, AllocError>
    ensures { IfOk result (λ v. view v ≡ record_of (Item.Publish instance label prefix)) }
{
    let prefix = prefix_value(alloc, prefix)?;
    json!(in alloc; {
        "instance": (instance.0),
        "label": (label.0),
        "op": "publish",
        "prefix": prefix
    })
}

fn unpublish_record(
    alloc: Global,
    instance: InstanceId,
    prefix: Prefix,
) -> Result<Value, AllocError>
    ensures { IfOk result (λ v. view v ≡ record_of (Item.Unpublish instance prefix)) }
{
    let prefix = prefix_value(alloc, prefix)?;
    json!(in alloc; {"instance": (instance.0), "op": "unpublish", "prefix": prefix})
}

fn route_record(
    alloc: Global,
    instance: InstanceId,
    label: Label,
    next_hop: Addr,
    prefix: Prefix,
) -> Result<Value, AllocError>
    ensures { IfOk result (λ v. view v ≡ record_of (Item.Route instance label next_hop prefix)) }
{
    let next_hop = address_value(alloc, next_hop)?;
    let prefix = prefix_value(alloc, prefix)?;
    json!(in alloc; {
        "instance": (instance.0),
        "label": (label.0),
        "next_hop": next_hop,
        "op": "route",
        "prefix": prefix
    })
}

fn unroute_record(alloc: Global, instance: InstanceId, prefix: Prefix) -> Result<Value, AllocError>
    ensures { IfOk result (λ v. view v ≡ record_of (Item.Unroute instance prefix)) }
{
    let prefix = prefix_value(alloc, prefix)?;
    json!(in alloc; {"instance": (instance.0), "op": "unroute", "prefix": prefix})
}

fn hello_record(alloc: Global, name: &Name) -> Result<Value, AllocError>
    ensures { IfOk result (λ v. view v ≡ record_of (Item.Hello name.now)) }
{
    let text = name.text();
    json!(in alloc; {"name": text, "op": "hello"})
}

fn no_instance_record(alloc: Global, instance: InstanceId) -> Result<Value, AllocError>
    ensures { IfOk result (λ v. view v ≡ record_of (Item.NoInstance instance)) }
{
    json!(in alloc; {"instance": (instance.0), "op": "no-instance"})
}

fn no_attach_record(alloc: Global, label: Label) -> Result<Value, AllocError>
    ensures { IfOk result (λ v. view v ≡ record_of (Item.NoAttach label)) }
{
    json!(in alloc; {"label": (label.0), "op": "no-attach"})
}

fn no_acl_record(alloc: Global, from: u16, to: u16) -> Result<Value, AllocError>
    ensures { IfOk result (λ v. view v ≡ record_of (Item.NoAcl from to)) }
{
    json!(in alloc; {"from": from, "op": "no-acl", "to": to})
}

fn no_use_record(alloc: Global, use_no: u16) -> Result<Value, AllocError>
    ensures { IfOk result (λ v. view v ≡ record_of (Item.NoUse use_no)) }
{
    json!(in alloc; {"op": "no-use", "use": use_no})
}

fn subscribe_record(alloc: Global, instance: InstanceId) -> Result<Value, AllocError>
    ensures { IfOk result (λ v. view v ≡ record_of (Item.Subscribe instance)) }
{
    json!(in alloc; {"instance": (instance.0), "op": "subscribe"})
}

fn unsubscribe_record(alloc: Global, instance: InstanceId) -> Result<Value, AllocError>
    ensures { IfOk result (λ v. view v ≡ record_of (Item.Unsubscribe instance)) }
{
    json!(in alloc; {"instance": (instance.0), "op": "unsubscribe"})
}

/// The record of an item.
fn record_of(alloc: Global, item: &Item) -> Result<Value, AllocError>
    ensures { IfOk result (λ v. view v ≡ record_of item.now) }
{
    match item {
        Item::Hello { name } => hello_record(alloc, name),
        Item::Instance { imports, instance } => instance_record(alloc, imports, *instance),
        Item::Port {
            address,
            instance,
            node,
            port,
        } => port_record(alloc, *address, *instance, *node, *port),
        Item::Circuit {
            circuit,
            node,
            service,
        } => circuit_record(alloc, *circuit, *node, *service),
        Item::Acl {
            from,
            rules,
            subnets,
            to,
        } => acl_record(alloc, *from, rules, subnets, *to),
        Item::Use {
            hops,
            left,
            left_prefixes,
            right,
            right_prefixes,
            use_no,
        } => {
            let left = UseEnd {
                network: *left,
                prefixes: left_prefixes,
            };
            let right = UseEnd {
                network: *right,
                prefixes: right_prefixes,
            };
            use_record(alloc, hops, left, right, *use_no)
        }
        Item::NoInstance { instance } => no_instance_record(alloc, *instance),
        Item::NoAttach { label } => no_attach_record(alloc, *label),
        Item::NoAcl { from, to } => no_acl_record(alloc, *from, *to),
        Item::NoUse { use_no } => no_use_record(alloc, *use_no),
        Item::Publish {
            instance,
            label,
            prefix,
        } => publish_record(alloc, *instance, *label, *prefix),
        Item::Unpublish { instance, prefix } => unpublish_record(alloc, *instance, *prefix),
        Item::Subscribe { instance } => subscribe_record(alloc, *instance),
        Item::Unsubscribe { instance } => unsubscribe_record(alloc, *instance),
        Item::Route {
            instance,
            label,
            next_hop,
            prefix,
        } => route_record(alloc, *instance, *label, *next_hop, *prefix),
        Item::Unroute { instance, prefix } => unroute_record(alloc, *instance, *prefix),
    }
}

/// The JSON of an item.
pub(crate) fn json_of(alloc: Global, item: &Item) -> Result<String, AllocError>
    ensures { IfOk result (λ text. string_bytes text ≡ json_text item.now) }
{
    let value = record_of(alloc, item)?;
    value.to_string(alloc)
}

/// Octets after their length.
fn framed(alloc: Global, json: &[u8]) -> Result<Vec<u8>, AllocError>
    requires { length json.now ≤ 65536 }
    ensures { IfOk result (λ octets. octets.items ≡ framed json.now) }
{
    let mut length = [0; 4];
    BigEndian::write_u32(&mut length, json.len() as u32);
    let mut octets = length.to_vec(alloc)?;
    octets.extend_from_slice(json)?;
    Ok(octets)
}

/// Appends the record of an item after its length, whole or not at all.
pub fn write_item(alloc: Global, item: &Item, out: &mut Vec<u8>) -> Result<(), NoMemory>
    requires range { IsTrue (is_in_range item.now) }
    requires length { length (json_text item.now) ≤ 65536 }
    ensures ok { OnOk result (out.new.items ≡ out.old.items ++ spelling item.now) }
    ensures err { OnErr result (out.new.items ≡ out.old.items) }
{
    let json = json_of(alloc, item)?;
    let octets = framed(alloc, json.as_bytes())?;
    out.extend_from_slice(octets.as_slice())?;
    Ok(())
}
