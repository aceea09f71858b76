//! The items of changes, and the changes of items.
ghost use Rattle.std.specs.Prelude.{◌≡◌, IfOk, IfSome, IsTrue, true};
ghost use Rattle.std.specs.Option.{option_map};
ghost use Rattle.ov_sync.specs.Embed.{moved_delta};
ghost use Rattle.item_wire.specs.Inputs.{is_of_feed, is_of_control, is_of_agent};
ghost use Rattle.item_wire.specs.Ranges.{is_in_range};
ghost use Rattle.item_wire.specs.Records.{spelling};
ghost use Rattle.node_model.specs.Keys.{Low, of_down, of_up};
ghost use Rattle.node_model.specs.Values.{Object, Label as LabelOf};
ghost use Rattle.node_core.specs.Told.{ChangeFits, IsWritable, change_of, down_value, spelled, spelling_of};

use crate::change_item::{down_item, low_item, up_item};
use item_wire::{Item, write_item};
use ov_sync::Delta;
use ov_types::{DownKey, DownValue, Entry, Items, Label, LowKey, LowValue, NoMemory, UpKey};
use route_targets::{circuit_label, port_label};
use std::alloc::Global;

/// The change of low-level objects that an item of the feed is; none where it is of another direction.
pub fn low_change(item: Item) -> Option<Delta<LowKey, LowValue>>
    requires range { IsTrue (is_in_range item) }
    ensures { is_of_feed item ≡ true → option_map (moved_delta Low Object) result ≡ change_of item }
{
    match item {
        Item::Instance { imports, instance } => Some(Delta::Put(
            LowKey::Instance(instance.0),
            LowValue::Instance { imports },
        )),
        Item::Port {
            address,
            instance,
            node,
            port,
        } => Some(Delta::Put(
            LowKey::Attach(port_label(port).0),
            LowValue::AttachPort {
                port,
                instance,
                address,
                node,
            },
        )),
        Item::Circuit {
            circuit,
            node,
            service,
        } => Some(Delta::Put(
            LowKey::Attach(circuit_label(circuit).0),
            LowValue::AttachCircuit {
                circuit,
                service,
                node,
            },
        )),
        Item::Acl {
            from,
            rules,
            subnets,
            to,
        } => Some(Delta::Put(LowKey::Acl { from, to }, LowValue::Acl { subnets, rules })),
        Item::Use {
            hops,
            left,
            left_prefixes,
            right,
            right_prefixes,
            use_no,
        } => Some(Delta::Put(
            LowKey::ChainUse(use_no),
            LowValue::ChainUse {
                left,
                right,
                left_prefixes,
                right_prefixes,
                hops,
            },
        )),
        Item::NoInstance { instance } => Some(Delta::Drop(LowKey::Instance(instance.0))),
        Item::NoAttach { label } => Some(Delta::Drop(LowKey::Attach(label.0))),
        Item::NoAcl { from, to } => Some(Delta::Drop(LowKey::Acl { from, to })),
        Item::NoUse { use_no } => Some(Delta::Drop(LowKey::ChainUse(use_no))),
        _ => None,
    }
}

/// The change that an item from a control node to an agent is; none where it is of another direction.
pub fn down_change(item: Item) -> Option<Delta<DownKey, DownValue>>
    requires range { IsTrue (is_in_range item) }
    ensures { is_of_control item ≡ true → option_map (moved_delta of_down down_value) result ≡ change_of item }
{
    match item {
        Item::Route {
            instance,
            label,
            next_hop,
            prefix,
        } => Some(Delta::Put(
            DownKey::Route(instance, prefix),
            DownValue::Row(Entry { next_hop, label }),
        )),
        Item::Unroute { instance, prefix } => Some(Delta::Drop(DownKey::Route(instance, prefix))),
        slice => match low_change(slice) {
            Some(Delta::Put(key, value)) => Some(Delta::Put(
                DownKey::Slice(key),
                DownValue::Object(value),
            )),
            Some(Delta::Drop(key)) => Some(Delta::Drop(DownKey::Slice(key))),
            None => None,
        },
    }
}

/// The change that an item from an agent to a control node is; none where it is of another direction. A subscription
/// is put with label 0, which nothing reads.
pub fn up_change(item: Item) -> Option<Delta<UpKey, Label>>
    ensures { is_of_agent item ≡ true → option_map (moved_delta of_up LabelOf) result ≡ change_of item }
{
    match item {
        Item::Publish {
            instance,
            label,
            prefix,
        } => Some(Delta::Put(UpKey::Publish(instance, prefix), label)),
        Item::Unpublish { instance, prefix } => {
            Some(Delta::Drop(UpKey::Publish(instance, prefix)))
        }
        Item::Subscribe { instance } => Some(Delta::Put(UpKey::Subscribe(instance), Label(0))),
        Item::Unsubscribe { instance } => Some(Delta::Drop(UpKey::Subscribe(instance))),
        _ => None,
    }
}

/// The octets of an item.
pub(crate) fn item_octets(alloc: Global, item: &Item) -> Result<Items<u8>, NoMemory>
    requires { IsWritable item.now }
    ensures { IfOk result (λ octets. octets ≡ spelling item.now) }
{
    let mut octets = Vec::new(alloc);
    write_item(alloc, item, &mut octets)?;
    Ok(Items::from_vec(octets))
}

/// The octets of an item; none where there is no item.
fn octets_of(alloc: Global, item: &Option<Item>) -> Result<Items<u8>, NoMemory>
    requires { IfSome item.now IsWritable }
    ensures { IfOk result (λ octets. octets ≡ spelling_of item.now) }
{
    match item {
        Some(item) => item_octets(alloc, item),
        None => Ok(Items::new(alloc)),
    }
}

/// The octets of a change that the configuration node tells a control node.
pub fn spell_low(alloc: Global, delta: &Delta<LowKey, LowValue>) -> Result<Items<u8>, NoMemory>
    requires { ChangeFits (moved_delta Low Object delta.now) }
    ensures { IfOk result (λ octets. octets ≡ spelled (moved_delta Low Object delta.now)) }
{
    let item = low_item(delta)?;
    octets_of(alloc, &item)
}

/// The octets of a change that a control node tells an agent.
pub fn spell_down(alloc: Global, delta: &Delta<DownKey, DownValue>) -> Result<Items<u8>, NoMemory>
    requires { ChangeFits (moved_delta of_down down_value delta.now) }
    ensures { IfOk result (λ octets. octets ≡ spelled (moved_delta of_down down_value delta.now)) }
{
    let item = down_item(delta)?;
    octets_of(alloc, &item)
}

/// The octets of a change that an agent tells a control node.
pub fn spell_up(alloc: Global, delta: &Delta<UpKey, Label>) -> Result<Items<u8>, NoMemory>
    requires { ChangeFits (moved_delta of_up LabelOf delta.now) }
    ensures { IfOk result (λ octets. octets ≡ spelled (moved_delta of_up LabelOf delta.now)) }
{
    let item = up_item(delta);
    octets_of(alloc, &item)
}
