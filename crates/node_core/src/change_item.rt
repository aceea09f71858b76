//! The items of changes.
ghost use Rattle.std.specs.Prelude.{◌≡◌, IfOk, IfSome, IsTrue};
ghost use Rattle.ov_sync.specs.Embed.{moved_delta};
ghost use Rattle.ov_sync.specs.declared.Delta.TheVariants.{Put};
ghost use Rattle.item_wire.specs.Changes.{item_of_key, item_of_object};
ghost use Rattle.item_wire.specs.Ranges.{is_in_range};
ghost use Rattle.node_model.specs.Keys.{Low, Row, Publish, Subscribe, of_down, of_up};
ghost use Rattle.node_model.specs.Values.{Object, Entry as EntryOf, Label as LabelOf};
ghost use Rattle.node_core.specs.Told.{CanBeTold, ChangeFits, Fits, IsWritable, KeyFits, down_value, item_of};

use item_wire::Item;
use ov_sync::Delta;
use ov_types::{
    DownKey, DownValue, Entry, InstanceId, Label, LowKey, LowValue, NoMemory, Prefix, UpKey,
};
use std::alloc::AllocError;

/// The item that tells of an object under its key; none where the value is of another kind than the key.
fn object_item(key: LowKey, value: LowValue) -> Option<Item>
    requires { CanBeTold (Put (Low key) (Object value)) }
    ensures item { result ≡ item_of_object key value }
    ensures writable { IfSome result IsWritable }
{
    match (key, value) {
        (LowKey::Instance(number), LowValue::Instance { imports }) => Some(Item::Instance {
            imports,
            instance: InstanceId(number),
        }),
        (
            LowKey::Attach(_),
            LowValue::AttachPort {
                port,
                instance,
                address,
                node,
            },
        ) => Some(Item::Port {
            address,
            instance,
            node,
            port,
        }),
        (
            LowKey::Attach(_),
            LowValue::AttachCircuit {
                circuit,
                service,
                node,
            },
        ) => Some(Item::Circuit {
            circuit,
            node,
            service,
        }),
        (LowKey::Acl { from, to }, LowValue::Acl { subnets, rules }) => Some(Item::Acl {
            from,
            rules,
            subnets,
            to,
        }),
        (
            LowKey::ChainUse(use_no),
            LowValue::ChainUse {
                left,
                right,
                left_prefixes,
                right_prefixes,
                hops,
            },
        ) => Some(Item::Use {
            hops,
            left,
            left_prefixes,
            right,
            right_prefixes,
            use_no,
        }),
        _ => None,
    }
}

/// The item that tells that an object is gone.
#[tactic(auto, using(crate::proofs::Fitting::without_lists))]
fn gone_item(key: LowKey) -> Item
    requires { KeyFits (Low key) }
    ensures item { result ≡ item_of_key key }
    ensures range { IsTrue (is_in_range result) }
    ensures writable { IsWritable result }
{
    match key {
        LowKey::Instance(number) => Item::NoInstance {
            instance: InstanceId(number),
        },
        LowKey::Attach(label) => Item::NoAttach {
            label: Label(label),
        },
        LowKey::Acl { from, to } => Item::NoAcl { from, to },
        LowKey::ChainUse(use_no) => Item::NoUse { use_no },
    }
}

fn subscribe_item(instance: InstanceId) -> Item
    requires { KeyFits (Subscribe instance) }
    ensures item { result ≡ Item.Subscribe instance }
    ensures range { IsTrue (is_in_range result) }
{
    Item::Subscribe { instance }
}

fn unsubscribe_item(instance: InstanceId) -> Item
    requires { KeyFits (Subscribe instance) }
    ensures item { result ≡ Item.Unsubscribe instance }
    ensures range { IsTrue (is_in_range result) }
{
    Item::Unsubscribe { instance }
}

fn route_item(instance: InstanceId, prefix: Prefix, hop: Entry) -> Item
    requires { Fits (Row instance prefix) (EntryOf hop) }
    ensures item { result ≡ Item.Route instance hop.label hop.next_hop prefix }
    ensures range { IsTrue (is_in_range result) }
{
    // (for its clause: a prefix has at most 32 bits, and no bit set past them)
    let _address = prefix.addr();
    Item::Route {
        instance,
        label: hop.label,
        next_hop: hop.next_hop,
        prefix,
    }
}

fn unroute_item(instance: InstanceId, prefix: Prefix) -> Item
    requires { KeyFits (Row instance prefix) }
    ensures item { result ≡ Item.Unroute instance prefix }
    ensures range { IsTrue (is_in_range result) }
{
    // (for its clause: a prefix has at most 32 bits, and no bit set past them)
    let _address = prefix.addr();
    Item::Unroute { instance, prefix }
}

fn publish_item(instance: InstanceId, prefix: Prefix, label: Label) -> Item
    requires { Fits (Publish instance prefix) (LabelOf label) }
    ensures item { result ≡ Item.Publish instance label prefix }
    ensures range { IsTrue (is_in_range result) }
{
    // (for its clause: a prefix has at most 32 bits, and no bit set past them)
    let _address = prefix.addr();
    Item::Publish {
        instance,
        label,
        prefix,
    }
}

fn unpublish_item(instance: InstanceId, prefix: Prefix) -> Item
    requires { KeyFits (Publish instance prefix) }
    ensures item { result ≡ Item.Unpublish instance prefix }
    ensures range { IsTrue (is_in_range result) }
{
    // (for its clause: a prefix has at most 32 bits, and no bit set past them)
    let _address = prefix.addr();
    Item::Unpublish { instance, prefix }
}

fn copied(value: &LowValue) -> Result<LowValue, AllocError>
    ensures { IfOk result (λ copy. copy ≡ value.now) }
{
    value.clone()
}

/// The item of a change that the configuration node tells a control node.
pub(crate) fn low_item(delta: &Delta<LowKey, LowValue>) -> Result<Option<Item>, NoMemory>
    requires { ChangeFits (moved_delta Low Object delta.now) }
    ensures item { IfOk result (λ item. item ≡ item_of (moved_delta Low Object delta.now)) }
    ensures writable { IfOk result (λ item. IfSome item IsWritable) }
{
    match delta {
        Delta::Put(key, value) => Ok(object_item(*key, copied(value)?)),
        Delta::Drop(key) => Ok(Some(gone_item(*key))),
    }
}

/// The item of a change that a control node tells an agent; none where the value is of another kind than the key.
#[tactic(auto, using(crate::proofs::Fitting::without_lists))]
pub(crate) fn down_item(delta: &Delta<DownKey, DownValue>) -> Result<Option<Item>, NoMemory>
    requires { ChangeFits (moved_delta of_down down_value delta.now) }
    ensures item { IfOk result (λ item. item ≡ item_of (moved_delta of_down down_value delta.now)) }
    ensures writable { IfOk result (λ item. IfSome item IsWritable) }
{
    match delta {
        Delta::Put(DownKey::Slice(key), DownValue::Object(value)) => {
            Ok(object_item(*key, copied(value)?))
        }
        Delta::Put(DownKey::Route(instance, prefix), DownValue::Row(hop)) => {
            Ok(Some(route_item(*instance, *prefix, *hop)))
        }
        Delta::Put(_, _) => Ok(None),
        Delta::Drop(DownKey::Slice(key)) => Ok(Some(gone_item(*key))),
        Delta::Drop(DownKey::Route(instance, prefix)) => {
            Ok(Some(unroute_item(*instance, *prefix)))
        }
    }
}

/// The item of a change that an agent tells a control node.
#[tactic(auto, using(crate::proofs::Fitting::without_lists))]
pub(crate) fn up_item(delta: &Delta<UpKey, Label>) -> Option<Item>
    requires { ChangeFits (moved_delta of_up LabelOf delta.now) }
    ensures item { result ≡ item_of (moved_delta of_up LabelOf delta.now) }
    ensures writable { IfSome result IsWritable }
{
    match delta {
        Delta::Put(UpKey::Publish(instance, prefix), label) => {
            Some(publish_item(*instance, *prefix, *label))
        }
        Delta::Put(UpKey::Subscribe(instance), _) => Some(subscribe_item(*instance)),
        Delta::Drop(UpKey::Publish(instance, prefix)) => Some(unpublish_item(*instance, *prefix)),
        Delta::Drop(UpKey::Subscribe(instance)) => Some(unsubscribe_item(*instance)),
    }
}
