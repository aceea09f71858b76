//! What comes to a session.
ghost use Rattle.std.specs.Prelude.{◌≡◌};
ghost use Rattle.item_wire.specs.Inputs.{is_of_feed, is_of_control, is_of_agent, may_send, came_by_hello, came_by};

use crate::event::{ItemCause, ItemFrom};
use crate::item::Item;
use ov_types::Name;

/// What comes to a session, with what it says.
#[derive(Drop)]
pub enum Came {
    Opened,
    /// The hello of the other end.
    Hello,
    BadRecord(ItemCause),
    OtherRecord(Item),
    Closed,
}

fn is_of_feed(item: &Item) -> bool
    ensures { result ≡ is_of_feed item.now }
{
    matches!(
        item,
        Item::Instance { .. }
            | Item::Port { .. }
            | Item::Circuit { .. }
            | Item::Acl { .. }
            | Item::Use { .. }
            | Item::NoInstance { .. }
            | Item::NoAttach { .. }
            | Item::NoAcl { .. }
            | Item::NoUse { .. }
    )
}

fn is_of_control_nodes(item: &Item) -> bool
    ensures { result ≡ is_of_control item.now }
{
    matches!(
        item,
        Item::Port { .. }
            | Item::Circuit { .. }
            | Item::Acl { .. }
            | Item::NoAttach { .. }
            | Item::NoAcl { .. }
            | Item::Route { .. }
            | Item::Unroute { .. }
    )
}

fn is_of_agents(item: &Item) -> bool
    ensures { result ≡ is_of_agent item.now }
{
    matches!(
        item,
        Item::Publish { .. }
            | Item::Unpublish { .. }
            | Item::Subscribe { .. }
            | Item::Unsubscribe { .. }
    )
}

fn may_send(from: ItemFrom, item: &Item) -> bool
    ensures { result ≡ may_send from item.now }
{
    match from {
        ItemFrom::Feed => is_of_feed(item),
        ItemFrom::Control => is_of_control_nodes(item),
        ItemFrom::Agent => is_of_agents(item),
        ItemFrom::Nothing => false,
    }
}

/// What a hello is to a session with this node.
fn came_by_hello(peer: &Name, name: &Name) -> Came
    ensures { result ≡ came_by_hello peer.now name.now }
{
    if name == peer {
        Came::Hello
    } else {
        Came::BadRecord(ItemCause::WrongName)
    }
}

/// What a record is to a session with this node, which may send these.
pub(crate) fn came_by(peer: &Name, from: ItemFrom, item: Item) -> Came
    ensures { result ≡ came_by peer.now from item }
{
    if let Item::Hello { name } = &item {
        return came_by_hello(peer, name);
    }
    if may_send(from, &item) {
        Came::OtherRecord(item)
    } else {
        Came::BadRecord(ItemCause::Order)
    }
}
