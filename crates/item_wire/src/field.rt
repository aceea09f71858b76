//! What is read from the members of records.
ghost use Rattle.std.specs.Prelude.{◌≤◌, length, IsTrue, IfOk};
ghost use Rattle.std.specs.List.{list_all};
ghost use Rattle.serde_json.specs.View.{view};
ghost use Rattle.ov_types.specs.Name.{is_name};
ghost use Rattle.item_wire.specs.Entries.{is_from_to, allows, name_from};
ghost use Rattle.item_wire.specs.Faults.{IsRead, Gives};
ghost use Rattle.item_wire.specs.Members.{in_member};
ghost use Rattle.item_wire.specs.Ranges.{is_network, is_instance, is_address, is_node_address, is_block};
ghost use Rattle.item_wire.specs.Reading.{number_in, network_in, instance_in, any_address_in, node_address_in};
ghost use Rattle.item_wire.specs.Reading.{prefix_in, list_in};

use crate::bounds::{LAST_INSTANCE, LAST_NETWORK};
use crate::entry::{any_address_from, name_from, node_address_from, number_from, prefix_from};
use crate::fault::{Field, ItemFault, ItemRefusal};
use crate::list::{Count, Entry, list_from};
use crate::member::{MemberKind, member_of};
use ov_types::{Addr, Items, Name, Prefix};
use serde_json::Value;
use std::alloc::Global;

/// A number from low to high.
#[tactic(auto, unfolding(crate::specs::Members::in_member))]
pub(crate) fn number_in(field: Field, low: u64, high: u64, value: &Value) -> Result<u64, ItemFault>
    ensures reads { IsRead (λ n. n) result (number_in low high field (view value.now)) }
    ensures form { IfOk result (λ n. IsTrue (is_from_to low high n)) }
    ensures bound { IfOk result (λ n. n ≤ high) }
{
    let found = member_of(MemberKind::Whole, field, value)?;
    match number_from(low, high, found) {
        Some(number) => Ok(number),
        None => Err(ItemFault::Range { name: field }),
    }
}

/// The number of a network.
pub(crate) fn network_in(field: Field, value: &Value) -> Result<u16, ItemFault>
    ensures reads { IsRead (λ n. n) result (network_in field (view value.now)) }
    ensures form { IfOk result (λ n. IsTrue (is_network n)) }
{
    let number = number_in(field, 1, LAST_NETWORK, value)?;
    Ok(number as u16)
}

/// The number of an instance, of a network or of a hop.
pub(crate) fn instance_in(field: Field, value: &Value) -> Result<u16, ItemFault>
    ensures reads { IsRead (λ n. n) result (instance_in field (view value.now)) }
    ensures form { IfOk result (λ n. IsTrue (is_instance n)) }
{
    let number = number_in(field, 1, LAST_INSTANCE, value)?;
    Ok(number as u16)
}

#[tactic(auto, unfolding(crate::specs::Members::in_member))]
pub(crate) fn name_in(field: Field, value: &Value) -> Result<Name, ItemFault>
    ensures reads { IsRead (λ x. x) result (in_member MemberKind.Text name_from field (view value.now)) }
    ensures form { IfOk result (λ name. IsTrue (is_name name)) }
{
    let found = member_of(MemberKind::Text, field, value)?;
    match name_from(found) {
        Some(name) => Ok(name),
        None => Err(ItemFault::Range { name: field }),
    }
}

#[tactic(auto, unfolding(crate::specs::Members::in_member))]
pub(crate) fn any_address_in(field: Field, value: &Value) -> Result<Addr, ItemFault>
    ensures reads { IsRead (λ x. x) result (any_address_in field (view value.now)) }
    ensures form { IfOk result (λ a. IsTrue (is_address a)) }
{
    let found = member_of(MemberKind::Text, field, value)?;
    match any_address_from(found) {
        Some(address) => Ok(address),
        None => Err(ItemFault::Range { name: field }),
    }
}

/// The address of a node.
#[tactic(auto, unfolding(crate::specs::Members::in_member))]
pub(crate) fn node_address_in(field: Field, value: &Value) -> Result<Addr, ItemFault>
    ensures reads { IsRead (λ x. x) result (node_address_in field (view value.now)) }
    ensures form { IfOk result (λ a. IsTrue (is_node_address a)) }
{
    let found = member_of(MemberKind::Text, field, value)?;
    match node_address_from(found) {
        Some(address) => Ok(address),
        None => Err(ItemFault::Range { name: field }),
    }
}

#[tactic(auto, unfolding(crate::specs::Members::in_member))]
pub(crate) fn prefix_in(field: Field, value: &Value) -> Result<Prefix, ItemFault>
    ensures reads { IsRead (λ x. x) result (prefix_in field (view value.now)) }
    ensures form { IfOk result (λ p. IsTrue (is_block p)) }
{
    let found = member_of(MemberKind::Text, field, value)?;
    match prefix_from(found) {
        Some(prefix) => Ok(prefix),
        None => Err(ItemFault::Range { name: field }),
    }
}

/// A list of a number of items that is allowed.
#[tactic(auto, unfolding(crate::specs::Members::in_member))]
pub(crate) fn list_in<T: Entry>(
    alloc: Global,
    count: Count,
    field: Field,
    value: &Value,
) -> Result<Items<T>, ItemRefusal>
    ensures reads { Gives result (list_in count T.reads field (view value.now)) }
    ensures form { IfOk result (λ xs. IsTrue (list_all T.is_fit xs)) }
    ensures count { IfOk result (λ xs. IsTrue (allows count (length xs))) }
{
    let found = member_of(MemberKind::Listed, field, value)?;
    match list_from(alloc, count, found)? {
        Some(items) => Ok(items),
        None => Err(ItemRefusal::Fault(ItemFault::Range { name: field })),
    }
}
