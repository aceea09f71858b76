//! What is read from a value: numbers, names, addresses, prefixes.
ghost use Rattle.std.specs.Prelude.{◌≡◌, ◌≤◌, IsTrue, IfSome};
ghost use Rattle.serde_json.specs.View.{view};
ghost use Rattle.item_wire.specs.Entries.{is_from_to, number_from, name_from, address_from, node_address_from};
ghost use Rattle.item_wire.specs.Entries.{any_address_from, prefix_from};
ghost use Rattle.ov_types.specs.Name.{is_name};
ghost use Rattle.item_wire.specs.Ranges.{is_address, is_node_address, is_block};

use crate::bounds::{FIRST_NODE_ADDRESS, LAST_NODE_ADDRESS};
use ov_types::{Addr, Name, Prefix, written};
use serde_json::Value;

/// A whole number from low to high.
#[tactic(auto, unfolding(crate::specs::Entries::number_from))]
pub(crate) fn number_from(low: u64, high: u64, value: &Value) -> Option<u64>
    ensures reads { result ≡ number_from low high (view value.now) }
    ensures form { IfSome result (λ n. IsTrue (is_from_to low high n)) }
    ensures bound { IfSome result (λ n. n ≤ high) }
{
    match value.as_number()?.as_u64() {
        Some(n) if low <= n && n <= high => Some(n),
        _ => None,
    }
}

#[tactic(auto, unfolding(crate::specs::Entries::name_from))]
pub(crate) fn name_from(value: &Value) -> Option<Name>
    ensures reads { result ≡ name_from (view value.now) }
    ensures form { IfSome result (λ name. IsTrue (is_name name)) }
{
    Name::new(value.as_str()?)
}

/// An address from low to high.
#[tactic(auto, unfolding(crate::specs::Entries::address_from))]
fn address_from(low: u32, high: u32, value: &Value) -> Option<Addr>
    ensures reads { result ≡ address_from low high (view value.now) }
    ensures form { IfSome result (λ a. IsTrue (is_from_to low high a.0)) }
{
    match written::address_from(value.as_str()?) {
        Some(n) if low <= n && n <= high => Some(Addr(n)),
        _ => None,
    }
}

pub(crate) fn any_address_from(value: &Value) -> Option<Addr>
    ensures reads { result ≡ any_address_from (view value.now) }
    ensures form { IfSome result (λ a. IsTrue (is_address a)) }
{
    address_from(0, u32::MAX, value)
}

/// The address of a node: 1.0.0.0 to 223.255.255.255.
pub(crate) fn node_address_from(value: &Value) -> Option<Addr>
    ensures reads { result ≡ node_address_from (view value.now) }
    ensures form { IfSome result (λ a. IsTrue (is_node_address a)) }
{
    address_from(FIRST_NODE_ADDRESS, LAST_NODE_ADDRESS, value)
}

#[tactic(auto, unfolding(crate::specs::Entries::prefix_from))]
pub(crate) fn prefix_from(value: &Value) -> Option<Prefix>
    ensures reads { result ≡ prefix_from (view value.now) }
    ensures form { IfSome result (λ p. IsTrue (is_block p)) }
{
    written::prefix_from(value.as_str()?)
}
