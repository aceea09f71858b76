//! The items of lists: instances, prefixes, hops.
ghost use Rattle.std.specs.Prelude.{◌≡◌, ◌≤◌, Option, IfOk, IfSome, IsTrue};
ghost use Rattle.serde_json.specs.View.{view};
ghost use Rattle.item_wire.specs.Entries.{network_from, prefix_from, hop_from, has_items, in_place, number_from};
ghost use Rattle.item_wire.specs.Entries.{node_address_from, is_from_to};
ghost use Rattle.item_wire.specs.Ranges.{is_import, is_block, is_hop, is_node_address};
ghost use Rattle.item_wire.specs.Records.{import_record, prefix_record, hop_record, address_record};

use crate::bounds::{LAST_NETWORK, LAST_SERVICE};
use crate::entry::{node_address_from, number_from, prefix_from};
use crate::list::Entry;
use ov_types::{Addr, InstanceId, Prefix, ServiceNo};
use serde_json::{Value, json};
use std::alloc::{AllocError, Global};

/// The value of an address.
pub(crate) fn address_value(alloc: Global, address: Addr) -> Result<Value, AllocError>
    ensures { IfOk result (λ v. view v ≡ address_record address) }
{
    Ok(Value::String(format!(in alloc; "{address}")?))
}

/// An instance that is imported is a network's.
impl Entry for InstanceId {
    ghost reads = { network_from };

    ghost is_fit = { is_import };

    ghost written = { import_record };

    #[tactic(auto, unfolding(crate::specs::Entries::network_from))]
    fn read(value: &Value) -> Option<Self> {
        let number = number_from(1, LAST_NETWORK, value)?;
        Some(InstanceId(number as u16))
    }

    fn write(&self, _alloc: Global) -> Result<Value, AllocError> {
        Ok(Value::from(self.0))
    }
}

impl Entry for Prefix {
    ghost reads = { prefix_from };

    ghost is_fit = { is_block };

    ghost written = { prefix_record };

    fn read(value: &Value) -> Option<Self> {
        prefix_from(value)
    }

    fn write(&self, alloc: Global) -> Result<Value, AllocError> {
        let prefix = *self;
        Ok(Value::String(format!(in alloc; "{prefix}")?))
    }
}

/// Whether a value is a list of so many items.
pub(crate) fn has_items(n: usize, value: &Value) -> bool
    ensures { result ≡ has_items n (view value.now) }
{
    match value.as_array() {
        Some(list) => {
            let items = list.as_slice();
            items.len() == n
        }
        None => false,
    }
}

/// The number from low to high at a place of a list.
#[tactic(auto, unfolding(crate::specs::Entries::in_place))]
pub(crate) fn number_in_place(place: usize, low: u64, high: u64, value: &Value) -> Option<u64>
    ensures reads { result ≡ in_place place (number_from low high) (view value.now) }
    ensures form { IfSome result (λ n. IsTrue (is_from_to low high n)) }
    ensures bound { IfSome result (λ n. n ≤ high) }
{
    number_from(low, high, value.get(place)?)
}

#[tactic(auto, unfolding(crate::specs::Entries::in_place))]
fn node_address_in_place(place: usize, value: &Value) -> Option<Addr>
    ensures reads { result ≡ in_place place node_address_from (view value.now) }
    ensures form { IfSome result (λ a. IsTrue (is_node_address a)) }
{
    node_address_from(value.get(place)?)
}

/// A service of a chain and the address of its node.
impl Entry for (ServiceNo, Addr) {
    ghost reads = { hop_from };

    ghost is_fit = { is_hop };

    ghost written = { hop_record };

    #[tactic(auto, unfolding(crate::specs::Entries::hop_from))]
    fn read(value: &Value) -> Option<Self> {
        if !has_items(2, value) {
            return None;
        }
        let service = number_in_place(0, 0, LAST_SERVICE, value)?;
        let node = node_address_in_place(1, value)?;
        Some((ServiceNo(service as u16), node))
    }

    fn write(&self, alloc: Global) -> Result<Value, AllocError> {
        let service = self.0.0;
        let node = address_value(alloc, self.1)?;
        json!(in alloc; [service, node])
    }
}
