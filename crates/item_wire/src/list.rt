//! Lists, whose items are read and written one by one.
ghost use Rattle.std.specs.Prelude.{◌≡◌, length, Bool, IsTrue, Option, IfSome, IfOk, option_map};
ghost use Rattle.std.specs.List.{list_all};
ghost use Rattle.serde_json.specs.Data.{Data};
ghost use Rattle.serde_json.specs.Find.{as_array};
ghost use Rattle.serde_json.specs.View.{view, items_view};
ghost use Rattle.item_wire.specs.Entries.{allows, counted, all_from, list_from};
ghost use Rattle.item_wire.specs.Records.{list_record};

use ov_types::{Items, NoMemory};
use serde_json::Value;
use std::alloc::{AllocError, Global};

/// An item of a list in a record.
pub(crate) trait Entry: Drop {
    /// What is read from a value.
    ghost reads: { Data → Option Self };

    /// The values within their ranges.
    ghost is_fit: { Self → Bool };

    /// The value in a record.
    ghost written: { Self → Data };

    fn read(value: &Value) -> Option<Self>
        ensures reads { result ≡ reads (view value.now) }
        ensures form { IfSome result (λ x. IsTrue (is_fit x)) };

    fn write(&self, alloc: Global) -> Result<Value, AllocError>
        ensures { IfOk result (λ v. view v ≡ written self.now) };
}

/// How many items a list may have.
#[derive(Clone, Copy)]
pub(crate) enum Count {
    AnyNumber,
    AtLeastOne,
    OneToFifteen,
}

impl Count {
    fn allows(self, n: usize) -> bool
        ensures { result ≡ allows self n }
    {
        match self {
            Count::AnyNumber => true,
            Count::AtLeastOne => 1 <= n,
            Count::OneToFifteen => 1 <= n && n <= 15,
        }
    }
}

/// Each item, where each is read.
fn all_from<T: Entry>(alloc: Global, values: &[Value]) -> Result<Option<Items<T>>, NoMemory>
    ensures reads { IfOk result (λ o. o ≡ all_from T.reads (items_view values.now)) }
    ensures form { IfOk result (λ o. IfSome o (λ xs. IsTrue (list_all T.is_fit xs))) }
    ensures count { IfOk result (λ o. IfSome o (λ xs. length xs ≡ length values.now)) }
{
    let mut items = Items::new(alloc);
    for value in values {
        match T::read(value) {
            Some(item) => items.push(item)?,
            None => return Ok(None),
        }
    }
    Ok(Some(items))
}

/// The items of a list, where it may have this number of them.
fn counted(count: Count, value: &Value) -> Option<&[Value]>
    ensures items { option_map (λ values. items_view values.now) result ≡ counted count (as_array (view value.now)) }
    ensures count { IfSome result (λ values. IsTrue (allows count (length values.now))) }
{
    match value.as_array() {
        None => None,
        Some(list) => {
            let items = list.as_slice();
            if count.allows(items.len()) {
                Some(items)
            } else {
                None
            }
        }
    }
}

/// A list of a number of items that is allowed.
#[tactic(auto, unfolding(crate::specs::Entries::list_from))]
pub(crate) fn list_from<T: Entry>(
    alloc: Global,
    count: Count,
    value: &Value,
) -> Result<Option<Items<T>>, NoMemory>
    ensures reads { IfOk result (λ o. o ≡ list_from count T.reads (view value.now)) }
    ensures form { IfOk result (λ o. IfSome o (λ xs. IsTrue (list_all T.is_fit xs))) }
    ensures count { IfOk result (λ o. IfSome o (λ xs. IsTrue (allows count (length xs)))) }
{
    match counted(count, value) {
        Some(values) => all_from(alloc, values),
        None => Ok(None),
    }
}

/// The value of a list in a record.
pub(crate) fn list_value<T: Entry>(alloc: Global, items: &Items<T>) -> Result<Value, AllocError>
    ensures { IfOk result (λ v. view v ≡ list_record T.written items.now) }
{
    let mut values = Vec::new(alloc);
    for item in items.as_slice() {
        values.push(item.write(alloc)?)?;
    }
    Ok(Value::Array(values))
}
