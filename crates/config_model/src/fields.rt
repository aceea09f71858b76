//! Members of objects and items of lists.
ghost use Rattle.std.specs.Prelude.{◌≡◌, ◌&&◌, List, ℕ, Bool, IsTrue, length, map};
ghost use Rattle.std.specs.Prelude.{option_map, nat_eq, Result, IfOk, ◌≤◌};
ghost use Rattle.std.specs.Cmp.Lexicographic.{pointwise};
ghost use Rattle.std.specs.List.{list_any, list_all};
ghost use Rattle.serde_json.specs.Data.{Data};
ghost use Rattle.serde_json.specs.View.{view, members_view, items_view};
ghost use Rattle.config_model.specs.Paths.{place_text};
ghost use Rattle.config_model.specs.Faults.{Gives, Fault};
ghost use Rattle.config_types.specs.Form.{is_from_to};
ghost use Rattle.config_model.specs.Fields.{member_at, in_member, object_at, text_at, list_at, whole_at, only_at};
ghost use Rattle.config_model.specs.Fields.{first_other, items_at, all_at, optional_all, allows};

use crate::fault::{DocKind, DocumentPlace, ReadRefusal};
use ov_types::Items;
use serde_json::{Map, Value};
use std::alloc::Global;

/// What is read from a value of a document.
pub trait FromDocument: Drop {
    /// What is read from a value at a path.
    ghost reads: { List ℕ → Data → Result Self Fault };

    /// The written form of what is read.
    ghost has_form: { Self → Bool };

    fn read(alloc: Global, place: &DocumentPlace<'_>, value: &Value) -> Result<Self, ReadRefusal>
        ensures reads { Gives (λ x. x) result (reads (place_text place.now) (view value.now)) }
        ensures form { IfOk result (λ x. IsTrue (has_form x)) };
}

/// How many items a list may have.
#[derive(Clone, Copy)]
pub enum Count {
    AnyNumber,
    AtLeastOne,
    OneOrTwo,
    Two,
}

impl Count {
    fn allows(self, n: usize) -> bool
        ensures { result ≡ allows self n }
    {
        match self {
            Count::AnyNumber => true,
            Count::AtLeastOne => 1 <= n,
            Count::OneOrTwo => 1 <= n && n <= 2,
            Count::Two => n == 2,
        }
    }
}

/// A member that has to be there.
#[tactic(auto, unfolding(crate::specs::Fields::member_at))]
pub fn member_of<'v>(
    alloc: Global,
    place: &DocumentPlace<'_>,
    name: &str,
    value: &'v Value,
) -> Result<&'v Value, ReadRefusal>
    ensures { Gives (λ v. view v.now) result (member_at (place_text place.now) name.now (view value.now)) }
{
    match value.get(name) {
        Some(found) => Ok(found),
        None => Err(DocumentPlace::Member(place, name).fault(alloc, DocKind::Missing)),
    }
}

/// What is read from a member that has to be there.
#[tactic(auto, unfolding(crate::specs::Fields::in_member))]
pub fn read_member<T: FromDocument>(
    alloc: Global,
    place: &DocumentPlace<'_>,
    name: &str,
    value: &Value,
) -> Result<T, ReadRefusal>
    ensures reads { Gives (λ x. x) result (in_member T.reads (place_text place.now) name.now (view value.now)) }
    ensures form { IfOk result (λ x. IsTrue (T.has_form x)) }
{
    let found = member_of(alloc, place, name, value)?;
    T::read(alloc, &DocumentPlace::Member(place, name), found)
}

/// The members of an object.
#[tactic(auto, unfolding(crate::specs::Fields::object_at))]
pub fn object_of<'v>(
    alloc: Global,
    place: &DocumentPlace<'_>,
    value: &'v Value,
) -> Result<&'v Map<String, Value>, ReadRefusal>
    ensures { Gives (λ m. members_view m.now.entries) result (object_at (place_text place.now) (view value.now)) }
{
    match value.as_object() {
        Some(members) => Ok(members),
        None => Err(place.fault(alloc, DocKind::Kind)),
    }
}

/// A text.
#[tactic(auto, unfolding(crate::specs::Fields::text_at))]
pub fn text_of<'v>(
    alloc: Global,
    place: &DocumentPlace<'_>,
    value: &'v Value,
) -> Result<&'v str, ReadRefusal>
    ensures { Gives (λ s. s.now) result (text_at (place_text place.now) (view value.now)) }
{
    match value.as_str() {
        Some(text) => Ok(text),
        None => Err(place.fault(alloc, DocKind::Kind)),
    }
}

/// A whole number from low to high.
#[tactic(auto, unfolding(crate::specs::Fields::whole_at))]
pub fn whole_of(
    alloc: Global,
    place: &DocumentPlace<'_>,
    low: u64,
    high: u64,
    value: &Value,
) -> Result<u64, ReadRefusal>
    ensures reads { Gives (λ n. n) result (whole_at low high (place_text place.now) (view value.now)) }
    ensures form { IfOk result (λ n. IsTrue (is_from_to low high n)) }
    ensures bound { IfOk result (λ n. n ≤ high) }
{
    match value.as_number() {
        None => Err(place.fault(alloc, DocKind::Kind)),
        Some(number) => match number.as_u64() {
            Some(n) => {
                if low <= n && n <= high {
                    Ok(n)
                } else {
                    Err(place.fault(alloc, DocKind::Range))
                }
            }
            None => {
                if number.is_f64() {
                    Err(place.fault(alloc, DocKind::Kind))
                } else {
                    Err(place.fault(alloc, DocKind::Range))
                }
            }
        },
    }
}

/// A whole number from low to high, in a member that has to be there.
#[tactic(auto, unfolding(crate::specs::Fields::in_member))]
pub fn whole_member(
    alloc: Global,
    place: &DocumentPlace<'_>,
    name: &str,
    low: u64,
    high: u64,
    value: &Value,
) -> Result<u64, ReadRefusal>
    ensures reads { Gives (λ n. n) result
        (in_member (whole_at low high) (place_text place.now) name.now (view value.now)) }
    ensures form { IfOk result (λ n. IsTrue (is_from_to low high n)) }
    ensures bound { IfOk result (λ n. n ≤ high) }
{
    let found = member_of(alloc, place, name, value)?;
    whole_of(alloc, &DocumentPlace::Member(place, name), low, high, found)
}

/// The first member that is none of these is a fault.
#[tactic(auto, unfolding(crate::specs::Fields::only_at))]
pub fn check_others(
    alloc: Global,
    place: &DocumentPlace<'_>,
    known: &[&str],
    members: &Map<String, Value>,
) -> Result<(), ReadRefusal>
    ensures { Gives (λ x. x) result
        (only_at (place_text place.now) (map (λ k. k.now) known.now) (members_view members.now.entries)) }
{
    match other_of(known, members) {
        Some(name) => Err(DocumentPlace::Member(place, name).fault(alloc, DocKind::Unknown)),
        None => Ok(()),
    }
}

fn other_of<'v>(known: &[&str], members: &'v Map<String, Value>) -> Option<&'v str>
    ensures { option_map (λ s. s.now) result
        ≡ first_other (map (λ k. k.now) known.now) (members_view members.now.entries) }
{
    for (name, _) in members.iter() {
        if !is_among(known, name.as_str()) {
            return Some(name.as_str());
        }
    }
    None
}

fn is_among(known: &[&str], name: &str) -> bool
    ensures { result ≡ list_any (λ k. pointwise nat_eq k.now name.now) known.now }
{
    known.iter().any(|k| *k == name)
}

/// The items of a list of a number that is allowed, unread.
#[tactic(auto, unfolding(crate::specs::Fields::list_at))]
pub fn list_of<'v>(
    alloc: Global,
    place: &DocumentPlace<'_>,
    count: Count,
    value: &'v Value,
) -> Result<&'v [Value], ReadRefusal>
    ensures reads { Gives (λ v. items_view v.now) result (list_at count (place_text place.now) (view value.now)) }
    ensures count { IfOk result (λ v. IsTrue (allows count (length v.now))) }
{
    match value.as_array() {
        None => Err(place.fault(alloc, DocKind::Kind)),
        Some(list) => {
            let items = list.as_slice();
            if count.allows(items.len()) {
                Ok(items)
            } else {
                Err(place.fault(alloc, DocKind::Range))
            }
        }
    }
}

/// Each item of a list, in order.
#[tactic(auto, unfolding(crate::specs::Fields::all_at))]
pub fn read_list<T: FromDocument>(
    alloc: Global,
    place: &DocumentPlace<'_>,
    count: Count,
    value: &Value,
) -> Result<Items<T>, ReadRefusal>
    ensures reads { Gives (λ xs. xs) result (all_at T.reads count (place_text place.now) (view value.now)) }
    ensures form { IfOk result (λ xs. IsTrue (list_all T.has_form xs)) }
    ensures count { IfOk result (λ xs. IsTrue (allows count (length xs))) }
{
    let values = list_of(alloc, place, count, value)?;
    items_of(alloc, place, values)
}

/// A list in a member that has to be there.
#[tactic(auto, unfolding(crate::specs::Fields::in_member))]
pub fn list_member<T: FromDocument>(
    alloc: Global,
    place: &DocumentPlace<'_>,
    name: &str,
    count: Count,
    value: &Value,
) -> Result<Items<T>, ReadRefusal>
    ensures reads { Gives (λ xs. xs) result
        (in_member (all_at T.reads count) (place_text place.now) name.now (view value.now)) }
    ensures form { IfOk result (λ xs. IsTrue (list_all T.has_form xs)) }
    ensures count { IfOk result (λ xs. IsTrue (allows count (length xs))) }
{
    let found = member_of(alloc, place, name, value)?;
    read_list(alloc, &DocumentPlace::Member(place, name), count, found)
}

/// A list that may be absent, which is read as empty.
#[tactic(auto, unfolding(crate::specs::Fields::optional_all))]
pub fn optional_list_member<T: FromDocument>(
    alloc: Global,
    place: &DocumentPlace<'_>,
    name: &str,
    value: &Value,
) -> Result<Items<T>, ReadRefusal>
    ensures reads { Gives (λ xs. xs) result (optional_all T.reads (place_text place.now) name.now (view value.now)) }
    ensures form { IfOk result (λ xs. IsTrue (list_all T.has_form xs)) }
{
    match value.get(name) {
        Some(found) => read_list(
            alloc,
            &DocumentPlace::Member(place, name),
            Count::AnyNumber,
            found,
        ),
        None => Ok(Items::new(alloc)),
    }
}

/// The items that values write, in order.
pub fn items_of<T: FromDocument>(
    alloc: Global,
    place: &DocumentPlace<'_>,
    values: &[Value],
) -> Result<Items<T>, ReadRefusal>
    ensures reads { Gives (λ xs. xs) result (items_at T.reads (place_text place.now) 0 (items_view values.now)) }
    ensures form { IfOk result (λ xs. IsTrue (list_all T.has_form xs)) }
    ensures count { IfOk result (λ xs. length xs ≡ length values.now) }
{
    let mut items = Items::new(alloc);
    for (index, value) in values.iter().enumerate() {
        items.push(T::read(alloc, &DocumentPlace::Item(place, index), value)?)?;
    }
    Ok(items)
}
