//! Names, addresses and prefixes.
ghost use Rattle.std.specs.Prelude.{◌&&◌, not, IsTrue, Result, IfOk, nat_eq};
ghost use Rattle.std.specs.Cmp.Lexicographic.{pointwise};
ghost use Rattle.serde_json.specs.View.{view};
ghost use Rattle.ov_types.specs.Name.{is_name};
ghost use Rattle.config_model.specs.Paths.{place_text};
ghost use Rattle.config_model.specs.Faults.{Gives};
ghost use Rattle.config_types.specs.Form.{is_from_to, is_block};
ghost use Rattle.config_model.specs.Fields.{in_member, name_at, name_but_at, address_at, prefix_at};

use crate::fault::{DocKind, DocumentPlace, ReadRefusal};
use crate::fields::{FromDocument, member_of, text_of};
use ov_types::written::{address_from, prefix_from};
use ov_types::{Addr, Name, Prefix};
use serde_json::Value;
use std::alloc::Global;

impl FromDocument for Name {
    ghost reads = { name_at };

    ghost has_form = { is_name };

    #[tactic(auto, unfolding(crate::specs::Fields::name_at))]
    fn read(alloc: Global, place: &DocumentPlace<'_>, value: &Value) -> Result<Self, ReadRefusal> {
        let text = text_of(alloc, place, value)?;
        match Name::new(text) {
            Some(name) => Ok(name),
            None => Err(place.fault(alloc, DocKind::Range)),
        }
    }
}

/// A name that is not the reserved one.
#[tactic(auto, unfolding(crate::specs::Fields::name_but_at))]
fn name_but_of(
    alloc: Global,
    place: &DocumentPlace<'_>,
    reserved: &str,
    value: &Value,
) -> Result<Name, ReadRefusal>
    ensures reads { Gives (λ x. x) result (name_but_at reserved.now (place_text place.now) (view value.now)) }
    ensures form { IfOk result (λ name. IsTrue (is_name name && not (pointwise nat_eq name reserved.now))) }
{
    let name = Name::read(alloc, place, value)?;
    if name.text() == reserved {
        return Err(place.fault(alloc, DocKind::Range));
    }
    Ok(name)
}

/// A name that is not the reserved one, in a member that has to be there.
#[tactic(auto, unfolding(crate::specs::Fields::in_member))]
pub fn name_but_member(
    alloc: Global,
    place: &DocumentPlace<'_>,
    name: &str,
    reserved: &str,
    value: &Value,
) -> Result<Name, ReadRefusal>
    ensures reads { Gives (λ x. x) result
        (in_member (name_but_at reserved.now) (place_text place.now) name.now (view value.now)) }
    ensures form { IfOk result (λ name. IsTrue (is_name name && not (pointwise nat_eq name reserved.now))) }
{
    let found = member_of(alloc, place, name, value)?;
    name_but_of(alloc, &DocumentPlace::Member(place, name), reserved, found)
}

/// An address from low to high.
#[tactic(auto, unfolding(crate::specs::Fields::address_at))]
fn address_of(
    alloc: Global,
    place: &DocumentPlace<'_>,
    low: u32,
    high: u32,
    value: &Value,
) -> Result<Addr, ReadRefusal>
    ensures reads { Gives (λ x. x) result (address_at low high (place_text place.now) (view value.now)) }
    ensures form { IfOk result (λ a. IsTrue (is_from_to low high a.0)) }
{
    let text = text_of(alloc, place, value)?;
    match address_from(text) {
        Some(n) if low <= n && n <= high => Ok(Addr(n)),
        _ => Err(place.fault(alloc, DocKind::Range)),
    }
}

/// An address from low to high, in a member that has to be there.
#[tactic(auto, unfolding(crate::specs::Fields::in_member))]
pub fn address_member(
    alloc: Global,
    place: &DocumentPlace<'_>,
    name: &str,
    low: u32,
    high: u32,
    value: &Value,
) -> Result<Addr, ReadRefusal>
    ensures reads { Gives (λ x. x) result
        (in_member (address_at low high) (place_text place.now) name.now (view value.now)) }
    ensures form { IfOk result (λ a. IsTrue (is_from_to low high a.0)) }
{
    let found = member_of(alloc, place, name, value)?;
    address_of(alloc, &DocumentPlace::Member(place, name), low, high, found)
}

impl FromDocument for Prefix {
    ghost reads = { prefix_at };

    ghost has_form = { is_block };

    #[tactic(auto, unfolding(crate::specs::Fields::prefix_at))]
    fn read(alloc: Global, place: &DocumentPlace<'_>, value: &Value) -> Result<Self, ReadRefusal> {
        let text = text_of(alloc, place, value)?;
        match prefix_from(text) {
            Some(prefix) => Ok(prefix),
            None => Err(place.fault(alloc, DocKind::Range)),
        }
    }
}
