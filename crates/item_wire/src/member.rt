//! Members of records.
ghost use Rattle.std.specs.Prelude.{◌≡◌, Some, None};
ghost use Rattle.serde_json.specs.Find.{get};
ghost use Rattle.serde_json.specs.View.{view};
ghost use Rattle.item_wire.specs.declared.fault.ItemFault.TheVariants.{Member};
ghost use Rattle.item_wire.specs.Faults.{IsRead, wanted};
ghost use Rattle.item_wire.specs.Members.{name_of, is_of_kind, of_kind};

use crate::fault::{Field, ItemFault};
use serde_json::Value;

/// The kinds of members.
#[derive(Clone, Copy)]
pub(crate) enum MemberKind {
    /// A whole number of 64 bits.
    Whole,
    Text,
    Listed,
}

impl MemberKind {
    fn has(self, value: &Value) -> bool
        ensures { result ≡ is_of_kind self (view value.now) }
    {
        match self {
            MemberKind::Whole => is_whole(value),
            MemberKind::Text => value.is_string(),
            MemberKind::Listed => value.is_array(),
        }
    }
}

fn is_whole(value: &Value) -> bool
    ensures { result ≡ is_of_kind MemberKind.Whole (view value.now) }
{
    match value.as_number() {
        Some(number) => !number.is_f64(),
        None => false,
    }
}

impl Field {
    /// The name in JSON.
    pub(crate) fn name(self) -> &'static str
        ensures { result.now ≡ name_of self }
    {
        match self {
            Field::Op => "op",
            Field::Name => "name",
            Field::Imports => "imports",
            Field::Instance => "instance",
            Field::Address => "address",
            Field::Node => "node",
            Field::Port => "port",
            Field::Circuit => "circuit",
            Field::Service => "service",
            Field::From => "from",
            Field::Rules => "rules",
            Field::Subnets => "subnets",
            Field::To => "to",
            Field::Hops => "hops",
            Field::Left => "left",
            Field::LeftPrefixes => "left_prefixes",
            Field::Right => "right",
            Field::RightPrefixes => "right_prefixes",
            Field::Use => "use",
            Field::Label => "label",
            Field::Prefix => "prefix",
            Field::NextHop => "next_hop",
        }
    }
}

/// The value of a member, where it is there and of its kind.
pub(crate) fn member_of(kind: MemberKind, field: Field, value: &Value) -> Result<&Value, ItemFault>
    ensures { IsRead (λ v. view v.now) result
        (wanted (Member field) (of_kind kind (get (name_of field) (view value.now)))) }
{
    match value.get(field.name()) {
        Some(found) => {
            if kind.has(found) {
                Ok(found)
            } else {
                Err(ItemFault::Member { name: field })
            }
        }
        None => Err(ItemFault::Member { name: field }),
    }
}
