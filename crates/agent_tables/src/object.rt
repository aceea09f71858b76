//! Objects of a slice.
ghost use Rattle.std.specs.Prelude.{◌≡◌, IsTrue};
ghost use Rattle.std.specs.Option.{option_copied, option_map};
ghost use Rattle.item_wire.specs.Changes.{has_key};
ghost use Rattle.agent_tables.specs.Objects.{is_of_a_use};

use ov_types::{LowKey, LowValue};

/// An object of the slice in use under its key. If it is a circuit, it is one of a chain's use.
#[derive(Clone, Copy)]
pub(crate) struct SliceObject<'a> {
    pub(crate) key: LowKey,
    pub(crate) value: &'a LowValue,
    ghost keyed: { IsTrue (has_key key value.now) },
    ghost circuit: { IsTrue (is_of_a_use value.now) },
}

pub(crate) fn value_of<'a>(object: Option<SliceObject<'a>>) -> Option<&'a LowValue>
    ensures { option_copied result ≡ option_map (λ o. o.value.now) object.entry }
{
    match object {
        Some(object) => Some(object.value),
        None => None,
    }
}
