//! Objects that have exactly one member.
ghost use Rattle.std.specs.Prelude.{◌≡◌, option_map};
ghost use Rattle.serde_json.specs.View.{view, members_view};
ghost use Rattle.config_model.specs.Paths.{place_text};
ghost use Rattle.config_model.specs.Faults.{Gives};
ghost use Rattle.config_model.specs.OneMember.{only_member, one_member_at};

use crate::fault::{DocKind, DocumentPlace, ReadRefusal};
use crate::fields::object_of;
use serde_json::{Map, Value};
use std::alloc::Global;

/// The name and the value of the one member, where there is exactly one.
fn only_member<'v>(members: &'v Map<String, Value>) -> Option<(&'v str, &'v Value)>
    ensures { option_map (λ m. (m.0.now, view m.1.now)) result ≡ only_member (members_view members.now.entries) }
{
    let mut entries = members.iter();
    let (name, value) = entries.next()?;
    match entries.next() {
        Some(_) => None,
        None => Some((name.as_str(), value)),
    }
}

/// The name and the value of the one member of an object.
#[tactic(auto, unfolding(crate::specs::OneMember::one_member_at))]
pub fn one_member_of<'v>(
    alloc: Global,
    place: &DocumentPlace<'_>,
    value: &'v Value,
) -> Result<(&'v str, &'v Value), ReadRefusal>
    ensures { Gives (λ m. (m.0.now, view m.1.now)) result (one_member_at (place_text place.now) (view value.now)) }
{
    let members = object_of(alloc, place, value)?;
    match only_member(members) {
        Some(member) => Ok(member),
        None => Err(place.fault(alloc, DocKind::Range)),
    }
}
