//! Reading groups.
ghost use Rattle.std.specs.Prelude.{◌≡◌, [], nat_le, length, codes, IsTrue, IfOk};
ghost use Rattle.std.specs.List.{list_all};
ghost use Rattle.serde_json.specs.View.{view, items_view};
ghost use Rattle.ov_types.specs.Bounds.{is_from_to};
ghost use Rattle.ov_types.specs.Name.{is_name};
ghost use Rattle.config_model.specs.Paths.{place_text};
ghost use Rattle.config_model.specs.Faults.{Gives};
ghost use Rattle.config_model.specs.Fields.{in_member, items_at, whole_at};
ghost use Rattle.scale_out.specs.Form.{has_group_form, are_members, is_ascending};
ghost use Rattle.scale_out.specs.Reading.{has_service, is_grouped, service_at, few_at, members_at, group_at, groups_at};
ghost use Rattle.scale_out.specs.Reading.{groups_from};

use crate::groups::Group;
use config_model::reading::{
    Count, DocumentPlace, FromDocument, check_others, list_of, member_of, object_of, whole_of,
};
use config_model::{DocKind, ReadRefusal};
use config_types::Config;
use ov_types::{Items, Name};
use serde_json::Value;
use std::alloc::Global;

/// The most members of a group.
const MOST_MEMBERS: usize = 16;

/// The greatest number of a member.
const LAST_MEMBER: u64 = 65_535;

fn has_service(config: &Config, name: &Name) -> bool
    ensures { result ≡ has_service config.now name.now }
{
    config
        .services
        .as_slice()
        .iter()
        .any(|service| service.name == *name)
}

fn is_grouped(groups: &[Group], name: &Name) -> bool
    ensures { result ≡ is_grouped groups.now name.now }
{
    groups.iter().any(|group| group.service == *name)
}

/// The name of a service that the configuration has, and that no earlier group names.
#[tactic(auto, unfolding(crate::specs::Reading::service_at))]
fn service_of(
    alloc: Global,
    place: &DocumentPlace<'_>,
    config: &Config,
    earlier: &[Group],
    value: &Value,
) -> Result<Name, ReadRefusal>
    ensures reads { Gives (λ x. x) result
        (service_at config.now earlier.now (place_text place.now) (view value.now)) }
    ensures form { IfOk result (λ name. IsTrue (is_name name)) }
{
    let name = Name::read(alloc, place, value)?;
    let free = has_service(config, &name) && !is_grouped(earlier, &name);
    if !free {
        return Err(place.fault(alloc, DocKind::Range));
    }
    Ok(name)
}

#[tactic(auto, unfolding(config_model::specs::Fields::in_member))]
fn service_member(
    alloc: Global,
    place: &DocumentPlace<'_>,
    config: &Config,
    earlier: &[Group],
    value: &Value,
) -> Result<Name, ReadRefusal>
    ensures reads { Gives (λ x. x) result
        (in_member (service_at config.now earlier.now) (place_text place.now) (codes "service") (view value.now)) }
    ensures form { IfOk result (λ name. IsTrue (is_name name)) }
{
    let found = member_of(alloc, place, "service", value)?;
    service_of(
        alloc,
        &DocumentPlace::Member(place, "service"),
        config,
        earlier,
        found,
    )
}

fn is_few(count: usize) -> bool
    ensures { result ≡ is_from_to 1 16 count }
{
    1 <= count && count <= MOST_MEMBERS
}

/// The items of a list of 1 to 16, unread.
#[tactic(auto, unfolding(crate::specs::Reading::few_at))]
fn few_of<'v>(
    alloc: Global,
    place: &DocumentPlace<'_>,
    value: &'v Value,
) -> Result<&'v [Value], ReadRefusal>
    ensures reads { Gives (λ v. items_view v.now) result (few_at (place_text place.now) (view value.now)) }
    ensures count { IfOk result (λ v. IsTrue (is_from_to 1 16 (length v.now))) }
{
    let values = list_of(alloc, place, Count::AnyNumber, value)?;
    if is_few(values.len()) {
        Ok(values)
    } else {
        Err(place.fault(alloc, DocKind::Range))
    }
}

/// The number of a member.
fn number_of(alloc: Global, place: &DocumentPlace<'_>, value: &Value) -> Result<u16, ReadRefusal>
    ensures reads { Gives (λ n. n) result (whole_at 0 65535 (place_text place.now) (view value.now)) }
    ensures form { IfOk result (λ n. IsTrue (nat_le n 65535)) }
{
    let number = whole_of(alloc, place, 0, LAST_MEMBER, value)?;
    Ok(number as u16)
}

/// The number of each member, in order.
fn numbers_of(
    alloc: Global,
    place: &DocumentPlace<'_>,
    values: &[Value],
) -> Result<Items<u16>, ReadRefusal>
    ensures reads { Gives (λ xs. xs) result
        (items_at (whole_at 0 65535) (place_text place.now) 0 (items_view values.now)) }
    ensures form { IfOk result (λ xs. IsTrue (list_all (λ n. nat_le n 65535) xs)) }
    ensures count { IfOk result (λ xs. length xs ≡ length values.now) }
{
    let mut numbers = Items::new(alloc);
    for (index, value) in values.iter().enumerate() {
        numbers.push(number_of(alloc, &DocumentPlace::Item(place, index), value)?)?;
    }
    Ok(numbers)
}

/// Whether each number is below the next.
fn is_ascending(numbers: &[u16]) -> bool
    ensures { result ≡ is_ascending numbers.now }
{
    match numbers {
        [first, others @ ..] => match others {
            [second, ..] => *first < *second && is_ascending(others),
            [] => true,
        },
        [] => true,
    }
}

/// The members of a group: 1 to 16 numbers, each below the next.
#[tactic(auto, unfolding(crate::specs::Reading::members_at, crate::specs::Form::are_members))]
fn members_of(
    alloc: Global,
    place: &DocumentPlace<'_>,
    value: &Value,
) -> Result<Items<u16>, ReadRefusal>
    ensures reads { Gives (λ xs. xs) result (members_at (place_text place.now) (view value.now)) }
    ensures form { IfOk result (λ xs. IsTrue (are_members xs)) }
{
    let values = few_of(alloc, place, value)?;
    let numbers = numbers_of(alloc, place, values)?;
    if !is_ascending(numbers.as_slice()) {
        return Err(place.fault(alloc, DocKind::Range));
    }
    Ok(numbers)
}

#[tactic(auto, unfolding(config_model::specs::Fields::in_member))]
fn members_member(
    alloc: Global,
    place: &DocumentPlace<'_>,
    value: &Value,
) -> Result<Items<u16>, ReadRefusal>
    ensures reads { Gives (λ xs. xs) result
        (in_member members_at (place_text place.now) (codes "members") (view value.now)) }
    ensures form { IfOk result (λ xs. IsTrue (are_members xs)) }
{
    let found = member_of(alloc, place, "members", value)?;
    members_of(alloc, &DocumentPlace::Member(place, "members"), found)
}

/// A group behind earlier ones.
#[tactic(auto, unfolding(crate::specs::Reading::group_at))]
fn group_of(
    alloc: Global,
    place: &DocumentPlace<'_>,
    config: &Config,
    earlier: &[Group],
    value: &Value,
) -> Result<Group, ReadRefusal>
    ensures reads { Gives (λ x. x) result
        (group_at config.now earlier.now (place_text place.now) (view value.now)) }
    ensures form { IfOk result (λ x. IsTrue (has_group_form x)) }
{
    let members = object_of(alloc, place, value)?;
    let service = service_member(alloc, place, config, earlier, value)?;
    let numbers = members_member(alloc, place, value)?;
    check_others(alloc, place, &["service", "members"], members)?;
    Ok(Group {
        service,
        members: numbers,
    })
}

/// Groups, each behind those before it.
fn groups_from(
    alloc: Global,
    place: &DocumentPlace<'_>,
    config: &Config,
    values: &[Value],
) -> Result<Items<Group>, ReadRefusal>
    ensures reads { Gives (λ xs. xs) result
        (groups_from config.now (place_text place.now) 0 [] (items_view values.now)) }
    ensures form { IfOk result (λ xs. IsTrue (list_all has_group_form xs)) }
{
    let mut groups = Items::new(alloc);
    for (index, value) in values.iter().enumerate() {
        let next = group_of(
            alloc,
            &DocumentPlace::Item(&*place, index),
            config,
            groups.as_slice(),
            value,
        )?;
        groups.push(next)?;
    }
    Ok(groups)
}

/// A list of groups, each of a service of its own.
#[tactic(auto, unfolding(crate::specs::Reading::groups_at))]
pub(crate) fn groups_of(
    alloc: Global,
    place: &DocumentPlace<'_>,
    config: &Config,
    value: &Value,
) -> Result<Items<Group>, ReadRefusal>
    ensures reads { Gives (λ xs. xs) result (groups_at config.now (place_text place.now) (view value.now)) }
    ensures form { IfOk result (λ xs. IsTrue (list_all has_group_form xs)) }
{
    let values = list_of(alloc, place, Count::AnyNumber, value)?;
    groups_from(alloc, place, config, values)
}
