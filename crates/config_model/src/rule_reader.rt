//! Reading rules.
ghost use Rattle.std.specs.Prelude.{◌≡◌, true, IsTrue, Result, IfOk, nat_le};
ghost use Rattle.serde_json.specs.View.{view, members_view};
ghost use Rattle.config_model.specs.Paths.{place_text};
ghost use Rattle.config_model.specs.Faults.{Gives};
ghost use Rattle.config_types.specs.Form.{is_range, has_end_form, has_protocol_form, has_action_form, has_rule_form};
ghost use Rattle.config_model.specs.Fields.{in_member, text_at, only_at};
ghost use Rattle.config_model.specs.Rule.{direction_of, direction_at, end_at, protocol_at, port_number_at, range_at};
ghost use Rattle.config_model.specs.Rule.{through_at, action_at, members_with, rule_at};

use crate::bounds::{LAST_PORT_NUMBER, LAST_PROTOCOL, LAST_USE};
use crate::fault::{DocKind, DocumentPlace, ReadRefusal};
use crate::fields::{
    Count, FromDocument, check_others, member_of, object_of, read_list, read_member, text_of,
    whole_member, whole_of,
};
use config_types::{Action, Direction, End, Protocol, Rule};
use ov_types::{Name, Range16};
use serde_json::{Map, Value};
use std::alloc::Global;

fn direction_from(text: &str) -> Option<Direction>
    ensures { result ≡ direction_of text.now }
{
    match text {
        ">" => Some(Direction::OneWay),
        "<>" => Some(Direction::BothWays),
        _ => None,
    }
}

impl FromDocument for Direction {
    ghost reads = { direction_at };

    ghost has_form = { λ direction. true };

    #[tactic(auto, unfolding(crate::specs::Rule::direction_at))]
    fn read(alloc: Global, place: &DocumentPlace<'_>, value: &Value) -> Result<Self, ReadRefusal> {
        let text = text_of(alloc, place, value)?;
        match direction_from(text) {
            Some(direction) => Ok(direction),
            None => Err(place.fault(alloc, DocKind::Range)),
        }
    }
}

impl FromDocument for End {
    ghost reads = { end_at };

    ghost has_form = { has_end_form };

    #[tactic(auto, unfolding(crate::specs::Rule::end_at))]
    fn read(alloc: Global, place: &DocumentPlace<'_>, value: &Value) -> Result<Self, ReadRefusal> {
        let name = Name::read(alloc, place, value)?;
        if name.text() == "any" {
            return Ok(End::Any);
        }
        Ok(End::Named(name))
    }
}

impl FromDocument for Protocol {
    ghost reads = { protocol_at };

    ghost has_form = { has_protocol_form };

    #[tactic(auto, unfolding(crate::specs::Rule::protocol_at))]
    fn read(alloc: Global, place: &DocumentPlace<'_>, value: &Value) -> Result<Self, ReadRefusal> {
        match value.as_str() {
            Some("any") => Ok(Protocol::Any),
            Some(_) => Err(place.fault(alloc, DocKind::Range)),
            None => {
                let number = whole_of(alloc, place, 0, LAST_PROTOCOL, value)?;
                Ok(Protocol::Number(number as u8))
            }
        }
    }
}

/// A port number of a packet.
impl FromDocument for u16 {
    ghost reads = { port_number_at };

    ghost has_form = { λ n. nat_le n 65535 };

    fn read(alloc: Global, place: &DocumentPlace<'_>, value: &Value) -> Result<Self, ReadRefusal> {
        let number = whole_of(alloc, place, 0, LAST_PORT_NUMBER, value)?;
        Ok(number as u16)
    }
}

impl FromDocument for Range16 {
    ghost reads = { range_at };

    ghost has_form = { is_range };

    #[tactic(auto, unfolding(crate::specs::Rule::range_at))]
    fn read(alloc: Global, place: &DocumentPlace<'_>, value: &Value) -> Result<Self, ReadRefusal> {
        let ports = read_list::<u16>(alloc, place, Count::Two, value)?;
        match ports.as_slice() {
            [lo, hi] if lo <= hi => Ok(Range16 { lo: *lo, hi: *hi }),
            _ => Err(place.fault(alloc, DocKind::Range)),
        }
    }
}

/// The members `chain` and `use`.
#[tactic(auto, unfolding(crate::specs::Rule::through_at))]
fn through_of(
    alloc: Global,
    place: &DocumentPlace<'_>,
    value: &Value,
) -> Result<Action, ReadRefusal>
    ensures reads { Gives (λ x. x) result (through_at (place_text place.now) (view value.now)) }
    ensures form { IfOk result (λ action. IsTrue (has_action_form action)) }
{
    let chain = read_member::<Name>(alloc, place, "chain", value)?;
    let use_no = whole_member(alloc, place, "use", 0, LAST_USE, value)?;
    Ok(Action::Through {
        chain,
        use_no: use_no as u16,
    })
}

#[tactic(auto, unfolding(crate::specs::Fields::in_member))]
fn text_member<'v>(
    alloc: Global,
    place: &DocumentPlace<'_>,
    name: &str,
    value: &'v Value,
) -> Result<&'v str, ReadRefusal>
    ensures { Gives (λ s. s.now) result (in_member text_at (place_text place.now) name.now (view value.now)) }
{
    let found = member_of(alloc, place, name, value)?;
    text_of(alloc, &DocumentPlace::Member(place, name), found)
}

/// The member `action`, and with `chain` two more.
#[tactic(auto, unfolding(crate::specs::Rule::action_at))]
fn action_of(alloc: Global, place: &DocumentPlace<'_>, value: &Value) -> Result<Action, ReadRefusal>
    ensures reads { Gives (λ x. x) result (action_at (place_text place.now) (view value.now)) }
    ensures form { IfOk result (λ action. IsTrue (has_action_form action)) }
{
    let text = text_member(alloc, place, "action", value)?;
    match text {
        "pass" => Ok(Action::Pass),
        "deny" => Ok(Action::Deny),
        "chain" => through_of(alloc, place, value),
        _ => Err(DocumentPlace::Member(place, "action").fault(alloc, DocKind::Range)),
    }
}

/// Checks that a rule has no member but those of a rule with this action.
fn check_other_members(
    alloc: Global,
    place: &DocumentPlace<'_>,
    action: &Action,
    members: &Map<String, Value>,
) -> Result<(), ReadRefusal>
    ensures { Gives (λ x. x) result
        (only_at (place_text place.now) (members_with action.now) (members_view members.now.entries)) }
{
    match action {
        Action::Pass | Action::Deny => check_others(
            alloc,
            place,
            &[
                "direction",
                "source",
                "destination",
                "protocol",
                "source_ports",
                "destination_ports",
                "action",
            ],
            members,
        ),
        Action::Through { .. } => check_others(
            alloc,
            place,
            &[
                "direction",
                "source",
                "destination",
                "protocol",
                "source_ports",
                "destination_ports",
                "action",
                "chain",
                "use",
            ],
            members,
        ),
    }
}

/// The rule at a path.
#[tactic(auto, unfolding(crate::specs::Rule::rule_at, config_types::specs::Form::has_rule_form))]
fn rule_of(alloc: Global, place: &DocumentPlace<'_>, value: &Value) -> Result<Rule, ReadRefusal>
    ensures reads { Gives (λ x. x) result (rule_at (place_text place.now) (view value.now)) }
    ensures form { IfOk result (λ rule. IsTrue (has_rule_form rule)) }
{
    let members = object_of(alloc, place, value)?;
    let direction = read_member::<Direction>(alloc, place, "direction", value)?;
    let source = read_member::<End>(alloc, place, "source", value)?;
    let destination = read_member::<End>(alloc, place, "destination", value)?;
    let protocol = read_member::<Protocol>(alloc, place, "protocol", value)?;
    let source_ports = read_member::<Range16>(alloc, place, "source_ports", value)?;
    let destination_ports = read_member::<Range16>(alloc, place, "destination_ports", value)?;
    let action = action_of(alloc, place, value)?;
    check_other_members(alloc, place, &action, members)?;
    Ok(Rule {
        direction,
        source,
        destination,
        protocol,
        source_ports,
        destination_ports,
        action,
    })
}

impl FromDocument for Rule {
    ghost reads = { rule_at };

    ghost has_form = { has_rule_form };

    fn read(alloc: Global, place: &DocumentPlace<'_>, value: &Value) -> Result<Self, ReadRefusal> {
        rule_of(alloc, place, value)
    }
}
