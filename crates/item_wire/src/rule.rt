//! Entries of access lists.
ghost use Rattle.std.specs.Prelude.{◌≡◌, ◌+◌, ◌==◌, ◌<◌, Option, IfOk, IfSome, IsTrue};
ghost use Rattle.serde_json.specs.View.{view};
ghost use Rattle.item_wire.specs.Entries.{protocol_from, ports_from, action_from, rule_number_from, rule_from};
ghost use Rattle.item_wire.specs.Entries.{in_place};
ghost use Rattle.item_wire.specs.Entries.{action_named};
ghost use Rattle.item_wire.specs.Ranges.{is_protocol, are_ports, is_action, is_rule_number, is_rule};
ghost use Rattle.item_wire.specs.Records.{protocol_record, action_record, rule_record};

use crate::bounds::{
    ANY_PROTOCOL, FIRST_HOP_INSTANCE, LAST_INSTANCE, LAST_PORT_NUMBER, LAST_POSITION, LAST_SEQUENCE,
};
use crate::entry::number_from;
use crate::hop::{has_items, number_in_place};
use crate::list::Entry;
use ov_types::{AclAction, AclRule, InstanceId, Range16, RuleNo};
use serde_json::{Value, json};
use std::alloc::{AllocError, Global};

/// A protocol, or 256 for any.
#[tactic(auto, unfolding(crate::specs::Entries::protocol_from))]
fn protocol_from(value: &Value) -> Option<Option<u8>>
    ensures reads { result ≡ protocol_from (view value.now) }
    ensures form { IfSome result (λ p. IsTrue (is_protocol p)) }
{
    let number = number_from(0, ANY_PROTOCOL, value)?;
    if number == ANY_PROTOCOL {
        return Some(None);
    }
    Some(Some(number as u8))
}

#[tactic(auto, unfolding(crate::specs::Entries::in_place))]
fn protocol_in_place(place: usize, value: &Value) -> Option<Option<u8>>
    ensures reads { result ≡ in_place place protocol_from (view value.now) }
    ensures form { IfSome result (λ p. IsTrue (is_protocol p)) }
{
    protocol_from(value.get(place)?)
}

/// The least and the greatest port number, from a place and the next.
#[tactic(auto, unfolding(crate::specs::Entries::ports_from))]
fn ports_from(place: usize, value: &Value) -> Option<Range16>
    requires { place < 8 }
    ensures reads { result ≡ ports_from place (view value.now) }
    ensures form { IfSome result (λ r. IsTrue (are_ports r)) }
{
    let lo = number_in_place(place, 0, LAST_PORT_NUMBER, value)?;
    let hi = number_in_place(place + 1, 0, LAST_PORT_NUMBER, value)?;
    if lo > hi {
        return None;
    }
    Some(Range16 {
        lo: lo as u16,
        hi: hi as u16,
    })
}

fn action_named(text: &str) -> Option<AclAction>
    ensures reads { result ≡ action_named text.now }
    ensures form { IfSome result (λ a. IsTrue (is_action a)) }
{
    match text {
        "pass" => Some(AclAction::Pass),
        "deny" => Some(AclAction::Deny),
        _ => None,
    }
}

/// `pass`, `deny`, or the instance that is entered.
#[tactic(auto, unfolding(crate::specs::Entries::action_from))]
fn action_from(value: &Value) -> Option<AclAction>
    ensures reads { result ≡ action_from (view value.now) }
    ensures form { IfSome result (λ a. IsTrue (is_action a)) }
{
    match value.as_str() {
        Some(text) => action_named(text),
        None => {
            let instance = number_from(FIRST_HOP_INSTANCE, LAST_INSTANCE, value)?;
            Some(AclAction::Enter(InstanceId(instance as u16)))
        }
    }
}

#[tactic(auto, unfolding(crate::specs::Entries::in_place))]
fn action_in_place(place: usize, value: &Value) -> Option<AclAction>
    ensures reads { result ≡ in_place place action_from (view value.now) }
    ensures form { IfSome result (λ a. IsTrue (is_action a)) }
{
    action_from(value.get(place)?)
}

/// The sequence of a policy and the position in it.
#[tactic(auto, unfolding(crate::specs::Entries::rule_number_from))]
fn rule_number_from(value: &Value) -> Option<RuleNo>
    ensures reads { result ≡ rule_number_from (view value.now) }
    ensures form { IfSome result (λ n. IsTrue (is_rule_number n)) }
{
    let sequence = number_in_place(6, 0, LAST_SEQUENCE, value)?;
    let position = number_in_place(7, 1, LAST_POSITION, value)?;
    Some(RuleNo {
        sequence: sequence as u16,
        position: position as u16,
    })
}

fn protocol_value(protocol: Option<u8>) -> Value
    ensures { view result ≡ protocol_record protocol }
{
    match protocol {
        None => Value::from(ANY_PROTOCOL),
        Some(number) => Value::from(number),
    }
}

fn action_value(alloc: Global, action: AclAction) -> Result<Value, AllocError>
    ensures { IfOk result (λ v. view v ≡ action_record action) }
{
    match action {
        AclAction::Pass => Value::try_from_str(alloc, "pass"),
        AclAction::Deny => Value::try_from_str(alloc, "deny"),
        AclAction::Enter(instance) => Ok(Value::from(instance.0)),
    }
}

impl Entry for AclRule {
    ghost reads = { rule_from };

    ghost is_fit = { is_rule };

    ghost written = { rule_record };

    #[tactic(auto, unfolding(crate::specs::Entries::rule_from))]
    fn read(value: &Value) -> Option<Self> {
        if !has_items(8, value) {
            return None;
        }
        let protocol = protocol_in_place(0, value)?;
        let sports = ports_from(1, value)?;
        let dports = ports_from(3, value)?;
        let action = action_in_place(5, value)?;
        let rule = rule_number_from(value)?;
        Some(AclRule {
            protocol,
            sports,
            dports,
            action,
            rule,
        })
    }

    fn write(&self, alloc: Global) -> Result<Value, AllocError> {
        let protocol = protocol_value(self.protocol);
        let action = action_value(alloc, self.action)?;
        let sports = self.sports;
        let dports = self.dports;
        let rule = self.rule;
        json!(in alloc; [
            protocol,
            (sports.lo),
            (sports.hi),
            (dports.lo),
            (dports.hi),
            action,
            (rule.sequence),
            (rule.position)
        ])
    }
}
