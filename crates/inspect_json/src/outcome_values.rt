//! The JSON values of what becomes of a packet.
ghost use Rattle.std.specs.Prelude.{◌≡◌, IfOk};
ghost use Rattle.serde_json.specs.View.{view};
ghost use Rattle.inspect_json.specs.OutcomeValues.{delivered_value, denier_value, dropped_value, outcome_value};
ghost use Rattle.inspect_json.specs.OutcomeValues.{port_number_value, to_drop_value, to_drop_why_value, why_rule, why_word};

use crate::change_values::port_name;
use crate::values::{name_value, rule_value, services_value};
use config_types::Config;
use ov_types::{Outcome, PortNo, RuleNo, ServiceNo, Why};
use serde_json::{Value, json};
use std::alloc::{AllocError, Global};

/// The number of a port, with its name.
#[tactic(auto, unfolding(crate::specs::OutcomeValues::port_number_value))]
pub fn port_number_value(alloc: Global, config: &Config, port: PortNo) -> Result<Value, AllocError>
    ensures { IfOk result (λ v. view v ≡ port_number_value config.now port) }
{
    let name = name_value(alloc, port_name(config, port.0))?;
    json!(in alloc; {"id": (port.0), "name": name})
}

/// A packet comes to a port, through services.
#[tactic(auto, unfolding(crate::specs::OutcomeValues::delivered_value))]
pub fn delivered_value(
    alloc: Global,
    config: &Config,
    port: PortNo,
    services: &[ServiceNo],
) -> Result<Value, AllocError>
    ensures { IfOk result (λ v. view v ≡ delivered_value config.now port services.now) }
{
    let port = port_number_value(alloc, config, port)?;
    let services = services_value(alloc, config, services)?;
    json!(in alloc; {"fate": "delivered", "port": port, "services": services})
}

/// The word of why a packet is dropped.
fn why_word(why: Why) -> &'static str
    ensures { result.now ≡ why_word why }
{
    match why {
        Why::NoSourcePort => "no-source-port",
        Why::NoDestination => "no-destination",
        Why::NoRoute => "no-route",
        Why::Denied { .. } => "denied",
        Why::NoLabel => "no-label",
        Why::TtlExpired => "ttl-expired",
    }
}

/// The rule that denies a packet, and `null` where none does.
fn denier_value(alloc: Global, config: &Config, rule: Option<RuleNo>) -> Result<Value, AllocError>
    ensures { IfOk result (λ v. view v ≡ denier_value config.now rule) }
{
    match rule {
        None => Ok(Value::Null),
        Some(rule) => rule_value(alloc, config, rule),
    }
}

fn why_rule(alloc: Global, config: &Config, why: Why) -> Result<Value, AllocError>
    ensures { IfOk result (λ v. view v ≡ why_rule config.now why) }
{
    match why {
        Why::Denied { rule } => denier_value(alloc, config, rule),
        _ => Ok(Value::Null),
    }
}

#[tactic(auto, unfolding(crate::specs::OutcomeValues::dropped_value))]
fn dropped_value(alloc: Global, config: &Config, why: Why) -> Result<Value, AllocError>
    ensures { IfOk result (λ v. view v ≡ dropped_value config.now why) }
{
    let rule = why_rule(alloc, config, why)?;
    let why = why_word(why);
    json!(in alloc; {"fate": "dropped", "rule": rule, "why": why})
}

/// What becomes of a packet.
pub fn outcome_value(alloc: Global, config: &Config, outcome: &Outcome) -> Result<Value, AllocError>
    ensures { IfOk result (λ v. view v ≡ outcome_value config.now outcome.now) }
{
    match outcome {
        Outcome::Delivered { port, services } => {
            delivered_value(alloc, config, *port, services.as_slice())
        }
        Outcome::Dropped { why } => dropped_value(alloc, config, *why),
    }
}

/// A packet is to be dropped.
#[tactic(auto, unfolding(crate::specs::OutcomeValues::to_drop_value))]
pub fn to_drop_value(alloc: Global) -> Result<Value, AllocError>
    ensures { IfOk result (λ v. view v ≡ to_drop_value) }
{
    json!(in alloc; {"fate": "dropped"})
}

/// A packet is to be dropped for a reason.
#[tactic(auto, unfolding(crate::specs::OutcomeValues::to_drop_why_value))]
pub fn to_drop_why_value(alloc: Global, why: &str) -> Result<Value, AllocError>
    ensures { IfOk result (λ v. view v ≡ to_drop_why_value why.now) }
{
    json!(in alloc; {"fate": "dropped", "why": why})
}
