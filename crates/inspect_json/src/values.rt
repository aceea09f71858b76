//! The JSON values of what lines say.
ghost use Rattle.std.specs.Prelude.{◌≡◌, IfOk};
ghost use Rattle.serde_json.specs.View.{view};
ghost use Rattle.inspect_json.specs.Values.{list_value, name_value, passage_services, passage_word, policy_name, range_value};
ghost use Rattle.inspect_json.specs.Values.{rule_value, service_name, service_value, way_value};

use config_types::Config;
use inspect_changes::{Passage, Way};
use ov_types::{Name, Range16, RuleNo, ServiceNo};
use serde_json::{Value, json};
use std::alloc::{AllocError, Global};

/// The name of the first policy of a sequence.
fn policy_name(config: &Config, sequence: u16) -> Option<Name>
    ensures { result ≡ policy_name config.now sequence }
{
    let policies = config.policies.as_slice();
    match policies.iter().find(|p| p.sequence == sequence) {
        Some(policy) => Some(policy.name),
        None => None,
    }
}

/// The name of the first service of a number.
pub(crate) fn service_name(config: &Config, number: u16) -> Option<Name>
    ensures { result ≡ service_name config.now number }
{
    let services = config.services.as_slice();
    match services.iter().find(|s| s.id.0 == number) {
        Some(service) => Some(service.name),
        None => None,
    }
}

/// A name, and `null` where there is none.
pub(crate) fn name_value(alloc: Global, name: Option<Name>) -> Result<Value, AllocError>
    ensures { IfOk result (λ v. view v ≡ name_value name) }
{
    match name {
        Some(name) => Value::try_from_str(alloc, name.text()),
        None => Ok(Value::Null),
    }
}

pub(crate) fn range_value(alloc: Global, range: Range16) -> Result<Value, AllocError>
    ensures { IfOk result (λ v. view v ≡ range_value range) }
{
    json!(in alloc; [(range.lo), (range.hi)])
}

#[tactic(auto, unfolding(crate::specs::Values::rule_value))]
pub(crate) fn rule_value(alloc: Global, config: &Config, rule: RuleNo) -> Result<Value, AllocError>
    ensures { IfOk result (λ v. view v ≡ rule_value config.now rule) }
{
    let policy = name_value(alloc, policy_name(config, rule.sequence))?;
    json!(in alloc; {
        "policy": policy,
        "position": (rule.position),
        "sequence": (rule.sequence)
    })
}

#[tactic(auto, unfolding(crate::specs::Values::service_value))]
fn service_value(alloc: Global, config: &Config, service: ServiceNo) -> Result<Value, AllocError>
    ensures { IfOk result (λ v. view v ≡ service_value config.now service) }
{
    let name = name_value(alloc, service_name(config, service.0))?;
    json!(in alloc; {"id": (service.0), "name": name})
}

/// A list of the values of services.
pub(crate) fn services_value(
    alloc: Global,
    config: &Config,
    services: &[ServiceNo],
) -> Result<Value, AllocError>
    ensures { IfOk result (λ v. view v ≡ list_value (service_value config.now) services.now) }
{
    let mut values = Vec::new(alloc);
    for service in services {
        values.push(service_value(alloc, config, *service)?)?;
    }
    Ok(Value::Array(values))
}

/// The word of how packets are let through.
fn passage_word(passage: &Passage) -> &'static str
    ensures { result.now ≡ passage_word passage.now }
{
    match passage {
        Passage::Straight => "passed",
        Passage::Through { .. } => "through",
    }
}

fn passage_value(alloc: Global, config: &Config, passage: &Passage) -> Result<Value, AllocError>
    ensures { IfOk result (λ v. view v ≡ list_value (service_value config.now) (passage_services passage.now)) }
{
    match passage {
        Passage::Straight => Ok(Value::Array(Vec::new(alloc))),
        Passage::Through { services } => services_value(alloc, config, services.as_slice()),
    }
}

/// A way, from the network of a name to the one of another.
#[tactic(auto, unfolding(crate::specs::Values::way_value))]
pub(crate) fn way_value(
    alloc: Global,
    config: &Config,
    from: &Name,
    to: &Name,
    way: &Way,
) -> Result<Value, AllocError>
    ensures { IfOk result (λ v. view v ≡ way_value config.now from.now to.now way.now) }
{
    let rule = rule_value(alloc, config, way.decision.rule)?;
    let services = passage_value(alloc, config, &way.passage)?;
    let protocols = range_value(alloc, way.region.protocols)?;
    let source_ports = range_value(alloc, way.region.source_ports)?;
    let destination_ports = range_value(alloc, way.region.destination_ports)?;
    let fate = passage_word(&way.passage);
    let from = from.text();
    let to = to.text();
    json!(in alloc; {
        "destination_ports": destination_ports,
        "fate": fate,
        "from": from,
        "protocols": protocols,
        "rule": rule,
        "services": services,
        "source_ports": source_ports,
        "to": to
    })
}
