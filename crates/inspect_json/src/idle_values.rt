//! The JSON values of what decides nothing, or is not in use.
ghost use Rattle.std.specs.Prelude.{◌≡◌, IfOk};
ghost use Rattle.serde_json.specs.View.{view};
ghost use Rattle.inspect_json.specs.IdleValues.{idle_chain_value, idle_policy_value, idle_rule_value, idle_value};
ghost use Rattle.inspect_json.specs.Values.{list_value, rule_value};

use crate::values::rule_value;
use config_types::Config;
use inspect_rules::Idle;
use ov_types::{Name, RuleNo};
use serde_json::{Value, json};
use std::alloc::{AllocError, Global};

/// A list of the values of rules.
fn rules_value(alloc: Global, config: &Config, rules: &[RuleNo]) -> Result<Value, AllocError>
    ensures { IfOk result (λ v. view v ≡ list_value (rule_value config.now) rules.now) }
{
    let mut values = Vec::new(alloc);
    for rule in rules {
        values.push(rule_value(alloc, config, *rule)?)?;
    }
    Ok(Value::Array(values))
}

#[tactic(auto, unfolding(crate::specs::IdleValues::idle_rule_value))]
fn idle_rule_value(
    alloc: Global,
    config: &Config,
    rule: RuleNo,
    before: &[RuleNo],
) -> Result<Value, AllocError>
    ensures { IfOk result (λ v. view v ≡ idle_rule_value config.now rule before.now) }
{
    let behind = rules_value(alloc, config, before)?;
    let rule = rule_value(alloc, config, rule)?;
    json!(in alloc; {"behind": behind, "kind": "rule", "rule": rule})
}

#[tactic(auto, unfolding(crate::specs::IdleValues::idle_policy_value))]
fn idle_policy_value(alloc: Global, name: &Name, networks: usize) -> Result<Value, AllocError>
    ensures { IfOk result (λ v. view v ≡ idle_policy_value name.now networks) }
{
    let name = name.text();
    json!(in alloc; {"kind": "policy", "name": name, "networks": networks})
}

#[tactic(auto, unfolding(crate::specs::IdleValues::idle_chain_value))]
fn idle_chain_value(alloc: Global, name: &Name) -> Result<Value, AllocError>
    ensures { IfOk result (λ v. view v ≡ idle_chain_value name.now) }
{
    let name = name.text();
    json!(in alloc; {"kind": "chain", "name": name})
}

/// What decides nothing, or is not in use.
pub(crate) fn idle_value(alloc: Global, config: &Config, idle: &Idle) -> Result<Value, AllocError>
    ensures { IfOk result (λ v. view v ≡ idle_value config.now idle.now) }
{
    match idle {
        Idle::Rule { rule, before } => idle_rule_value(alloc, config, *rule, before.as_slice()),
        Idle::Policy { name, networks } => idle_policy_value(alloc, name, *networks),
        Idle::Chain { name } => idle_chain_value(alloc, name),
    }
}
