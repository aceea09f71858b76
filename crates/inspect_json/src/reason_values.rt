//! The JSON values of what outcomes come of.
ghost use Rattle.std.specs.Prelude.{◌≡◌, IfOk};
ghost use Rattle.serde_json.specs.View.{view};
ghost use Rattle.inspect_rules.specs.CauseLines.{condition_text, reading_text};
ghost use Rattle.inspect_json.specs.ReasonValues.{attached_value, cause_value, decided_value, explained_value};
ghost use Rattle.inspect_json.specs.ReasonValues.{mirrored_value, near_value, placed_value, skipped_value};
ghost use Rattle.inspect_json.specs.Values.{list_value};

use crate::outcome_values::outcome_value;
use crate::values::name_value;
use crate::walk_values::walk_value;
use config_types::Config;
use inspect_rules::{Cause, Condition};
use inspect_walks::ToldStep;
use ov_types::{Name, Outcome, RuleNo};
use serde_json::{Value, json};
use std::alloc::{AllocError, Global};

/// The word of a condition.
fn condition_word(condition: Condition) -> &'static str
    ensures { result.now ≡ condition_text condition }
{
    match condition {
        Condition::Protocol => "protocol",
        Condition::SourcePorts => "source-ports",
        Condition::DestinationPorts => "destination-ports",
        Condition::Direction => "direction",
    }
}

/// The word of how a rule is read.
fn reading_word(mirrored: bool) -> &'static str
    ensures { result.now ≡ reading_text mirrored }
{
    if mirrored { "mirrored" } else { "forwards" }
}

/// What fails of a rule read mirrored, and `null` where it is of one direction.
fn mirrored_value(alloc: Global, mirrored: Option<Condition>) -> Result<Value, AllocError>
    ensures { IfOk result (λ v. view v ≡ mirrored_value mirrored) }
{
    match mirrored {
        None => Ok(Value::Null),
        Some(condition) => Value::try_from_str(alloc, condition_word(condition)),
    }
}

/// A rule, with the name of its policy.
#[tactic(auto, unfolding(crate::specs::ReasonValues::placed_value))]
fn placed_value(alloc: Global, rule: RuleNo, policy: Option<Name>) -> Result<Value, AllocError>
    ensures { IfOk result (λ v. view v ≡ placed_value rule policy) }
{
    let policy = name_value(alloc, policy)?;
    json!(in alloc; {
        "policy": policy,
        "position": (rule.position),
        "sequence": (rule.sequence)
    })
}

#[tactic(auto, unfolding(crate::specs::ReasonValues::near_value))]
fn near_value(alloc: Global, kind: &str, network: &Name) -> Result<Value, AllocError>
    ensures { IfOk result (λ v. view v ≡ near_value kind.now network.now) }
{
    let network = network.text();
    json!(in alloc; {"kind": kind, "network": network})
}

#[tactic(auto, unfolding(crate::specs::ReasonValues::skipped_value))]
fn skipped_value(
    alloc: Global,
    rule: RuleNo,
    policy: Option<Name>,
    forwards: Condition,
    mirrored: Option<Condition>,
) -> Result<Value, AllocError>
    ensures { IfOk result (λ v. view v ≡ skipped_value rule policy forwards mirrored) }
{
    let rule = placed_value(alloc, rule, policy)?;
    let mirrored = mirrored_value(alloc, mirrored)?;
    let forwards = condition_word(forwards);
    json!(in alloc; {
        "forwards": forwards,
        "kind": "skipped",
        "mirrored": mirrored,
        "rule": rule
    })
}

#[tactic(auto, unfolding(crate::specs::ReasonValues::decided_value))]
fn decided_value(
    alloc: Global,
    rule: RuleNo,
    policy: Option<Name>,
    mirrored: bool,
) -> Result<Value, AllocError>
    ensures { IfOk result (λ v. view v ≡ decided_value rule policy mirrored) }
{
    let rule = placed_value(alloc, rule, policy)?;
    let reading = reading_word(mirrored);
    json!(in alloc; {"kind": "decided", "reading": reading, "rule": rule})
}

#[tactic(auto, unfolding(crate::specs::ReasonValues::attached_value))]
fn attached_value(alloc: Global, network: &Name, policy: &Name) -> Result<Value, AllocError>
    ensures { IfOk result (λ v. view v ≡ attached_value network.now policy.now) }
{
    let network = network.text();
    let policy = policy.text();
    json!(in alloc; {"kind": "attached", "network": network, "policy": policy})
}

/// Something that an outcome comes of.
fn cause_value(alloc: Global, cause: &Cause) -> Result<Value, AllocError>
    ensures { IfOk result (λ v. view v ≡ cause_value cause.now) }
{
    match cause {
        Cause::From { network } => near_value(alloc, "from", network),
        Cause::To { network } => near_value(alloc, "to", network),
        Cause::Skipped {
            rule,
            policy,
            forwards,
            mirrored,
        } => skipped_value(alloc, *rule, *policy, *forwards, *mirrored),
        Cause::Decided {
            rule,
            policy,
            mirrored,
        } => decided_value(alloc, *rule, *policy, *mirrored),
        Cause::Attached { network, policy } => attached_value(alloc, network, policy),
        Cause::Unrelated { network } => near_value(alloc, "unrelated", network),
    }
}

/// A list of the values of what an outcome comes of.
fn causes_value(alloc: Global, causes: &[Cause]) -> Result<Value, AllocError>
    ensures { IfOk result (λ v. view v ≡ list_value cause_value causes.now) }
{
    let mut values = Vec::new(alloc);
    for cause in causes {
        values.push(cause_value(alloc, cause)?)?;
    }
    Ok(Value::Array(values))
}

/// The number of a packet, its outcome, what that comes of, and its walk.
#[tactic(auto, unfolding(crate::specs::ReasonValues::explained_value))]
pub(crate) fn explained_value(
    alloc: Global,
    config: &Config,
    number: usize,
    outcome: &Outcome,
    causes: &[Cause],
    walk: &[ToldStep],
) -> Result<Value, AllocError>
    ensures { IfOk result (λ v. view v ≡ explained_value config.now number outcome.now causes.now walk.now) }
{
    let outcome = outcome_value(alloc, config, outcome)?;
    let causes = causes_value(alloc, causes)?;
    let walk = walk_value(alloc, walk)?;
    json!(in alloc; {"causes": causes, "outcome": outcome, "packet": number, "walk": walk})
}
