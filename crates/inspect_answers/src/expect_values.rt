//! The JSON values of packets whose outcome is otherwise than is expected.
ghost use Rattle.std.specs.Prelude.{◌≡◌, IfOk};
ghost use Rattle.serde_json.specs.View.{view};
ghost use Rattle.inspect_answers.specs.ExpectValues.{counts_value, expected_value, unmet_value};

use crate::expectation::Expected;
use config_types::Config;
use inspect_json::{delivered_value, outcome_value, to_drop_value, to_drop_why_value};
use ov_types::Outcome;
use serde_json::{Value, json};
use std::alloc::{AllocError, Global};

/// What is expected of a packet.
fn expected_value(alloc: Global, config: &Config, expected: &Expected) -> Result<Value, AllocError>
    ensures { IfOk result (λ v. view v ≡ expected_value config.now expected.now) }
{
    match expected {
        Expected::Dropped => to_drop_value(alloc),
        Expected::NoSourcePort => to_drop_why_value(alloc, "no-source-port"),
        Expected::NoDestination => to_drop_why_value(alloc, "no-destination"),
        Expected::NoRoute => to_drop_why_value(alloc, "no-route"),
        Expected::Denied => to_drop_why_value(alloc, "denied"),
        Expected::Delivered { port, services } => {
            delivered_value(alloc, config, *port, services.as_slice())
        }
    }
}

/// The number of a packet, what is expected of it, and what comes.
#[tactic(auto, unfolding(crate::specs::ExpectValues::unmet_value))]
pub(crate) fn unmet_value(
    alloc: Global,
    config: &Config,
    number: usize,
    expected: &Expected,
    outcome: &Outcome,
) -> Result<Value, AllocError>
    ensures { IfOk result (λ v. view v ≡ unmet_value config.now number expected.now outcome.now) }
{
    let expected = expected_value(alloc, config, expected)?;
    let outcome = outcome_value(alloc, config, outcome)?;
    json!(in alloc; {"expected": expected, "outcome": outcome, "packet": number})
}

/// How many packets there are, and of how many the outcome is otherwise.
#[tactic(auto, unfolding(crate::specs::ExpectValues::counts_value))]
pub(crate) fn counts_value(
    alloc: Global,
    packets: usize,
    otherwise: usize,
) -> Result<Value, AllocError>
    ensures { IfOk result (λ v. view v ≡ counts_value packets otherwise) }
{
    json!(in alloc; {"otherwise": otherwise, "packets": packets})
}
