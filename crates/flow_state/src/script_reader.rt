//! Reading steps, and what `flows` takes.
ghost use Rattle.std.specs.Prelude.{[], ◌≤◌, IsTrue, IfOk};
ghost use Rattle.std.specs.List.{list_all};
ghost use Rattle.serde_json.specs.View.{view};
ghost use Rattle.config_model.specs.Paths.{place_text};
ghost use Rattle.config_model.specs.Faults.{Gives};
ghost use Rattle.config_types.specs.Form.{has_topology_form, has_config_form};
ghost use Rattle.flow_state.specs.Steps.{capacity_at, flows_at, has_step_form, step_at, step_from};

use crate::step::{FlowStep, FlowsInput};
use config_model::reading::{
    Count, DocumentPlace, FromDocument, check_others, list_member, object_of, one_member_of,
    read_member, whole_member,
};
use config_model::{CompileInput, DocKind, ReadRefusal};
use config_types::{Config, Edit, Topology};
use ov_types::Packet;
use serde_json::Value;
use std::alloc::Global;

/// The fewest flows that a table may have room for, and the most.
const LEAST_CAPACITY: u64 = 1;

const MOST_CAPACITY: u64 = 65_535;

/// The step that the member of an object names.
#[tactic(auto, unfolding(crate::specs::Steps::step_from, crate::specs::Steps::has_step_form))]
fn step_from(
    alloc: Global,
    place: &DocumentPlace<'_>,
    word: &str,
    value: &Value,
) -> Result<FlowStep, ReadRefusal>
    ensures reads { Gives (λ x. x) result (step_from word.now (place_text place.now) (view value.now)) }
    ensures form { IfOk result (λ x. IsTrue (has_step_form x)) }
{
    match word {
        "edit" => Ok(FlowStep::Edit(Edit::read(alloc, place, value)?)),
        "trace" => Ok(FlowStep::Trace(Packet::read(alloc, place, value)?)),
        _ => Err(place.fault(alloc, DocKind::Unknown)),
    }
}

impl FromDocument for FlowStep {
    ghost reads = { step_at };

    ghost has_form = { has_step_form };

    #[tactic(auto, unfolding(crate::specs::Steps::step_at))]
    fn read(alloc: Global, place: &DocumentPlace<'_>, value: &Value) -> Result<Self, ReadRefusal> {
        let (word, described) = one_member_of(alloc, place, value)?;
        step_from(alloc, &DocumentPlace::Member(place, word), word, described)
    }
}

/// How many flows a table has room for.
#[tactic(auto, unfolding(crate::specs::Steps::capacity_at))]
fn capacity_of(alloc: Global, place: &DocumentPlace<'_>, value: &Value) -> Result<u16, ReadRefusal>
    ensures reads { Gives (λ n. n) result (capacity_at (place_text place.now) (view value.now)) }
    ensures least { IfOk result (λ n. 1 ≤ n) }
{
    let capacity = whole_member(
        alloc,
        place,
        "capacity",
        LEAST_CAPACITY,
        MOST_CAPACITY,
        value,
    )?;
    Ok(capacity as u16)
}

/// What `flows` takes: an object with `topology`, `configuration`, `capacity` and `steps`.
#[tactic(auto, unfolding(crate::specs::Steps::flows_at))]
fn flows_input_of(
    alloc: Global,
    place: &DocumentPlace<'_>,
    value: &Value,
) -> Result<FlowsInput, ReadRefusal>
    ensures reads { Gives (λ r. r) result (flows_at (place_text place.now) (view value.now)) }
    ensures topology_form { IfOk result (λ r. IsTrue (has_topology_form r.input.topology)) }
    ensures config_form { IfOk result (λ r. IsTrue (has_config_form r.input.config)) }
    ensures least { IfOk result (λ r. 1 ≤ r.capacity) }
    ensures steps_form { IfOk result (λ r. IsTrue (list_all has_step_form r.steps)) }
{
    let members = object_of(alloc, place, value)?;
    let topology = read_member::<Topology>(alloc, place, "topology", value)?;
    let config = read_member::<Config>(alloc, place, "configuration", value)?;
    let capacity = capacity_of(alloc, place, value)?;
    let steps = list_member::<FlowStep>(alloc, place, "steps", Count::AnyNumber, value)?;
    check_others(
        alloc,
        place,
        &["topology", "configuration", "capacity", "steps"],
        members,
    )?;
    Ok(FlowsInput {
        input: CompileInput { topology, config },
        capacity,
        steps,
    })
}

/// The whole input of `flows`: an object with `topology`, `configuration`, `capacity`, 1 to 65535, and `steps`, a list.
/// A step is an object with the one member `edit` or `trace`.
pub fn read_flows(alloc: Global, value: &Value) -> Result<FlowsInput, ReadRefusal>
    ensures reads { Gives (λ r. r) result (flows_at [] (view value.now)) }
    ensures topology_form { IfOk result (λ r. IsTrue (has_topology_form r.input.topology)) }
    ensures config_form { IfOk result (λ r. IsTrue (has_config_form r.input.config)) }
    ensures least { IfOk result (λ r. 1 ≤ r.capacity) }
    ensures steps_form { IfOk result (λ r. IsTrue (list_all has_step_form r.steps)) }
{
    flows_input_of(alloc, &DocumentPlace::Whole, value)
}
