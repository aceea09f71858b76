//! Reading what `hitless` takes.
ghost use Rattle.std.specs.Prelude.{[], IsTrue, IfOk};
ghost use Rattle.std.specs.List.{list_all};
ghost use Rattle.serde_json.specs.View.{view};
ghost use Rattle.config_model.specs.Paths.{place_text};
ghost use Rattle.config_model.specs.Faults.{Gives};
ghost use Rattle.config_types.specs.Form.{has_config_form, has_edit_form, has_topology_form};
ghost use Rattle.hitless_answers.specs.Reading.{hitless_at};

use crate::input::HitlessInput;
use config_model::reading::{
    Count, DocumentPlace, check_others, list_member, object_of, read_member,
};
use config_model::{CompileInput, ReadRefusal};
use config_types::{Config, Edit, Topology};
use serde_json::Value;
use std::alloc::Global;

/// What `hitless` takes: an object with `topology`, `configuration` and `edits`.
#[tactic(auto, unfolding(crate::specs::Reading::hitless_at))]
fn hitless_input_of(
    alloc: Global,
    place: &DocumentPlace<'_>,
    value: &Value,
) -> Result<HitlessInput, ReadRefusal>
    ensures reads { Gives (λ r. r) result (hitless_at (place_text place.now) (view value.now)) }
    ensures topology_form { IfOk result (λ r. IsTrue (has_topology_form r.input.topology)) }
    ensures config_form { IfOk result (λ r. IsTrue (has_config_form r.input.config)) }
    ensures edits_form { IfOk result (λ r. IsTrue (list_all has_edit_form r.edits)) }
{
    let members = object_of(alloc, place, value)?;
    let topology = read_member::<Topology>(alloc, place, "topology", value)?;
    let config = read_member::<Config>(alloc, place, "configuration", value)?;
    let edits = list_member::<Edit>(alloc, place, "edits", Count::AnyNumber, value)?;
    check_others(
        alloc,
        place,
        &["topology", "configuration", "edits"],
        members,
    )?;
    Ok(HitlessInput {
        input: CompileInput { topology, config },
        edits,
    })
}

/// The whole input of `hitless`: an object with `topology`, `configuration` and `edits`, a list. An edit is written as in the
/// event `edit` of a schedule.
pub fn read_hitless(alloc: Global, value: &Value) -> Result<HitlessInput, ReadRefusal>
    ensures reads { Gives (λ r. r) result (hitless_at [] (view value.now)) }
    ensures topology_form { IfOk result (λ r. IsTrue (has_topology_form r.input.topology)) }
    ensures config_form { IfOk result (λ r. IsTrue (has_config_form r.input.config)) }
    ensures edits_form { IfOk result (λ r. IsTrue (list_all has_edit_form r.edits)) }
{
    hitless_input_of(alloc, &DocumentPlace::Whole, value)
}
