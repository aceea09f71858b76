//! Reading what `scale` takes.
ghost use Rattle.std.specs.Prelude.{[], codes, IsTrue, IfOk};
ghost use Rattle.std.specs.List.{list_all};
ghost use Rattle.serde_json.specs.View.{view};
ghost use Rattle.config_model.specs.Paths.{place_text};
ghost use Rattle.config_model.specs.Faults.{Gives};
ghost use Rattle.config_model.specs.Fields.{in_member};
ghost use Rattle.config_types.specs.Form.{has_topology_form, has_config_form, has_packet_form};
ghost use Rattle.scale_out.specs.Reading.{groups_at, scale_at};

use crate::groups::Groups;
use config_model::reading::{
    Count, DocumentPlace, check_others, list_member, member_of, object_of, read_member,
};
use config_model::{CompileInput, ReadRefusal};
use config_types::{Config, Topology};
use ov_types::{Items, Packet};
use serde_json::Value;
use std::alloc::Global;

/// What there is and what is configured, the members of services, and packets to ask about.
#[derive(Drop)]
pub struct ScaleInput {
    pub input: CompileInput,
    pub groups: Groups,
    pub packets: Items<Packet>,
}

#[tactic(auto, unfolding(config_model::specs::Fields::in_member))]
fn groups_member(
    alloc: Global,
    place: &DocumentPlace<'_>,
    config: &Config,
    value: &Value,
) -> Result<Groups, ReadRefusal>
    ensures { Gives (λ x. x) result
        (in_member (groups_at config.now) (place_text place.now) (codes "groups") (view value.now)) }
{
    let found = member_of(alloc, place, "groups", value)?;
    Groups::read_at(
        alloc,
        &DocumentPlace::Member(place, "groups"),
        found,
        config,
    )
}

/// What `scale` takes: an object with `topology`, `configuration`, `groups` and `packets`.
#[tactic(auto, unfolding(crate::specs::Reading::scale_at))]
fn scale_input_of(
    alloc: Global,
    place: &DocumentPlace<'_>,
    value: &Value,
) -> Result<ScaleInput, ReadRefusal>
    ensures reads { Gives (λ r. r) result (scale_at (place_text place.now) (view value.now)) }
    ensures topology_form { IfOk result (λ r. IsTrue (has_topology_form r.input.topology)) }
    ensures config_form { IfOk result (λ r. IsTrue (has_config_form r.input.config)) }
    ensures packets_form { IfOk result (λ r. IsTrue (list_all has_packet_form r.packets)) }
{
    let members = object_of(alloc, place, value)?;
    let topology = read_member::<Topology>(alloc, place, "topology", value)?;
    let config = read_member::<Config>(alloc, place, "configuration", value)?;
    let groups = groups_member(alloc, place, &config, value)?;
    let packets = list_member::<Packet>(alloc, place, "packets", Count::AnyNumber, value)?;
    check_others(
        alloc,
        place,
        &["topology", "configuration", "groups", "packets"],
        members,
    )?;
    Ok(ScaleInput {
        input: CompileInput { topology, config },
        groups,
        packets,
    })
}

/// The whole input of `scale`: an object with `topology`, `configuration`, `groups`, a list, and `packets`, a list.
pub fn read_scale(alloc: Global, value: &Value) -> Result<ScaleInput, ReadRefusal>
    ensures reads { Gives (λ r. r) result (scale_at [] (view value.now)) }
    ensures topology_form { IfOk result (λ r. IsTrue (has_topology_form r.input.topology)) }
    ensures config_form { IfOk result (λ r. IsTrue (has_config_form r.input.config)) }
    ensures packets_form { IfOk result (λ r. IsTrue (list_all has_packet_form r.packets)) }
{
    scale_input_of(alloc, &DocumentPlace::Whole, value)
}
