//! Reading packets, and what the commands take.
ghost use Rattle.std.specs.Prelude.{[], IsTrue, Result, IfOk};
ghost use Rattle.std.specs.List.{list_all};
ghost use Rattle.serde_json.specs.View.{view};
ghost use Rattle.config_model.specs.Paths.{place_text};
ghost use Rattle.config_model.specs.Faults.{Gives};
ghost use Rattle.config_types.specs.Form.{has_topology_form, has_config_form, has_packet_form};
ghost use Rattle.config_model.specs.Input.{packet_at, compile_at, reach_at};

use crate::bounds::{LAST_PORT, LAST_PORT_NUMBER, LAST_PROTOCOL};
use crate::fault::{DocumentPlace, ReadRefusal};
use crate::fields::{
    Count, FromDocument, check_others, list_member, object_of, read_member, whole_member,
};
use crate::values::address_member;
use config_types::{Config, Event, Topology};
use ov_types::{Items, Packet, PortNo, Tuple};
use serde_json::Value;
use std::alloc::Global;

/// What there is, and what is configured.
#[derive(Debug, Drop)]
pub struct CompileInput {
    pub topology: Topology,
    pub config: Config,
}

/// What there is and what is configured, and packets to ask about.
#[derive(Debug, Drop)]
pub struct ReachInput {
    pub input: CompileInput,
    pub packets: Items<Packet>,
}

/// What there is and what is configured, and what happens.
#[derive(Debug, Drop)]
pub struct RunInput {
    pub input: CompileInput,
    pub events: Items<Event>,
}

impl FromDocument for Packet {
    ghost reads = { packet_at };

    ghost has_form = { has_packet_form };

    #[tactic(auto, unfolding(crate::specs::Input::packet_at, config_types::specs::Form::has_packet_form))]
    fn read(alloc: Global, place: &DocumentPlace<'_>, value: &Value) -> Result<Self, ReadRefusal> {
        let members = object_of(alloc, place, value)?;
        let port = whole_member(alloc, place, "port", 0, LAST_PORT, value)?;
        let destination = address_member(alloc, place, "to", 0, u32::MAX, value)?;
        let protocol = whole_member(alloc, place, "protocol", 0, LAST_PROTOCOL, value)?;
        let sport = whole_member(alloc, place, "sport", 0, LAST_PORT_NUMBER, value)?;
        let dport = whole_member(alloc, place, "dport", 0, LAST_PORT_NUMBER, value)?;
        check_others(
            alloc,
            place,
            &["port", "to", "protocol", "sport", "dport"],
            members,
        )?;
        Ok(Packet {
            source: PortNo(port as u32),
            destination,
            tuple: Tuple {
                proto: protocol as u8,
                sport: sport as u16,
                dport: dport as u16,
            },
        })
    }
}

/// The packet that a value writes. Paths begin at the value.
pub fn read_packet(alloc: Global, value: &Value) -> Result<Packet, ReadRefusal>
    ensures reads { Gives (λ p. p) result (packet_at [] (view value.now)) }
    ensures form { IfOk result (λ p. IsTrue (has_packet_form p)) }
{
    Packet::read(alloc, &DocumentPlace::Whole, value)
}

/// What `compile` takes: an object with `topology` and `configuration`.
#[tactic(auto, unfolding(crate::specs::Input::compile_at))]
fn compile_input_of(
    alloc: Global,
    place: &DocumentPlace<'_>,
    value: &Value,
) -> Result<CompileInput, ReadRefusal>
    ensures reads { Gives (λ p. p) result (compile_at (place_text place.now) (view value.now)) }
    ensures topology_form { IfOk result (λ p. IsTrue (has_topology_form p.topology)) }
    ensures config_form { IfOk result (λ p. IsTrue (has_config_form p.config)) }
{
    let members = object_of(alloc, place, value)?;
    let topology = read_member::<Topology>(alloc, place, "topology", value)?;
    let config = read_member::<Config>(alloc, place, "configuration", value)?;
    check_others(alloc, place, &["topology", "configuration"], members)?;
    Ok(CompileInput { topology, config })
}

/// What `reach` takes: an object with `topology`, `configuration` and `packets`, a list.
#[tactic(auto, unfolding(crate::specs::Input::reach_at))]
fn reach_input_of(
    alloc: Global,
    place: &DocumentPlace<'_>,
    value: &Value,
) -> Result<ReachInput, ReadRefusal>
    ensures reads { Gives (λ r. r) result (reach_at (place_text place.now) (view value.now)) }
    ensures topology_form { IfOk result (λ r. IsTrue (has_topology_form r.input.topology)) }
    ensures config_form { IfOk result (λ r. IsTrue (has_config_form r.input.config)) }
    ensures packets_form { IfOk result (λ r. IsTrue (list_all has_packet_form r.packets)) }
{
    let members = object_of(alloc, place, value)?;
    let topology = read_member::<Topology>(alloc, place, "topology", value)?;
    let config = read_member::<Config>(alloc, place, "configuration", value)?;
    let packets = list_member::<Packet>(alloc, place, "packets", Count::AnyNumber, value)?;
    check_others(
        alloc,
        place,
        &["topology", "configuration", "packets"],
        members,
    )?;
    Ok(ReachInput {
        input: CompileInput { topology, config },
        packets,
    })
}

/// The whole input of `compile`: an object with `topology` and `configuration`.
pub fn read_compile(alloc: Global, value: &Value) -> Result<CompileInput, ReadRefusal>
    ensures reads { Gives (λ p. p) result (compile_at [] (view value.now)) }
    ensures topology_form { IfOk result (λ p. IsTrue (has_topology_form p.topology)) }
    ensures config_form { IfOk result (λ p. IsTrue (has_config_form p.config)) }
{
    compile_input_of(alloc, &DocumentPlace::Whole, value)
}

/// The whole input of `reach`: an object with `topology`, `configuration` and `packets`, a list.
pub fn read_reach(alloc: Global, value: &Value) -> Result<ReachInput, ReadRefusal>
    ensures reads { Gives (λ r. r) result (reach_at [] (view value.now)) }
    ensures topology_form { IfOk result (λ r. IsTrue (has_topology_form r.input.topology)) }
    ensures config_form { IfOk result (λ r. IsTrue (has_config_form r.input.config)) }
    ensures packets_form { IfOk result (λ r. IsTrue (list_all has_packet_form r.packets)) }
{
    reach_input_of(alloc, &DocumentPlace::Whole, value)
}
