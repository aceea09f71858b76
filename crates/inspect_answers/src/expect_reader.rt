//! Reading what `expect` takes.
ghost use Rattle.std.specs.Prelude.{◌≡◌, [], true, codes, IsTrue, IfOk};
ghost use Rattle.serde_json.specs.View.{items_view, view};
ghost use Rattle.config_model.specs.Faults.{Gives};
ghost use Rattle.config_model.specs.Fields.{all_at, in_member, items_at};
ghost use Rattle.config_model.specs.Paths.{place_text};
ghost use Rattle.config_types.specs.Form.{has_config_form, has_topology_form};
ghost use Rattle.inspect_answers.specs.Expectations.{delivered_at, expect_at, expectation_at, expected_at};
ghost use Rattle.inspect_answers.specs.Expectations.{expected_named, service_number_at};
ghost use Rattle.config_model.specs.declared.fields.Count.TheVariants.{AnyNumber as AnyCount};

use crate::expectation::{ExpectInput, Expectation, Expected};
use config_model::reading::{
    Count, DocumentPlace, FromDocument, address_member, check_others, list_member, list_of,
    member_of, object_of, read_member, whole_member, whole_of,
};
use config_model::{CompileInput, DocKind, ReadRefusal};
use config_types::{Config, Topology};
use ov_types::bounds::{LAST_PORT, LAST_PORT_NUMBER, LAST_SERVICE};
use ov_types::{Items, Packet, PortNo, ServiceNo, Tuple};
use serde_json::Value;
use std::alloc::Global;

/// The greatest IP protocol.
const LAST_PROTOCOL: u64 = 255;

fn expected_named(text: &str) -> Option<Expected>
    ensures { result ≡ expected_named text.now }
{
    match text {
        "dropped" => Some(Expected::Dropped),
        "dropped no-source-port" => Some(Expected::NoSourcePort),
        "dropped no-destination" => Some(Expected::NoDestination),
        "dropped no-route" => Some(Expected::NoRoute),
        "dropped denied" => Some(Expected::Denied),
        _ => None,
    }
}

#[tactic(auto, unfolding(crate::specs::Expectations::service_number_at))]
fn service_number_of(
    alloc: Global,
    place: &DocumentPlace<'_>,
    value: &Value,
) -> Result<ServiceNo, ReadRefusal>
    ensures { Gives (λ s. s) result (service_number_at (place_text place.now) (view value.now)) }
{
    let number = whole_of(alloc, place, 0, LAST_SERVICE, value)?;
    Ok(ServiceNo(number as u16))
}

/// The numbers of services, in order.
fn service_numbers_of(
    alloc: Global,
    place: &DocumentPlace<'_>,
    values: &[Value],
) -> Result<Items<ServiceNo>, ReadRefusal>
    ensures { Gives (λ xs. xs) result (items_at service_number_at (place_text place.now) 0 (items_view values.now)) }
{
    let mut services = Items::new(alloc);
    for (index, value) in values.iter().enumerate() {
        services.push(service_number_of(alloc, &DocumentPlace::Item(place, index), value)?)?;
    }
    Ok(services)
}

/// The services that a packet is expected to be led through.
#[tactic(auto, unfolding(config_model::specs::Fields::in_member, config_model::specs::Fields::all_at))]
fn services_member(
    alloc: Global,
    place: &DocumentPlace<'_>,
    value: &Value,
) -> Result<Items<ServiceNo>, ReadRefusal>
    ensures { Gives (λ xs. xs) result
        (in_member (all_at service_number_at AnyCount) (place_text place.now) (codes "services") (view value.now)) }
{
    let found = member_of(alloc, place, "services", value)?;
    let place = DocumentPlace::Member(place, "services");
    let values = list_of(alloc, &place, Count::AnyNumber, found)?;
    service_numbers_of(alloc, &place, values)
}

/// The port and the services of a packet that is expected to be delivered.
#[tactic(auto, unfolding(crate::specs::Expectations::delivered_at))]
fn delivered_of(
    alloc: Global,
    place: &DocumentPlace<'_>,
    value: &Value,
) -> Result<Expected, ReadRefusal>
    ensures { Gives (λ x. x) result (delivered_at (place_text place.now) (view value.now)) }
{
    let members = object_of(alloc, place, value)?;
    let port = whole_member(alloc, place, "port", 0, LAST_PORT, value)?;
    let services = services_member(alloc, place, value)?;
    check_others(alloc, place, &["port", "services"], members)?;
    Ok(Expected::Delivered {
        port: PortNo(port as u32),
        services,
    })
}

impl FromDocument for Expected {
    ghost reads = { expected_at };

    ghost has_form = { λ expected. true };

    #[tactic(auto, unfolding(crate::specs::Expectations::expected_at))]
    fn read(alloc: Global, place: &DocumentPlace<'_>, value: &Value) -> Result<Self, ReadRefusal> {
        let Some(text) = value.as_str() else {
            return delivered_of(alloc, place, value);
        };
        match expected_named(text) {
            Some(expected) => Ok(expected),
            None => Err(place.fault(alloc, DocKind::Range)),
        }
    }
}

impl FromDocument for Expectation {
    ghost reads = { expectation_at };

    ghost has_form = { λ expectation. true };

    #[tactic(auto, unfolding(crate::specs::Expectations::expectation_at))]
    fn read(alloc: Global, place: &DocumentPlace<'_>, value: &Value) -> Result<Self, ReadRefusal> {
        let members = object_of(alloc, place, value)?;
        let port = whole_member(alloc, place, "port", 0, LAST_PORT, value)?;
        let destination = address_member(alloc, place, "to", 0, u32::MAX, value)?;
        let protocol = whole_member(alloc, place, "protocol", 0, LAST_PROTOCOL, value)?;
        let sport = whole_member(alloc, place, "sport", 0, LAST_PORT_NUMBER, value)?;
        let dport = whole_member(alloc, place, "dport", 0, LAST_PORT_NUMBER, value)?;
        let expected = read_member::<Expected>(alloc, place, "expect", value)?;
        check_others(
            alloc,
            place,
            &["port", "to", "protocol", "sport", "dport", "expect"],
            members,
        )?;
        Ok(Expectation {
            packet: Packet {
                source: PortNo(port as u32),
                destination,
                tuple: Tuple {
                    proto: protocol as u8,
                    sport: sport as u16,
                    dport: dport as u16,
                },
            },
            expected,
        })
    }
}

/// What `expect` takes: an object with `topology`, `configuration` and `packets`, a list. Each packet is one as `reach`
/// takes it, with the member `expect` beside the others.
#[tactic(auto, unfolding(crate::specs::Expectations::expect_at))]
fn expect_input_of(
    alloc: Global,
    place: &DocumentPlace<'_>,
    value: &Value,
) -> Result<ExpectInput, ReadRefusal>
    ensures reads { Gives (λ r. r) result (expect_at (place_text place.now) (view value.now)) }
    ensures topology_form { IfOk result (λ r. IsTrue (has_topology_form r.input.topology)) }
    ensures config_form { IfOk result (λ r. IsTrue (has_config_form r.input.config)) }
{
    let members = object_of(alloc, place, value)?;
    let topology = read_member::<Topology>(alloc, place, "topology", value)?;
    let config = read_member::<Config>(alloc, place, "configuration", value)?;
    let packets = list_member::<Expectation>(alloc, place, "packets", Count::AnyNumber, value)?;
    check_others(
        alloc,
        place,
        &["topology", "configuration", "packets"],
        members,
    )?;
    Ok(ExpectInput {
        input: CompileInput { topology, config },
        packets,
    })
}

/// The whole input of `expect`.
pub(crate) fn read_expect(alloc: Global, value: &Value) -> Result<ExpectInput, ReadRefusal>
    ensures reads { Gives (λ r. r) result (expect_at [] (view value.now)) }
    ensures topology_form { IfOk result (λ r. IsTrue (has_topology_form r.input.topology)) }
    ensures config_form { IfOk result (λ r. IsTrue (has_config_form r.input.config)) }
{
    expect_input_of(alloc, &DocumentPlace::Whole, value)
}
