//! The instances that a control node needs the routes of.
ghost use Rattle.std.specs.Prelude.{◌≡◌, IfOk, IsTrue};
ghost use Rattle.std.specs.List.{filter, filter_map};
ghost use Rattle.node_model.specs.Uses.{is_known};
ghost use Rattle.rt_constrain.specs.Needs.{instance_across, is_circuit, UsesFit};
ghost use Rattle.rt_constrain.specs.Needed.{circuit_numbered, is_of_circuit, needed, reason};

use ov_types::{InstanceId, NoMemory, Prefix, UpKey};
use route_targets::{circuit_instance, other_side};
use std::alloc::Global;
use vpn_tables::{VpnTables, in_order};

/// The first of the addresses of circuits, which are numbered from 0.
const CIRCUIT_ADDRESSES: u32 = 0xfa00_0000;

/// The numbers of circuits.
const FIRST_CIRCUIT: u32 = 32_769;

const LAST_CIRCUIT: u32 = 131_070;

fn is_circuit(circuit: u32) -> bool
    ensures { result ≡ is_circuit circuit }
{
    circuit >= FIRST_CIRCUIT && circuit <= LAST_CIRCUIT
}

/// The instance of the other side of a circuit.
fn instance_across(circuit: u32) -> InstanceId
    requires { IsTrue (is_circuit circuit) }
    ensures { result ≡ instance_across circuit }
{
    circuit_instance(other_side(circuit))
}

fn circuit_numbered(address: u32) -> u32
    ensures { result ≡ circuit_numbered address }
{
    address.saturating_sub(CIRCUIT_ADDRESSES)
}

/// Whether a prefix of an instance is a circuit's.
fn is_of_circuit(circuit: u32, i: InstanceId, prefix: &Prefix) -> bool
    ensures { result ≡ is_of_circuit circuit i prefix.now }
{
    is_circuit(circuit) && circuit / 2 == u32::from(i.0) && prefix.len() == 32
}

/// The instance that a key of an agent makes needed, where it is known.
fn reason(key: &UpKey) -> Option<InstanceId>
    ensures { result ≡ reason key.now }
{
    match key {
        UpKey::Subscribe(instance) => Some(*instance),
        UpKey::Publish(instance, prefix) => {
            let circuit = circuit_numbered(prefix.addr().0);
            if is_of_circuit(circuit, *instance, prefix) {
                Some(instance_across(circuit))
            } else {
                None
            }
        }
    }
}

fn reasons(alloc: Global, keys: &[UpKey]) -> Result<Vec<InstanceId>, NoMemory>
    ensures { IfOk result (λ instances. instances.items ≡ filter_map reason keys.now) }
{
    let mut instances = Vec::new(alloc);
    for key in keys {
        if let Some(instance) = reason(key) {
            instances.push(instance)?;
        }
    }
    Ok(instances)
}

/// The instances among some that are known.
fn known_among(
    alloc: Global,
    tables: &VpnTables,
    instances: &[InstanceId],
) -> Result<Vec<InstanceId>, NoMemory>
    ensures { IfOk result (λ known. known.items ≡ filter (is_known tables.now.feed) instances.now) }
{
    let mut known = Vec::new(alloc);
    for instance in instances {
        if tables.is_known(*instance) {
            known.push(*instance)?;
        }
    }
    Ok(known)
}

/// The instances that a control node needs the routes of, in order: those known that an agent subscribed, and of each
/// circuit that is published the one on its other side.
pub fn needed(alloc: Global, tables: &VpnTables) -> Result<Vec<InstanceId>, NoMemory>
    ensures needed { IfOk result (λ instances. instances.items ≡ needed tables.now) }
    ensures in_range { UsesFit tables.now.feed }
{
    let keys = tables.up_keys()?;
    let instances = reasons(alloc, keys.as_slice())?;
    let once = in_order(alloc, instances.as_slice())?;
    known_among(alloc, tables, once.as_slice())
}
