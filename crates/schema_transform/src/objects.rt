//! Low-level objects.
ghost use Rattle.std.specs.Prelude.{◌≡◌, ◌||◌, filter, flat_map, map, IfOk, OnOk, IsTrue};
ghost use Rattle.std.specs.BTreeMap.{insert_entry};
ghost use Rattle.std.specs.List.{filter_map, list_all};
ghost use Rattle.ov_types.specs.Keys.{low_key_cmp};
ghost use Rattle.config_types.specs.Form.{has_port_form};
ghost use Rattle.policy_rules.specs.Related.{attaches, imports};
ghost use Rattle.acl_compile.specs.Oriented.{ascending};
ghost use Rattle.transform_model.specs.Objects.{acl_objects, circuit_object};
ghost use Rattle.transform_model.specs.Objects.{circuit_objects, hop_of, imports_of, instance_object};
ghost use Rattle.transform_model.specs.Objects.{low_objects, port_object, use_object, with_objects};
ghost use Rattle.transform_model.specs.Uses.{uses};
ghost use Rattle.policy_rules.specs.Related.{are_related};
ghost use Rattle.ov_types.specs.First.{same_name};
ghost use Rattle.schema_transform.specs.Held.{circuit_of};
ghost use Rattle.schema_transform.specs.HeldUses.{use_of};
ghost use Rattle.schema_transform.specs.Sound.{IsSound};
ghost use Rattle.schema_transform.specs.Towards.{acl_towards};

use crate::attached::{are_related_among, imports_among, policies_of};
use crate::attachment::Attachment;
use crate::chain_use::ChainUse;
use acl_compile::{acl_between, ascending};
use config_check::{network_named, node_named};
use config_types::{Config, Network, Port, Service, Topology};
use ov_types::{Addr, InstanceId, Items, LowKey, LowValue, NoMemory, ServiceNo};
use route_targets::{circuit_label, port_label};
use std::alloc::Global;
use std::collections::{BTreeMap, BTreeSet};

/// A low-level object with its key.
type LowObject = (LowKey, LowValue);

/// Low-level objects by their keys.
pub(crate) type Objects = BTreeMap<LowKey, LowValue>;

/// The instances of a set, in order.
pub(crate) fn instances_of(
    alloc: Global,
    set: &BTreeSet<InstanceId>,
) -> Result<Items<InstanceId>, NoMemory>
    ensures { IfOk result (λ list. list ≡ set.now.keys) }
{
    let instances = set.iter().map(|instance| *instance).collect(alloc)?;
    Ok(Items::from_vec(instances))
}

/// The instances of the networks that a network imports.
fn imports_of(
    alloc: Global,
    config: &Config,
    network: &Network,
) -> Result<Items<InstanceId>, NoMemory>
    ensures { IfOk result (λ list. list ≡ imports_of config.now network.now) }
{
    let attached = policies_of(alloc, config, network)?;
    let mut set = BTreeSet::new(alloc);
    for other in config.networks.as_slice() {
        if imports_among(config, &attached, network, other) {
            set.insert(other.id)?;
        }
    }
    instances_of(alloc, &set)
}

/// Puts an object.
fn put_object(object: LowObject, low: &mut Objects) -> Result<(), NoMemory>
    ensures { OnOk result (low.new.entries ≡ insert_entry low_key_cmp low.old.entries object.0 object.1) }
{
    low.insert(object.0, object.1)?;
    Ok(())
}

/// Puts the instance of each network.
fn put_instances(alloc: Global, config: &Config, low: &mut Objects) -> Result<(), NoMemory>
    ensures { OnOk result (low.new.entries
        ≡ with_objects low.old.entries (map (instance_object config.now) config.now.networks)) }
{
    for network in config.networks.as_slice() {
        let imports = imports_of(alloc, config, network)?;
        low.insert(
            LowKey::Instance(network.id.0),
            LowValue::Instance { imports },
        )?;
    }
    Ok(())
}

/// A port, in the instance of its network and at its node.
#[tactic(auto, unfolding(config_types::specs::Form::has_port_form))]
fn port_object(topology: &Topology, config: &Config, port: &Port) -> Option<LowObject>
    requires { IsTrue (has_port_form port.now) }
    ensures { result ≡ port_object topology.now config.now port.now }
{
    let network = network_named(config, &port.network)?;
    let node = node_named(topology, &port.node)?;
    let key = LowKey::Attach(port_label(port.id).0);
    let value = LowValue::AttachPort {
        port: port.id,
        instance: network.id,
        address: port.address,
        node: node.address,
    };
    Some((key, value))
}

/// Puts the attachment of each port.
fn put_ports(topology: &Topology, config: &Config, low: &mut Objects) -> Result<(), NoMemory>
    requires { IsTrue (list_all has_port_form config.now.ports) }
    ensures { OnOk result (low.new.entries
        ≡ with_objects low.old.entries (filter_map (port_object topology.now config.now) config.now.ports)) }
{
    for port in config.ports.as_slice() {
        if let Some(object) = port_object(topology, config, port) {
            put_object(object, low)?;
        }
    }
    Ok(())
}

/// A circuit, at the node of its service.
fn circuit_object(topology: &Topology, circuit: &Attachment) -> Option<LowObject>
    ensures { result ≡ circuit_object topology.now (circuit_of circuit.now) }
{
    let node = node_named(topology, &circuit.service.node)?;
    let key = LowKey::Attach(circuit_label(circuit.number).0);
    let value = LowValue::AttachCircuit {
        circuit: circuit.number,
        service: circuit.service.id,
        node: node.address,
    };
    Some((key, value))
}

/// Puts the attachments of circuits.
fn put_circuits(
    topology: &Topology,
    circuits: &[Attachment],
    low: &mut Objects,
) -> Result<(), NoMemory>
    ensures { OnOk result (low.new.entries
        ≡ with_objects low.old.entries (filter_map (circuit_object topology.now) (map circuit_of circuits.now))) }
{
    for circuit in circuits {
        if let Some(object) = circuit_object(topology, circuit) {
            put_object(object, low)?;
        }
    }
    Ok(())
}

/// Puts the attachments of the circuits of a use.
fn put_use_circuits(
    topology: &Topology,
    found: &ChainUse,
    low: &mut Objects,
) -> Result<(), NoMemory>
    ensures { OnOk result (low.new.entries
        ≡ with_objects low.old.entries (circuit_objects topology.now (use_of found.now))) }
{
    put_circuits(topology, found.left_circuits.as_slice(), low)?;
    put_circuits(topology, found.right_circuits.as_slice(), low)?;
    Ok(())
}

/// Puts the attachments of the circuits of each use.
fn put_all_circuits(
    topology: &Topology,
    chain_uses: &[ChainUse],
    low: &mut Objects,
) -> Result<(), NoMemory>
    ensures { OnOk result (low.new.entries
        ≡ with_objects low.old.entries (flat_map (circuit_objects topology.now) (map use_of chain_uses.now))) }
{
    for found in chain_uses {
        put_use_circuits(topology, found, low)?;
    }
    Ok(())
}

/// Whether a network is another, or related to it, by the policies that it attaches.
fn is_around(config: &Config, attached: &Config, network: &Network, other: &Network) -> bool
    requires { attached.now.policies ≡ filter (attaches network.now) config.now.policies }
    ensures { result ≡ (same_name other.now.name network.now.name || are_related config.now network.now other.now) }
{
    other.name == network.name || are_related_among(config, attached, network, other)
}

/// Puts the access list of a network towards another, where that is the same or related to it.
fn put_acl(
    alloc: Global,
    config: &Config,
    attached: &Config,
    from: &Network,
    to: &Network,
    low: &mut Objects,
) -> Result<(), NoMemory>
    requires sound { IsSound config.now }
    requires attached { attached.now.policies ≡ filter (attaches from.now) config.now.policies }
    ensures { OnOk result (low.new.entries
        ≡ with_objects low.old.entries (acl_towards config.now from.now to.now)) }
{
    if !is_around(config, attached, from, to) {
        return Ok(());
    }
    let key = LowKey::Acl {
        from: from.id.0,
        to: to.id.0,
    };
    let value = acl_between(alloc, config, from, to)?;
    put_object((key, value), low)
}

/// Puts the access lists of a network: towards itself, and towards each that is related to it.
fn put_acls(
    alloc: Global,
    config: &Config,
    from: &Network,
    low: &mut Objects,
) -> Result<(), NoMemory>
    requires { IsSound config.now }
    ensures { OnOk result (low.new.entries
        ≡ with_objects low.old.entries (flat_map (acl_towards config.now from.now) config.now.networks)) }
{
    let attached = policies_of(alloc, config, from)?;
    for to in config.networks.as_slice() {
        put_acl(alloc, config, &attached, from, to, low)?;
    }
    Ok(())
}

/// Puts the access lists of every network.
fn put_all_acls(alloc: Global, config: &Config, low: &mut Objects) -> Result<(), NoMemory>
    requires { IsSound config.now }
    ensures { OnOk result (low.new.entries
        ≡ with_objects low.old.entries (flat_map (acl_objects config.now) config.now.networks)) }
{
    for network in config.networks.as_slice() {
        put_acls(alloc, config, network, low)?;
    }
    Ok(())
}

/// A service, with the address of its node.
fn hop_of(topology: &Topology, service: &Service) -> Option<(ServiceNo, Addr)>
    ensures { result ≡ hop_of topology.now service.now }
{
    let node = node_named(topology, &service.node)?;
    Some((service.id, node.address))
}

/// The services of a use, each with the address of its node.
fn hops_of(
    alloc: Global,
    topology: &Topology,
    services: &[Service],
) -> Result<Items<(ServiceNo, Addr)>, NoMemory>
    ensures { IfOk result (λ list. list ≡ filter_map (hop_of topology.now) services.now) }
{
    let mut hops = Items::new(alloc);
    for service in services {
        if let Some(hop) = hop_of(topology, service) {
            hops.push(hop)?;
        }
    }
    Ok(hops)
}

/// A use of a chain, with its networks' subnets and its services.
fn use_value(alloc: Global, topology: &Topology, found: &ChainUse) -> Result<LowValue, NoMemory>
    ensures { IfOk result (λ value. value ≡ (use_object topology.now (use_of found.now)).1) }
{
    Ok(LowValue::ChainUse {
        left: found.left.id,
        right: found.right.id,
        left_prefixes: ascending(alloc, found.left.subnets.as_slice())?,
        right_prefixes: ascending(alloc, found.right.subnets.as_slice())?,
        hops: hops_of(alloc, topology, found.services.as_slice())?,
    })
}

/// Puts each use.
fn put_uses(
    alloc: Global,
    topology: &Topology,
    chain_uses: &[ChainUse],
    low: &mut Objects,
) -> Result<(), NoMemory>
    ensures { OnOk result (low.new.entries
        ≡ with_objects low.old.entries (map (use_object topology.now) (map use_of chain_uses.now))) }
{
    for found in chain_uses {
        let value = use_value(alloc, topology, found)?;
        low.insert(LowKey::ChainUse(found.number), value)?;
    }
    Ok(())
}

/// The low-level objects of a configuration, by their keys.
#[tactic(auto, using(crate::proofs::Formed::ports_formed))]
pub(crate) fn objects_of(
    alloc: Global,
    topology: &Topology,
    config: &Config,
    chain_uses: &[ChainUse],
) -> Result<Objects, NoMemory>
    requires sound { IsSound config.now }
    requires uses { map use_of chain_uses.now ≡ uses config.now }
    ensures { IfOk result (λ low. low.entries ≡ low_objects topology.now config.now) }
{
    let mut low = BTreeMap::new(alloc);
    put_instances(alloc, config, &mut low)?;
    put_ports(topology, config, &mut low)?;
    put_all_circuits(topology, chain_uses, &mut low)?;
    put_all_acls(alloc, config, &mut low)?;
    put_uses(alloc, topology, chain_uses, &mut low)?;
    Ok(low)
}
