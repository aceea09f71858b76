//! Objects of a configuration that another does not have.
ghost use Rattle.std.specs.Prelude.{◌≡◌, ◌++◌, ◌∷◌, [], filter, flat_map, map, not, IfOk, OnOk};
ghost use Rattle.std.specs.List.{list_any};
ghost use Rattle.inspect_changes.specs.Objects.{gone, network_of, objects_of, port_of, same_block, same_object, service_of, subnet_of};
ghost use Rattle.inspect_changes.specs.Objects.{subnets_of};

use config_types::{Config, Network, Port, Service};
use ov_types::{Addr, Name, NoMemory, PortNo, Prefix, ServiceNo};
use std::alloc::Global;

/// What a configuration has beside its policies and chains, as far as packets and their ways can tell it.
#[derive(Clone, Copy, Debug)]
pub enum Object {
    Network {
        name: Name,
    },
    Subnet {
        network: Name,
        prefix: Prefix,
    },
    Port {
        number: PortNo,
        network: Name,
        address: Addr,
        node: Name,
    },
    Service {
        number: ServiceNo,
        node: Name,
    },
}

fn is_same_block(prefix: &Prefix, other: &Prefix) -> bool
    ensures { result ≡ same_block prefix.now other.now }
{
    prefix.addr().0 == other.addr().0 && prefix.len() == other.len()
}

fn is_same_object(object: &Object, other: &Object) -> bool
    ensures { result ≡ same_object object.now other.now }
{
    match (object, other) {
        (Object::Network { name }, Object::Network { name: other }) => name == other,
        (
            Object::Subnet { network, prefix },
            Object::Subnet {
                network: other,
                prefix: block,
            },
        ) => network == other && is_same_block(prefix, block),
        (
            Object::Port {
                number,
                network,
                address,
                node,
            },
            Object::Port {
                number: other,
                network: name,
                address: place,
                node: home,
            },
        ) => (number.0 == other.0 && network == name) && (address.0 == place.0 && node == home),
        (
            Object::Service { number, node },
            Object::Service {
                number: other,
                node: home,
            },
        ) => number.0 == other.0 && node == home,
        _ => false,
    }
}

fn push_network(objects: &mut Vec<Object>, network: &Network) -> Result<(), NoMemory>
    ensures { OnOk result (objects.new.items ≡ objects.old.items ++ (network_of network.now ∷ [])) }
{
    objects.push(Object::Network { name: network.name })?;
    Ok(())
}

fn push_networks(objects: &mut Vec<Object>, networks: &[Network]) -> Result<(), NoMemory>
    ensures { OnOk result (objects.new.items ≡ objects.old.items ++ map network_of networks.now) }
{
    for network in networks {
        push_network(objects, network)?;
    }
    Ok(())
}

fn push_subnets(
    objects: &mut Vec<Object>,
    network: &Name,
    subnets: &[Prefix],
) -> Result<(), NoMemory>
    ensures { OnOk result (objects.new.items ≡ objects.old.items ++ map (subnet_of network.now) subnets.now) }
{
    for prefix in subnets {
        objects.push(Object::Subnet {
            network: *network,
            prefix: *prefix,
        })?;
    }
    Ok(())
}

fn push_all_subnets(objects: &mut Vec<Object>, networks: &[Network]) -> Result<(), NoMemory>
    ensures { OnOk result (objects.new.items ≡ objects.old.items ++ flat_map subnets_of networks.now) }
{
    for network in networks {
        push_subnets(objects, &network.name, network.subnets.as_slice())?;
    }
    Ok(())
}

fn push_ports(objects: &mut Vec<Object>, ports: &[Port]) -> Result<(), NoMemory>
    ensures { OnOk result (objects.new.items ≡ objects.old.items ++ map port_of ports.now) }
{
    for port in ports {
        objects.push(Object::Port {
            number: port.id,
            network: port.network,
            address: port.address,
            node: port.node,
        })?;
    }
    Ok(())
}

fn push_services(objects: &mut Vec<Object>, services: &[Service]) -> Result<(), NoMemory>
    ensures { OnOk result (objects.new.items ≡ objects.old.items ++ map service_of services.now) }
{
    for service in services {
        objects.push(Object::Service {
            number: service.id,
            node: service.node,
        })?;
    }
    Ok(())
}

/// The objects of a configuration: its networks, subnets, ports and services, each in the document's order.
fn objects_of(alloc: Global, config: &Config) -> Result<Vec<Object>, NoMemory>
    ensures { IfOk result (λ v. v.items ≡ objects_of config.now) }
{
    let mut objects = Vec::new(alloc);
    push_networks(&mut objects, config.networks.as_slice())?;
    push_all_subnets(&mut objects, config.networks.as_slice())?;
    push_ports(&mut objects, config.ports.as_slice())?;
    push_services(&mut objects, config.services.as_slice())?;
    Ok(objects)
}

fn is_among(object: &Object, others: &[Object]) -> bool
    ensures { result ≡ list_any (same_object object.now) others.now }
{
    others.iter().any(|other| is_same_object(object, other))
}

/// Appends an object that is not among others.
fn push_alone(alone: &mut Vec<Object>, object: &Object, others: &[Object]) -> Result<(), NoMemory>
    ensures { OnOk result (alone.new.items
        ≡ alone.old.items ++ filter (λ o. not (list_any (same_object o) others.now)) (object.now ∷ [])) }
{
    if !is_among(object, others) {
        alone.push(*object)?;
    }
    Ok(())
}

/// The objects that are not among others.
fn without(alloc: Global, objects: &[Object], others: &[Object]) -> Result<Vec<Object>, NoMemory>
    ensures { IfOk result (λ v. v.items ≡ filter (λ o. not (list_any (same_object o) others.now)) objects.now) }
{
    let mut alone = Vec::new(alloc);
    for object in objects {
        push_alone(&mut alone, object, others)?;
    }
    Ok(alone)
}

/// The objects of a configuration that another does not have, or has otherwise.
pub fn gone(alloc: Global, config: &Config, other: &Config) -> Result<Vec<Object>, NoMemory>
    ensures { IfOk result (λ v. v.items ≡ gone config.now other.now) }
{
    let objects = objects_of(alloc, config)?;
    let others = objects_of(alloc, other)?;
    without(alloc, &objects, &others)
}
