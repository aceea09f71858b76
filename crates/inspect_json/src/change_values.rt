//! The JSON values of what differs between two configurations.
ghost use Rattle.std.specs.Prelude.{◌≡◌, IfOk};
ghost use Rattle.serde_json.specs.Data.{string};
ghost use Rattle.serde_json.specs.View.{view};
ghost use Rattle.ov_types.specs.Texts.{address_text, prefix_text};
ghost use Rattle.inspect_json.specs.ChangeValues.{came_value, difference_value, fate_rule, fate_services, fate_value, fate_word};
ghost use Rattle.inspect_json.specs.ChangeValues.{network_value, object_value, port_name, port_value, service_object_value};
ghost use Rattle.inspect_json.specs.ChangeValues.{subnet_value, went_value};
ghost use Rattle.inspect_json.specs.Values.{list_value, service_value};

use crate::values::{name_value, range_value, rule_value, service_name, services_value};
use config_types::Config;
use inspect_changes::{Difference, Fate, Object};
use ov_types::{Addr, Name, PortNo, Prefix, ServiceNo};
use serde_json::{Value, json};
use std::alloc::{AllocError, Global};

/// The name of the first port of a number.
pub(crate) fn port_name(config: &Config, number: u32) -> Option<Name>
    ensures { result ≡ port_name config.now number }
{
    let ports = config.ports.as_slice();
    match ports.iter().find(|p| p.id.0 == number) {
        Some(port) => Some(port.name),
        None => None,
    }
}

pub(crate) fn address_value(alloc: Global, address: Addr) -> Result<Value, AllocError>
    ensures { IfOk result (λ v. view v ≡ string (address_text address.0)) }
{
    Ok(Value::String(format!(in alloc; "{address}")?))
}

pub(crate) fn prefix_value(alloc: Global, prefix: Prefix) -> Result<Value, AllocError>
    ensures { IfOk result (λ v. view v ≡ string (prefix_text prefix)) }
{
    Ok(Value::String(format!(in alloc; "{prefix}")?))
}

#[tactic(auto, unfolding(crate::specs::ChangeValues::network_value))]
pub(crate) fn network_value(alloc: Global, name: &Name) -> Result<Value, AllocError>
    ensures { IfOk result (λ v. view v ≡ network_value name.now) }
{
    let name = name.text();
    json!(in alloc; {"kind": "network", "name": name})
}

#[tactic(auto, unfolding(crate::specs::ChangeValues::subnet_value))]
fn subnet_value(alloc: Global, network: &Name, prefix: Prefix) -> Result<Value, AllocError>
    ensures { IfOk result (λ v. view v ≡ subnet_value network.now (prefix_text prefix)) }
{
    let prefix = prefix_value(alloc, prefix)?;
    let network = network.text();
    json!(in alloc; {"kind": "subnet", "network": network, "prefix": prefix})
}

/// A port of a configuration, of this number, network, address and node.
#[tactic(auto, unfolding(crate::specs::ChangeValues::port_value))]
fn port_value(
    alloc: Global,
    config: &Config,
    number: PortNo,
    network: &Name,
    address: Addr,
    node: &Name,
) -> Result<Value, AllocError>
    ensures { IfOk result (λ v. view v ≡ port_value config.now number.0 network.now (address_text address.0) node.now) }
{
    let name = name_value(alloc, port_name(config, number.0))?;
    let address = address_value(alloc, address)?;
    let network = network.text();
    let node = node.text();
    json!(in alloc; {
        "address": address,
        "id": (number.0),
        "kind": "port",
        "name": name,
        "network": network,
        "node": node
    })
}

/// A service of a configuration, of this number and node.
#[tactic(auto, unfolding(crate::specs::ChangeValues::service_object_value))]
fn service_object_value(
    alloc: Global,
    config: &Config,
    number: ServiceNo,
    node: &Name,
) -> Result<Value, AllocError>
    ensures { IfOk result (λ v. view v ≡ service_object_value config.now number.0 node.now) }
{
    let name = name_value(alloc, service_name(config, number.0))?;
    let node = node.text();
    json!(in alloc; {"id": (number.0), "kind": "service", "name": name, "node": node})
}

/// An object of a configuration.
fn object_value(alloc: Global, config: &Config, object: &Object) -> Result<Value, AllocError>
    ensures { IfOk result (λ v. view v ≡ object_value config.now object.now) }
{
    match object {
        Object::Network { name } => network_value(alloc, name),
        Object::Subnet { network, prefix } => subnet_value(alloc, network, *prefix),
        Object::Port {
            number,
            network,
            address,
            node,
        } => port_value(alloc, config, *number, network, *address, node),
        Object::Service { number, node } => service_object_value(alloc, config, *number, node),
    }
}

/// An object that went.
#[tactic(auto, unfolding(crate::specs::ChangeValues::went_value))]
pub(crate) fn went_value(
    alloc: Global,
    config: &Config,
    object: &Object,
) -> Result<Value, AllocError>
    ensures { IfOk result (λ v. view v ≡ went_value config.now object.now) }
{
    let object = object_value(alloc, config, object)?;
    json!(in alloc; {"went": object})
}

/// An object that came.
#[tactic(auto, unfolding(crate::specs::ChangeValues::came_value))]
pub(crate) fn came_value(
    alloc: Global,
    config: &Config,
    object: &Object,
) -> Result<Value, AllocError>
    ensures { IfOk result (λ v. view v ≡ came_value config.now object.now) }
{
    let object = object_value(alloc, config, object)?;
    json!(in alloc; {"came": object})
}

/// The word of what becomes of packets.
fn fate_word(fate: &Fate) -> &'static str
    ensures { result.now ≡ fate_word fate.now }
{
    match fate {
        Fate::Passed { .. } => "passed",
        Fate::Through { .. } => "through",
        Fate::Denied { .. } => "denied",
        Fate::Unmatched => "denied",
    }
}

/// The rule that decides, and `null` where none does.
fn fate_rule(alloc: Global, config: &Config, fate: &Fate) -> Result<Value, AllocError>
    ensures { IfOk result (λ v. view v ≡ fate_rule config.now fate.now) }
{
    match fate {
        Fate::Passed { rule } => rule_value(alloc, config, *rule),
        Fate::Through { rule, .. } => rule_value(alloc, config, *rule),
        Fate::Denied { rule } => rule_value(alloc, config, *rule),
        Fate::Unmatched => Ok(Value::Null),
    }
}

fn fate_services(alloc: Global, config: &Config, fate: &Fate) -> Result<Value, AllocError>
    ensures { IfOk result (λ v. view v ≡ list_value (service_value config.now) (fate_services fate.now)) }
{
    match fate {
        Fate::Through { services, .. } => services_value(alloc, config, services.as_slice()),
        _ => Ok(Value::Array(Vec::new(alloc))),
    }
}

/// What becomes of packets in a configuration.
#[tactic(auto, unfolding(crate::specs::ChangeValues::fate_value))]
fn fate_value(alloc: Global, config: &Config, fate: &Fate) -> Result<Value, AllocError>
    ensures { IfOk result (λ v. view v ≡ fate_value config.now fate.now) }
{
    let rule = fate_rule(alloc, config, fate)?;
    let services = fate_services(alloc, config, fate)?;
    let word = fate_word(fate);
    json!(in alloc; {"fate": word, "rule": rule, "services": services})
}

/// A difference between two configurations.
#[tactic(auto, unfolding(crate::specs::ChangeValues::difference_value))]
pub(crate) fn difference_value(
    alloc: Global,
    before: &Config,
    after: &Config,
    difference: &Difference,
) -> Result<Value, AllocError>
    ensures { IfOk result (λ v. view v ≡ difference_value before.now after.now difference.now) }
{
    let was = fate_value(alloc, before, &difference.was)?;
    let becomes = fate_value(alloc, after, &difference.becomes)?;
    let protocols = range_value(alloc, difference.region.protocols)?;
    let source_ports = range_value(alloc, difference.region.source_ports)?;
    let destination_ports = range_value(alloc, difference.region.destination_ports)?;
    let from = difference.from.text();
    let to = difference.to.text();
    json!(in alloc; {
        "becomes": becomes,
        "destination_ports": destination_ports,
        "from": from,
        "protocols": protocols,
        "source_ports": source_ports,
        "to": to,
        "was": was
    })
}
