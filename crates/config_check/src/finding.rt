//! What finds an object by its name, its number or its address.
ghost use Rattle.std.specs.Prelude.{◌≡◌, option_copied, IsSome, Some};
ghost use Rattle.config_check.specs.Finding.{network_named, network_numbered, port_numbered, port_at, node_named};

use config_types::{Config, Network, Node, Port, Topology};
use ov_types::{Addr, InstanceId, Name, PortNo};

/// The first network of a name.
pub fn network_named<'a>(config: &'a Config, name: &Name) -> Option<&'a Network>
    ensures { option_copied result ≡ network_named config.now name.now }
{
    config.networks.as_slice().iter().find(|n| n.name == *name)
}

/// The first network of a number.
pub fn network_numbered<'a>(config: &'a Config, number: InstanceId) -> Option<&'a Network>
    ensures { option_copied result ≡ network_numbered config.now number.0 }
{
    config
        .networks
        .as_slice()
        .iter()
        .find(|n| n.id.0 == number.0)
}

/// The first network of a number that is a network's.
pub fn known_network<'a>(config: &'a Config, number: InstanceId) -> &'a Network
    requires { IsSome (network_numbered config.now number.0) }
    ensures { network_numbered config.now number.0 ≡ Some result.now }
{
    match network_numbered(config, number) {
        Some(network) => network,
        None => unreachable!(),
    }
}

/// The first port of a number.
pub fn port_numbered<'a>(config: &'a Config, number: PortNo) -> Option<&'a Port>
    ensures { option_copied result ≡ port_numbered config.now number.0 }
{
    config.ports.as_slice().iter().find(|p| p.id.0 == number.0)
}

/// The first port of a network at an address.
pub fn port_at<'a>(config: &'a Config, network: &Network, address: Addr) -> Option<&'a Port>
    ensures { option_copied result ≡ port_at config.now network.now address.0 }
{
    config
        .ports
        .as_slice()
        .iter()
        .find(|p| p.network == network.name && p.address.0 == address.0)
}

/// The first compute node of a name.
pub fn node_named<'a>(topology: &'a Topology, name: &Name) -> Option<&'a Node>
    ensures { option_copied result ≡ node_named topology.now name.now }
{
    topology.nodes.as_slice().iter().find(|n| n.name == *name)
}
