//! The ports: sixteen of each network.
ghost use Rattle.std.specs.Prelude.{◌≡◌, ◌≤◌, ◌<◌, IfOk};
ghost use Rattle.scenario_gen.specs.Ports.{networks_count, ports_count, network_at, network_after, port};

use crate::listing::Numbered;
use crate::naming::{address, node_at, numbered};
use crate::tenancy::tenants;
use config_types::Port;
use ov_types::{Name, NoMemory, PortNo};
use std::alloc::Global;

/// How many networks the scenario has.
pub(crate) fn networks_count(scenario: u16) -> u16
    requires { 1 ≤ scenario }
    ensures count { result ≡ networks_count scenario }
    ensures some { 0 < result }
{
    4 * tenants(scenario)
}

/// How many ports the scenario has.
pub(crate) fn ports_count(scenario: u16) -> u16
    requires { 1 ≤ scenario }
    ensures count { result ≡ ports_count scenario }
    ensures some { 0 < result }
    ensures few { result ≤ 1024 }
{
    64 * tenants(scenario)
}

/// The name of the network at a place among the four of a tenant.
fn network_at(alloc: Global, tenant: u16, place: u16) -> Result<Name, NoMemory>
    ensures { IfOk result (λ name. name ≡ network_at tenant place) }
{
    match place {
        0 => numbered(alloc, "w", tenant),
        1 => numbered(alloc, "a", tenant),
        2 => numbered(alloc, "d", tenant),
        _ => numbered(alloc, "m", tenant),
    }
}

/// The name of the network that is next after so many others.
fn network_after(alloc: Global, count: u16) -> Result<Name, NoMemory>
    ensures { IfOk result (λ name. name ≡ network_after count) }
{
    network_at(alloc, count / 4, count % 4)
}

impl Numbered for Port {
    ghost by_number = { port };

    #[tactic(auto, unfolding(crate::specs::Ports::port))]
    fn numbered(alloc: Global, scenario: u16, number: u16) -> Result<Self, NoMemory> {
        let networks = networks_count(scenario);
        let place = (number % 4) as u8;
        Ok(Port {
            name: numbered(alloc, "v", number)?,
            id: PortNo(u32::from(number)),
            network: network_after(alloc, number % networks)?,
            address: address(10, place, 0, 1 + number / networks),
            node: node_at(alloc, 7 * number + scenario)?,
        })
    }
}
