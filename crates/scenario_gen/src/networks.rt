//! The networks: four of each tenant.
ghost use Rattle.std.specs.Prelude.{◌≡◌, ◌<◌, IfOk};
ghost use Rattle.scenario_gen.specs.Networks.{subnet, network_of, web_network, application_network};
ghost use Rattle.scenario_gen.specs.Networks.{database_network, management_network, networks_of};

use crate::listing::OfTenant;
use crate::naming::{address, numbered};
use config_types::Network;
use ov_types::{InstanceId, Items, Name, NoMemory, Prefix};
use std::alloc::Global;

/// The subnet of the network at a place among the four of its tenant.
fn subnet(place: u8) -> Prefix
    requires { place < 4 }
    ensures { result ≡ subnet place }
{
    match Prefix::new(address(10, place, 0, 0), 24) {
        Some(prefix) => prefix,
        None => unreachable!(),
    }
}

/// The network of a name and a number, at a place among the four of its tenant.
fn network_of(
    alloc: Global,
    name: Name,
    number: u16,
    place: u8,
    policies: Vec<Name>,
) -> Result<Network, NoMemory>
    requires { place < 4 }
    ensures { IfOk result (λ x. x ≡ network_of name number place policies.items) }
{
    let subnets = vec![in alloc; subnet(place)]?;
    Ok(Network {
        name,
        id: InstanceId(number),
        subnets: Items::from_vec(subnets),
        policies: Items::from_vec(policies),
    })
}

/// The network of a tenant's web servers.
fn web_network(alloc: Global, tenant: u16) -> Result<Network, NoMemory>
    requires { tenant < 16 }
    ensures { IfOk result (λ x. x ≡ web_network tenant) }
{
    let name = numbered(alloc, "w", tenant)?;
    let front = numbered(alloc, "pf", tenant)?;
    let management = numbered(alloc, "pm", tenant)?;
    let policies = vec![in alloc; front, management]?;
    network_of(alloc, name, 4 * tenant + 1, 0, policies)
}

/// The network of its applications.
fn application_network(alloc: Global, tenant: u16) -> Result<Network, NoMemory>
    requires { tenant < 16 }
    ensures { IfOk result (λ x. x ≡ application_network tenant) }
{
    let name = numbered(alloc, "a", tenant)?;
    let front = numbered(alloc, "pf", tenant)?;
    let back = numbered(alloc, "pb", tenant)?;
    let management = numbered(alloc, "pm", tenant)?;
    let policies = vec![in alloc; front, back, management]?;
    network_of(alloc, name, 4 * tenant + 2, 1, policies)
}

/// The network of its databases.
fn database_network(alloc: Global, tenant: u16) -> Result<Network, NoMemory>
    requires { tenant < 16 }
    ensures { IfOk result (λ x. x ≡ database_network tenant) }
{
    let name = numbered(alloc, "d", tenant)?;
    let back = numbered(alloc, "pb", tenant)?;
    let management = numbered(alloc, "pm", tenant)?;
    let policies = vec![in alloc; back, management]?;
    network_of(alloc, name, 4 * tenant + 3, 2, policies)
}

/// The network of its management.
fn management_network(alloc: Global, tenant: u16) -> Result<Network, NoMemory>
    requires { tenant < 16 }
    ensures { IfOk result (λ x. x ≡ management_network tenant) }
{
    let name = numbered(alloc, "m", tenant)?;
    let management = numbered(alloc, "pm", tenant)?;
    let policies = vec![in alloc; management]?;
    network_of(alloc, name, 4 * tenant + 4, 3, policies)
}

impl OfTenant for Network {
    ghost of_tenant = { λ n t. networks_of t };

    #[tactic(auto, unfolding(crate::specs::Networks::networks_of))]
    fn append_to(
        items: &mut Items<Self>,
        alloc: Global,
        _scenario: u16,
        tenant: u16,
    ) -> Result<(), NoMemory> {
        items.push(web_network(alloc, tenant)?)?;
        items.push(application_network(alloc, tenant)?)?;
        items.push(database_network(alloc, tenant)?)?;
        items.push(management_network(alloc, tenant)?)
    }
}
