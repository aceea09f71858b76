//! The services, two of each tenant, and the chains of them.
ghost use Rattle.scenario_gen.specs.Services.{services_of, chain};

use crate::listing::{Numbered, OfTenant};
use crate::naming::{node_at, numbered};
use config_types::{Chain, Service};
use ov_types::{Items, NoMemory, ServiceNo};
use std::alloc::Global;

impl OfTenant for Service {
    ghost of_tenant = { services_of };

    #[tactic(auto, unfolding(crate::specs::Services::services_of))]
    fn append_to(
        items: &mut Items<Self>,
        alloc: Global,
        scenario: u16,
        tenant: u16,
    ) -> Result<(), NoMemory> {
        items.push(Service {
            name: numbered(alloc, "f", tenant)?,
            id: ServiceNo(2 * tenant + 1),
            node: node_at(alloc, 3 * tenant + scenario)?,
        })?;
        items.push(Service {
            name: numbered(alloc, "l", tenant)?,
            id: ServiceNo(2 * tenant + 2),
            node: node_at(alloc, 3 * tenant + scenario + 1)?,
        })
    }
}

impl Numbered for Chain {
    ghost by_number = { λ n t. chain t };

    #[tactic(auto, unfolding(crate::specs::Services::chain))]
    fn numbered(alloc: Global, _scenario: u16, number: u16) -> Result<Self, NoMemory> {
        let name = numbered(alloc, "k", number)?;
        let firewall = numbered(alloc, "f", number)?;
        let balancer = numbered(alloc, "l", number)?;
        let hops = Items::from_vec(vec![in alloc; firewall, balancer]?);
        Ok(Chain { name, hops })
    }
}
