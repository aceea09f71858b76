//! Reading configurations.
ghost use Rattle.std.specs.Prelude.{[], IsTrue, Result, IfOk};
ghost use Rattle.serde_json.specs.View.{view};
ghost use Rattle.config_model.specs.Faults.{Gives};
ghost use Rattle.config_types.specs.Form.{has_network_form, has_port_form, has_policy_form, has_service_form};
ghost use Rattle.config_types.specs.Form.{has_chain_form, has_config_form};
ghost use Rattle.config_model.specs.Config.{network_at, port_at, policy_at, service_at, chain_at, config_at};

use crate::bounds::{LAST_NETWORK, LAST_PORT, LAST_SEQUENCE, LAST_SERVICE};
use crate::fault::{DocumentPlace, ReadRefusal};
use crate::fields::{
    Count, FromDocument, check_others, list_member, object_of, optional_list_member, read_member,
    whole_member,
};
use crate::values::{address_member, name_but_member};
use config_types::{Chain, Config, Network, Policy, Port, Rule, Service};
use ov_types::{InstanceId, Name, PortNo, Prefix, ServiceNo};
use serde_json::Value;
use std::alloc::Global;

impl FromDocument for Network {
    ghost reads = { network_at };

    ghost has_form = { has_network_form };

    #[tactic(auto, unfolding(crate::specs::Config::network_at, config_types::specs::Form::has_network_form))]
    fn read(alloc: Global, place: &DocumentPlace<'_>, value: &Value) -> Result<Self, ReadRefusal> {
        let members = object_of(alloc, place, value)?;
        let name = name_but_member(alloc, place, "name", "any", value)?;
        let id = whole_member(alloc, place, "id", 1, LAST_NETWORK, value)?;
        let subnets = list_member::<Prefix>(alloc, place, "subnets", Count::AnyNumber, value)?;
        let policies = optional_list_member::<Name>(alloc, place, "policies", value)?;
        check_others(
            alloc,
            place,
            &["name", "id", "subnets", "policies"],
            members,
        )?;
        Ok(Network {
            name,
            id: InstanceId(id as u16),
            subnets,
            policies,
        })
    }
}

impl FromDocument for Port {
    ghost reads = { port_at };

    ghost has_form = { has_port_form };

    #[tactic(auto, unfolding(crate::specs::Config::port_at, config_types::specs::Form::has_port_form))]
    fn read(alloc: Global, place: &DocumentPlace<'_>, value: &Value) -> Result<Self, ReadRefusal> {
        let members = object_of(alloc, place, value)?;
        let name = read_member::<Name>(alloc, place, "name", value)?;
        let id = whole_member(alloc, place, "id", 0, LAST_PORT, value)?;
        let network = read_member::<Name>(alloc, place, "network", value)?;
        let address = address_member(alloc, place, "address", 0, u32::MAX, value)?;
        let node = read_member::<Name>(alloc, place, "node", value)?;
        check_others(
            alloc,
            place,
            &["name", "id", "network", "address", "node"],
            members,
        )?;
        Ok(Port {
            name,
            id: PortNo(id as u32),
            network,
            address,
            node,
        })
    }
}

impl FromDocument for Policy {
    ghost reads = { policy_at };

    ghost has_form = { has_policy_form };

    #[tactic(auto, unfolding(crate::specs::Config::policy_at, config_types::specs::Form::has_policy_form))]
    fn read(alloc: Global, place: &DocumentPlace<'_>, value: &Value) -> Result<Self, ReadRefusal> {
        let members = object_of(alloc, place, value)?;
        let name = read_member::<Name>(alloc, place, "name", value)?;
        let sequence = whole_member(alloc, place, "sequence", 0, LAST_SEQUENCE, value)?;
        let rules = list_member::<Rule>(alloc, place, "rules", Count::AnyNumber, value)?;
        check_others(alloc, place, &["name", "sequence", "rules"], members)?;
        Ok(Policy {
            name,
            sequence: sequence as u16,
            rules,
        })
    }
}

impl FromDocument for Service {
    ghost reads = { service_at };

    ghost has_form = { has_service_form };

    #[tactic(auto, unfolding(crate::specs::Config::service_at, config_types::specs::Form::has_service_form))]
    fn read(alloc: Global, place: &DocumentPlace<'_>, value: &Value) -> Result<Self, ReadRefusal> {
        let members = object_of(alloc, place, value)?;
        let name = read_member::<Name>(alloc, place, "name", value)?;
        let id = whole_member(alloc, place, "id", 0, LAST_SERVICE, value)?;
        let node = read_member::<Name>(alloc, place, "node", value)?;
        check_others(alloc, place, &["name", "id", "node"], members)?;
        Ok(Service {
            name,
            id: ServiceNo(id as u16),
            node,
        })
    }
}

impl FromDocument for Chain {
    ghost reads = { chain_at };

    ghost has_form = { has_chain_form };

    #[tactic(auto, unfolding(crate::specs::Config::chain_at, config_types::specs::Form::has_chain_form))]
    fn read(alloc: Global, place: &DocumentPlace<'_>, value: &Value) -> Result<Self, ReadRefusal> {
        let members = object_of(alloc, place, value)?;
        let name = read_member::<Name>(alloc, place, "name", value)?;
        let hops = list_member::<Name>(alloc, place, "hops", Count::AtLeastOne, value)?;
        check_others(alloc, place, &["name", "hops"], members)?;
        Ok(Chain { name, hops })
    }
}

impl FromDocument for Config {
    ghost reads = { config_at };

    ghost has_form = { has_config_form };

    #[tactic(auto, unfolding(crate::specs::Config::config_at, config_types::specs::Form::has_config_form))]
    fn read(alloc: Global, place: &DocumentPlace<'_>, value: &Value) -> Result<Self, ReadRefusal> {
        let members = object_of(alloc, place, value)?;
        let networks = optional_list_member::<Network>(alloc, place, "networks", value)?;
        let ports = optional_list_member::<Port>(alloc, place, "ports", value)?;
        let policies = optional_list_member::<Policy>(alloc, place, "policies", value)?;
        let services = optional_list_member::<Service>(alloc, place, "services", value)?;
        let chains = optional_list_member::<Chain>(alloc, place, "chains", value)?;
        check_others(
            alloc,
            place,
            &["networks", "ports", "policies", "services", "chains"],
            members,
        )?;
        Ok(Config {
            networks,
            ports,
            policies,
            services,
            chains,
        })
    }
}

/// The configuration that a value writes: `networks`, `ports`, `policies`, `services` and `chains`, each a list that
/// may be absent. Paths begin at the value.
pub fn read_config(alloc: Global, value: &Value) -> Result<Config, ReadRefusal>
    ensures reads { Gives (λ c. c) result (config_at [] (view value.now)) }
    ensures form { IfOk result (λ c. IsTrue (has_config_form c)) }
{
    Config::read(alloc, &DocumentPlace::Whole, value)
}
