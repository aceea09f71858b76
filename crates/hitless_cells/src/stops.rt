//! The services of a chain, each with its compute node.
ghost use Rattle.std.specs.Prelude.{◌≡◌, ◌++◌, option_copied, IfOk, OnOk, flat_map};
ghost use Rattle.reach_plain.specs.Outcomes.{numbers_of};
ghost use Rattle.hitless_cells.specs.Openings.{service_node, service_numbered, stops_at, stops_of};

use chain_expand::{MOST_SERVICES, expand_straight};
use config_check::{Valid, node_named};
use config_types::{Config, Node, Service};
use ov_types::{Items, Name, NoMemory, ServiceNo, Services};
use std::alloc::{AllocError, Global};

/// A service, with its compute node.
#[derive(Drop)]
pub struct Stop {
    pub service: ServiceNo,
    pub node: Node,
}

/// The numbers of a chain's services.
#[tactic(auto, using(reach_plain::proofs::Kept::short_chains))]
fn numbers_of(valid: &Valid, chain: &Name) -> Services<MOST_SERVICES>
    ensures { result ≡ numbers_of valid.now.config chain.now }
{
    match expand_straight(valid.config(), chain) {
        Ok(services) => services,
        Err(_) => unreachable!(),
    }
}

/// The service of a number.
fn service_numbered<'a>(config: &'a Config, number: ServiceNo) -> Option<&'a Service>
    ensures { option_copied result ≡ service_numbered config.now number.0 }
{
    config
        .services
        .as_slice()
        .iter()
        .find(|s| s.id.0 == number.0)
}

/// The compute node of a service.
fn service_node<'a>(valid: &'a Valid, number: ServiceNo) -> Option<&'a Node>
    ensures { option_copied result ≡ service_node valid.now number }
{
    let Some(service) = service_numbered(valid.config(), number) else {
        return None;
    };
    node_named(valid.topology(), &service.node)
}

fn copied_node(node: &Node) -> Result<Node, AllocError>
    ensures { IfOk result (λ n. n ≡ node.now) }
{
    node.clone()
}

fn push_stop(stops: &mut Vec<Stop>, valid: &Valid, number: ServiceNo) -> Result<(), NoMemory>
    ensures { OnOk result (stops.new.items ≡ stops.old.items ++ stops_at valid.now number) }
{
    if let Some(node) = service_node(valid, number) {
        let node = copied_node(node)?;
        stops.push(Stop {
            service: number,
            node,
        })?;
    }
    Ok(())
}

fn push_stops(stops: &mut Vec<Stop>, valid: &Valid, numbers: &[ServiceNo]) -> Result<(), NoMemory>
    ensures { OnOk result (stops.new.items ≡ stops.old.items ++ flat_map (stops_at valid.now) numbers.now) }
{
    for number in numbers {
        push_stop(stops, valid, *number)?;
    }
    Ok(())
}

/// The services of a chain in order, each with its compute node.
pub(crate) fn stops_of(alloc: Global, valid: &Valid, chain: &Name) -> Result<Items<Stop>, NoMemory>
    ensures { IfOk result (λ list. list ≡ stops_of valid.now chain.now) }
{
    let numbers = numbers_of(valid, chain);
    let mut stops = Vec::new(alloc);
    push_stops(&mut stops, valid, numbers.as_slice())?;
    Ok(Items::from_vec(stops))
}
