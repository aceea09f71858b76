//! The rule of references: each name that is referred to exists.
ghost use Rattle.std.specs.Prelude.{◌≡◌, IfOk};
ghost use Rattle.ov_types.specs.First.{first_of};
ghost use Rattle.config_check.specs.Rules.{missing, missing_end, missing_chain, missing_in_node, missing_in_network};
ghost use Rattle.config_check.specs.Rules.{missing_in_port, missing_in_rule, missing_in_service, missing_in_chain};
ghost use Rattle.config_check.specs.Rules.{broken_reference};
ghost use Rattle.policy_rules.specs.Related.{all_rules};

use crate::asking::first_of;
use crate::known::KnownNames;
use crate::names::{
    chain_names, controller_names, hop_names, network_names, node_names, policy_names,
};
use crate::refusal::Refusal;
use config_types::{Action, Chain, Config, End, Network, Node, Port, Service, Topology};
use ov_types::{Name, NoMemory};
use policy_rules::NumberedRule;
use std::alloc::Global;

/// A refusal where none of the names is the one that is referred to.
fn missing(names: &KnownNames, name: &Name) -> Option<Refusal>
    ensures { result ≡ missing names.now name.now }
{
    if names.has(name) {
        None
    } else {
        Some(Refusal::BadReference { name: *name })
    }
}

fn first_missing(names: &KnownNames, references: &[Name]) -> Option<Refusal>
    ensures { result ≡ first_of (missing names.now) references.now }
{
    first_of(references, |name| missing(names, name))
}

fn missing_end(networks: &KnownNames, end: &End) -> Option<Refusal>
    ensures { result ≡ missing_end networks.now end.now }
{
    match end {
        End::Any => None,
        End::Named(name) => missing(networks, name),
    }
}

fn missing_chain(chains: &KnownNames, action: &Action) -> Option<Refusal>
    ensures { result ≡ missing_chain chains.now action.now }
{
    match action {
        Action::Pass | Action::Deny => None,
        Action::Through { chain, .. } => missing(chains, chain),
    }
}

fn missing_in_port(networks: &KnownNames, nodes: &KnownNames, port: &Port) -> Option<Refusal>
    ensures { result ≡ missing_in_port networks.now nodes.now port.now }
{
    missing(networks, &port.network).or(missing(nodes, &port.node))
}

fn missing_in_rule(
    networks: &KnownNames,
    chains: &KnownNames,
    numbered: &NumberedRule,
) -> Option<Refusal>
    ensures { result ≡ missing_in_rule networks.now chains.now numbered.now }
{
    let rule = &numbered.rule;
    let source = missing_end(networks, &rule.source);
    let destination = missing_end(networks, &rule.destination);
    let chain = missing_chain(chains, &rule.action);
    source.or(destination.or(chain))
}

fn missing_in_nodes(controllers: &KnownNames, nodes: &[Node]) -> Option<Refusal>
    ensures { result ≡ first_of (missing_in_node controllers.now) nodes.now }
{
    first_of(
        nodes,
        |node| first_missing(controllers, node.controllers.as_slice()),
    )
}

fn missing_in_networks(policies: &KnownNames, networks: &[Network]) -> Option<Refusal>
    ensures { result ≡ first_of (missing_in_network policies.now) networks.now }
{
    first_of(
        networks,
        |network| first_missing(policies, network.policies.as_slice()),
    )
}

fn missing_in_ports(networks: &KnownNames, nodes: &KnownNames, ports: &[Port]) -> Option<Refusal>
    ensures { result ≡ first_of (missing_in_port networks.now nodes.now) ports.now }
{
    first_of(ports, |port| missing_in_port(networks, nodes, port))
}

fn missing_in_rules(
    networks: &KnownNames,
    chains: &KnownNames,
    rules: &[NumberedRule],
) -> Option<Refusal>
    ensures { result ≡ first_of (missing_in_rule networks.now chains.now) rules.now }
{
    first_of(rules, |rule| missing_in_rule(networks, chains, rule))
}

fn missing_in_services(nodes: &KnownNames, services: &[Service]) -> Option<Refusal>
    ensures { result ≡ first_of (missing_in_service nodes.now) services.now }
{
    first_of(services, |service| missing(nodes, &service.node))
}

fn missing_in_chains(hops: &KnownNames, chains: &[Chain]) -> Option<Refusal>
    ensures { result ≡ first_of (missing_in_chain hops.now) chains.now }
{
    first_of(chains, |chain| first_missing(hops, chain.hops.as_slice()))
}

/// The first reference to a name that nothing has.
#[tactic(auto, unfolding(crate::specs::Rules::broken_reference))]
pub(crate) fn broken_reference(
    alloc: Global,
    topology: &Topology,
    config: &Config,
    rules: &[NumberedRule],
) -> Result<Option<Refusal>, NoMemory>
    requires { rules.now ≡ all_rules config.now }
    ensures { IfOk result (λ found. found ≡ broken_reference topology.now config.now) }
{
    let controllers = KnownNames::new(alloc, controller_names(alloc, topology)?)?;
    let nodes = KnownNames::new(alloc, node_names(alloc, topology)?)?;
    let policies = KnownNames::new(alloc, policy_names(alloc, config)?)?;
    let networks = KnownNames::new(alloc, network_names(alloc, config)?)?;
    let chains = KnownNames::new(alloc, chain_names(alloc, config)?)?;
    let hops = KnownNames::new(alloc, hop_names(alloc, config)?)?;
    let in_nodes = missing_in_nodes(&controllers, topology.nodes.as_slice());
    let in_networks = missing_in_networks(&policies, config.networks.as_slice());
    let in_ports = missing_in_ports(&networks, &nodes, config.ports.as_slice());
    let in_rules = missing_in_rules(&networks, &chains, rules);
    let in_services = missing_in_services(&nodes, config.services.as_slice());
    let in_chains = missing_in_chains(&hops, config.chains.as_slice());
    Ok(in_nodes.or(in_networks.or(in_ports.or(in_rules.or(in_services.or(in_chains))))))
}
