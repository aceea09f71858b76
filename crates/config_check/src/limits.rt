//! The first rule: no count is outside its limits.
ghost use Rattle.std.specs.Prelude.{◌≡◌, ◌&&◌, nat_le, length};
ghost use Rattle.std.specs.List.{list_all};
ghost use Rattle.config_check.specs.Rules.{limit_unless, broken_count, broken_part, broken_limit};

use crate::refusal::{LimitKind, Refusal};
use chain_expand::MOST_CHAINS;
use config_types::{Chain, Config, Network, Policy, Topology};

const CONTROLLERS: usize = 8;

const NODES: usize = 64;

const NETWORKS: usize = 128;

const PORTS: usize = 1024;

const POLICIES: usize = 128;

const SERVICES: usize = 128;

const SUBNETS: usize = 4;

const ATTACHMENTS: usize = 4;

const RULES: usize = 16;

const HOPS: usize = 64;

fn limit_unless(what: LimitKind, is_kept: bool) -> Option<Refusal>
    ensures { result ≡ limit_unless what is_kept }
{
    if is_kept {
        None
    } else {
        Some(Refusal::Limit { what })
    }
}

fn has_nodes(topology: &Topology) -> bool
    ensures { result ≡ (nat_le 1 (length topology.now.nodes) && nat_le (length topology.now.nodes) 64) }
{
    1 <= topology.nodes.len() && topology.nodes.len() <= NODES
}

fn broken_count(topology: &Topology, config: &Config) -> Option<Refusal>
    ensures { result ≡ broken_count topology.now config.now }
{
    let controllers = limit_unless(
        LimitKind::Controllers,
        topology.controllers.len() <= CONTROLLERS,
    );
    let nodes = limit_unless(LimitKind::Nodes, has_nodes(topology));
    let networks = limit_unless(LimitKind::Networks, config.networks.len() <= NETWORKS);
    let ports = limit_unless(LimitKind::Ports, config.ports.len() <= PORTS);
    let policies = limit_unless(LimitKind::Policies, config.policies.len() <= POLICIES);
    let services = limit_unless(LimitKind::Services, config.services.len() <= SERVICES);
    let chains = limit_unless(LimitKind::Chains, config.chains.len() <= MOST_CHAINS);
    controllers.or(nodes.or(networks.or(ports.or(policies.or(services.or(chains))))))
}

fn have_few_subnets(networks: &[Network]) -> bool
    ensures { result ≡ list_all (λ n. nat_le (length n.subnets) 4) networks.now }
{
    networks.iter().all(|n| n.subnets.len() <= SUBNETS)
}

fn have_few_attachments(networks: &[Network]) -> bool
    ensures { result ≡ list_all (λ n. nat_le (length n.policies) 4) networks.now }
{
    networks.iter().all(|n| n.policies.len() <= ATTACHMENTS)
}

fn have_few_rules(policies: &[Policy]) -> bool
    ensures { result ≡ list_all (λ p. nat_le (length p.rules) 16) policies.now }
{
    policies.iter().all(|p| p.rules.len() <= RULES)
}

fn have_few_hops(chains: &[Chain]) -> bool
    ensures { result ≡ list_all (λ d. nat_le (length d.hops) 64) chains.now }
{
    chains.iter().all(|d| d.hops.len() <= HOPS)
}

fn broken_part(config: &Config) -> Option<Refusal>
    ensures { result ≡ broken_part config.now }
{
    let networks = config.networks.as_slice();
    let subnets = limit_unless(LimitKind::Subnets, have_few_subnets(networks));
    let attachments = limit_unless(LimitKind::Attachments, have_few_attachments(networks));
    let rules = limit_unless(LimitKind::Rules, have_few_rules(config.policies.as_slice()));
    let hops = limit_unless(LimitKind::Hops, have_few_hops(config.chains.as_slice()));
    subnets.or(attachments.or(rules.or(hops)))
}

/// The first count that is outside its limits.
#[tactic(auto, unfolding(crate::specs::Rules::broken_limit))]
pub(crate) fn broken_limit(topology: &Topology, config: &Config) -> Option<Refusal>
    ensures { result ≡ broken_limit topology.now config.now }
{
    broken_count(topology, config).or(broken_part(config))
}
