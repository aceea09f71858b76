//! The first tie that a configuration breaks.
ghost use Rattle.std.specs.Prelude.{◌≡◌};
ghost use Rattle.ov_types.specs.First.{first_of};
ghost use Rattle.policy_rules.specs.Related.{all_rules};
ghost use Rattle.schedule_script.specs.Broken.{broken_node, broken_port, broken_tie, broken_use};
ghost use Rattle.schedule_script.specs.Broken.{moved, moved_address, moved_pair, renamed};
ghost use Rattle.schedule_script.specs.Kept.{ties_in};

use crate::kept::Ties;
use crate::naming::{ends_of, home_id};
use config_check::Valid;
use config_types::{Action, Config, Node, Port, Rule, Topology};
use ov_types::{Addr, InstanceId, Name, PortNo};
use policy_rules::NumberedRule;

/// What has a tie: a port number, the number of a chain's use, or the compute node at an address.
#[derive(Clone, Copy, PartialEq, Eq)]
pub enum Tie {
    Port(PortNo),
    ChainUse(u16),
    Node(Addr),
}

fn moved(tied: Option<InstanceId>, home: Option<InstanceId>) -> bool
    ensures { result ≡ moved tied home }
{
    match (tied, home) {
        (Some(tied), Some(home)) => tied != home,
        _ => false,
    }
}

fn moved_pair(
    tied: Option<(InstanceId, InstanceId)>,
    ends: Option<(InstanceId, InstanceId)>,
) -> bool
    ensures { result ≡ moved_pair tied ends }
{
    match (tied, ends) {
        (Some(tied), Some(ends)) => !(tied.0 == ends.0 && tied.1 == ends.1),
        _ => false,
    }
}

fn moved_address(tied: Option<Addr>, address: Addr) -> bool
    ensures { result ≡ moved_address tied address }
{
    match tied {
        Some(tied) => tied != address,
        None => false,
    }
}

fn renamed(tied: Option<Name>, name: &Name) -> bool
    ensures { result ≡ renamed tied name.now }
{
    match tied {
        Some(tied) => tied != *name,
        None => false,
    }
}

fn broken_port(ties: &Ties, config: &Config, port: &Port) -> Option<Tie>
    ensures { result ≡ broken_port (ties_in ties.now) config.now port.now }
{
    if moved(ties.port(port.id), home_id(config, port)) {
        Some(Tie::Port(port.id))
    } else {
        None
    }
}

fn broken_use(ties: &Ties, config: &Config, rule: &Rule) -> Option<Tie>
    ensures { result ≡ broken_use (ties_in ties.now) config.now rule.now rule.now.action }
{
    let Action::Through { use_no, .. } = rule.action else {
        return None;
    };
    if moved_pair(ties.chain_use(use_no), ends_of(config, rule)) {
        Some(Tie::ChainUse(use_no))
    } else {
        None
    }
}

fn broken_node(ties: &Ties, node: &Node) -> Option<Tie>
    ensures { result ≡ broken_node (ties_in ties.now) node.now }
{
    if moved_address(ties.address(&node.name), node.address)
        || renamed(ties.name(node.address), &node.name)
    {
        Some(Tie::Node(node.address))
    } else {
        None
    }
}

fn first_broken_port(ties: &Ties, config: &Config) -> Option<Tie>
    ensures { result ≡ first_of (broken_port (ties_in ties.now) config.now) config.now.ports }
{
    for port in config.ports.as_slice() {
        if let Some(tie) = broken_port(ties, config, port) {
            return Some(tie);
        }
    }
    None
}

fn first_broken_use(ties: &Ties, config: &Config, rules: &[NumberedRule]) -> Option<Tie>
    ensures { result ≡ first_of (λ r. broken_use (ties_in ties.now) config.now r.rule r.rule.action) rules.now }
{
    for rule in rules {
        if let Some(tie) = broken_use(ties, config, &rule.rule) {
            return Some(tie);
        }
    }
    None
}

fn first_broken_node(ties: &Ties, topology: &Topology) -> Option<Tie>
    ensures { result ≡ first_of (broken_node (ties_in ties.now)) topology.now.nodes }
{
    for node in topology.nodes.as_slice() {
        if let Some(tie) = broken_node(ties, node) {
            return Some(tie);
        }
    }
    None
}

/// The first tie that a valid configuration of these rules breaks: those of ports before those of uses, and these before
/// those of compute nodes, each in the document's order.
pub(crate) fn broken_tie(ties: &Ties, valid: &Valid, rules: &[NumberedRule]) -> Option<Tie>
    requires { rules.now ≡ all_rules valid.now.config }
    ensures { result ≡ broken_tie (ties_in ties.now) valid.now }
{
    if let Some(tie) = first_broken_port(ties, valid.config()) {
        return Some(tie);
    }
    if let Some(tie) = first_broken_use(ties, valid.config(), rules) {
        return Some(tie);
    }
    first_broken_node(ties, valid.topology())
}
