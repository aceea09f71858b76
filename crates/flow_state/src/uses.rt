//! Which flow a packet uses.
ghost use Rattle.std.specs.Prelude.{◌≡◌, option_copied};
ghost use Rattle.flow_state.specs.Flows.{forward_use, network_of, one_way_between};

use crate::flow::Flow;
use config_check::{Valid, network_named, port_numbered};
use config_types::{Config, Direction, Network};
use ov_types::{Packet, PortNo, Tuple};
use policy_rules::deciding;

/// The network of a port.
pub(crate) fn network_of(config: &Config, number: PortNo) -> Option<&Network>
    ensures { option_copied result ≡ network_of config.now number }
{
    match port_numbered(config, number) {
        Some(port) => network_named(config, &port.network),
        None => None,
    }
}

/// Whether a rule of one direction decides between two networks.
#[tactic(auto, using(reach_plain::proofs::Kept::few_rules))]
fn one_way_between(
    valid: &Valid,
    tuple: Tuple,
    from: Option<&Network>,
    to: Option<&Network>,
) -> bool
    ensures { result ≡ one_way_between valid.now.config tuple (option_copied from.entry) (option_copied to.entry) }
{
    let config = valid.config();
    let Some(from) = from else {
        return false;
    };
    let Some(to) = to else {
        return false;
    };
    if to.name == from.name {
        return false;
    }
    match deciding(config, from, to, &tuple) {
        Some(found) => match found.rule.rule.direction {
            Direction::OneWay => true,
            Direction::BothWays => false,
        },
        None => false,
    }
}

/// The flow that a packet is the forward packet of, where it is permitted one way.
pub(crate) fn forward_use(valid: &Valid, packet: Packet, target: PortNo) -> Option<Flow>
    ensures { result ≡ forward_use valid.now.config packet target }
{
    let from = network_of(valid.config(), packet.source);
    let to = network_of(valid.config(), target);
    if !one_way_between(valid, packet.tuple, from, to) {
        return None;
    }
    Some(Flow {
        source: packet.source,
        target,
        tuple: packet.tuple,
    })
}
