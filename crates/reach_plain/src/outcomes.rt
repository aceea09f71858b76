//! What becomes of a packet.
ghost use Rattle.std.specs.Prelude.{◌≡◌, ◌&&◌, ◌||◌, option_copied};
ghost use Rattle.ov_types.specs.First.{same_name};
ghost use Rattle.policy_rules.specs.Related.{are_related};
ghost use Rattle.config_check.specs.Rules.{holds_address};
ghost use Rattle.reach_plain.specs.Reachability.{network_towards, arrival_at, outcome_by, reachability};

use crate::services::services_through;
use config_check::{Valid, holds_address, network_named, port_at, port_numbered};
use config_types::{Action, Config, Network, Port};
use ov_types::{Addr, Outcome, Packet, Services, Why};
use policy_rules::{Match, are_related, deciding};

/// Whether a packet from a network may be for another: for itself, or for a related one.
fn is_near(config: &Config, from: &Network, other: &Network) -> bool
    ensures { result ≡ (same_name other.now.name from.now.name || are_related config.now from.now other.now) }
{
    other.name == from.name || are_related(config, from, other)
}

fn is_towards(config: &Config, from: &Network, other: &Network, address: Addr) -> bool
    ensures { result ≡ ((same_name other.now.name from.now.name || are_related config.now from.now other.now)
        && holds_address other.now address.0) }
{
    is_near(config, from, other) && holds_address(other, address)
}

/// The network that a packet is for.
fn network_towards<'a>(config: &'a Config, from: &Network, address: Addr) -> Option<&'a Network>
    ensures { option_copied result ≡ network_towards config.now from.now address.0 }
{
    config
        .networks
        .as_slice()
        .iter()
        .find(|n| is_towards(config, from, n, address))
}

/// A packet that may enter a network arrives at the port that has the address.
fn arrival_at(port: Option<&Port>, services: Services<64>) -> Outcome
    ensures { result ≡ arrival_at (option_copied port.entry) services }
{
    match port {
        Some(port) => Outcome::Delivered {
            port: port.id,
            services,
        },
        None => dropped(Why::NoRoute),
    }
}

/// What the rule that decides does with a packet to a port.
fn outcome_by(valid: &Valid, port: Option<&Port>, found: Option<Match>) -> Outcome
    ensures { result ≡ outcome_by valid.now.config (option_copied port.entry) found }
{
    let Some(found) = found else {
        return dropped(Why::Denied { rule: None });
    };
    match &found.rule.rule.action {
        Action::Pass => arrival_at(port, Services::new()),
        Action::Deny => dropped(Why::Denied {
            rule: Some(found.rule.number),
        }),
        Action::Through { chain, .. } => {
            arrival_at(port, services_through(valid, chain, found.mirrored))
        }
    }
}

fn dropped(why: Why) -> Outcome
    ensures { result ≡ Outcome.Dropped why }
{
    Outcome::Dropped { why }
}

/// What becomes of a packet: it is dropped, or delivered to a port through services. It takes no memory, and
/// never gives `NoLabel` or `TtlExpired`.
#[tactic(auto, using(crate::proofs::Kept::few_rules), unfolding(crate::specs::Reachability::reachability))]
pub fn reach(valid: &Valid, packet: Packet) -> Outcome
    ensures { result ≡ reachability valid.now.config packet }
{
    let config = valid.config();
    let Some(source) = port_numbered(config, packet.source) else {
        return dropped(Why::NoSourcePort);
    };
    let Some(from) = network_named(config, &source.network) else {
        return dropped(Why::NoDestination);
    };
    let Some(to) = network_towards(config, from, packet.destination) else {
        return dropped(Why::NoDestination);
    };
    let port = port_at(config, to, packet.destination);
    if to.name == from.name {
        return arrival_at(port, Services::new());
    }
    outcome_by(valid, port, deciding(config, from, to, &packet.tuple))
}
