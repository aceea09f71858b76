//! What the outcome of a packet comes of.
ghost use Rattle.std.specs.Prelude.{◌≡◌, ◌||◌, ◌&&◌, ◌++◌, ◌∷◌, [], flat_map, option_copied, IfOk, OnOk};
ghost use Rattle.ov_types.specs.First.{same_name};
ghost use Rattle.config_check.specs.Rules.{holds_address};
ghost use Rattle.policy_rules.specs.Related.{are_related};
ghost use Rattle.reach_plain.specs.Reachability.{network_towards};
ghost use Rattle.inspect_rules.specs.Causes.{attached, between, causes, holder, network_told, nowhere, towards};

use crate::asking::push_asked;
use crate::cause::Cause;
use config_check::{Valid, holds_address, network_named, port_numbered};
use config_types::{Config, Network};
use ov_types::{Addr, Items, Name, NoMemory, Packet, Tuple};
use policy_rules::are_related;
use std::alloc::Global;

/// Whether a packet from a network may be for another: for itself, or for a related one.
fn is_near(config: &Config, from: &Network, other: &Network) -> bool
    ensures { result ≡ (same_name other.now.name from.now.name || are_related config.now from.now other.now) }
{
    other.name == from.name || are_related(config, from, other)
}

fn is_towards(config: &Config, from: &Network, other: &Network, address: Addr) -> bool
    ensures { result ≡ ((same_name other.now.name from.now.name || are_related config.now from.now other.now)
        && holds_address other.now address.0) }
{
    is_near(config, from, other) && holds_address(other, address)
}

/// The network that a packet is for.
fn network_towards<'a>(config: &'a Config, from: &Network, address: Addr) -> Option<&'a Network>
    ensures { option_copied result ≡ network_towards config.now from.now address.0 }
{
    config
        .networks
        .as_slice()
        .iter()
        .find(|n| is_towards(config, from, n, address))
}

/// Appends a network, with a policy that it attaches, or as one that is not related.
fn push_network(found: &mut Vec<Cause>, network: Name, policy: Option<Name>) -> Result<(), NoMemory>
    ensures { OnOk result (found.new.items ≡ found.old.items ++ network_told network policy ∷ []) }
{
    let cause = match policy {
        Some(policy) => Cause::Attached { network, policy },
        None => Cause::Unrelated { network },
    };
    found.push(cause)?;
    Ok(())
}

/// Appends the policies of a network.
fn push_attached(found: &mut Vec<Cause>, network: &Network) -> Result<(), NoMemory>
    ensures { OnOk result (found.new.items ≡ found.old.items ++ attached network.now) }
{
    for policy in network.policies.as_slice() {
        push_network(found, network.name, Some(*policy))?;
    }
    Ok(())
}

/// Appends a network that holds an address, with its policies.
fn push_holder(found: &mut Vec<Cause>, address: Addr, network: &Network) -> Result<(), NoMemory>
    ensures { OnOk result (found.new.items ≡ found.old.items ++ holder address.0 network.now) }
{
    if !holds_address(network, address) {
        return Ok(());
    }
    push_network(found, network.name, None)?;
    push_attached(found, network)
}

fn push_holders(found: &mut Vec<Cause>, address: Addr, networks: &[Network]) -> Result<(), NoMemory>
    ensures { OnOk result (found.new.items ≡ found.old.items ++ flat_map (holder address.0) networks.now) }
{
    for network in networks {
        push_holder(found, address, network)?;
    }
    Ok(())
}

/// Appends why no network is found: the policies of the source's network, and each network that holds the address.
fn push_nowhere(
    found: &mut Vec<Cause>,
    config: &Config,
    from: &Network,
    address: Addr,
) -> Result<(), NoMemory>
    ensures { OnOk result (found.new.items ≡ found.old.items ++ nowhere config.now from.now address.0) }
{
    push_attached(found, from)?;
    push_holders(found, address, config.networks.as_slice())
}

/// Appends the rules that are asked between two networks: inside one network none is.
fn push_between(
    alloc: Global,
    found: &mut Vec<Cause>,
    valid: &Valid,
    from: &Network,
    to: &Network,
    tuple: &Tuple,
) -> Result<(), NoMemory>
    ensures { OnOk result (found.new.items ≡ found.old.items ++ between valid.now.config from.now to.now tuple.now) }
{
    if to.name == from.name {
        return Ok(());
    }
    push_asked(alloc, found, valid, from, to, tuple)
}

/// Appends what follows the network that a packet leaves.
fn push_towards(
    alloc: Global,
    found: &mut Vec<Cause>,
    valid: &Valid,
    from: &Network,
    packet: &Packet,
) -> Result<(), NoMemory>
    ensures { OnOk result (found.new.items ≡ found.old.items ++ towards valid.now.config from.now packet.now
        (network_towards valid.now.config from.now packet.now.destination.0)) }
{
    let Some(to) = network_towards(valid.config(), from, packet.destination) else {
        return push_nowhere(found, valid.config(), from, packet.destination);
    };
    found.push(Cause::To { network: to.name })?;
    push_between(alloc, found, valid, from, to, &packet.tuple)
}

/// Appends what the outcome of a packet comes of.
#[tactic(auto, unfolding(crate::specs::Causes::causes))]
fn push_causes(
    alloc: Global,
    found: &mut Vec<Cause>,
    valid: &Valid,
    packet: &Packet,
) -> Result<(), NoMemory>
    ensures { OnOk result (found.new.items ≡ found.old.items ++ causes valid.now.config packet.now) }
{
    let config = valid.config();
    let Some(source) = port_numbered(config, packet.source) else {
        return Ok(());
    };
    let Some(from) = network_named(config, &source.network) else {
        return Ok(());
    };
    found.push(Cause::From { network: from.name })?;
    push_towards(alloc, found, valid, from, packet)
}

/// What the outcome of a packet comes of: the networks that it goes between, and the rules that are asked there.
pub fn causes_of(alloc: Global, valid: &Valid, packet: Packet) -> Result<Items<Cause>, NoMemory>
    ensures { IfOk result (λ list. list ≡ causes valid.now.config packet) }
{
    let mut found = Vec::new(alloc);
    push_causes(alloc, &mut found, valid, &packet)?;
    Ok(Items::from_vec(found))
}
