//! The one low-level object that changes where a single port comes, goes or is put anew.
ghost use Rattle.std.specs.Prelude.{◌≡◌, ◌≤◌, true, drop, length, take, option_and_then, slice_get, IfSome, IsTrue, None, Some};
ghost use Rattle.config_types.specs.Form.{has_port_form};
ghost use Rattle.schema_transform.specs.TransformModel.Objects.{port_object};
ghost use Rattle.config_node.specs.Changing.{DifferInOne, IsOneChange, SharesAllButPorts, key_change};

use config_check::{Valid, network_named, node_named};
use config_types::{Config, Port, Topology};
use ov_types::{LowKey, LowValue};
use route_targets::port_label;
use std::cmp::Ordering;

/// A port that stood in a place, and the one that stands there now.
#[derive(Clone, Copy)]
struct PortChange {
    old: Option<Port>,
    new: Option<Port>,
}

fn same_topology(before: &Topology, now: &Topology) -> bool
    ensures { result ≡ true → before.now ≡ now.now }
{
    before == now
}

fn same_networks(before: &Config, now: &Config) -> bool
    ensures { result ≡ true → before.now.networks ≡ now.now.networks }
{
    before.networks == now.networks
}

fn same_policies(before: &Config, now: &Config) -> bool
    ensures { result ≡ true → before.now.policies ≡ now.now.policies }
{
    before.policies == now.policies
}

fn same_services(before: &Config, now: &Config) -> bool
    ensures { result ≡ true → before.now.services ≡ now.now.services }
{
    before.services == now.services
}

fn same_chains(before: &Config, now: &Config) -> bool
    ensures { result ≡ true → before.now.chains ≡ now.now.chains }
{
    before.chains == now.chains
}

/// Whether nothing but the ports differs.
fn shares_all_but_ports(before: &Valid, now: &Valid) -> bool
    ensures { result ≡ true → SharesAllButPorts before.now now.now }
{
    let one = before.config();
    let other = now.config();
    if !same_topology(before.topology(), now.topology()) {
        return false;
    }
    if !same_networks(one, other) {
        return false;
    }
    if !same_policies(one, other) {
        return false;
    }
    if !same_services(one, other) {
        return false;
    }
    same_chains(one, other)
}

/// Whether a port stands at a place.
fn stands_at(ports: &[Port], place: usize, port: &Port) -> bool
    ensures { result ≡ true → slice_get ports.now place ≡ Some port.now }
{
    match ports.get(place) {
        Some(other) => other == port,
        None => false,
    }
}

/// How many ports two lists share in front.
fn shared_front(before: &[Port], now: &[Port]) -> usize
    ensures before { result ≤ length before.now }
    ensures now { result ≤ length now.now }
    ensures same { take result before.now ≡ take result now.now }
{
    let mut shared = 0;
    for port in before {
        if !stands_at(now, shared, port) {
            return shared;
        }
        shared += 1;
    }
    shared
}

fn are_same(before: &[Port], now: &[Port]) -> bool
    ensures { result ≡ true → before.now ≡ now.now }
{
    before == now
}

/// The first port stands in the place of another, and all behind them are the same.
fn put_anew(before: &[Port], now: &[Port]) -> Option<PortChange>
    ensures { IfSome result (λ change. DifferInOne before.now now.now change.old change.new) }
{
    let (old, before) = before.split_first()?;
    let (new, now) = now.split_first()?;
    if !are_same(before, now) {
        return None;
    }
    Some(PortChange {
        old: Some(*old),
        new: Some(*new),
    })
}

/// The first port came, and all behind it are those of before.
fn came(before: &[Port], now: &[Port]) -> Option<PortChange>
    ensures { IfSome result (λ change. DifferInOne before.now now.now change.old change.new) }
{
    let (new, now) = now.split_first()?;
    if !are_same(before, now) {
        return None;
    }
    Some(PortChange {
        old: None,
        new: Some(*new),
    })
}

/// The first port went, and all behind it are those of now.
fn went(before: &[Port], now: &[Port]) -> Option<PortChange>
    ensures { IfSome result (λ change. DifferInOne before.now now.now change.old change.new) }
{
    let (old, before) = before.split_first()?;
    if !are_same(before, now) {
        return None;
    }
    Some(PortChange {
        old: Some(*old),
        new: None,
    })
}

/// The change of the first port, where all behind it are the same.
fn first_change(before: &[Port], now: &[Port]) -> Option<PortChange>
    ensures { IfSome result (λ change. DifferInOne before.now now.now change.old change.new) }
{
    if before.len() < now.len() {
        return came(before, now);
    }
    if now.len() < before.len() {
        return went(before, now);
    }
    put_anew(before, now)
}

fn behind(ports: &[Port], count: usize) -> &[Port]
    requires { count ≤ length ports.now }
    ensures { result.now ≡ drop count ports.now }
{
    &ports[count..]
}

/// The one port that changed, where one alone did.
fn port_change(before: &[Port], now: &[Port]) -> Option<PortChange>
    ensures { IfSome result (λ change. DifferInOne before.now now.now change.old change.new) }
{
    let shared = shared_front(before, now);
    let one = behind(before, shared);
    let other = behind(now, shared);
    let change = first_change(one, other)?;
    Some(change)
}

/// The one port in which two configurations differ, where they differ in one alone.
fn config_change(before: &Config, now: &Config) -> Option<PortChange>
    ensures { IfSome result (λ change. DifferInOne before.now.ports now.now.ports change.old change.new) }
{
    let one = before.ports.as_slice();
    let other = now.ports.as_slice();
    let change = port_change(one, other)?;
    Some(change)
}

/// A port, in the instance of its network and at its node.
#[tactic(auto, unfolding(config_types::specs::Form::has_port_form))]
fn attachment(topology: &Topology, config: &Config, port: &Port) -> Option<(LowKey, LowValue)>
    requires { IsTrue (has_port_form port.now) }
    ensures { result ≡ port_object topology.now config.now port.now }
{
    let network = network_named(config, &port.network)?;
    let node = node_named(topology, &port.node)?;
    let key = LowKey::Attach(port_label(port.id).0);
    let value = LowValue::AttachPort {
        port: port.id,
        instance: network.id,
        address: port.address,
        node: node.address,
    };
    Some((key, value))
}

fn attachment_if(
    topology: &Topology,
    config: &Config,
    port: Option<Port>,
) -> Option<(LowKey, LowValue)>
    requires { IfSome port (λ p. IsTrue (has_port_form p)) }
    ensures { result ≡ option_and_then (port_object topology.now config.now) port }
{
    match port {
        Some(port) => attachment(topology, config, &port),
        None => None,
    }
}

/// What becomes of the key of an attachment, where another of the same key stands in its place, or it comes or goes.
fn key_change(
    old: Option<(LowKey, LowValue)>,
    new: Option<(LowKey, LowValue)>,
) -> Option<(LowKey, Option<LowValue>)>
    ensures { result ≡ key_change old new }
{
    match (old, new) {
        (None, None) => None,
        (None, Some((key, value))) => Some((key, Some(value))),
        (Some((key, _)), None) => Some((key, None)),
        (Some((before, _)), Some((key, value))) => match before.cmp(&key) {
            Ordering::Equal => Some((key, Some(value))),
            _ => None,
        },
    }
}

/// The one key whose object changes, with what stands there now, where nothing but a port of one label changes. Nothing
/// is compiled for it.
fn one_change(before: &Valid, now: &Valid) -> Option<(LowKey, Option<LowValue>)>
    ensures { IfSome result (λ change. IsOneChange before.now now.now change.0 change.1) }
{
    let one = before.config();
    let other = now.config();
    if !shares_all_but_ports(before, now) {
        return None;
    }
    let change = config_change(one, other)?;
    let old = attachment_if(before.topology(), one, change.old);
    let new = attachment_if(now.topology(), other, change.new);
    key_change(old, new)
}

/// The one change, where none is left to be told of before.
pub(crate) fn next_change(
    changed: &Option<LowKey>,
    before: &Valid,
    now: &Valid,
) -> Option<(LowKey, Option<LowValue>)>
    ensures change { IfSome result (λ change. IsOneChange before.now now.now change.0 change.1) }
    ensures told { IfSome result (λ change. changed.now ≡ None) }
{
    match changed {
        Some(_) => None,
        None => one_change(before, now),
    }
}
