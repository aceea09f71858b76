//! One lookup of a packet.
ghost use Rattle.std.specs.Prelude.{◌≡◌, ◌<◌, ◌≤◌, Some, length, map, option_map, slice_get, IfSome};
ghost use Rattle.ov_types.specs.Access.{verdict};
ghost use Rattle.ov_types.specs.First.{first_of};
ghost use Rattle.route_targets.specs.Forwarding.{agent_at, as_port, attached, source_at};
ghost use Rattle.route_targets.specs.Numbers.{circuit_instance_of, other_side_of};
ghost use Rattle.packet_trace.specs.Lookups.{hop_of, leading};
ghost use Rattle.packet_trace.specs.Steps.{IsWithin, as_leading, forwarder_at, lookup_at, source_in};

use crate::hops::Hop;
use crate::vrouter::Vrouter;
use ov_types::{Addr, Attached, InstanceId, Label, Packet, PortNo, ServiceNo, Verdict, Why};
use route_targets::{circuit_instance, other_side, port_label};

/// A lookup: at the agent in a place of the list, in an instance.
#[derive(Clone, Copy)]
pub(crate) struct LookupPlace {
    pub(crate) agent: usize,
    pub(crate) instance: InstanceId,
}

/// What a lookup leads to: a port, a reason to drop the packet, or a service, behind which is the next lookup.
#[derive(Clone, Copy)]
pub(crate) enum LookupStep {
    Arrives(PortNo),
    Stops(Why),
    Passes(ServiceNo, LookupPlace),
}

pub(crate) fn look_up<V: Vrouter>(agents: &[V], address: Addr, place: LookupPlace) -> LookupStep
    requires { place.agent < length agents.now }
    ensures place { IsWithin (length agents.now) result }
    ensures leading { as_leading (map V.forwarder agents.now) result
        ≡ option_map (leading (map V.forwarder agents.now) address.0) (lookup_at (map V.forwarder agents.now) place) }
{
    let Some(entry) = agents[place.agent].route(place.instance, address) else {
        return LookupStep::Stops(Why::NoRoute);
    };
    let Some(agent) = agent_at(agents, entry.next_hop) else {
        return LookupStep::Stops(Why::NoLabel);
    };
    match agents[agent].find(entry.label) {
        None => LookupStep::Stops(Why::NoLabel),
        Some(Attached::Port { port, .. }) => LookupStep::Arrives(port),
        Some(Attached::Circuit { circuit, service }) => LookupStep::Passes(
            service,
            behind(agent, circuit),
        ),
    }
}

/// The address and the instance of a lookup.
pub(crate) fn hop_at<V: Vrouter>(agents: &[V], place: LookupPlace) -> Hop
    requires { place.agent < length agents.now }
    ensures { Some result ≡ option_map hop_of (lookup_at (map V.forwarder agents.now) place) }
{
    Hop {
        node: agents[place.agent].address(),
        instance: place.instance,
    }
}

/// What the agent says of a packet that leaves the network of its source.
pub(crate) fn verdict_at<V: Vrouter>(
    agents: &mut [V],
    source: LookupPlace,
    packet: &Packet,
) -> Verdict
    requires { source.agent < length agents.old }
    ensures said { Some result ≡ option_map (λ f. verdict f.rows.acls source.instance.0 packet.now)
        (slice_get (map V.forwarder agents.old) source.agent) }
    ensures same { map V.forwarder agents.new ≡ map V.forwarder agents.old }
    ensures kept { agents.new ≡ agents.old }
{
    agents[source.agent].verdict(source.instance, packet)
}

/// The lookup behind a service, at the agent that has the circuit in front of it.
fn behind(agent: usize, circuit: u32) -> LookupPlace
    requires first { 32769 ≤ circuit }
    requires last { circuit ≤ 131070 }
    ensures { result ≡ record { agent = agent; instance = circuit_instance_of (other_side_of circuit) } }
{
    LookupPlace {
        agent,
        instance: circuit_instance(other_side(circuit)),
    }
}

/// The place of the first agent of an address.
fn agent_at<V: Vrouter>(agents: &[V], address: Addr) -> Option<usize>
    ensures place { IfSome result (λ k. k < length agents.now) }
    ensures agent { forwarder_at (map V.forwarder agents.now) result ≡ agent_at (map V.forwarder agents.now) address }
{
    for (place, agent) in agents.iter().enumerate() {
        if agent.address() == address {
            return Some(place);
        }
    }
    None
}

/// The place of the first agent that has the packet's source port, and the instance of the port's network.
pub(crate) fn source_of<V: Vrouter>(agents: &[V], packet: Packet) -> Option<LookupPlace>
    requires { packet.source.0 ≤ 524271 }
    ensures place { IfSome result (λ p. p.agent < length agents.now) }
    ensures agent { source_in (map V.forwarder agents.now) result
        ≡ first_of (source_at packet) (map V.forwarder agents.now) }
{
    let label = port_label(packet.source);
    for (place, agent) in agents.iter().enumerate() {
        if let Some(instance) = network_of(agent, label) {
            return Some(LookupPlace {
                agent: place,
                instance,
            });
        }
    }
    None
}

/// The instance of the port's network, where the label is a port's.
fn network_of<V: Vrouter>(agent: &V, label: Label) -> Option<InstanceId>
    ensures { result ≡ as_port (attached (V.forwarder agent.now).rows label) }
{
    match agent.find(label) {
        Some(Attached::Port { instance, .. }) => Some(instance),
        _ => None,
    }
}
