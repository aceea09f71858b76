//! The way of a packet.
ghost use Rattle.std.specs.Prelude.{◌≡◌, ◌<◌, ◌≤◌, Some, [], length, map, option_map};
ghost use Rattle.route_targets.specs.Forwarding.{forwarding, walk};
ghost use Rattle.packet_trace.specs.Lookups.{hop_of, hops_of, lookups_from};
ghost use Rattle.packet_trace.specs.Steps.{lookup_at};

use crate::hops::{Hops, Trace};
use crate::step::{LookupPlace, LookupStep, hop_at, look_up, source_of, verdict_at};
use crate::vrouter::Vrouter;
use ov_types::{Addr, Outcome, Packet, Services, Verdict, Why};

/// Follows a packet from its source port through the agents. It takes no memory.
pub fn trace<V: Vrouter>(agents: &mut [V], packet: Packet) -> Trace
    requires { packet.source.0 ≤ 524271 }
    ensures outcome { result.outcome ≡ forwarding (map V.forwarder agents.old) packet }
    ensures hops { result.hops ≡ hops_of (map V.forwarder agents.old) packet }
    ensures same { map V.forwarder agents.new ≡ map V.forwarder agents.old }
    ensures kept { agents.new ≡ agents.old }
{
    let Some(source) = source_of(agents, packet) else {
        return dropped(Why::NoSourcePort);
    };
    match verdict_at(agents, source, &packet) {
        Verdict::Pass => walk(agents, packet.destination, source, 64),
        Verdict::Enter(instance) => {
            let start = LookupPlace {
                agent: source.agent,
                instance,
            };
            walk(agents, packet.destination, start, 64)
        }
        Verdict::Denied { rule } => dropped(Why::Denied { rule }),
        Verdict::NoDestination => dropped(Why::NoDestination),
    }
}

fn dropped(why: Why) -> Trace
    ensures { result ≡ record { outcome = Outcome.Dropped why; hops = [] } }
{
    Trace {
        outcome: Outcome::Dropped { why },
        hops: Hops::new(),
    }
}

/// The walk from a lookup on, with so many lookups left.
fn walk<V: Vrouter>(agents: &[V], address: Addr, start: LookupPlace, lookups: u8) -> Trace
    requires start { start.agent < length agents.now }
    requires limit { lookups ≤ 64 }
    ensures outcome { Some result.outcome ≡ option_map
        (λ l. walk (map V.forwarder agents.now) address.0 lookups l.agent [] l.instance)
        (lookup_at (map V.forwarder agents.now) start) }
    ensures hops { Some result.hops ≡ option_map
        (λ l. map hop_of (lookups_from (map V.forwarder agents.now) address.0 lookups l))
        (lookup_at (map V.forwarder agents.now) start) }
{
    let mut services = Services::new();
    let mut hops = Hops::new();
    let mut place = start;
    let mut left = lookups;
    while left > 0 {
        left -= 1;
        hops.push(hop_at(agents, place));
        match look_up(agents, address, place) {
            LookupStep::Arrives(port) => {
                let outcome = Outcome::Delivered { port, services };
                return Trace { outcome, hops };
            }
            LookupStep::Stops(why) => {
                let outcome = Outcome::Dropped { why };
                return Trace { outcome, hops };
            }
            LookupStep::Passes(service, behind) => {
                services.push(service);
                place = behind;
            }
        }
    }
    let outcome = Outcome::Dropped {
        why: Why::TtlExpired,
    };
    Trace { outcome, hops }
}
