//! What agents say of packets, and what they keep of that.
ghost use Rattle.std.specs.Prelude.{◌≤◌};

use agent_node::AgentNode;
use case_lines::{CaseFault, address, begin, both, number, octet, short_number, told};
use ov_io::TextOut;
use ov_types::{Addr, InstanceId, NoMemory, Packet, PortNo, Tuple, Verdict};
use packet_trace::Vrouter;
use std::alloc::Global;

/// What policies look at, of each packet.
const TUPLE: Tuple = Tuple {
    proto: 6,
    sport: 50_000,
    dport: 80,
};

/// A packet that leaves a port.
pub(crate) fn packet(source: u16, destination: Addr) -> Packet
    ensures { result.source.0 ≤ 524271 }
{
    Packet {
        source: PortNo(u32::from(source)),
        destination,
        tuple: TUPLE,
    }
}

/// What is said of a packet that leaves a network to an address, with a protocol and a port that it goes to.
pub(crate) fn tell_verdict(
    node: &mut AgentNode,
    given: &str,
    out: &mut TextOut,
) -> Result<(), CaseFault> {
    let (network, rest) = both(given)?;
    let (destination, rest) = both(rest)?;
    let (proto, dport) = both(rest)?;
    let network = InstanceId(short_number(network)?);
    let mut packet = packet(1, address(destination)?);
    packet.tuple.proto = octet(proto)?;
    packet.tuple.dport = short_number(dport)?;
    let said = node.verdict(network, &packet);
    told(write!(out, "{said:?}"))
}

/// One verdict, said of packets to addresses in a row, up or down.
#[derive(Clone, Copy)]
struct Span {
    first: Addr,
    last: Addr,
    said: Verdict,
}

/// Adds an address of which a verdict is said.
fn add(spans: &mut Vec<Span>, address: Addr, said: Verdict) -> Result<(), CaseFault> {
    if let Some(span) = spans.last_mut() {
        if span.said == said && span.last.0.abs_diff(address.0) == 1 {
            span.last = address;
            return Ok(());
        }
    }
    let span = Span {
        first: address,
        last: address,
        said,
    };
    Ok(spans.push(span)?)
}

fn push_spans(spans: &[Span], out: &mut TextOut) -> Result<(), NoMemory> {
    for span in spans {
        let first = span.first;
        let last = span.last;
        let said = span.said;
        begin(out)?;
        write!(out, "{first}-{last} {said:?}")?;
    }
    Ok(())
}

fn ask(
    node: &mut AgentNode,
    network: InstanceId,
    first: Addr,
    count: u32,
    spans: &mut Vec<Span>,
) -> Result<(), CaseFault> {
    for place in 0..count {
        let address = Addr(first.0.wrapping_add(place));
        let said = node.verdict(network, &packet(1, address));
        add(spans, address, said)?;
    }
    Ok(())
}

/// What is said of packets that leave a network to so many addresses, from one on.
pub(crate) fn tell_verdicts(
    alloc: Global,
    node: &mut AgentNode,
    given: &str,
    out: &mut TextOut,
) -> Result<(), CaseFault> {
    let (network, addresses) = both(given)?;
    let (first, count) = both(addresses)?;
    let network = InstanceId(short_number(network)?);
    let mut spans = Vec::new(alloc);
    ask(node, network, address(first)?, number(count)?, &mut spans)?;
    told(push_spans(&spans, out))
}

/// Adds what is kept of the packets of network 1, and says whether something else is kept.
fn keep(node: &AgentNode, spans: &mut Vec<Span>) -> Result<bool, CaseFault> {
    let mut has_others = false;
    for (flow, said) in node.flows() {
        if flow.network == InstanceId(1) && flow.tuple == TUPLE {
            add(spans, flow.destination, *said)?;
        } else {
            has_others = true;
        }
    }
    Ok(has_others)
}

/// What is kept of the packets of network 1, the last first.
pub(crate) fn tell_flows(
    alloc: Global,
    node: &AgentNode,
    out: &mut TextOut,
) -> Result<(), CaseFault> {
    let mut spans = Vec::new(alloc);
    if keep(node, &mut spans)? {
        out.push(b"flows of another kind")?;
    }
    told(push_spans(&spans, out))
}
