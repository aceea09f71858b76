//! What UPDATEs change.
ghost use Rattle.std.specs.Prelude.{◌≡◌};

use crate::messages::push_fault;
use bgp_vpn::{UpdateFault, read_update, write_update};
use bgp_wire::UpdatePart;
use case_lines::{CaseFault, octets, push_digits, told};
use ov_io::TextOut;
use ov_sync::Delta;
use ov_types::{Addr, Label, NoMemory, Prefix, Rd, Target, Targets, VpnKey, VpnRoute};
use std::alloc::Global;

/// What the attributes change, read wide or not, or with `|` between them the withdrawn routes, the attributes and the plain routes.
pub(crate) fn tell_update(
    alloc: Global,
    wide: bool,
    given: &str,
    out: &mut TextOut,
) -> Result<(), CaseFault> {
    let (withdrawn, rest) = given.split_once("|").unwrap_or(("", given));
    let withdrawn = octets(alloc, withdrawn)?;
    tell_rest(alloc, wide, withdrawn.as_slice(), rest, out)
}

fn tell_rest(
    alloc: Global,
    wide: bool,
    withdrawn: &[u8],
    rest: &str,
    out: &mut TextOut,
) -> Result<(), CaseFault> {
    let (attributes, routes) = rest.split_once("|").unwrap_or((rest, ""));
    let routes = octets(alloc, routes)?;
    tell_part(alloc, wide, withdrawn, attributes, routes.as_slice(), out)
}

fn tell_part(
    alloc: Global,
    wide: bool,
    withdrawn: &[u8],
    attributes: &str,
    routes: &[u8],
    out: &mut TextOut,
) -> Result<(), CaseFault> {
    let attributes = octets(alloc, attributes)?;
    let part = UpdatePart {
        withdrawn,
        attributes: attributes.as_slice(),
        routes,
    };
    push_reading(alloc, &part, wide, out)
}

fn push_reading(
    alloc: Global,
    part: &UpdatePart<'_>,
    wide: bool,
    out: &mut TextOut,
) -> Result<(), CaseFault> {
    match read_update(alloc, part, wide) {
        Ok(deltas) => told(push_deltas(deltas.as_slice(), out)),
        Err(UpdateFault::Wire(fault)) => told(push_fault(fault, out)),
        Err(UpdateFault::NoMemory) => Err(CaseFault::NoMemory),
    }
}

/// The changes in their order.
pub(crate) fn push_deltas(
    deltas: &[Delta<VpnKey, VpnRoute>],
    out: &mut TextOut,
) -> Result<(), NoMemory> {
    out.push(b"changes")?;
    for delta in deltas {
        push_delta(delta, out)?;
    }
    Ok(())
}

fn push_delta(delta: &Delta<VpnKey, VpnRoute>, out: &mut TextOut) -> Result<(), NoMemory> {
    match delta {
        Delta::Put(key, route) => push_put(key, route, out),
        Delta::Drop(key) => push_key(b" drop", key, out),
    }
}

pub(crate) fn push_key(word: &[u8], key: &VpnKey, out: &mut TextOut) -> Result<(), NoMemory> {
    let rd = key.rd;
    let prefix = key.prefix;
    out.push(word)?;
    write!(out, " {rd} {prefix}")
}

fn push_put(key: &VpnKey, route: &VpnRoute, out: &mut TextOut) -> Result<(), NoMemory> {
    push_key(b" put", key, out)?;
    push_hop(route.next_hop, route.label, out)?;
    push_targets(route.targets.items(), out)
}

fn push_hop(next_hop: Addr, label: Label, out: &mut TextOut) -> Result<(), NoMemory> {
    write!(out, " {next_hop} {label}")
}

fn push_targets(targets: &[Target], out: &mut TextOut) -> Result<(), NoMemory> {
    for target in targets {
        write!(out, " {target}")?;
    }
    Ok(())
}

fn key(prefix: Prefix) -> VpnKey {
    VpnKey {
        rd: Rd(0x0001_c000_020b_0001),
        prefix,
    }
}

fn route(targets: Targets) -> VpnRoute
    ensures label { result.label.0 ≡ 23 }
    ensures targets { result.targets ≡ targets }
{
    VpnRoute {
        next_hop: Addr(0xc000_020b),
        label: Label(23),
        targets,
    }
}

/// Appends the UPDATE of a route whose target is 64512:8000001.
fn write_put(alloc: Global, octets: &mut Vec<u8>) -> Result<(), NoMemory> {
    let mut targets = Targets::new(alloc);
    targets.insert(Target(0x0002_fc00_007a_1201))?;
    let put = Delta::Put(key(Prefix::host(Addr(0x0a01_0005))), route(targets));
    write_update(alloc, &put, octets)
}

fn write_put_without_targets(
    alloc: Global,
    prefix: Prefix,
    octets: &mut Vec<u8>,
) -> Result<(), NoMemory> {
    let put = Delta::Put(key(prefix), route(Targets::new(alloc)));
    write_update(alloc, &put, octets)
}

fn write_drop(alloc: Global, octets: &mut Vec<u8>) -> Result<(), NoMemory> {
    write_update(
        alloc,
        &Delta::Drop(key(Prefix::host(Addr(0x0a01_0005)))),
        octets,
    )
}

fn write_all(alloc: Global, network: Prefix, octets: &mut Vec<u8>) -> Result<(), NoMemory> {
    write_put(alloc, octets)?;
    write_put_without_targets(alloc, network, octets)?;
    write_drop(alloc, octets)
}

fn push_written(
    alloc: Global,
    octets: &mut Vec<u8>,
    network: Prefix,
    out: &mut TextOut,
) -> Result<(), NoMemory> {
    write_all(alloc, network, octets)?;
    push_digits(octets.as_slice(), out)
}

/// UPDATEs behind the octets that are given: a put with a target, one without of 10.1.0.0/16, and a drop.
pub(crate) fn tell_written_updates(
    alloc: Global,
    given: &str,
    out: &mut TextOut,
) -> Result<(), CaseFault> {
    let network = Prefix::new(Addr(0x0a01_0000), 16).ok_or(CaseFault::Unreadable)?;
    let mut octets = octets(alloc, given)?;
    told(push_written(alloc, &mut octets, network, out))
}
