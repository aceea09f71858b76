//! The rules of subnets: none is reserved, and none of one network overlaps another of it.
ghost use Rattle.std.specs.Prelude.{◌≡◌, find, option_copied};
ghost use Rattle.ov_types.specs.First.{first_meeting};
ghost use Rattle.ov_types.specs.Prefix.{is_inside};
ghost use Rattle.config_check.specs.Rules.{overlap, circuit_addresses, reserved_in, broken_reserved, nested_in};
ghost use Rattle.config_check.specs.Rules.{broken_nested};

use crate::asking::first_of;
use crate::refusal::Refusal;
use config_types::{Config, Network};
use ov_types::{Addr, Prefix};

fn is_inside(p: &Prefix, q: &Prefix) -> bool
    ensures { result ≡ is_inside p.now q.now }
{
    p.within(q)
}

/// Whether one of two prefixes contains the other.
pub(crate) fn overlap(p: &Prefix, q: &Prefix) -> bool
    ensures { result ≡ overlap p.now q.now }
{
    is_inside(p, q) || is_inside(q, p)
}

fn first_overlapped<'a>(before: &'a [Prefix], prefix: &Prefix) -> Option<&'a Prefix>
    ensures { option_copied result ≡ find (λ p. overlap p prefix.now) before.now }
{
    before.iter().find(|p| overlap(p, prefix))
}

/// The first prefix that overlaps one before it, after the first one that it overlaps.
fn first_overlapping(prefixes: &[Prefix]) -> Option<(Prefix, Prefix)>
    ensures { result ≡ first_meeting overlap prefixes.now }
{
    for (index, prefix) in prefixes.iter().enumerate() {
        if let Some(earlier) = first_overlapped(&prefixes[..index], prefix) {
            return Some((*earlier, *prefix));
        }
    }
    None
}

/// The addresses of circuits, 250.0.0.0/15.
fn circuit_addresses() -> Prefix
    ensures { result ≡ circuit_addresses }
{
    match Prefix::new(Addr(0xfa00_0000), 15) {
        Some(prefix) => prefix,
        None => unreachable!(),
    }
}

fn reserved_in(network: &Network) -> Option<Refusal>
    ensures { result ≡ reserved_in network.now }
{
    let circuits = circuit_addresses();
    for prefix in network.subnets.as_slice() {
        if overlap(&circuits, prefix) {
            return Some(Refusal::SubnetReserved {
                network: network.name,
                prefix: *prefix,
            });
        }
    }
    None
}

/// The first subnet that overlaps the addresses of circuits.
pub(crate) fn broken_reserved(config: &Config) -> Option<Refusal>
    ensures { result ≡ broken_reserved config.now }
{
    first_of(config.networks.as_slice(), |network| reserved_in(network))
}

fn nested_in(network: &Network) -> Option<Refusal>
    ensures { result ≡ nested_in network.now }
{
    let (first, second) = first_overlapping(network.subnets.as_slice())?;
    Some(Refusal::SubnetNested {
        network: network.name,
        first,
        second,
    })
}

/// The first subnet that overlaps an earlier one of its network.
pub(crate) fn broken_nested(config: &Config) -> Option<Refusal>
    ensures { result ≡ broken_nested config.now }
{
    first_of(config.networks.as_slice(), |network| nested_in(network))
}
