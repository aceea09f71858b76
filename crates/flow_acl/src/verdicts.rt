//! The verdict on a packet.
ghost use Rattle.std.specs.Prelude.{◌≡◌, find, option_copied};
ghost use Rattle.std.specs.List.{list_any};
ghost use Rattle.ov_types.specs.Prefix.{contains};
ghost use Rattle.ov_types.specs.Access.{access_by, access_towards, holds, in_range, is_of_protocol, lesser};
ghost use Rattle.ov_types.specs.Access.{verdict, verdict_by, verdict_of};
ghost use Rattle.flow_acl.specs.Taking.{as_access};

use crate::acls::Acls;
use ov_types::{
    AclAction, AclRule, Addr, InstanceId, LowKey, LowValue, Packet, Prefix, Range16, Tuple, Verdict,
};

/// What the access lists say of a packet that leaves a network. Of the network's lists whose subnets hold the packet's
/// destination the one that leads to the least network decides.
#[tactic(auto, unfolding(ov_types::specs::Access::verdict))]
pub fn evaluate(acls: &Acls, network: InstanceId, packet: &Packet) -> Verdict
    ensures { result ≡ verdict acls.now network.0 packet.now }
{
    let Some(access) = access_towards(acls, network, packet.destination) else {
        return Verdict::NoDestination;
    };
    if access.to == network.0 {
        return Verdict::Pass;
    }
    verdict_by(access.rules, packet.tuple)
}

/// Where an access list leads, and its entries.
#[derive(Clone, Copy)]
struct AccessList<'a> {
    to: u16,
    rules: &'a [AclRule],
}

fn access_towards<'a>(acls: &'a Acls, network: InstanceId, address: Addr) -> Option<AccessList<'a>>
    ensures { as_access result ≡ access_towards network.0 address.0 acls.now }
{
    let mut least = None;
    for (key, value) in acls.lists.iter() {
        least = lesser(least, access_by(network, address, key, value));
    }
    least
}

/// The object as an access list of the network, where its subnets hold the address.
fn access_by<'a>(
    network: InstanceId,
    address: Addr,
    key: &LowKey,
    value: &'a LowValue,
) -> Option<AccessList<'a>>
    ensures { as_access result ≡ access_by network.0 address.0 key.now value.now }
{
    let LowKey::Acl { from, to } = *key else {
        return None;
    };
    let LowValue::Acl { subnets, rules } = value else {
        return None;
    };
    if from != network.0 {
        return None;
    }
    if !any_contains(subnets.as_slice(), address) {
        return None;
    }
    Some(AccessList {
        to,
        rules: rules.as_slice(),
    })
}

fn any_contains(subnets: &[Prefix], address: Addr) -> bool
    ensures { result ≡ list_any (λ p. contains p address.0) subnets.now }
{
    subnets.iter().any(|subnet| subnet.contains(address))
}

/// The one of two lists that leads to the lesser network, and the first where both lead to one.
fn lesser<'a>(
    first: Option<AccessList<'a>>,
    second: Option<AccessList<'a>>,
) -> Option<AccessList<'a>>
    ensures { as_access result ≡ lesser (as_access first.entry) (as_access second.entry) }
{
    let Some(a) = first else {
        return second;
    };
    let Some(b) = second else {
        return first;
    };
    if a.to <= b.to { Some(a) } else { Some(b) }
}

/// The verdict of the first entry that holds the tuple.
fn verdict_by(rules: &[AclRule], tuple: Tuple) -> Verdict
    ensures { result ≡ verdict_by (find (λ r. holds r tuple) rules.now) }
{
    match first_holding(rules, tuple) {
        Some(rule) => verdict_of(rule),
        None => Verdict::Denied { rule: None },
    }
}

fn first_holding(rules: &[AclRule], tuple: Tuple) -> Option<&AclRule>
    ensures { option_copied result ≡ find (λ r. holds r tuple) rules.now }
{
    rules.iter().find(|rule| holds(rule, tuple))
}

fn verdict_of(rule: &AclRule) -> Verdict
    ensures { result ≡ verdict_of rule.now.action rule.now.rule }
{
    match rule.action {
        AclAction::Pass => Verdict::Pass,
        AclAction::Deny => Verdict::Denied {
            rule: Some(rule.rule),
        },
        AclAction::Enter(instance) => Verdict::Enter(instance),
    }
}

/// Whether an entry holds a tuple.
fn holds(rule: &AclRule, tuple: Tuple) -> bool
    ensures { result ≡ holds rule.now tuple }
{
    is_of_protocol(rule.protocol, tuple.proto)
        && in_range(rule.sports, tuple.sport)
        && in_range(rule.dports, tuple.dport)
}

fn is_of_protocol(protocol: Option<u8>, proto: u8) -> bool
    ensures { result ≡ is_of_protocol protocol proto }
{
    match protocol {
        Some(number) => number == proto,
        None => true,
    }
}

fn in_range(range: Range16, number: u16) -> bool
    ensures { result ≡ in_range range number }
{
    range.lo <= number && number <= range.hi
}
