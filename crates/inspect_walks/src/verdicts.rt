//! What the access lists of an agent say of a packet, of lists in the order of their keys.
ghost use Rattle.std.specs.Prelude.{◌≡◌, ◌≤◌, ℕ, find, length, option_copied, true, false};
ghost use Rattle.std.specs.List.{AllPairs, list_any};
ghost use Rattle.std.specs.List.Sorted.{IsPartitionPoint};
ghost use Rattle.std.specs.declared.cmp.Ordering.TheVariants.{Less};
ghost use Rattle.ov_types.specs.Keys.{low_key_cmp};
ghost use Rattle.ov_types.specs.Prefix.{contains};
ghost use Rattle.ov_types.specs.Access.{access_by, access_towards, holds, in_range, is_of_protocol, lesser};
ghost use Rattle.ov_types.specs.Access.{verdict, verdict_by, verdict_of};
ghost use Rattle.inspect_walks.specs.Taking.{as_access, is_before, is_not_behind};

use ov_types::{
    AclAction, AclRule, Addr, InstanceId, LowKey, LowValue, Packet, Prefix, Range16, Tuple, Verdict,
};

type Object = (LowKey, LowValue);

/// What access lists say of a packet that leaves a network. Of the network's lists whose subnets hold the packet's
/// destination the one that leads to the least network decides.
#[tactic(auto, unfolding(ov_types::specs::Access::verdict))]
pub(crate) fn evaluate(lists: &[Object], network: InstanceId, packet: &Packet) -> Verdict
    requires { AllPairs (λ d e. low_key_cmp d.0 e.0 ≡ Less) lists.now }
    ensures { result ≡ verdict lists.now network.0 packet.now }
{
    let own = lists_from(lists, network);
    let Some(access) = access_towards(own, network, packet.destination) else {
        return Verdict::NoDestination;
    };
    if access.to == network.0 {
        return Verdict::Pass;
    }
    verdict_by(access.rules, packet.tuple)
}

fn is_before(key: &LowKey, network: InstanceId) -> bool
    ensures { result ≡ is_before network.0 key.now }
{
    match *key {
        LowKey::Acl { from, .. } => from < network.0,
        LowKey::ChainUse(_) => false,
        _ => true,
    }
}

fn is_not_behind(key: &LowKey, network: InstanceId) -> bool
    ensures { result ≡ is_not_behind network.0 key.now }
{
    match *key {
        LowKey::Acl { from, .. } => from <= network.0,
        LowKey::ChainUse(_) => false,
        _ => true,
    }
}

fn count_before(lists: &[Object], network: InstanceId) -> usize
    requires { AllPairs (λ d e. low_key_cmp d.0 e.0 ≡ Less) lists.now }
    ensures bound { result ≤ length lists.now }
    ensures point { IsPartitionPoint (λ e. is_before network.0 e.0 ≡ true) (λ e. is_before network.0 e.0 ≡ false) lists.now result }
{
    lists.partition_point(|list| is_before(&list.0, network))
}

fn count_not_behind(lists: &[Object], network: InstanceId) -> usize
    requires { AllPairs (λ d e. low_key_cmp d.0 e.0 ≡ Less) lists.now }
    ensures bound { result ≤ length lists.now }
    ensures point { IsPartitionPoint (λ e. is_not_behind network.0 e.0 ≡ true) (λ e. is_not_behind network.0 e.0 ≡ false)
        lists.now result }
{
    lists.partition_point(|list| is_not_behind(&list.0, network))
}

/// The lists of packets from a network, of lists that ascend.
fn lists_from(lists: &[Object], network: InstanceId) -> &[Object]
    requires { AllPairs (λ d e. low_key_cmp d.0 e.0 ≡ Less) lists.now }
    ensures { (address : ℕ) → access_towards network.0 address result.now ≡ access_towards network.0 address lists.now }
{
    let not_before = &lists[count_before(lists, network)..];
    &not_before[..count_not_behind(not_before, network)]
}

/// Where an access list leads, and its entries.
#[derive(Clone, Copy)]
struct AccessList<'a> {
    to: u16,
    rules: &'a [AclRule],
}

fn access_towards<'a>(
    lists: &'a [Object],
    network: InstanceId,
    address: Addr,
) -> Option<AccessList<'a>>
    ensures { as_access result ≡ access_towards network.0 address.0 lists.now }
{
    let mut least = None;
    for list in lists {
        least = lesser(least, access_by(network, address, &list.0, &list.1));
    }
    least
}

/// The object as an access list of the network, where its subnets hold the address.
fn access_by<'a>(
    network: InstanceId,
    address: Addr,
    key: &LowKey,
    value: &'a LowValue,
) -> Option<AccessList<'a>>
    ensures { as_access result ≡ access_by network.0 address.0 key.now value.now }
{
    let LowKey::Acl { from, to } = *key else {
        return None;
    };
    let LowValue::Acl { subnets, rules } = value else {
        return None;
    };
    if from != network.0 {
        return None;
    }
    if !any_contains(subnets.as_slice(), address) {
        return None;
    }
    Some(AccessList {
        to,
        rules: rules.as_slice(),
    })
}

fn any_contains(subnets: &[Prefix], address: Addr) -> bool
    ensures { result ≡ list_any (λ p. contains p address.0) subnets.now }
{
    subnets.iter().any(|subnet| subnet.contains(address))
}

/// The one of two lists that leads to the lesser network, and the first where both lead to one.
fn lesser<'a>(
    first: Option<AccessList<'a>>,
    second: Option<AccessList<'a>>,
) -> Option<AccessList<'a>>
    ensures { as_access result ≡ lesser (as_access first.entry) (as_access second.entry) }
{
    let Some(a) = first else {
        return second;
    };
    let Some(b) = second else {
        return first;
    };
    if a.to <= b.to { Some(a) } else { Some(b) }
}

/// The verdict of the first entry that holds the tuple.
fn verdict_by(rules: &[AclRule], tuple: Tuple) -> Verdict
    ensures { result ≡ verdict_by (find (λ r. holds r tuple) rules.now) }
{
    match first_holding(rules, tuple) {
        Some(rule) => verdict_of(rule),
        None => Verdict::Denied { rule: None },
    }
}

fn first_holding(rules: &[AclRule], tuple: Tuple) -> Option<&AclRule>
    ensures { option_copied result ≡ find (λ r. holds r tuple) rules.now }
{
    rules.iter().find(|rule| holds(rule, tuple))
}

fn verdict_of(rule: &AclRule) -> Verdict
    ensures { result ≡ verdict_of rule.now.action rule.now.rule }
{
    match rule.action {
        AclAction::Pass => Verdict::Pass,
        AclAction::Deny => Verdict::Denied {
            rule: Some(rule.rule),
        },
        AclAction::Enter(instance) => Verdict::Enter(instance),
    }
}

/// Whether an entry holds a tuple.
fn holds(rule: &AclRule, tuple: Tuple) -> bool
    ensures { result ≡ holds rule.now tuple }
{
    is_of_protocol(rule.protocol, tuple.proto)
        && in_range(rule.sports, tuple.sport)
        && in_range(rule.dports, tuple.dport)
}

fn is_of_protocol(protocol: Option<u8>, proto: u8) -> bool
    ensures { result ≡ is_of_protocol protocol proto }
{
    match protocol {
        Some(number) => number == proto,
        None => true,
    }
}

fn in_range(range: Range16, number: u16) -> bool
    ensures { result ≡ in_range range number }
{
    range.lo <= number && number <= range.hi
}
