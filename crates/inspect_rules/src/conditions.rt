//! The conditions of rules that packets fail.
ghost use Rattle.std.specs.Prelude.{◌≡◌};
ghost use Rattle.ov_types.specs.Access.{in_range};
ghost use Rattle.policy_rules.specs.Matching.{has_protocol};
ghost use Rattle.inspect_rules.specs.Causes.{failing, fails_forwards, fails_mirrored, first_failing};

use crate::cause::Condition;
use config_types::{Direction, Network, Protocol, Rule};
use ov_types::{Range16, Tuple};
use policy_rules::fits;

fn in_range(range: Range16, port: u16) -> bool
    ensures { result ≡ in_range range port }
{
    range.lo <= port && port <= range.hi
}

fn has_protocol(protocol: &Protocol, number: u8) -> bool
    ensures { result ≡ has_protocol protocol.now number }
{
    match protocol {
        Protocol::Any => true,
        Protocol::Number(n) => *n == number,
    }
}

/// The first of four conditions that fails.
fn first_failing(
    protocol: bool,
    source: bool,
    destination: bool,
    direction: bool,
) -> Option<Condition>
    ensures { result ≡ first_failing protocol source destination direction }
{
    if !protocol {
        return Some(Condition::Protocol);
    }
    if !source {
        return Some(Condition::SourcePorts);
    }
    if !destination {
        return Some(Condition::DestinationPorts);
    }
    if !direction {
        return Some(Condition::Direction);
    }
    None
}

fn fails_forwards(rule: &Rule, from: &Network, to: &Network, tuple: &Tuple) -> Option<Condition>
    ensures { result ≡ fails_forwards from.now to.now tuple.now rule.now }
{
    first_failing(
        has_protocol(&rule.protocol, tuple.proto),
        in_range(rule.source_ports, tuple.sport),
        in_range(rule.destination_ports, tuple.dport),
        fits(rule, from, to),
    )
}

fn fails_mirrored(rule: &Rule, from: &Network, to: &Network, tuple: &Tuple) -> Option<Condition>
    ensures { result ≡ fails_mirrored from.now to.now tuple.now rule.now }
{
    first_failing(
        has_protocol(&rule.protocol, tuple.proto),
        in_range(rule.source_ports, tuple.dport),
        in_range(rule.destination_ports, tuple.sport),
        fits(rule, to, from),
    )
}

/// The first condition of a rule that a packet from one network to another fails, read forwards, and read mirrored where
/// the rule is of both directions. There is none where it matches.
pub(crate) fn failing(
    rule: &Rule,
    from: &Network,
    to: &Network,
    tuple: &Tuple,
) -> Option<(Condition, Option<Condition>)>
    ensures { result ≡ failing rule.now.direction (fails_forwards from.now to.now tuple.now rule.now)
        (fails_mirrored from.now to.now tuple.now rule.now) }
{
    let forwards = fails_forwards(rule, from, to, tuple);
    let mirrored = fails_mirrored(rule, from, to, tuple);
    match (forwards, rule.direction, mirrored) {
        (None, _, _) => None,
        (Some(forwards), Direction::OneWay, _) => Some((forwards, None)),
        (Some(_), Direction::BothWays, None) => None,
        (Some(forwards), Direction::BothWays, Some(mirrored)) => Some((forwards, Some(mirrored))),
    }
}
