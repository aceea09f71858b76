//! How a rule matches a packet between two networks, and what is said of the one that decides.
ghost use Rattle.std.specs.Prelude.{◌≡◌};
ghost use Rattle.ov_types.specs.Access.{in_range};
ghost use Rattle.policy_rules.specs.Matching.{has_protocol, speaks_both_ways, matches_forwards};
ghost use Rattle.policy_rules.specs.Matching.{matches_mirrored, match_by, decision_by};

use crate::fitting::fits;
use crate::numbered::NumberedRule;
use config_types::{Direction, Network, Protocol, Rule};
use ov_types::{Range16, RuleNo, Tuple};

/// A rule that matches a packet, and whether mirrored.
#[derive(Clone, Copy, PartialEq, Eq)]
pub struct Match {
    pub rule: NumberedRule,
    pub mirrored: bool,
}

/// The rule that decides on a packet, and whether it was matched mirrored.
#[derive(Clone, Copy, Debug, PartialEq, Eq)]
pub struct Decision {
    pub rule: RuleNo,
    pub mirrored: bool,
}

fn in_range(range: &Range16, port: u16) -> bool
    ensures { result ≡ in_range range.now port }
{
    range.lo <= port && port <= range.hi
}

fn has_protocol(protocol: &Protocol, number: u8) -> bool
    ensures { result ≡ has_protocol protocol.now number }
{
    match protocol {
        Protocol::Any => true,
        Protocol::Number(n) => *n == number,
    }
}

fn speaks_both_ways(direction: &Direction) -> bool
    ensures { result ≡ speaks_both_ways direction.now }
{
    match direction {
        Direction::OneWay => false,
        Direction::BothWays => true,
    }
}

fn matches_forwards(rule: &Rule, from: &Network, to: &Network, tuple: &Tuple) -> bool
    ensures { result ≡ matches_forwards from.now to.now tuple.now rule.now }
{
    fits(rule, from, to)
        && has_protocol(&rule.protocol, tuple.proto)
        && in_range(&rule.source_ports, tuple.sport)
        && in_range(&rule.destination_ports, tuple.dport)
}

fn matches_mirrored(rule: &Rule, from: &Network, to: &Network, tuple: &Tuple) -> bool
    ensures { result ≡ matches_mirrored from.now to.now tuple.now rule.now }
{
    speaks_both_ways(&rule.direction)
        && fits(rule, to, from)
        && has_protocol(&rule.protocol, tuple.proto)
        && in_range(&rule.source_ports, tuple.dport)
        && in_range(&rule.destination_ports, tuple.sport)
}

/// How a rule matches, forwards before mirrored.
pub(crate) fn match_by(
    rule: NumberedRule,
    from: &Network,
    to: &Network,
    tuple: &Tuple,
) -> Option<Match>
    ensures { result ≡ match_by from.now to.now tuple.now rule }
{
    if matches_forwards(&rule.rule, from, to, tuple) {
        return Some(Match {
            rule,
            mirrored: false,
        });
    }
    if matches_mirrored(&rule.rule, from, to, tuple) {
        return Some(Match {
            rule,
            mirrored: true,
        });
    }
    None
}

/// The number of the rule that matches, and whether it matches mirrored.
pub(crate) fn decision_by(found: &Match) -> Decision
    ensures { result ≡ decision_by found.now }
{
    Decision {
        rule: found.rule.number,
        mirrored: found.mirrored,
    }
}
