//! Networks between which a change leaves the ways, the ports and their compute nodes as they are, so that it interrupts no
//! packet from one to the other.
ghost use Rattle.std.specs.Prelude.{◌≡◌};
ghost use Rattle.std.specs.List.{list_all, list_any};
ghost use Rattle.hitless_cells.specs.Steady.{arrives_alike, ends_stay, is_same, is_steady, leads_between, leads_on};
ghost use Rattle.hitless_cells.specs.Steady.{policy_leads, rule_leads, stays, ways_stay};

use crate::changes::Change;
use crate::ends::Ends;
use crate::joints::Joint;
use crate::openings::Between;
use config_check::Valid;
use config_types::{Action, Config, Network, Policy, Rule};
use policy_rules::{attaches, fits};

fn leads_on(action: &Action) -> bool
    ensures { result ≡ leads_on action.now }
{
    matches!(action, Action::Through { .. })
}

/// Whether a rule speaks of packets between two networks, either way, and leads them through a chain.
fn rule_leads(own: &Network, target: &Network, rule: &Rule) -> bool
    ensures { result ≡ rule_leads own.now target.now rule.now }
{
    (fits(rule, own, target) || fits(rule, target, own)) && leads_on(&rule.action)
}

fn some_rule_leads(own: &Network, target: &Network, rules: &[Rule]) -> bool
    ensures { result ≡ list_any (rule_leads own.now target.now) rules.now }
{
    rules.iter().any(|rule| rule_leads(own, target, rule))
}

/// Whether two networks attach a policy that has such a rule.
fn policy_leads(own: &Network, target: &Network, policy: &Policy) -> bool
    ensures { result ≡ policy_leads own.now target.now policy.now }
{
    attaches(own, policy)
        && attaches(target, policy)
        && some_rule_leads(own, target, policy.rules.as_slice())
}

fn some_policy_leads(own: &Network, target: &Network, policies: &[Policy]) -> bool
    ensures { result ≡ list_any (policy_leads own.now target.now) policies.now }
{
    policies
        .iter()
        .any(|policy| policy_leads(own, target, policy))
}

/// Whether some rule between two networks leads packets through a chain.
fn leads_between(config: &Config, own: &Network, target: &Network) -> bool
    ensures { result ≡ leads_between config.now own.now target.now }
{
    some_policy_leads(own, target, config.policies.as_slice())
}

/// Whether packets stay inside one network before and after, or go from one into another where no rule leads through a chain.
fn ways_stay(before: &Between<'_>, after: &Between<'_>) -> bool
    ensures { result ≡ ways_stay before.now.valid.now before.now.own.now before.now.target.now
        after.now.valid.now after.now.own.now after.now.target.now }
{
    if before.target.name == before.own.name {
        return after.target.name == after.own.name;
    }
    after.target.name != after.own.name
        && (!leads_between(before.valid.config(), before.own, before.target)
            && !leads_between(after.valid.config(), after.own, after.target))
}

fn is_same(change: Change) -> bool
    ensures { result ≡ is_same change }
{
    matches!(change, Change::Same)
}

fn stays(joint: &Joint) -> bool
    ensures { result ≡ stays joint.now }
{
    is_same(joint.change)
}

fn arrives_alike(joint: &Joint) -> bool
    ensures { result ≡ arrives_alike joint.now }
{
    joint.before.id.0 == joint.after.id.0 && is_same(joint.change)
}

fn all_stay(joints: &[Joint]) -> bool
    ensures { result ≡ list_all stays joints.now }
{
    joints.iter().all(|joint| stays(joint))
}

fn all_arrive_alike(joints: &[Joint]) -> bool
    ensures { result ≡ list_all arrives_alike joints.now }
{
    joints.iter().all(|joint| arrives_alike(joint))
}

/// Whether both networks keep their numbers, and their ports stay as they are.
fn ends_stay(from: &Ends, to: &Ends) -> bool
    ensures { result ≡ ends_stay from.now to.now }
{
    (from.before.id.0 == from.after.id.0 && to.before.id.0 == to.after.id.0)
        && (all_stay(from.joints.as_slice()) && all_arrive_alike(to.joints.as_slice()))
}

/// Whether the ways between the networks and their ports stay as they are.
pub(crate) fn is_steady(before: &Valid, after: &Valid, from: &Ends, to: &Ends) -> bool
    ensures { result ≡ is_steady before.now after.now from.now to.now }
{
    let before = Between {
        valid: before,
        own: &from.before,
        target: &to.before,
    };
    let after = Between {
        valid: after,
        own: &from.after,
        target: &to.after,
    };
    ends_stay(from, to) && ways_stay(&before, &after)
}
