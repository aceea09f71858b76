//! The rules that are asked between two networks.
ghost use Rattle.std.specs.Prelude.{◌≡◌, ◌++◌, OnOk};
ghost use Rattle.policy_rules.specs.Matching.{deciding};
ghost use Rattle.inspect_rules.specs.Causes.{asked, decided, leading, policy_of, skipped};

use crate::between::rules_between;
use crate::cause::Cause;
use crate::conditions::failing;
use config_check::Valid;
use config_types::{Config, Network};
use ov_types::{Name, NoMemory, RuleNo, Tuple};
use policy_rules::{Match, NumberedRule, deciding};
use std::alloc::Global;

/// The name of the policy that a rule is of.
fn policy_of(config: &Config, number: RuleNo) -> Option<Name>
    ensures { result ≡ policy_of config.now number }
{
    let policies = config.policies.as_slice();
    match policies.iter().find(|p| p.sequence == number.sequence) {
        Some(policy) => Some(policy.name),
        None => None,
    }
}

/// A rule that does not match a packet either way, with what fails.
fn skipped(
    config: &Config,
    from: &Network,
    to: &Network,
    tuple: &Tuple,
    rule: &NumberedRule,
) -> Option<Cause>
    ensures { result ≡ skipped config.now from.now to.now tuple.now rule.now }
{
    let (forwards, mirrored) = failing(&rule.rule, from, to, tuple)?;
    Some(Cause::Skipped {
        rule: rule.number,
        policy: policy_of(config, rule.number),
        forwards,
        mirrored,
    })
}

/// Appends the rules before the first that matches a packet.
fn push_skipped(
    found: &mut Vec<Cause>,
    config: &Config,
    from: &Network,
    to: &Network,
    tuple: &Tuple,
    rules: &[NumberedRule],
) -> Result<(), NoMemory>
    ensures { OnOk result (found.new.items
        ≡ found.old.items ++ leading (skipped config.now from.now to.now tuple.now) rules.now) }
{
    for rule in rules {
        match skipped(config, from, to, tuple, rule) {
            Some(cause) => found.push(cause)?,
            None => return Ok(()),
        }
    }
    Ok(())
}

fn push_decided(
    found: &mut Vec<Cause>,
    config: &Config,
    decider: Option<Match>,
) -> Result<(), NoMemory>
    ensures { OnOk result (found.new.items ≡ found.old.items ++ decided config.now decider) }
{
    if let Some(decider) = decider {
        let rule = decider.rule.number;
        found.push(Cause::Decided {
            rule,
            policy: policy_of(config, rule),
            mirrored: decider.mirrored,
        })?;
    }
    Ok(())
}

/// Appends the rules that are asked between two networks, in order: those that do not match, and then the one that decides.
#[tactic(auto, using(reach_plain::proofs::Kept::few_rules))]
pub(crate) fn push_asked(
    alloc: Global,
    found: &mut Vec<Cause>,
    valid: &Valid,
    from: &Network,
    to: &Network,
    tuple: &Tuple,
) -> Result<(), NoMemory>
    ensures { OnOk result (found.new.items ≡ found.old.items ++ asked valid.now.config from.now to.now tuple.now) }
{
    let config = valid.config();
    let rules = rules_between(alloc, config, from, to)?;
    push_skipped(found, config, from, to, tuple, &rules)?;
    push_decided(found, config, deciding(config, from, to, tuple))
}
