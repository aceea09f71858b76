//! The rules of policies, with the numbers that name them.
ghost use Rattle.std.specs.Prelude.{◌≡◌, ◌++◌, ◌≤◌, nat_le, length, IfOk, OnOk, IsTrue};
ghost use Rattle.std.specs.List.{list_all};
ghost use Rattle.policy_rules.specs.Related.{numbered_rules, all_rules};

use config_types::{Config, Policy, Rule};
use ov_types::{NoMemory, RuleNo};
use std::alloc::Global;

/// A rule, with the number that names it.
#[derive(Clone, Copy, PartialEq, Eq)]
pub struct NumberedRule {
    pub number: RuleNo,
    pub rule: Rule,
}

fn push_rules(rules: &mut Vec<NumberedRule>, policy: &Policy) -> Result<(), NoMemory>
    requires { length policy.now.rules ≤ 16 }
    ensures { OnOk result (rules.new.items ≡ rules.old.items ++ numbered_rules policy.now) }
{
    let mut position = 1;
    for rule in policy.rules.as_slice() {
        let number = RuleNo {
            sequence: policy.sequence,
            position,
        };
        rules.push(NumberedRule {
            number,
            rule: *rule,
        })?;
        position += 1;
    }
    Ok(())
}

/// The rules of all policies, in the document's order, where no policy has too many.
pub fn all_rules(alloc: Global, config: &Config) -> Result<Vec<NumberedRule>, NoMemory>
    requires { IsTrue (list_all (λ p. nat_le (length p.rules) 16) config.now.policies) }
    ensures { IfOk result (λ v. v.items ≡ all_rules config.now) }
{
    let mut rules = Vec::new(alloc);
    for policy in config.policies.as_slice() {
        push_rules(&mut rules, policy)?;
    }
    Ok(rules)
}
