//! The chain that a use leads packets through.
ghost use Rattle.std.specs.Prelude.{◌≡◌};
ghost use Rattle.hitless_cells.specs.Openings.{chain_in_policy, chain_in_rule, chain_of_use, speaks_of, used_chain};
ghost use Rattle.ov_types.specs.First.{first_of};

use config_types::{Action, Config, Direction, Network, Policy, Rule};
use ov_types::Name;
use policy_rules::{attaches, fits};

/// The chain that an action leads packets through, if by the use of this number.
fn chain_of_use(use_no: u16, action: &Action) -> Option<Name>
    ensures { result ≡ chain_of_use use_no action.now }
{
    match action {
        Action::Through {
            chain,
            use_no: number,
        } if *number == use_no => Some(*chain),
        _ => None,
    }
}

/// Whether a rule speaks of packets from one network into another, or of those that answer them.
fn speaks_of(own: &Network, target: &Network, rule: &Rule, mirrored: bool) -> bool
    ensures { result ≡ speaks_of own.now target.now rule.now mirrored }
{
    if mirrored {
        return matches!(rule.direction, Direction::BothWays) && fits(rule, target, own);
    }
    fits(rule, own, target)
}

fn chain_in_rule(
    own: &Network,
    target: &Network,
    use_no: u16,
    mirrored: bool,
    rule: &Rule,
) -> Option<Name>
    ensures { result ≡ chain_in_rule own.now target.now use_no mirrored rule.now }
{
    if speaks_of(own, target, rule, mirrored) {
        return chain_of_use(use_no, &rule.action);
    }
    None
}

#[tactic(auto, using(config_check::proofs::Lists::asked))]
fn chain_in_rules(
    own: &Network,
    target: &Network,
    use_no: u16,
    mirrored: bool,
    rules: &[Rule],
) -> Option<Name>
    ensures { result ≡ first_of (chain_in_rule own.now target.now use_no mirrored) rules.now }
{
    for rule in rules {
        if let Some(chain) = chain_in_rule(own, target, use_no, mirrored, rule) {
            return Some(chain);
        }
    }
    None
}

/// The chain of a use among the rules of a policy that both networks attach.
fn chain_in_policy(
    own: &Network,
    target: &Network,
    use_no: u16,
    mirrored: bool,
    policy: &Policy,
) -> Option<Name>
    ensures { result ≡ chain_in_policy own.now target.now use_no mirrored policy.now }
{
    if attaches(own, policy) && attaches(target, policy) {
        return chain_in_rules(own, target, use_no, mirrored, policy.rules.as_slice());
    }
    None
}

/// The chain that a use leads packets from one network into another through.
#[tactic(auto, using(config_check::proofs::Lists::asked))]
pub(crate) fn used_chain(
    config: &Config,
    own: &Network,
    target: &Network,
    use_no: u16,
    mirrored: bool,
) -> Option<Name>
    ensures { result ≡ used_chain config.now own.now target.now use_no mirrored }
{
    for policy in config.policies.as_slice() {
        if let Some(chain) = chain_in_policy(own, target, use_no, mirrored, policy) {
            return Some(chain);
        }
    }
    None
}
