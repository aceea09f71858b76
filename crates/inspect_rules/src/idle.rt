//! What of a configuration decides nothing, or is not in use.
use ov_types::{Items, Name, RuleNo};

/// What of a configuration decides nothing, or is not in use.
#[derive(Debug, Drop)]
pub enum Idle {
    /// A rule that decides no packet between two networks, with the rules that stand before it between some two.
    Rule { rule: RuleNo, before: Items<RuleNo> },
    /// A policy that fewer than two networks attach, and how many do.
    Policy { name: Name, networks: usize },
    /// A chain of which no use is in effect.
    Chain { name: Name },
}
