//! The rules between two networks, which networks they relate, and which rule decides on a packet. Nothing here asks
//! whether a configuration is valid.
#![tactic(auto)]

mod between;
mod decisions;
mod fitting;
pub mod laws;
mod matching;
mod numbered;

pub use between::{are_related, imports, passes_between, some_rule_leads};
pub use decisions::{deciding, decision};
pub use fitting::{attaches, fits};
pub use matching::{Decision, Match};
pub use numbered::{NumberedRule, all_rules};
