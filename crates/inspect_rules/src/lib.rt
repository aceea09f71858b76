//! Which rules decide. Why packets have their outcomes: the networks that they go between, the rules that are asked there with
//! what fails of each, and the rule that decides. And what of a configuration decides nothing, or is not in use: rules that decide
//! on no packet, with the rules before them, policies that fewer than two networks attach, and chains without a use in effect.
#![tactic(auto)]

mod asking;
mod between;
mod cause;
mod cause_text;
mod causes;
mod conditions;
mod deciders;
mod idle;
mod idling;
pub mod laws;
mod standing;
mod using;

pub use cause::{Cause, Condition};
pub use cause_text::CauseText;
pub use causes::causes_of;
pub use idle::Idle;
pub use idling::idle_of;
