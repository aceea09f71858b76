//! The walks of packets over the tables that a configuration is compiled to: a step for each lookup, with the row that it
//! takes and what that leads to.
#![tactic(auto)]

mod agent;
pub mod laws;
mod rows;
mod step;
mod step_text;
mod told_step;
mod verdicts;
mod walking;

pub use agent::{TableAgent, agents_of};
pub use schema_transform::{Compiled, compiled};
pub use step_text::StepText;
pub use told_step::{LeadsTo, Owner, ToldStep};
pub use walking::walk_of;
