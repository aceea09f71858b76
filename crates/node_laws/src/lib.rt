//! Further laws of what nodes hold and want, and of how they step: laws alone.
#![tactic(auto)]

pub mod held_laws;
pub mod premise_laws;
pub mod quiet_laws;
pub mod shown_laws;
pub mod step_laws;
