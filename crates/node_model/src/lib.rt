//! What control nodes and agents hold and want, and how they step, as definitions.
#![tactic(auto)]

pub mod agent_laws;
pub mod control_laws;
pub mod key_laws;
pub mod local_laws;
