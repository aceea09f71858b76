//! The network as a machine: its states, what may happen, what is answered, and rounds, as definitions with the laws of
//! every moment.
#![tactic(auto)]

pub mod event_laws;
pub mod moment_laws;
pub mod round_laws;
pub mod setup_laws;
