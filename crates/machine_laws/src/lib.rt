//! What is true of the abstract network at every moment of every schedule: how it settles, what it then shows, which
//! packets it then delivers, that it is isolated at every moment, and what closes sessions. Laws alone.
#![tactic(auto)]

pub mod closing_laws;
pub mod compiled_laws;
pub mod headline_laws;
pub mod isolation_laws;
pub mod round_laws;
pub mod settling_laws;
pub mod tie_laws;
