//! What ties the running network to the state of the machine for which it stands: what its nodes hear, tell and hold, and
//! what each event makes of them. Laws alone.
#![tactic(auto)]

pub mod hearing_laws;
pub mod holding_laws;
pub mod peering_laws;
pub mod step_laws;
pub mod telling_laws;
