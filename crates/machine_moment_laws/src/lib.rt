//! What the events of a schedule answer, against what its configurations compile to, with edits that break ties refused and
//! without; and what is true of the machine at every moment of every schedule, settled or not: which packets were permitted, how
//! soon what is taken away is gone, what a change keeps while it goes on, and how soon what it interrupted is back. Laws alone.
#![tactic(auto)]

pub mod again_laws;
pub mod common_laws;
pub mod compiled_laws;
pub mod kept_laws;
mod numbers;
pub mod permission_laws;
pub mod recovery_laws;
pub mod revocation_laws;
pub mod tied_laws;

pub use numbers::{
    a_control_node_shows_its_tables, a_packet_goes_where_policies_permit, an_agent_shows_its_rows,
    each_service_is_passed_once, rounds_are_few, settle_takes_few_rounds,
    settled_answers_are_compiled,
};
