//! The lines of `inspect` in the form that is asked for: as text, or as JSON with names beside numbers, of which each line
//! reads as its value.
#![tactic(auto)]

mod change_lines;
mod change_values;
mod form;
mod idle_lines;
mod idle_values;
pub mod laws;
mod line;
mod outcome_values;
mod reason_lines;
mod reason_values;
mod values;
mod walk_values;
mod way_lines;

pub use change_lines::{CameIn, DifferencesIn, WentIn};
pub use form::Form;
pub use idle_lines::IdleJson;
pub use line::append_line;
pub use outcome_values::{
    delivered_value, outcome_value, port_number_value, to_drop_value, to_drop_why_value,
};
pub use reason_lines::ExplainedJson;
pub use way_lines::WaysIn;
