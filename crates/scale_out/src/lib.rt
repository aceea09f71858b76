//! Services of several members, and the members that each packet visits.
#![tactic(auto)]

mod choice;
mod document;
mod group_reader;
mod groups;
pub mod laws;
mod spread;
mod visits;

pub use choice::choose;
pub use document::{ScaleInput, read_scale};
pub use groups::{Group, Groups};
pub use spread::scale_reach;
pub use visits::{Spread, Visit, Visits};
