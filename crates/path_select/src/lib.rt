//! Which of the paths to one prefix is used.
#![tactic(auto)]

pub mod laws;
mod selection;
mod steps;

pub use selection::{Path, better, select, select_counted};
pub use steps::Steps;
