//! Which changes of a configuration interrupt no packet, as laws, and which packets a change interrupts. Tuples of packets on
//! which both configurations decide alike make a cell, and one tuple of each cell is asked.
#![tactic(auto)]

mod cells;
mod changes;
mod comparing;
mod course;
mod ends;
mod joints;
pub mod laws;
mod lines;
mod openings;
mod steady;
mod stops;
mod uses;

pub use comparing::{interruptions, is_hitless};
pub use course::Course;
pub use lines::{Difference, Interruption};
pub use stops::Stop;
