//! What changes of a configuration do to packets: what is let through from each network to each other, the objects that two
//! configurations do not share, what becomes of packets otherwise in one than in the other, and the lines of these.
#![tactic(auto)]

mod difference_lines;
mod differences;
mod fate;
pub mod laws;
mod lines;
mod objects;
mod pairs;
mod services;
mod standing;
mod way;
mod ways;

pub use difference_lines::{CameLines, DifferenceLines, WentLines};
pub use differences::{all_differences, differences_between};
pub use fate::{Difference, Fate};
pub use lines::{WayLines, joined};
pub use objects::{Object, gone};
pub use pairs::Pairs;
pub use report::LinesOf;
pub use way::{Passage, Way};
pub use ways::{ways_between, ways_found};
