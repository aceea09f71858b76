//! The answer of `hitless`: which packets each edit of a list interrupts, where each is made of what the accepted ones before it
//! made.
#![tactic(auto)]

mod answering;
mod edit_values;
mod input;
mod json_lines;
mod judging;
pub mod laws;
mod lines;
mod reader;
mod sparing;
mod writing;

pub use answering::answer_hitless;
pub use input::HitlessInput;
pub use reader::read_hitless;
