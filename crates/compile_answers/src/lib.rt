//! The answers to a document: what `compile`, `reach` and `scale` write, and the one line of what is not fit.
#![tactic(auto)]

mod compiling;
mod lines;
mod outcomes;
mod question;
mod reaching;
mod scaling;
mod spreads;
mod unfit;

pub use compiling::answer_compile;
pub use lines::write_one;
pub use question::{Question, read_question};
pub use reaching::answer_reach;
pub use scaling::answer_scale;
pub use unfit::{Reception, Unfit, valid_of, write_unfit};
