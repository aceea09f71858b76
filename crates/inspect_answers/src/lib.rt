//! The answers of `inspect`: what policies let through from each network to each other, by which rule and through which
//! services, what differs between two configurations, which packets have another outcome than is expected, which rules decide
//! nothing, and what outcomes come of.
#![tactic(auto)]

mod answering;
mod asked;
mod comparing;
mod diffing;
mod editing;
mod expect_lines;
mod expect_reader;
mod expect_values;
mod expectation;
mod expecting;
mod explaining;
mod idle_answer;
mod idle_lines;
pub mod laws;
mod top;
mod verdict;
mod writing;

pub use asked::{Asked, asked_of, is_diff, named_by};
pub use comparing::{Ending, Which, inspect_diff};
pub use expectation::{ExpectInput, Expectation, Expected};
pub use inspect_changes::Pairs;
pub use inspect_json::Form;
pub use top::{Status, inspect};
pub use verdict::Verdict;
