//! What an agent forwards by: its routes, and what its labels lead to.
#![tactic(auto)]

mod fib;
mod labels;
pub mod laws;
mod span;
mod trie;

pub use fib::Fib;
pub use labels::Labels;
