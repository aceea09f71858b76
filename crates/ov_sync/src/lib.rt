//! Keyed tables that are kept alike at two ends by sending the changes.
#![tactic(auto)]

mod first;
pub mod laws;
mod receiving;
mod sending;

pub use first::first_of_each;
pub use receiving::SyncIn;
pub use sending::SyncOut;

/// One change of a keyed table.
#[derive(Clone, Debug, PartialEq, Eq, Drop)]
pub enum Delta<K, V> {
    /// The key has this value from now on.
    Put(K, V),
    /// The key has no value any more.
    Drop(K),
}
