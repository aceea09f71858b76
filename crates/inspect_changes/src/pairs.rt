//! The networks that ways are asked for of.
use ov_types::Name;

/// From which networks ways are asked for, and to which.
#[derive(Clone, Copy, PartialEq, Eq)]
pub enum Pairs {
    /// From each network to each other.
    All,
    Between { from: Name, to: Name },
}
