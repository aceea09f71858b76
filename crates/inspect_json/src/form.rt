//! The form of lines.

/// The form in which lines are written.
#[derive(Clone, Copy, PartialEq, Eq)]
pub enum Form {
    Text,
    /// One object a line.
    Json,
}
