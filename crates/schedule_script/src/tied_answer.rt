//! What events answer where ties are kept.
use crate::{Answer, Tie};

/// What an event answers.
#[derive(Drop)]
pub enum TiedAnswer {
    /// The network took it, and answers this.
    Answered(Answer),
    /// The edit has no other fault and would break this tie. It was not made, and all is as it was.
    EditTied(Tie),
}
