//! What events answer.
use config_check::EditFault;
use ov_types::{NodeRows, Outcome};

/// What an event answers.
#[derive(Drop)]
pub enum Answer {
    /// What the event asks was done, and there is nothing to tell.
    Did,
    /// There was nothing to do.
    Idle,
    /// The edit was not made, and all is as it was.
    EditRefused(EditFault),
    /// A number of rounds was done, and whether the network is settled after them.
    Rounds { rounds: u32, settled: bool },
    /// The tables of the node.
    Shown(NodeRows),
    /// What becomes of the packet.
    Traced(Outcome),
}
