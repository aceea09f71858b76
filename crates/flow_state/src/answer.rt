//! What steps answer.
use ov_types::Outcome;
use schedule_script::TiedFault;

/// The answer to a step.
#[derive(Drop)]
pub enum FlowAnswer {
    /// The edit was made, and the table is empty.
    Edited,
    /// The edit was not made, and all is as it was.
    Refused(TiedFault),
    /// What becomes of the packet.
    Traced(Outcome),
}
