//! What access lists say of a packet.
use crate::numbers::InstanceId;
use crate::packet::RuleNo;

/// What the access lists of an agent say of a packet that leaves a network. `Denied` names the deny rule, or none
/// where no entry held the packet.
#[derive(Clone, Copy, Debug, PartialEq, Eq)]
pub enum Verdict {
    /// The packet goes on in its network's instance.
    Pass,
    /// The packet goes on in this instance.
    Enter(InstanceId),
    Denied { rule: Option<RuleNo> },
    /// No list of the packet's network holds where it goes.
    NoDestination,
}
