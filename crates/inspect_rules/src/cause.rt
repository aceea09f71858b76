//! What an outcome comes of.
use ov_types::{Name, RuleNo};

/// What a rule asks of a packet, in the order in which it is told what fails.
#[derive(Clone, Copy, Debug, PartialEq, Eq)]
pub enum Condition {
    Protocol,
    SourcePorts,
    DestinationPorts,
    /// The networks that the packet goes between, this way.
    Direction,
}

/// Something that the outcome of a packet comes of.
#[derive(Clone, Copy, Debug)]
pub enum Cause {
    /// The packet leaves this network.
    From {
        network: Name,
    },
    /// The packet's destination is of this network.
    To {
        network: Name,
    },
    /// A rule between the two networks is asked and does not match the packet, with the condition that fails first
    /// where the rule is read forwards, and where a rule of both directions is read mirrored.
    Skipped {
        rule: RuleNo,
        policy: Option<Name>,
        forwards: Condition,
        mirrored: Option<Condition>,
    },
    /// A rule between the two networks decides on the packet, forwards or mirrored.
    Decided {
        rule: RuleNo,
        policy: Option<Name>,
        mirrored: bool,
    },
    /// A network attaches a policy.
    Attached {
        network: Name,
        policy: Name,
    },
    /// Another network holds the packet's destination, and is not related to the one that the packet leaves.
    Unrelated {
        network: Name,
    },
}
