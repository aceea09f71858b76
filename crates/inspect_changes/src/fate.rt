//! What becomes of packets between two networks.
use ov_types::{Name, RuleNo, Services};
use policy_regions::Region;

/// What the rules between two networks do with a packet.
#[derive(Debug, Drop)]
pub enum Fate {
    Passed {
        rule: RuleNo,
    },
    /// Through the services of a chain, in order where its rule is matched forwards, and reversed where mirrored.
    Through {
        rule: RuleNo,
        services: Services<64>,
    },
    Denied {
        rule: RuleNo,
    },
    /// No rule matches the packet, so that it is dropped.
    Unmatched,
}

/// A region of packets from one network to another, by their names, of which one configuration makes something else
/// than another.
#[derive(Debug, Drop)]
pub struct Difference {
    pub from: Name,
    pub to: Name,
    pub region: Region,
    pub was: Fate,
    pub becomes: Fate,
}
