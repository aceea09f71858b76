//! Ways.
use ov_types::Services;
use policy_regions::Region;
use policy_rules::Decision;

/// How packets are let through.
#[derive(Debug, Drop)]
pub enum Passage {
    Straight,
    /// Through the services of a chain, in order where its rule is matched forwards, and reversed where mirrored.
    Through { services: Services<64> },
}

/// A region of packets that a rule lets through from one network to another, and how.
#[derive(Debug, Drop)]
pub struct Way {
    pub region: Region,
    pub decision: Decision,
    pub passage: Passage,
}
