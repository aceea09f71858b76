//! Packets, and what becomes of them.
use crate::numbers::PortNo;
use crate::prefix::Addr;
use crate::services::Services;
use std::fmt;

/// A rule: the sequence of its policy, and its position there, counted from 1.
#[derive(Clone, Copy, Debug, PartialEq, Eq, PartialOrd, Ord)]
pub struct RuleNo {
    pub sequence: u16,
    pub position: u16,
}

impl fmt::Display for RuleNo {
    ghost use Rattle.std.specs.Prelude.{Some};
    ghost use Rattle.ov_types.specs.Rows.{rule_text};

    ghost output = { λ r. Some (rule_text r) };

    fn fmt<W: fmt::Write>(&self, f: &mut fmt::Formatter<W>) -> fmt::Result {
        let sequence = self.sequence;
        let position = self.position;
        write!(f, "{sequence}/{position}")
    }
}

/// The port numbers from `lo` to `hi`, both included.
#[derive(Clone, Copy, Debug, PartialEq, Eq)]
pub struct Range16 {
    pub lo: u16,
    pub hi: u16,
}

/// What policies look at: the IP protocol, and the source and destination ports.
#[derive(Clone, Copy, Debug, PartialEq, Eq)]
pub struct Tuple {
    pub proto: u8,
    pub sport: u16,
    pub dport: u16,
}

/// A packet as it leaves a port.
#[derive(Clone, Copy, Debug, PartialEq, Eq)]
pub struct Packet {
    pub source: PortNo,
    pub destination: Addr,
    pub tuple: Tuple,
}

/// Why a packet is dropped. `Denied` names the deny rule, or none where no rule matched.
#[derive(Clone, Copy, Debug, PartialEq, Eq)]
pub enum Why {
    NoSourcePort,
    NoDestination,
    NoRoute,
    Denied { rule: Option<RuleNo> },
    NoLabel,
    TtlExpired,
}

/// What becomes of a packet.
#[derive(Debug, Drop)]
pub enum Outcome {
    Delivered {
        port: PortNo,
        services: Services<64>,
    },
    Dropped {
        why: Why,
    },
}
