//! The lookups of a packet.
ghost use Rattle.std.specs.Prelude.{◌≡◌, ◌<◌, [], ◌∷◌, ◌++◌, length};

use arrayvec::ArrayVec;
use ov_types::{Addr, InstanceId, Outcome};
use std::marker::Model;

/// One lookup: the address of the agent, and the instance.
#[derive(Clone, Copy, Debug, PartialEq, Eq)]
pub struct Hop {
    pub node: Addr,
    pub instance: InstanceId,
}

impl Default for Hop {
    fn default() -> Hop {
        Hop {
            node: Addr(0),
            instance: InstanceId(0),
        }
    }
}

/// At most 64 lookups, in place.
#[derive(Drop)]
pub struct Hops {
    inner: ArrayVec<Hop, 64>,
}

impl Model for Hops {
    ghost use Rattle.std.specs.Prelude.{List};
    ghost use Rattle.packet_trace.specs.declared.hops.Hop.{Hop as Lookup};

    ghost Value = { List Lookup };

    ghost view = { λ h. h.inner.items };
}

impl Hops {
    /// No lookups.
    pub fn new() -> Self
        ensures { result ≡ [] }
    {
        Hops {
            inner: ArrayVec::new(),
        }
    }

    /// Appends a lookup.
    pub fn push(&mut self, hop: Hop)
        requires { length self.old < 64 }
        ensures { self.new ≡ self.old ++ hop ∷ [] }
    {
        self.inner.push(hop);
    }

    /// The lookups, in order.
    pub fn as_slice(&self) -> &[Hop]
        ensures { result.now ≡ self.now }
    {
        self.inner.as_slice()
    }
}

/// What becomes of a packet, and its lookups.
#[derive(Drop)]
pub struct Trace {
    pub outcome: Outcome,
    pub hops: Hops,
}
