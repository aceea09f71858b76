//! Visits of services, and what becomes of a packet that makes them.
ghost use Rattle.std.specs.Prelude.{◌≡◌, ◌<◌, [], ◌∷◌, ◌++◌, length};

use arrayvec::ArrayVec;
use ov_types::{PortNo, ServiceNo, Why};
use std::marker::Model;

/// A service that a packet passes, and the member of it that the packet visits.
#[derive(Clone, Copy, Default)]
pub struct Visit {
    pub service: ServiceNo,
    pub member: u16,
}

/// At most 15 visits, in place.
#[derive(Drop)]
pub struct Visits {
    inner: ArrayVec<Visit, 15>,
}

impl Model for Visits {
    ghost use Rattle.std.specs.Prelude.{List};
    ghost use Rattle.scale_out.specs.declared.visits.Visit.{Visit as Stop};

    ghost Value = { List Stop };

    ghost view = { λ v. v.inner.items };
}

impl Visits {
    /// No visits.
    pub fn new() -> Self
        ensures { result ≡ [] }
    {
        Visits {
            inner: ArrayVec::new(),
        }
    }

    /// Appends a visit.
    pub fn push(&mut self, visit: Visit)
        requires { length self.old < 15 }
        ensures { self.new ≡ self.old ++ visit ∷ [] }
    {
        self.inner.push(visit);
    }

    /// The visits, in order.
    pub fn as_slice(&self) -> &[Visit]
        ensures { result.now ≡ self.now }
    {
        self.inner.as_slice()
    }
}

/// What becomes of a packet, with the member of each service that it visits.
#[derive(Drop)]
pub enum Spread {
    Delivered { port: PortNo, visits: Visits },
    Dropped { why: Why },
}
