//! Short lists of services that take no memory.
ghost use Rattle.std.specs.Prelude.{◌≡◌, ◌==◌, ◌<◌, [], ◌∷◌, ◌++◌, length};

use crate::numbers::ServiceNo;
use arrayvec::ArrayVec;
use std::marker::Model;

/// At most N services, in place.
#[derive(Debug, Drop)]
pub struct Services<const N: usize> {
    inner: ArrayVec<ServiceNo, N>,
}

impl<const N: usize> Model for Services<N> {
    ghost use Rattle.std.specs.Prelude.{List, length};
    ghost use Rattle.ov_types.specs.declared.numbers.ServiceNo.{ServiceNo as Number};

    ghost Value = { List Number };

    ghost view = { λ s. s.inner.items };
}

impl<const N: usize> Services<N> {
    /// No services.
    pub fn new() -> Self
        ensures { result ≡ [] }
    {
        Services {
            inner: ArrayVec::new(),
        }
    }

    /// Appends a service.
    pub fn push(&mut self, service: ServiceNo)
        requires { length self.old < N }
        ensures { self.new ≡ self.old ++ service ∷ [] }
    {
        self.inner.push(service);
    }

    /// The services, in order.
    pub fn as_slice(&self) -> &[ServiceNo]
        ensures { result.now ≡ self.now }
    {
        self.inner.as_slice()
    }

    /// How many services there are.
    pub fn len(&self) -> usize
        ensures { result ≡ length self.now }
    {
        self.inner.len()
    }

    /// Whether there are none.
    pub fn is_empty(&self) -> bool
        ensures { result ≡ (length self.now == 0) }
    {
        self.inner.is_empty()
    }
}
