//! The services of a chain, as many as a use can have.
ghost use Rattle.std.specs.Prelude.{◌≡◌, ◌==◌, ◌<◌, ◌≤◌, [], ◌∷◌, ◌++◌, length};

use crate::bounds::MOST_SERVICES;
use config_types::Service;
use ov_types::{Name, ServiceNo};
use std::marker::Model;

/// At most 15 services, in place.
#[derive(Drop)]
pub(crate) struct Found {
    places: [Service; MOST_SERVICES],
    len: usize,
}

impl Model for Found {
    ghost use Rattle.std.specs.Prelude.{List, ◌≡◌, ◌≤◌, take, length};
    ghost use Rattle.config_types.specs.declared.config.Service.{Service as ServiceValue};

    ghost Value = { List ServiceValue };

    ghost view = { λ a. take a.len a.places };

    ghost invariant = { λ a. (a.len ≤ 15) × (length a.places ≡ 15) };
}

impl Found {
    /// No services; the places hold a blank one of the given name.
    pub(crate) fn new(blank: Name) -> Found
        ensures { result ≡ [] }
    {
        let blank = Service {
            name: blank,
            id: ServiceNo(0),
            node: blank,
        };
        Found {
            places: [blank; MOST_SERVICES],
            len: 0,
        }
    }

    pub(crate) fn is_full(&self) -> bool
        ensures full { result ≡ (length self.now == 15) }
        ensures most { length self.now ≤ 15 }
    {
        self.len == MOST_SERVICES
    }

    pub(crate) fn len(&self) -> usize
        ensures { result ≡ length self.now }
    {
        self.len
    }

    /// Appends a service.
    pub(crate) fn push(&mut self, service: Service)
        requires { length self.old < 15 }
        ensures { self.new ≡ self.old ++ service ∷ [] }
    {
        self.places[self.len] = service;
        self.len += 1;
    }

    pub(crate) fn as_slice(&self) -> &[Service]
        ensures services { result.now ≡ self.now }
        ensures most { length self.now ≤ 15 }
    {
        &self.places[..self.len]
    }
}
