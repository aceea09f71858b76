//! The ties of the configurations so far.
ghost use Rattle.std.specs.Prelude.{◌≡◌, IfOk};
ghost use Rattle.schedule_script.specs.Kept.{AreAlike, ties_in};
ghost use Rattle.schedule_script.specs.Tying.{ties_of};

use crate::joining::{joined, rules_of};
use config_check::Valid;
use ov_types::{Addr, InstanceId, Name, NoMemory, PortNo};
use std::alloc::Global;
use std::collections::{BTreeMap, BTreeSet};
use std::marker::Model;

/// The network of each port number.
pub(crate) type Ports = BTreeMap<PortNo, InstanceId>;

/// The left and the right network of each use number.
pub(crate) type Uses = BTreeMap<u16, (InstanceId, InstanceId)>;

/// The pairs of networks that were related, each both ways round.
pub(crate) type Related = BTreeSet<(InstanceId, InstanceId)>;

/// The address of each name of a compute node.
pub(crate) type Addresses = BTreeMap<Name, Addr>;

/// The name at each address of a compute node.
pub(crate) type Names = BTreeMap<Addr, Name>;

/// What the configurations of a run so far agree on. Contracts see it as the entries that are kept.
#[derive(Drop)]
pub struct Ties {
    pub(crate) ports: Ports,
    pub(crate) uses: Uses,
    pub(crate) related: Related,
    pub(crate) addresses: Addresses,
    pub(crate) names: Names,
}

impl Model for Ties {
    ghost use Rattle.schedule_script.specs.Kept.{Kept};

    ghost Value = { Kept };

    ghost view = { λ t. record {
      ports = t.ports.entries;
      uses = t.uses.entries;
      related = t.related.keys;
      addresses = t.addresses.entries;
      names = t.names.entries;
    } };
}

impl Ties {
    /// The ties of one configuration.
    pub fn new(alloc: Global, valid: &Valid) -> Result<Ties, NoMemory>
        ensures { IfOk result (λ ties. AreAlike (ties_in ties) (ties_of valid.now)) }
    {
        let none = Ties {
            ports: BTreeMap::new(alloc),
            uses: BTreeMap::new(alloc),
            related: BTreeSet::new(alloc),
            addresses: BTreeMap::new(alloc),
            names: BTreeMap::new(alloc),
        };
        let rules = rules_of(alloc, valid)?;
        joined(alloc, &none, valid, &rules)
    }

    /// The network of a port number: the first that it was in. It takes no memory.
    pub fn port(&self, number: PortNo) -> Option<InstanceId>
        ensures { result ≡ (ties_in self.now).port number }
    {
        self.ports.get(&number).copied()
    }

    /// The left and the right network of a use number: the first that it led from and to. It takes no memory.
    pub fn chain_use(&self, number: u16) -> Option<(InstanceId, InstanceId)>
        ensures { result ≡ (ties_in self.now).chain_use number }
    {
        self.uses.get(&number).copied()
    }

    /// Whether a configuration so far related two networks. It takes no memory.
    pub fn was_related(&self, a: InstanceId, b: InstanceId) -> bool
        ensures { result ≡ (ties_in self.now).was_related a b }
    {
        self.related.contains(&(a, b))
    }

    /// The address of a compute node's name: the first that it had. It takes no memory.
    pub fn address(&self, name: &Name) -> Option<Addr>
        ensures { result ≡ (ties_in self.now).address name.now }
    {
        self.addresses.get(name).copied()
    }

    /// The name at a compute node's address: the first that was there. It takes no memory.
    pub fn name(&self, address: Addr) -> Option<Name>
        ensures { result ≡ (ties_in self.now).name address }
    {
        self.names.get(&address).copied()
    }
}
