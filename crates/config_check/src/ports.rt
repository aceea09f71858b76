//! The rules of ports: each address lies in the port's network, and stands there once.
ghost use Rattle.std.specs.Prelude.{◌≡◌, find, option_copied, IfOk};
ghost use Rattle.config_check.specs.Finding.{network_named};
ghost use Rattle.config_check.specs.Rules.{holds_address, is_outside, broken_outside, broken_taken};

use crate::meeting::{Meets, first_meeting, first_of_each_key};
use crate::refusal::Refusal;
use config_types::{Config, Network, Port};
use ov_types::{Addr, Name, NoMemory};
use std::alloc::Global;
use std::collections::BTreeMap;
use std::marker::Model;

/// Whether a subnet of a network holds an address.
pub fn holds_address(network: &Network, address: Addr) -> bool
    ensures { result ≡ holds_address network.now address.0 }
{
    network
        .subnets
        .as_slice()
        .iter()
        .any(|p| p.contains(address))
}

impl Meets for Network {
    ghost use Rattle.std.specs.Cmp.Lexicographic.{texts_ties};
    ghost use Rattle.ov_types.specs.First.{same_name};

    type Key = Name;

    ghost meets = { λ a b. same_name a.name b.name };

    ghost key_of = { λ network. network.name };

    fn key(&self) -> Name {
        self.name
    }

    ghost by_key = { λ a b. texts_ties a.name b.name };
}

/// The networks of a configuration, with the first of each name. Contracts see the configuration.
#[derive(Drop)]
struct NamedNetworks<'a> {
    config: &'a Config,
    first: BTreeMap<Name, &'a Network>,
}

impl<'a> Model for NamedNetworks<'a> {
    ghost use Rattle.std.specs.Prelude.{◌≡◌, List, ℕ, option_copied};
    ghost use Rattle.std.specs.BTreeMap.{get};
    ghost use Rattle.std.specs.Cmp.Lexicographic.{slice_cmp};
    ghost use Rattle.std.specs.Ordering.{nat_cmp};
    ghost use Rattle.config_check.specs.Finding.{network_named};
    ghost use Rattle.config_types.specs.declared.config.Config.{Config};

    ghost Value = { Config };

    ghost view = { λ networks. networks.config.now };

    ghost invariant = { λ networks. (name : List ℕ) → option_copied (get (slice_cmp nat_cmp) networks.first name)
        ≡ network_named networks.config.now name };
}

impl<'a> NamedNetworks<'a> {
    fn new(alloc: Global, config: &'a Config) -> Result<NamedNetworks<'a>, NoMemory>
        ensures { IfOk result (λ networks. networks ≡ config.now) }
    {
        let first = first_of_each_key(alloc, config.networks.as_slice())?;
        Ok(NamedNetworks { config, first })
    }

    fn named(&self, name: &Name) -> Option<&'a Network>
        ensures { option_copied result ≡ network_named self.now name.now }
    {
        self.first.get(name).copied()
    }
}

/// Whether the port's network is there, and has no subnet that holds the port's address.
fn is_outside(networks: &NamedNetworks<'_>, port: &Port) -> bool
    ensures { result ≡ is_outside networks.now port.now }
{
    match networks.named(&port.network) {
        Some(network) => !holds_address(network, port.address),
        None => false,
    }
}

fn first_outside<'a>(networks: &NamedNetworks<'_>, ports: &'a [Port]) -> Option<&'a Port>
    ensures { option_copied result ≡ find (is_outside networks.now) ports.now }
{
    ports.iter().find(|p| is_outside(networks, p))
}

/// The first port whose address is in no subnet of its network.
#[tactic(auto, unfolding(crate::specs::Rules::broken_outside))]
pub(crate) fn broken_outside(alloc: Global, config: &Config) -> Result<Option<Refusal>, NoMemory>
    ensures { IfOk result (λ found. found ≡ broken_outside config.now) }
{
    let networks = NamedNetworks::new(alloc, config)?;
    match first_outside(&networks, config.ports.as_slice()) {
        Some(port) => Ok(Some(Refusal::AddressOutside { port: port.name })),
        None => Ok(None),
    }
}

impl Meets for Port {
    ghost use Rattle.std.specs.Cmp.{both_tied, unsigned_ties};
    ghost use Rattle.std.specs.Cmp.Lexicographic.{texts_ties};
    ghost use Rattle.config_check.specs.Rules.{share_address};

    type Key = (Name, u32);

    ghost meets = { share_address };

    ghost key_of = { λ port. (port.network, port.address.0) };

    fn key(&self) -> (Name, u32) {
        (self.network, self.address.0)
    }

    ghost by_key = { λ p q. both_tied _ _ _ _ (texts_ties p.network q.network) (unsigned_ties p.address.0 q.address.0) };
}

/// The first port that has the network and the address of an earlier one.
#[tactic(auto, unfolding(crate::specs::Rules::broken_taken))]
pub(crate) fn broken_taken(alloc: Global, config: &Config) -> Result<Option<Refusal>, NoMemory>
    ensures { IfOk result (λ found. found ≡ broken_taken config.now) }
{
    match first_meeting(alloc, config.ports.as_slice())? {
        Some((first, second)) => Ok(Some(Refusal::AddressTaken {
            first: first.name,
            second: second.name,
        })),
        None => Ok(None),
    }
}
