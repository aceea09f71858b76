//! The addresses and the names of compute nodes, with those that one topology more has.
ghost use Rattle.std.specs.Prelude.{◌≡◌, IfOk, OnOk};
ghost use Rattle.ov_types.specs.First.{first_of};
ghost use Rattle.schedule_script.specs.Kept.{Adds, address_by, address_in, name_in};
ghost use Rattle.schedule_script.specs.Tying.{name_by};

use crate::kept::{Addresses, Names};
use config_types::{Node, Topology};
use ov_types::NoMemory;
use std::alloc::AllocError;

/// Ties the name of a compute node to its address, where it has no tie.
fn tie_address(addresses: &mut Addresses, node: &Node) -> Result<(), NoMemory>
    ensures { OnOk result (Adds (address_in addresses.old.entries) (λ name. address_by name node.now)
        (address_in addresses.new.entries)) }
{
    if addresses.contains_key(&node.name) {
        return Ok(());
    }
    addresses.insert(node.name, node.address)?;
    Ok(())
}

fn tie_addresses(addresses: &mut Addresses, topology: &Topology) -> Result<(), NoMemory>
    ensures { OnOk result (Adds (address_in addresses.old.entries)
        (λ name. first_of (address_by name) topology.now.nodes) (address_in addresses.new.entries)) }
{
    for node in topology.nodes.as_slice() {
        tie_address(addresses, node)?;
    }
    Ok(())
}

fn copied_addresses(addresses: &Addresses) -> Result<Addresses, AllocError>
    ensures { IfOk result (λ copy. copy.entries ≡ addresses.now.entries) }
{
    addresses.clone()
}

/// The ties of names, with those of a topology.
pub(crate) fn joined_addresses(
    addresses: &Addresses,
    topology: &Topology,
) -> Result<Addresses, NoMemory>
    ensures { IfOk result (λ more. Adds (address_in addresses.now.entries)
        (λ name. first_of (address_by name) topology.now.nodes) (address_in more.entries)) }
{
    let mut more = copied_addresses(addresses)?;
    tie_addresses(&mut more, topology)?;
    Ok(more)
}

/// Ties the address of a compute node to its name, where it has no tie.
fn tie_name(names: &mut Names, node: &Node) -> Result<(), NoMemory>
    ensures { OnOk result (Adds (name_in names.old.entries) (λ address. name_by address node.now)
        (name_in names.new.entries)) }
{
    if names.contains_key(&node.address) {
        return Ok(());
    }
    names.insert(node.address, node.name)?;
    Ok(())
}

fn tie_names(names: &mut Names, topology: &Topology) -> Result<(), NoMemory>
    ensures { OnOk result (Adds (name_in names.old.entries)
        (λ address. first_of (name_by address) topology.now.nodes) (name_in names.new.entries)) }
{
    for node in topology.nodes.as_slice() {
        tie_name(names, node)?;
    }
    Ok(())
}

fn copied_names(names: &Names) -> Result<Names, AllocError>
    ensures { IfOk result (λ copy. copy.entries ≡ names.now.entries) }
{
    names.clone()
}

/// The ties of addresses, with those of a topology.
pub(crate) fn joined_names(names: &Names, topology: &Topology) -> Result<Names, NoMemory>
    ensures { IfOk result (λ more. Adds (name_in names.now.entries)
        (λ address. first_of (name_by address) topology.now.nodes) (name_in more.entries)) }
{
    let mut more = copied_names(names)?;
    tie_names(&mut more, topology)?;
    Ok(more)
}
