//! What an edit makes of a configuration.
ghost use Rattle.std.specs.Prelude.{IfOk, IsTrue};
ghost use Rattle.config_types.specs.Form.{has_edit_form};

use crate::documents::{valid, value_of};
use crate::fault::{CaseFault, told};
use config_check::{EditFault, EditRefusal, Valid, apply_edit};
use config_model::read_edit;
use config_types::{Edit, Network, Node, Port};
use ov_io::TextOut;
use ov_types::NoMemory;
use std::alloc::Global;

pub(crate) fn edit_of(alloc: Global, text: &str) -> Result<Edit, CaseFault>
    ensures { IfOk result (λ edit. IsTrue (has_edit_form edit)) }
{
    let value = value_of(alloc, text)?;
    match read_edit(alloc, &value) {
        Ok(edit) => Ok(edit),
        Err(_) => Err(CaseFault::Unreadable),
    }
}

/// What an edit makes of the configuration of a document, which stays as it was.
pub(crate) fn tell_edited(
    alloc: Global,
    edit: &str,
    document: &str,
    out: &mut TextOut,
) -> Result<(), CaseFault> {
    let valid = valid(alloc, document)?;
    tell_edit(alloc, edit, &valid, out)
}

fn tell_edit(alloc: Global, edit: &str, valid: &Valid, out: &mut TextOut) -> Result<(), CaseFault> {
    let edit = edit_of(alloc, edit)?;
    match apply_edit(alloc, valid, &edit) {
        Ok(made) => told(push_made(&made, out)),
        Err(EditRefusal::Edit(fault)) => told(push_fault(&fault, out)),
        Err(EditRefusal::NoMemory) => Err(CaseFault::NoMemory),
    }
}

pub(crate) fn push_fault(fault: &EditFault, out: &mut TextOut) -> Result<(), NoMemory> {
    match fault {
        EditFault::Missing { name } => write!(out, "Missing {name}"),
        EditFault::Rule(refusal) => write!(out, "{refusal}"),
    }
}

/// The names of networks, and the names and addresses of ports and of compute nodes.
fn push_made(made: &Valid, out: &mut TextOut) -> Result<(), NoMemory> {
    push_networks(made.config().networks.as_slice(), out)?;
    push_ports(made.config().ports.as_slice(), out)?;
    push_nodes(made.topology().nodes.as_slice(), out)
}

fn push_networks(networks: &[Network], out: &mut TextOut) -> Result<(), NoMemory> {
    for network in networks {
        let name = network.name;
        write!(out, "{name},")?;
    }
    out.push(b" ")
}

fn push_ports(ports: &[Port], out: &mut TextOut) -> Result<(), NoMemory> {
    for port in ports {
        let name = port.name;
        let address = port.address;
        write!(out, "{name}@{address},")?;
    }
    out.push(b" ")
}

fn push_nodes(nodes: &[Node], out: &mut TextOut) -> Result<(), NoMemory> {
    for node in nodes {
        let name = node.name;
        let address = node.address;
        write!(out, "{name}@{address},")?;
    }
    Ok(())
}
