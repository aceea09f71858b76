//! Groups: the members of services that have several.

use crate::documents::{valid, value_of};
use crate::fault::{CaseFault, told};
use crate::readings::push_fault;
use config_check::Valid;
use config_model::ReadRefusal;
use ov_io::TextOut;
use ov_types::NoMemory;
use scale_out::{Group, Groups};
use std::alloc::Global;

/// The services of a list of groups and their members, or the first fault of the list.
pub(crate) fn tell_groups(
    alloc: Global,
    list: &str,
    document: &str,
    out: &mut TextOut,
) -> Result<(), CaseFault> {
    let valid = valid(alloc, document)?;
    tell_list(alloc, list, &valid, out)
}

fn tell_list(alloc: Global, list: &str, valid: &Valid, out: &mut TextOut) -> Result<(), CaseFault> {
    let value = value_of(alloc, list)?;
    match Groups::read(alloc, &value, valid.config()) {
        Ok(groups) => told(push_groups(groups.as_slice(), out)),
        Err(ReadRefusal::Doc(fault)) => told(push_fault(&fault, out)),
        Err(ReadRefusal::NoMemory) => Err(CaseFault::NoMemory),
    }
}

fn push_groups(groups: &[Group], out: &mut TextOut) -> Result<(), NoMemory> {
    out.push(b"groups")?;
    for group in groups {
        let service = group.service;
        let members = group.members.as_slice();
        write!(out, " {service} {members:?}")?;
    }
    Ok(())
}
