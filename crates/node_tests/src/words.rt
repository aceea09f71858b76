//! Words of steps.

use case_lines::{CaseFault, address, long_number, short_number};
use ov_types::written::prefix_from;
use ov_types::{InstanceId, Items, Name, NodeId, Prefix, Rd, VpnKey};
use std::alloc::Global;

pub(crate) fn instance(word: &str) -> Result<InstanceId, CaseFault> {
    Ok(InstanceId(short_number(word)?))
}

pub(crate) fn prefix(word: &str) -> Result<Prefix, CaseFault> {
    prefix_from(word).ok_or(CaseFault::Unreadable)
}

/// A distinguisher in hexadecimal digits, and a prefix.
pub(crate) fn key(alloc: Global, digits: &str, block: &str) -> Result<VpnKey, CaseFault> {
    Ok(VpnKey {
        rd: Rd(long_number(alloc, digits)?),
        prefix: prefix(block)?,
    })
}

/// A node's name, `@` and its address.
pub(crate) fn id(word: &str) -> Result<NodeId, CaseFault> {
    let (name, place) = word.split_once("@").ok_or(CaseFault::Unreadable)?;
    Ok(NodeId {
        name: Name::new(name).ok_or(CaseFault::Unreadable)?,
        address: address(place)?,
    })
}

/// The nodes that words name, each with its address.
pub(crate) fn ids(alloc: Global, words: &str) -> Result<Items<NodeId>, CaseFault> {
    let mut ids = Items::new(alloc);
    match push_ids(words, &mut ids) {
        Ok(()) => Ok(ids),
        Err(fault) => Err(fault),
    }
}

fn push_ids(words: &str, ids: &mut Items<NodeId>) -> Result<(), CaseFault> {
    for word in words.split_whitespace() {
        ids.push(id(word)?)?;
    }
    Ok(())
}
