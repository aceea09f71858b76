//! How things that are listed are told.

use case_lines::begin;
use ov_io::TextOut;
use ov_types::{InstanceId, NoMemory, Prefix, TableRow, VpnKey, VpnRoute};

/// A key with its route, and the targets of that.
pub(crate) fn push_told(key: &VpnKey, route: &VpnRoute, out: &mut TextOut) -> Result<(), NoMemory> {
    let VpnKey { rd, prefix } = *key;
    let next_hop = route.next_hop;
    let label = route.label;
    begin(out)?;
    write!(out, "{rd} {prefix} {next_hop} {label}")?;
    for target in route.targets.items() {
        write!(out, " {target}")?;
    }
    Ok(())
}

pub(crate) fn push_key(key: &VpnKey, out: &mut TextOut) -> Result<(), NoMemory> {
    let VpnKey { rd, prefix } = *key;
    begin(out)?;
    write!(out, "{rd} {prefix}")
}

/// The rows of instances.
pub(crate) fn push_rows(
    rows: &[((InstanceId, Prefix), TableRow)],
    out: &mut TextOut,
) -> Result<(), NoMemory> {
    for ((instance, prefix), row) in rows {
        begin(out)?;
        write!(out, "{instance} {prefix} {row}")?;
    }
    Ok(())
}
