//! Tables, from what is stored.
ghost use Rattle.std.specs.Prelude.{◌≡◌, ◌++◌, [], IfOk, OnOk};
ghost use Rattle.std.specs.BTreeMap.{IsOrdered};
ghost use Rattle.std.specs.List.{cons_option, filter_map};
ghost use Rattle.std.specs.Option.{option_map};
ghost use Rattle.vpn_holdings.specs.At.{shown};
ghost use Rattle.vpn_tables.specs.Listed.{row_in};
ghost use Rattle.vpn_tables.specs.Stored.{row_order};

use crate::stored::{Entry, RowKey, Stored};
use ov_types::{Addr, InstanceId, NoMemory, Prefix, TableRow};
use path_select::Path;
use std::alloc::Global;
use std::collections::btree_map::Range;
use std::ops::Bound;

/// What is shown of a path.
pub(crate) fn shown(path: Option<Path>) -> Option<TableRow>
    ensures { result ≡ option_map shown path }
{
    let path = path?;
    Some(TableRow {
        rd: path.rd,
        next_hop: path.next_hop,
        label: path.label,
    })
}

/// The least key of an instance.
fn first_of(instance: InstanceId) -> RowKey
    ensures instance { result.instance ≡ instance }
    ensures addr { result.prefix.addr ≡ 0 }
    ensures len { result.prefix.len ≡ 0 }
{
    let prefix = match Prefix::new(Addr(0), 0) {
        Some(prefix) => prefix,
        None => Prefix::host(Addr(0)),
    };
    RowKey { instance, prefix }
}

/// What is stored of an instance, among it all of its rows.
fn entries_of(stored: &Stored, i: InstanceId) -> Range<'_, RowKey, Entry>
    ensures rows { filter_map (row_in i) result ≡ filter_map (row_in i) stored.now.entries }
    ensures ordered { IsOrdered row_order stored.now }
{
    let first = first_of(i);
    if i.0 == 65535 {
        return stored.range((Bound::Included(first), Bound::Unbounded));
    }
    let past = first_of(InstanceId(i.0 + 1));
    stored.range((Bound::Included(first), Bound::Excluded(past)))
}

/// The rows of an instance, in the order of their prefixes.
pub(crate) fn listed(
    alloc: Global,
    stored: &Stored,
    i: InstanceId,
) -> Result<Vec<(Prefix, TableRow)>, NoMemory>
    ensures rows { IfOk result (λ rows. rows.items ≡ filter_map (row_in i) stored.now.entries) }
    ensures ordered { IsOrdered row_order stored.now }
{
    let mut rows = Vec::new(alloc);
    for (key, entry) in entries_of(stored, i) {
        push_row(&mut rows, key, entry, i)?;
    }
    Ok(rows)
}

/// Appends the row that is stored in a place, where there is one and it is of an instance.
fn push_row(
    rows: &mut Vec<(Prefix, TableRow)>,
    key: &RowKey,
    entry: &Entry,
    i: InstanceId,
) -> Result<(), NoMemory>
    ensures { OnOk result (rows.new.items ≡ rows.old.items ++ cons_option (row_in i (key.now, entry.now)) []) }
{
    if key.instance.0 != i.0 {
        return Ok(());
    }
    if let Some(row) = shown(entry.path) {
        rows.push((key.prefix, row))?;
    }
    Ok(())
}
