//! What is marked of agents, with the rows of marked keys: each row is selected once for all agents.
ghost use Rattle.std.specs.Prelude.{◌≡◌, None, is_some, if◌then◌else◌, IfOk};
ghost use Rattle.std.specs.FinMap.{get};
ghost use Rattle.std.specs.Option.{option_map};
ghost use Rattle.control_wants.specs.NodeCore.Told.{down_value};
ghost use Rattle.vpn_tables.specs.NodeModel.Keys.{Subscribe, of_down};
ghost use Rattle.vpn_tables.specs.NodeModel.Values.{Entry as EntryOf};
ghost use Rattle.control_wants.specs.Entries.{hop_of};
ghost use Rattle.vpn_tables.specs.Listing.{told_in};
ghost use Rattle.vpn_tables.specs.Here.{wanted_on};
ghost use Rattle.control_wants.specs.Marks.{is_of, is_subscribed};
ghost use Rattle.control_wants.specs.Marked.{AreMarkedItems, HasItsRow, key_in};

use crate::dirty::Dirty;
use crate::keyed::wanted_down;
use crate::whom::Whom;
use ov_types::{Addr, DownKey, DownValue, Entry, InstanceId, LowKey, NoMemory, Prefix, TableRow};
use std::alloc::Global;
use vpn_tables::VpnTables;

/// A key of agents, with what is told at it.
#[derive(Drop)]
pub(crate) enum ItemKey {
    /// An object of slices.
    Slice(LowKey),
    /// A row of a table, where it has one, as an agent is told it.
    Row {
        instance: InstanceId,
        prefix: Prefix,
        row: Option<Entry>,
    },
}

/// A marked key of agents.
#[derive(Drop)]
pub struct MarkedItem {
    pub(crate) key: ItemKey,
    /// The agents of which it is marked.
    pub(crate) whom: Whom,
}

fn entry_of(row: Option<TableRow>) -> Option<Entry>
    ensures { result ≡ option_map hop_of row }
{
    let row = row?;
    Some(Entry {
        next_hop: row.next_hop,
        label: row.label,
    })
}

fn with_row(tables: &VpnTables, key: &DownKey) -> Result<ItemKey, NoMemory>
    ensures key { IfOk result (λ item. key_in item ≡ key.now) }
    ensures row { IfOk result (λ item. HasItsRow tables.now item) }
{
    match key {
        DownKey::Slice(low) => Ok(ItemKey::Slice(*low)),
        DownKey::Route(instance, prefix) => {
            let row = tables.row(*instance, prefix)?;
            Ok(ItemKey::Row {
                instance: *instance,
                prefix: *prefix,
                row: entry_of(row),
            })
        }
    }
}

/// What is marked of agents, in the order of keys.
pub fn items_marked(
    alloc: Global,
    tables: &VpnTables,
    dirty: &Dirty,
) -> Result<Vec<MarkedItem>, NoMemory>
    ensures { IfOk result (λ marked. AreMarkedItems dirty.now tables.now marked.items) }
{
    let mut marked = Vec::new(alloc);
    for (key, whom) in dirty.items() {
        let key = with_row(tables, key)?;
        marked.push(MarkedItem { key, whom: *whom })?;
    }
    Ok(marked)
}

/// The key without what is told at it.
pub(crate) fn key_of(item: &ItemKey) -> DownKey
    ensures { result ≡ key_in item.now }
{
    match item {
        ItemKey::Slice(low) => DownKey::Slice(*low),
        ItemKey::Row {
            instance,
            prefix,
            ..
        } => DownKey::Route(*instance, *prefix),
    }
}

/// Whether a key is one of slices, or that of a row whose instance the agent of a session subscribed.
fn is_subscribed(tables: &VpnTables, session: u16, item: &ItemKey) -> bool
    ensures { result ≡ is_subscribed (told_in tables.now.agents session) (key_in item.now) }
{
    match item {
        ItemKey::Slice(_) => true,
        ItemKey::Row { instance, .. } => tables.subscribes(session, *instance),
    }
}

/// Whether a key is marked of the agent of a session, whose address this is.
pub(crate) fn is_marked_of(
    tables: &VpnTables,
    session: u16,
    address: Addr,
    item: &MarkedItem,
) -> bool
    requires { address ≡ (told_in tables.now.agents session).address }
    ensures { result ≡ is_of (told_in tables.now.agents session) (key_in item.now.key) item.now.whom }
{
    match item.whom {
        Whom::Every => true,
        Whom::Subscribers => is_subscribed(tables, session, &item.key),
        Whom::Only(other) => other.0 == address.0,
    }
}

/// A row, where the agent subscribed its instance.
fn subscribed(
    tables: &VpnTables,
    session: u16,
    instance: InstanceId,
    row: Option<Entry>,
) -> Option<DownValue>
    ensures { option_map down_value result ≡ (if is_some (get (told_in tables.now.agents session).map (Subscribe instance))
        then option_map EntryOf row else None) }
{
    if !tables.subscribes(session, instance) {
        return None;
    }
    let row = row?;
    Some(DownValue::Row(row))
}

/// What the agent of a session is to have been told at a key, where there is something.
pub(crate) fn value_of(
    tables: &VpnTables,
    session: u16,
    item: &ItemKey,
) -> Result<Option<DownValue>, NoMemory>
    requires { HasItsRow tables.now item.now }
    ensures { IfOk result (λ value. option_map down_value value
        ≡ get (wanted_on tables.now session) (of_down (key_in item.now))) }
{
    match item {
        ItemKey::Slice(low) => {
            let value = wanted_down(tables, session, &DownKey::Slice(*low))?;
            Ok(value)
        }
        ItemKey::Row { instance, row, .. } => { Ok(subscribed(tables, session, *instance, *row)) }
    }
}
