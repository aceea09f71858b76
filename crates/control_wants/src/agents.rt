//! What agents are told.
ghost use Rattle.std.specs.Prelude.{◌≡◌, ◌++◌, [], ◌∷◌, false, map, IfOk, OnErr, OnOk};
ghost use Rattle.std.specs.List.{AllByRecursion};
ghost use Rattle.ov_sync.specs.Embed.{moved_delta};
ghost use Rattle.control_wants.specs.NodeCore.Told.{down_of, down_value};
ghost use Rattle.vpn_tables.specs.NodeModel.Keys.{of_down};
ghost use Rattle.vpn_tables.specs.NodeModel.Maps.{difference};
ghost use Rattle.vpn_tables.specs.NodeModel.Members.{Member};
ghost use Rattle.vpn_tables.specs.Listing.{told_in};
ghost use Rattle.vpn_tables.specs.Here.{wanted_on};
ghost use Rattle.control_wants.specs.Marks.{Marks};
ghost use Rattle.control_wants.specs.Marked.{AreMarkedItems, HasItsRow, marked_entry};
ghost use Rattle.control_wants.specs.Wanted.{AreEachWanted, AreItems, IsSentToAgent, keys_of};

use crate::dirty::Dirty;
use crate::item_sends::tell_items;
use crate::marked::{MarkedItem, is_marked_of, key_of, value_of};
use crate::wants::wanted_by_agent;
use ov_sync::{Delta, SyncOut};
use ov_types::{Addr, DownKey, DownValue, NoMemory};
use std::alloc::Global;
use vpn_tables::VpnTables;

/// Appends a marked key with what the agent of a session is to have been told at it, where it is marked of that agent.
fn push_item(
    wanted: &mut Vec<(DownKey, Option<DownValue>)>,
    tables: &VpnTables,
    session: u16,
    address: Addr,
    item: &MarkedItem,
) -> Result<(), NoMemory>
    requires address { address ≡ (told_in tables.now.agents session).address }
    requires row { HasItsRow tables.now item.now.key }
    requires each { AreEachWanted tables.now session wanted.old.items }
    ensures keys { OnOk result (map (λ e. e.0) wanted.new.items
        ≡ map (λ e. e.0) wanted.old.items ++ keys_of (told_in tables.now.agents session) (marked_entry item.now ∷ [])) }
    ensures each { OnOk result (AreEachWanted tables.now session wanted.new.items) }
{
    if !is_marked_of(tables, session, address, item) {
        return Ok(());
    }
    let value = value_of(tables, session, &item.key)?;
    wanted.push((key_of(&item.key), value))?;
    Ok(())
}

/// What the agent of a session is to have been told of what is marked of it.
fn marked_items(
    alloc: Global,
    tables: &VpnTables,
    session: u16,
    marked: &[MarkedItem],
) -> Result<Vec<(DownKey, Option<DownValue>)>, NoMemory>
    requires { AllByRecursion (λ m. HasItsRow tables.now m.key) marked.now }
    ensures { IfOk result (λ wanted. (d : Marks) → AreMarkedItems d tables.now marked.now
        → AreItems d tables.now session wanted.items) }
{
    let address = tables.address_of(session);
    let mut wanted = Vec::new(alloc);
    for item in marked {
        push_item(&mut wanted, tables, session, address, item)?;
    }
    Ok(wanted)
}

fn tell_whole(
    alloc: Global,
    sent: &mut SyncOut<DownKey, DownValue>,
    tables: &VpnTables,
    session: u16,
) -> Result<Vec<Delta<DownKey, DownValue>>, NoMemory>
    ensures changes { IfOk result (λ changes. map (moved_delta of_down down_value) changes.items
        ≡ difference (down_of sent.old) (wanted_on tables.now session)) }
    ensures sent { OnOk result (down_of sent.new ≡ wanted_on tables.now session) }
{
    let wanted = wanted_by_agent(alloc, tables, session)?;
    let changes = sent.replace(&wanted)?;
    Ok(changes)
}

fn tell_marked(
    alloc: Global,
    sent: &mut SyncOut<DownKey, DownValue>,
    tables: &VpnTables,
    session: u16,
    dirty: &Dirty,
    marked: &[MarkedItem],
) -> Result<Vec<Delta<DownKey, DownValue>>, NoMemory>
    requires marked { AreMarkedItems dirty.now tables.now marked.now }
    requires tracked { IsSentToAgent dirty.now tables.now session (down_of sent.old) }
    requires not_all { dirty.now.all ≡ false }
    requires elsewhere { Member (told_in tables.now.agents session).address dirty.now.addresses → ⊥ }
    ensures changes { IfOk result (λ changes. map (moved_delta of_down down_value) changes.items
        ≡ difference (down_of sent.old) (wanted_on tables.now session)) }
    ensures sent { OnOk result (down_of sent.new ≡ wanted_on tables.now session) }
{
    let wanted = marked_items(alloc, tables, session, marked)?;
    tell_items(alloc, sent, wanted.as_slice())
}

/// The changes that an agent is to be told, which count as sent then. Where memory is wanting, nothing counts as sent.
pub fn tell_agent(
    alloc: Global,
    sent: &mut SyncOut<DownKey, DownValue>,
    tables: &VpnTables,
    session: u16,
    dirty: &Dirty,
    marked: &[MarkedItem],
) -> Result<Vec<Delta<DownKey, DownValue>>, NoMemory>
    requires marked { AreMarkedItems dirty.now tables.now marked.now }
    requires tracked { IsSentToAgent dirty.now tables.now session (down_of sent.old) }
    ensures changes { IfOk result (λ changes. map (moved_delta of_down down_value) changes.items
        ≡ difference (down_of sent.old) (wanted_on tables.now session)) }
    ensures sent { OnOk result (down_of sent.new ≡ wanted_on tables.now session) }
    ensures err { OnErr result (sent.new ≡ []) }
{
    let told = if dirty.is_whole(tables.address_of(session)) {
        tell_whole(alloc, sent, tables, session)
    } else {
        tell_marked(alloc, sent, tables, session, dirty, marked)
    };
    match told {
        Ok(changes) => Ok(changes),
        Err(e) => {
            sent.reset();
            Err(e)
        }
    }
}
