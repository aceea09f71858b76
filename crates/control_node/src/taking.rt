//! What was handed out on a session changes what is held, and marks what that may change of what is to be told.
ghost use Rattle.std.specs.Prelude.{◌≡◌, ◌≤◌, ◌<◌, ◌^◌, length, map, OnOk, true};
ghost use Rattle.std.specs.List.{AllByRecursion, filter_map};
ghost use Rattle.ov_sync.specs.Embed.{moved_delta};
ghost use Rattle.ov_sync.specs.Keyed.{after};
ghost use Rattle.bgp_session.specs.BgpVpn.Written.{IfPut};
ghost use Rattle.item_wire.specs.Inputs.{is_of_agent, is_of_feed};
ghost use Rattle.node_core.specs.Told.{IsWritable, change_of};
ghost use Rattle.node_core.specs.NodeModel.Keys.{Vpn};
ghost use Rattle.node_core.specs.NodeModel.Values.{Route as RouteOf};
ghost use Rattle.control_node.specs.Stays.{StaysHeld};
ghost use Rattle.control_node.specs.Taking.{agent_by, changed_by, feed_by, peer_by};
ghost use Rattle.control_node.specs.Tracking.{AreMarked};

use control_wants::Dirty;
use item_wire::Item;
use node_core::{low_change, up_change};
use ov_sync::Delta;
use ov_types::{NoMemory, VpnKey, VpnRoute};
use vpn_tables::VpnTables;

/// Applies a record of the feed.
fn take_object(dirty: &mut Dirty, tables: &mut VpnTables, item: Item) -> Result<(), NoMemory>
    requires feed { is_of_feed item ≡ true }
    requires writable { IsWritable item }
    ensures ok { OnOk result (tables.new ≡ feed_by (λ m. changed_by m (change_of item)) tables.old) }
    ensures stays { StaysHeld tables.old tables.new }
    ensures marked { AreMarked dirty.old dirty.new tables.old tables.new }
{
    match low_change(item) {
        Some(delta) => {
            dirty.set_low(tables, delta)?;
            Ok(())
        }
        None => Ok(()),
    }
}

/// Applies the records of the feed in order.
pub(crate) fn take_objects(
    dirty: &mut Dirty,
    tables: &mut VpnTables,
    records: Vec<Item>,
) -> Result<(), NoMemory>
    requires feed { AllByRecursion (λ i. is_of_feed i ≡ true) records.items }
    requires writable { AllByRecursion IsWritable records.items }
    ensures ok { OnOk result (tables.new ≡ feed_by (λ m. after m (filter_map change_of records.items)) tables.old) }
    ensures stays { StaysHeld tables.old tables.new }
    ensures marked { AreMarked dirty.old dirty.new tables.old tables.new }
{
    for item in records {
        take_object(dirty, tables, item)?;
    }
    Ok(())
}

/// Applies a record of an agent.
fn take_publication(
    dirty: &mut Dirty,
    tables: &mut VpnTables,
    session: u16,
    item: Item,
) -> Result<(), NoMemory>
    requires agent { is_of_agent item ≡ true }
    requires writable { IsWritable item }
    ensures ok { OnOk result (tables.new ≡ agent_by (λ m. changed_by m (change_of item)) tables.old session) }
    ensures stays { StaysHeld tables.old tables.new }
    ensures marked { AreMarked dirty.old dirty.new tables.old tables.new }
{
    match up_change(item) {
        Some(delta) => {
            dirty.set_publication(tables, session, delta)?;
            Ok(())
        }
        None => Ok(()),
    }
}

/// Applies the records of an agent in order.
pub(crate) fn take_publications(
    dirty: &mut Dirty,
    tables: &mut VpnTables,
    session: u16,
    records: Vec<Item>,
) -> Result<(), NoMemory>
    requires agent { AllByRecursion (λ i. is_of_agent i ≡ true) records.items }
    requires writable { AllByRecursion IsWritable records.items }
    ensures ok { OnOk result (tables.new
        ≡ agent_by (λ m. after m (filter_map change_of records.items)) tables.old session) }
    ensures stays { StaysHeld tables.old tables.new }
    ensures marked { AreMarked dirty.old dirty.new tables.old tables.new }
{
    for item in records {
        take_publication(dirty, tables, session, item)?;
    }
    Ok(())
}

/// Applies the changes of routes of a peer in order.
pub(crate) fn take_routes(
    dirty: &mut Dirty,
    tables: &mut VpnTables,
    session: u16,
    changes: Vec<Delta<VpnKey, VpnRoute>>,
) -> Result<(), NoMemory>
    requires known { session ≤ length tables.old.peers }
    requires labels { AllByRecursion (λ d. IfPut d (λ route. route.label.0 < 2 ^ 20)) changes.items }
    ensures ok { OnOk result (tables.new
        ≡ peer_by (λ m. after m (map (moved_delta Vpn RouteOf) changes.items)) tables.old session) }
    ensures stays { StaysHeld tables.old tables.new }
    ensures marked { AreMarked dirty.old dirty.new tables.old tables.new }
{
    for change in changes {
        dirty.set_peer_route(tables, session, change)?;
    }
    Ok(())
}
