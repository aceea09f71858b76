//! What a control node wants of what it holds.
ghost use Rattle.std.specs.Prelude.{◌≡◌, IfOk};
ghost use Rattle.node_core.specs.Told.{down_of};
ghost use Rattle.node_routes.specs.NodeModel.Tables.{rows as rows_of};
ghost use Rattle.node_routes.specs.NodeModel.Wants.{wanted_by_agent as wanted_by, wanted_by_peers as wanted_among};
ghost use Rattle.vpn_tables.specs.Views.{peer_of};
ghost use Rattle.control_wants.specs.Held.{told_in};

use crate::entries::{push_shown, push_tables, told_objects, told_routes};
use chain_reorigin::reoriginated;
use ov_sync::first_of_each;
use ov_types::{ControlRows, DownKey, DownValue, Items, NoMemory, VpnKey, VpnRoute};
use std::alloc::Global;
use std::collections::BTreeMap;
use vpn_tables::VpnTables;

/// What every peer is to have been told: the own and the re-originated routes. Of those of one key an own route counts
/// before a re-originated one, and the lower session's before the higher's.
pub fn wanted_by_peers(
    alloc: Global,
    tables: &VpnTables,
) -> Result<BTreeMap<VpnKey, VpnRoute>, NoMemory>
    ensures { IfOk result (λ wanted. peer_of wanted.entries ≡ wanted_among tables.now) }
{
    let own = tables.own_routes()?;
    let mut led = reoriginated(alloc, tables)?;
    let mut routes = told_routes(alloc, own.as_slice())?;
    routes.append(&mut led)?;
    let wanted = first_of_each(alloc, routes)?;
    Ok(wanted)
}

/// What the agent of a session is to have been told: its slice, and the rows of the instances that it subscribed.
pub fn wanted_by_agent(
    alloc: Global,
    tables: &VpnTables,
    session: u16,
) -> Result<BTreeMap<DownKey, DownValue>, NoMemory>
    ensures { IfOk result (λ wanted. down_of wanted.entries
        ≡ wanted_by tables.now (told_in tables.now.agents session)) }
{
    let objects = tables.slice(tables.address_of(session))?;
    let instances = tables.subscriptions(session)?;
    let mut told = told_objects(alloc, objects)?;
    push_tables(&mut told, tables, instances.as_slice())?;
    let wanted = first_of_each(alloc, told)?;
    Ok(wanted)
}

/// The table of every known instance, in the order of keys.
pub fn rows(alloc: Global, tables: &VpnTables) -> Result<ControlRows, NoMemory>
    ensures { IfOk result (λ rows. rows ≡ rows_of tables.now) }
{
    let instances = tables.known_instances()?;
    let mut rows = Vec::new(alloc);
    for instance in &instances {
        let table = tables.table(*instance)?;
        push_shown(&mut rows, *instance, table.as_slice())?;
    }
    Ok(Items::from_vec(rows))
}
