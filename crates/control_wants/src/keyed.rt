//! What a control node wants, key by key.
ghost use Rattle.std.specs.Prelude.{◌≡◌, ◌++◌, IfOk};
ghost use Rattle.std.specs.Option.{option_map};
ghost use Rattle.std.specs.FinMap.{get};
ghost use Rattle.node_core.specs.Told.{down_value};
ghost use Rattle.node_routes.specs.NodeModel.Keys.{Low, Row, Vpn, of_down};
ghost use Rattle.node_routes.specs.NodeModel.Paths.{own_paths};
ghost use Rattle.node_routes.specs.NodeModel.Reaching.{reoriginated_paths};
ghost use Rattle.node_routes.specs.NodeModel.Values.{Entry as EntryOf, Object, Route as RouteOf};
ghost use Rattle.node_routes.specs.NodeModel.Wants.{wanted_by_agent as wanted_by, wanted_by_peers as wanted_among};
ghost use Rattle.vpn_tables.specs.Routes.{path_of};
ghost use Rattle.vpn_tables.specs.TouchedKeys.{first_keyed};
ghost use Rattle.control_wants.specs.Entries.{hop_of};
ghost use Rattle.control_wants.specs.Held.{told_in};

use chain_reorigin::told_route;
use ov_types::{
    DownKey, DownValue, Entry, InstanceId, LowKey, LowValue, NoMemory, Prefix, TableRow, VpnKey,
    VpnRoute,
};
use std::alloc::Global;
use vpn_tables::{Route, VpnTables};

/// The route that every peer is to have been told at a key, where there is one: what `wanted_by_peers` has there. It
/// looks at the publications of the key's prefix and at the use of the key's instance alone.
pub fn wanted_route(
    alloc: Global,
    tables: &VpnTables,
    key: &VpnKey,
) -> Result<Option<VpnRoute>, NoMemory>
    ensures { IfOk result (λ route. option_map RouteOf route ≡ get (wanted_among tables.now) (Vpn key.now)) }
{
    match counting(tables, key) {
        Some(route) => {
            let told = told_route(alloc, &route)?;
            Ok(Some(told))
        }
        None => Ok(None),
    }
}

/// The route of a key that counts: an own one before a re-originated one.
fn counting(tables: &VpnTables, key: &VpnKey) -> Option<Route>
    ensures { option_map path_of result ≡ first_keyed key.now (own_paths tables.now ++ reoriginated_paths tables.now) }
{
    match tables.own_keyed(key) {
        Some(route) => Some(route),
        None => tables.led_keyed(key),
    }
}

/// What the agent of a session is to have been told at a key, where there is something: what `wanted_by_agent` has
/// there. It looks at the key's row or object alone.
pub fn wanted_down(
    tables: &VpnTables,
    session: u16,
    key: &DownKey,
) -> Result<Option<DownValue>, NoMemory>
    ensures { IfOk result (λ value. option_map down_value value
        ≡ get (wanted_by tables.now (told_in tables.now.agents session)) (of_down key.now)) }
{
    match key {
        DownKey::Slice(low) => {
            let object = wanted_object(tables, session, low)?;
            Ok(down_object(object))
        }
        DownKey::Route(instance, prefix) => {
            let row = wanted_row(tables, session, *instance, prefix)?;
            Ok(down_row(row))
        }
    }
}

fn down_object(object: Option<LowValue>) -> Option<DownValue>
    ensures { option_map down_value result ≡ option_map Object object }
{
    match object {
        Some(object) => Some(DownValue::Object(object)),
        None => None,
    }
}

fn down_row(row: Option<Entry>) -> Option<DownValue>
    ensures { option_map down_value result ≡ option_map EntryOf row }
{
    let row = row?;
    Some(DownValue::Row(row))
}

/// An object of the agent's slice.
pub fn wanted_object(
    tables: &VpnTables,
    session: u16,
    key: &LowKey,
) -> Result<Option<LowValue>, NoMemory>
    ensures { IfOk result (λ object. option_map Object object
        ≡ get (wanted_by tables.now (told_in tables.now.agents session)) (Low key.now)) }
{
    let object = tables.sliced(tables.address_of(session), key)?;
    Ok(object)
}

/// A row, where the agent subscribed its instance.
pub fn wanted_row(
    tables: &VpnTables,
    session: u16,
    instance: InstanceId,
    prefix: &Prefix,
) -> Result<Option<Entry>, NoMemory>
    ensures { IfOk result (λ row. option_map EntryOf row
        ≡ get (wanted_by tables.now (told_in tables.now.agents session)) (Row instance prefix.now)) }
{
    if !tables.subscribes(session, instance) {
        return Ok(None);
    }
    let row = tables.row(instance, prefix)?;
    Ok(entry_of(row))
}

fn entry_of(row: Option<TableRow>) -> Option<Entry>
    ensures { result ≡ option_map hop_of row }
{
    let row = row?;
    Some(Entry {
        next_hop: row.next_hop,
        label: row.label,
    })
}
