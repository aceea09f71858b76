//! The entries that are told and shown.
ghost use Rattle.std.specs.Prelude.{◌≡◌, ◌++◌, IfOk, OnOk, map};
ghost use Rattle.std.specs.List.{flat_map};
ghost use Rattle.chain_reorigin.specs.Told.{told_path};
ghost use Rattle.vpn_tables.specs.Routes.{path_of};
ghost use Rattle.control_wants.specs.Entries.{shown_row, told_object, told_row, told_rows};

use chain_reorigin::told_route;
use ov_types::{
    DownKey, DownValue, Entry, InstanceId, LowKey, LowValue, NoMemory, Prefix, TableRow, VpnKey,
    VpnRoute,
};
use std::alloc::Global;
use vpn_tables::{Route, VpnTables};

/// Routes as peers are told them.
pub(crate) fn told_routes(
    alloc: Global,
    routes: &[Route],
) -> Result<Vec<(VpnKey, VpnRoute)>, NoMemory>
    ensures { IfOk result (λ told. told.items ≡ map told_path (map path_of routes.now)) }
{
    let mut told = Vec::new(alloc);
    for route in routes {
        let key = VpnKey {
            rd: route.path.rd,
            prefix: route.prefix,
        };
        let value = told_route(alloc, route)?;
        told.push((key, value))?;
    }
    Ok(told)
}

/// The objects of a slice as an agent is told them.
pub(crate) fn told_objects(
    alloc: Global,
    objects: Vec<(LowKey, LowValue)>,
) -> Result<Vec<(DownKey, DownValue)>, NoMemory>
    ensures { IfOk result (λ told. told.items ≡ map told_object objects.items) }
{
    let told = objects.into_iter().map(|(key, object)| (
        DownKey::Slice(key),
        DownValue::Object(object),
    ));
    Ok(told.collect(alloc)?)
}

/// Appends the tables of instances, as an agent is told them.
pub(crate) fn push_tables(
    told: &mut Vec<(DownKey, DownValue)>,
    tables: &VpnTables,
    instances: &[InstanceId],
) -> Result<(), NoMemory>
    ensures { OnOk result (told.new.items ≡ told.old.items ++ flat_map (told_rows tables.now) instances.now) }
{
    for instance in instances {
        let table = tables.table(*instance)?;
        push_told(told, *instance, table.as_slice())?;
    }
    Ok(())
}

/// Appends the rows of an instance, as an agent is told them.
fn push_told(
    told: &mut Vec<(DownKey, DownValue)>,
    instance: InstanceId,
    table: &[(Prefix, TableRow)],
) -> Result<(), NoMemory>
    ensures { OnOk result (told.new.items ≡ told.old.items ++ map (told_row instance) table.now) }
{
    for (prefix, row) in table {
        let entry = Entry {
            next_hop: row.next_hop,
            label: row.label,
        };
        told.push((DownKey::Route(instance, *prefix), DownValue::Row(entry)))?;
    }
    Ok(())
}

/// Appends the rows of an instance, as they are shown.
pub(crate) fn push_shown(
    rows: &mut Vec<((InstanceId, Prefix), TableRow)>,
    instance: InstanceId,
    table: &[(Prefix, TableRow)],
) -> Result<(), NoMemory>
    ensures { OnOk result (rows.new.items ≡ rows.old.items ++ map (shown_row instance) table.now) }
{
    for (prefix, row) in table {
        rows.push(((instance, *prefix), *row))?;
    }
    Ok(())
}
