//! The tables of instances, each made once and kept for every node that has it.
ghost use Rattle.std.specs.Prelude.{◌≡◌, IfOk, IfSome, OnOk};
ghost use Rattle.std.specs.BTreeMap.{values};
ghost use Rattle.std.specs.List.{IsAmong};
ghost use Rattle.transform_model.specs.Tables.{instance_table, with_rows};
ghost use Rattle.schema_transform.specs.ByNumber.{AreUses};
ghost use Rattle.schema_transform.specs.Kept.{AreTables};
ghost use Rattle.schema_transform.specs.Sound.{IsSound};

use crate::kept_table::KeptTable;
use crate::numbered::UsesByNumber;
use crate::rows::{Row, Rows, table_of};
use config_types::{Config, Topology};
use ov_types::{InstanceId, NoMemory};
use std::alloc::Global;
use std::collections::BTreeMap;

/// Tables by their instances.
pub(crate) type KeptTables = BTreeMap<InstanceId, KeptTable>;

/// Keeps the table of an instance.
fn keep_table(
    alloc: Global,
    topology: &Topology,
    config: &Config,
    numbered: &UsesByNumber,
    instance: InstanceId,
    kept: &mut KeptTables,
) -> Result<(), NoMemory>
    requires sound { IsSound config.now }
    requires uses { AreUses numbered.now.entries config.now }
    requires kept { AreTables topology.now config.now kept.old.entries }
    ensures { OnOk result (AreTables topology.now config.now kept.new.entries) }
{
    let rows = table_of(alloc, topology, config, numbered, instance)?;
    kept.insert(instance, KeptTable { instance, rows })?;
    Ok(())
}

/// The tables of instances.
pub(crate) fn kept_tables(
    alloc: Global,
    topology: &Topology,
    config: &Config,
    numbered: &UsesByNumber,
    instances: &[InstanceId],
) -> Result<KeptTables, NoMemory>
    requires sound { IsSound config.now }
    requires uses { AreUses numbered.now.entries config.now }
    ensures { IfOk result (λ kept. AreTables topology.now config.now kept.entries) }
{
    let mut kept = BTreeMap::new(alloc);
    for instance in instances {
        keep_table(alloc, topology, config, numbered, *instance, &mut kept)?;
    }
    Ok(kept)
}

/// The table that is kept of an instance.
fn kept_of(kept: &KeptTables, instance: InstanceId) -> Option<&KeptTable>
    ensures among { IfSome result (λ table. IsAmong (values kept.now) table.now) }
    ensures instance { IfSome result (λ table. table.now.instance ≡ instance) }
{
    let table = kept.get(&instance)?;
    if table.instance.0 != instance.0 {
        return None;
    }
    Some(table)
}

/// Puts rows, one after the other.
fn put_rows(table: &[Row], rows: &mut Rows) -> Result<(), NoMemory>
    ensures { OnOk result (rows.new.entries ≡ with_rows rows.old.entries table.now) }
{
    for row in table {
        rows.insert(row.0, row.1)?;
    }
    Ok(())
}

/// Puts the table of an instance: as it is kept, or else made now.
#[tactic(auto, using(crate::proofs::Keeping::kept_is))]
pub(crate) fn put_table(
    alloc: Global,
    topology: &Topology,
    config: &Config,
    numbered: &UsesByNumber,
    kept: &KeptTables,
    instance: InstanceId,
    rows: &mut Rows,
) -> Result<(), NoMemory>
    requires sound { IsSound config.now }
    requires uses { AreUses numbered.now.entries config.now }
    requires kept { AreTables topology.now config.now kept.now.entries }
    ensures { OnOk result (rows.new.entries ≡ with_rows rows.old.entries
        (instance_table topology.now config.now instance)) }
{
    if let Some(table) = kept_of(kept, instance) {
        return put_rows(table.rows.as_slice(), rows);
    }
    let table = table_of(alloc, topology, config, numbered, instance)?;
    put_rows(table.as_slice(), rows)
}
