//! The rows of agents.
ghost use Rattle.std.specs.Prelude.{◌≡◌, ◌==◌, map, IfOk, OnOk};
ghost use Rattle.std.specs.List.{All, filter_map, list_any};
ghost use Rattle.transform_model.specs.NodeModel.Agent.{acl_entry, attached, entered_by, needed_by, needed_for};
ghost use Rattle.transform_model.specs.NodeModel.Wants.{is_at, port_at};
ghost use Rattle.transform_model.specs.Compiled.{agent_rows, agent_rows_by, networks_at, route_of, slice_of};
ghost use Rattle.schema_transform.specs.Concerning.{concerns_among};
ghost use Rattle.transform_model.specs.Objects.{ascending_instances, low_objects, with_instances};
ghost use Rattle.transform_model.specs.Tables.{tables_of};
ghost use Rattle.schema_transform.specs.ByNumber.{AreUses};
ghost use Rattle.schema_transform.specs.Kept.{AreTables};
ghost use Rattle.schema_transform.specs.Sound.{IsSmall, IsSound};

use crate::kept::{KeptTables, put_table};
use crate::numbered::UsesByNumber;
use crate::objects::instances_of;
use crate::rows::{Row, Rows, entries_of};
use config_types::{Config, Topology};
use ov_types::{
    AclAction, AclRule, Addr, AgentRows, Attached, Entry, InstanceId, Items, Label, Low, LowKey,
    LowValue, NoMemory, Prefix,
};
use route_targets::circuit_instance;
use std::alloc::Global;
use std::collections::{BTreeMap, BTreeSet};

/// Whether an object is an attachment at an address.
fn is_at(address: Addr, value: &LowValue) -> bool
    ensures { result ≡ is_at address value.now }
{
    match value {
        LowValue::AttachPort { node, .. } => node.0 == address.0,
        LowValue::AttachCircuit { node, .. } => node.0 == address.0,
        _ => false,
    }
}

/// The network of a port at an address.
fn port_at(address: Addr, value: &LowValue) -> Option<InstanceId>
    ensures { result ≡ port_at address value.now }
{
    match value {
        LowValue::AttachPort { instance, node, .. } => {
            if node.0 == address.0 {
                Some(*instance)
            } else {
                None
            }
        }
        _ => None,
    }
}

/// The networks of the ports at an address.
fn networks_at(
    alloc: Global,
    low: &[(LowKey, LowValue)],
    address: Addr,
) -> Result<Vec<InstanceId>, NoMemory>
    ensures { IfOk result (λ list. list.items ≡ networks_at low.now address) }
{
    let mut networks = Vec::new(alloc);
    for object in low {
        if let Some(network) = port_at(address, &object.1) {
            networks.push(network)?;
        }
    }
    Ok(networks)
}

/// Whether a network of this number is among these.
fn has_number(networks: &[InstanceId], number: u16) -> bool
    ensures { result ≡ list_any (λ n. n.0 == number) networks.now }
{
    networks.iter().any(|network| network.0 == number)
}

/// Whether an object concerns the agent at an address, where the ports of these networks are.
fn concerns_among(networks: &[InstanceId], address: Addr, key: &LowKey, value: &LowValue) -> bool
    ensures { result ≡ concerns_among networks.now address key.now value.now }
{
    match *key {
        LowKey::Attach(_) => is_at(address, value),
        LowKey::Acl { from, .. } => has_number(networks, from),
        _ => false,
    }
}

fn copy_of(object: &(LowKey, LowValue)) -> Result<(LowKey, LowValue), NoMemory>
    ensures { IfOk result (λ copy. copy ≡ object.now) }
{
    Ok((object.0, object.1.clone()?))
}

/// What concerns the agent at an address.
#[tactic(auto, using(crate::proofs::Slices::slice_is))]
fn slice_of(alloc: Global, low: &[(LowKey, LowValue)], address: Addr) -> Result<Low, NoMemory>
    ensures { IfOk result (λ list. list ≡ slice_of low.now address) }
{
    let networks = networks_at(alloc, low, address)?;
    let mut slice = Items::new(alloc);
    for object in low {
        if concerns_among(networks.as_slice(), address, &object.0, &object.1) {
            slice.push(copy_of(object)?)?;
        }
    }
    Ok(slice)
}

/// What an attachment is under its label.
fn attached(key: &LowKey, value: &LowValue) -> Option<(Label, Attached)>
    ensures { result ≡ attached key.now value.now }
{
    let LowKey::Attach(label) = key else {
        return None;
    };
    match value {
        LowValue::AttachPort { port, instance, .. } => {
            let attached = Attached::Port {
                port: *port,
                instance: *instance,
            };
            Some((Label(*label), attached))
        }
        LowValue::AttachCircuit {
            circuit,
            service,
            ..
        } => {
            let attached = Attached::Circuit {
                circuit: *circuit,
                service: *service,
            };
            Some((Label(*label), attached))
        }
        _ => None,
    }
}

/// The labels of a slice.
fn labels_of(
    alloc: Global,
    slice: &[(LowKey, LowValue)],
) -> Result<Items<(Label, Attached)>, NoMemory>
    ensures { IfOk result (λ list. list ≡ filter_map (λ e. attached e.0 e.1) slice.now) }
{
    let mut labels = Items::new(alloc);
    for object in slice {
        if let Some(label) = attached(&object.0, &object.1) {
            labels.push(label)?;
        }
    }
    Ok(labels)
}

/// An access list.
fn acl_entry(object: &(LowKey, LowValue)) -> Result<Option<(LowKey, LowValue)>, NoMemory>
    ensures { IfOk result (λ entry. entry ≡ acl_entry object.now.0 object.now.1) }
{
    if matches!(object.0, LowKey::Acl { .. }) {
        return Ok(Some(copy_of(object)?));
    }
    Ok(None)
}

/// The access lists of a slice.
fn acls_of(alloc: Global, slice: &[(LowKey, LowValue)]) -> Result<Low, NoMemory>
    ensures { IfOk result (λ list. list ≡ filter_map (λ e. acl_entry e.0 e.1) slice.now) }
{
    let mut acls = Items::new(alloc);
    for object in slice {
        if let Some(entry) = acl_entry(object)? {
            acls.push(entry)?;
        }
    }
    Ok(acls)
}

/// Puts the instances that entries of an access list enter.
fn put_entered(rules: &[AclRule], needed: &mut BTreeSet<InstanceId>) -> Result<(), NoMemory>
    ensures { OnOk result (needed.new.keys
        ≡ with_instances needed.old.keys (filter_map (λ r. entered_by r.action) rules.now)) }
{
    for rule in rules {
        if let AclAction::Enter(instance) = rule.action {
            needed.insert(instance)?;
        }
    }
    Ok(())
}

/// Puts the instances that an object makes an agent need.
fn put_needed_for(value: &LowValue, needed: &mut BTreeSet<InstanceId>) -> Result<(), NoMemory>
    requires { IsSmall value.now }
    ensures { OnOk result (needed.new.keys ≡ with_instances needed.old.keys (needed_for value.now)) }
{
    match value {
        LowValue::AttachPort { instance, .. } => {
            needed.insert(*instance)?;
            Ok(())
        }
        LowValue::AttachCircuit { circuit, .. } => {
            needed.insert(circuit_instance(*circuit))?;
            Ok(())
        }
        LowValue::Acl { rules, .. } => put_entered(rules.as_slice(), needed),
        _ => Ok(()),
    }
}

/// The instances that a slice makes an agent need, ascending and each once.
fn needed_by(alloc: Global, slice: &[(LowKey, LowValue)]) -> Result<Items<InstanceId>, NoMemory>
    requires { All (λ e. IsSmall e.1) slice.now }
    ensures { IfOk result (λ list. list ≡ ascending_instances (needed_by slice.now)) }
{
    let mut needed = BTreeSet::new(alloc);
    for object in slice {
        put_needed_for(&object.1, &mut needed)?;
    }
    instances_of(alloc, &needed)
}

/// The rows of the tables of instances, by their keys.
pub(crate) fn tables_of(
    alloc: Global,
    topology: &Topology,
    config: &Config,
    numbered: &UsesByNumber,
    kept: &KeptTables,
    instances: &[InstanceId],
) -> Result<Rows, NoMemory>
    requires sound { IsSound config.now }
    requires uses { AreUses numbered.now.entries config.now }
    requires kept { AreTables topology.now config.now kept.now.entries }
    ensures { IfOk result (λ rows. rows.entries ≡ tables_of topology.now config.now instances.now) }
{
    let mut rows = BTreeMap::new(alloc);
    for instance in instances {
        put_table(
            alloc, topology, config, numbered, kept, *instance, &mut rows,
        )?;
    }
    Ok(rows)
}

/// A row without its distinguisher.
fn route_of(row: &Row) -> ((InstanceId, Prefix), Entry)
    ensures { result ≡ route_of row.now }
{
    let entry = Entry {
        next_hop: row.1.next_hop,
        label: row.1.label,
    };
    (row.0, entry)
}

/// Rows without their distinguishers.
fn routes_of(alloc: Global, rows: &[Row]) -> Result<Items<((InstanceId, Prefix), Entry)>, NoMemory>
    ensures { IfOk result (λ list. list ≡ map route_of rows.now) }
{
    let mut routes = Items::new(alloc);
    for row in rows {
        routes.push(route_of(row))?;
    }
    Ok(routes)
}

/// The rows of an agent by what concerns it.
fn rows_by(
    alloc: Global,
    topology: &Topology,
    config: &Config,
    numbered: &UsesByNumber,
    kept: &KeptTables,
    slice: &[(LowKey, LowValue)],
) -> Result<AgentRows, NoMemory>
    requires sound { IsSound config.now }
    requires uses { AreUses numbered.now.entries config.now }
    requires kept { AreTables topology.now config.now kept.now.entries }
    requires small { All (λ e. IsSmall e.1) slice.now }
    ensures { IfOk result (λ rows. rows ≡ agent_rows_by topology.now config.now slice.now) }
{
    let needed = needed_by(alloc, slice)?;
    let tables = tables_of(alloc, topology, config, numbered, kept, needed.as_slice())?;
    Ok(AgentRows {
        labels: labels_of(alloc, slice)?,
        acls: acls_of(alloc, slice)?,
        routes: routes_of(alloc, entries_of(alloc, &tables)?.as_slice())?,
    })
}

/// The rows of the agent at an address.
#[tactic(auto, using(crate::proofs::Small::slices_are_small), unfolding(transform_model::specs::Compiled::agent_rows))]
pub(crate) fn agent_rows(
    alloc: Global,
    topology: &Topology,
    config: &Config,
    numbered: &UsesByNumber,
    kept: &KeptTables,
    low: &[(LowKey, LowValue)],
    address: Addr,
) -> Result<AgentRows, NoMemory>
    requires sound { IsSound config.now }
    requires uses { AreUses numbered.now.entries config.now }
    requires kept { AreTables topology.now config.now kept.now.entries }
    requires low { low.now ≡ low_objects topology.now config.now }
    requires small { All (λ e. IsSmall e.1) low.now }
    ensures { IfOk result (λ rows. rows ≡ agent_rows topology.now config.now address) }
{
    let slice = slice_of(alloc, low, address)?;
    rows_by(alloc, topology, config, numbered, kept, slice.as_slice())
}
