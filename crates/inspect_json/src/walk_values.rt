//! The JSON values of the steps of walks.
ghost use Rattle.std.specs.Prelude.{◌≡◌, IfOk};
ghost use Rattle.serde_json.specs.View.{view};
ghost use Rattle.inspect_json.specs.Values.{list_value};
ghost use Rattle.inspect_json.specs.WalkValues.{end_value, entry_value, hop_value, leads_value, owner_value, row_value};
ghost use Rattle.inspect_json.specs.WalkValues.{step_value};

use crate::change_values::{address_value, network_value, prefix_value};
use crate::values::name_value;
use inspect_walks::{LeadsTo, Owner, ToldStep};
use ov_types::{Entry, Name, Prefix};
use serde_json::{Value, json};
use std::alloc::{AllocError, Global};

/// A hop of a chain's use.
#[tactic(auto, unfolding(crate::specs::WalkValues::hop_value))]
fn hop_value(alloc: Global, use_no: u16, place: u8) -> Result<Value, AllocError>
    ensures { IfOk result (λ v. view v ≡ hop_value use_no place) }
{
    json!(in alloc; {"hop": place, "kind": "use", "use": use_no})
}

/// What a table is of, and `null` where it is of nothing.
fn owner_value(alloc: Global, owner: &Owner) -> Result<Value, AllocError>
    ensures { IfOk result (λ v. view v ≡ owner_value owner.now) }
{
    match owner {
        Owner::Network(name) => network_value(alloc, name),
        Owner::Hop(hop) => hop_value(alloc, hop.use_no, hop.place),
        Owner::Nothing => Ok(Value::Null),
    }
}

/// A row as `compile` has it.
#[tactic(auto, unfolding(crate::specs::WalkValues::entry_value))]
fn entry_value(alloc: Global, prefix: Prefix, entry: Entry) -> Result<Value, AllocError>
    ensures { IfOk result (λ v. view v ≡ entry_value prefix entry) }
{
    let prefix = prefix_value(alloc, prefix)?;
    let next_hop = address_value(alloc, entry.next_hop)?;
    let label = entry.label.0;
    json!(in alloc; {"label": label, "next_hop": next_hop, "prefix": prefix})
}

/// The row that is taken, and `null` where none is.
fn row_value(alloc: Global, row: &Option<(Prefix, Entry)>) -> Result<Value, AllocError>
    ensures { IfOk result (λ v. view v ≡ row_value row.now) }
{
    match row {
        None => Ok(Value::Null),
        Some((prefix, entry)) => entry_value(alloc, *prefix, *entry),
    }
}

/// A number of what a step leads to, with its name.
#[tactic(auto, unfolding(crate::specs::WalkValues::end_value))]
fn end_value(
    alloc: Global,
    kind: &str,
    number: u32,
    name: Option<Name>,
) -> Result<Value, AllocError>
    ensures { IfOk result (λ v. view v ≡ end_value kind.now number name) }
{
    let name = name_value(alloc, name)?;
    json!(in alloc; {"id": number, "kind": kind, "name": name})
}

/// What a step leads to, and `null` where it leads to nothing.
fn leads_value(alloc: Global, leads: &LeadsTo) -> Result<Value, AllocError>
    ensures { IfOk result (λ v. view v ≡ leads_value leads.now) }
{
    match leads {
        LeadsTo::Port(port, name) => end_value(alloc, "port", port.0, *name),
        LeadsTo::Service(service, name) => {
            end_value(alloc, "service", u32::from(service.0), *name)
        }
        LeadsTo::Nothing => Ok(Value::Null),
    }
}

/// A step, in the words of its line.
#[tactic(auto, unfolding(crate::specs::WalkValues::step_value))]
fn step_value(alloc: Global, step: &ToldStep) -> Result<Value, AllocError>
    ensures { IfOk result (λ v. view v ≡ step_value step.now) }
{
    let agent = name_value(alloc, step.agent)?;
    let owner = owner_value(alloc, &step.owner)?;
    let row = row_value(alloc, &step.row)?;
    let leads = leads_value(alloc, &step.leads)?;
    let table = step.instance.0;
    json!(in alloc; {
        "agent": agent,
        "of": owner,
        "row": row,
        "table": table,
        "to": leads
    })
}

/// A list of the values of the steps of a walk.
pub(crate) fn walk_value(alloc: Global, walk: &[ToldStep]) -> Result<Value, AllocError>
    ensures { IfOk result (λ v. view v ≡ list_value step_value walk.now) }
{
    let mut values = Vec::new(alloc);
    for step in walk {
        values.push(step_value(alloc, step)?)?;
    }
    Ok(Value::Array(values))
}
