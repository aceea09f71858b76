//! The rows of an agent, as lists.
ghost use Rattle.std.specs.Prelude.{◌≡◌, ◌++◌, IfOk, OnOk};
ghost use Rattle.packet_trace.specs.Tables.{rows_in};
ghost use Rattle.agent_tables.specs.Routes.{routes_of};

use crate::acls::copy_of;
use crate::fibs::Fibs;
use flow_acl::Acls;
use ov_types::{Attached, Entry, InstanceId, Items, Label, Low, NoMemory, Prefix};
use std::alloc::Global;
use vrouter_fib::{Fib, Labels};

pub(crate) fn label_rows(
    alloc: Global,
    labels: &Labels,
) -> Result<Items<(Label, Attached)>, NoMemory>
    ensures { IfOk result (λ rows. rows ≡ labels.now) }
{
    let mut rows = Items::new(alloc);
    for (label, at) in labels.iter() {
        rows.push((*label, *at))?;
    }
    Ok(rows)
}

pub(crate) fn acl_rows(alloc: Global, acls: &Acls) -> Result<Low, NoMemory>
    ensures { IfOk result (λ rows. rows ≡ acls.now) }
{
    let mut rows = Items::new(alloc);
    for (key, value) in acls.iter() {
        rows.push((*key, copy_of(value)?))?;
    }
    Ok(rows)
}

pub(crate) fn route_rows(
    alloc: Global,
    fibs: &Fibs,
) -> Result<Items<((InstanceId, Prefix), Entry)>, NoMemory>
    ensures { IfOk result (λ rows. rows ≡ routes_of fibs.now.entries) }
{
    let mut rows = Items::new(alloc);
    for (instance, fib) in fibs.iter() {
        add_rows(&mut rows, *instance, fib)?;
    }
    Ok(rows)
}

fn add_rows(
    rows: &mut Items<((InstanceId, Prefix), Entry)>,
    instance: InstanceId,
    fib: &Fib,
) -> Result<(), NoMemory>
    ensures { OnOk result (rows.new ≡ rows.old ++ rows_in instance fib.now) }
{
    let routes = fib.routes()?;
    for route in routes.as_slice() {
        rows.push(((instance, route.0), route.1))?;
    }
    Ok(())
}
