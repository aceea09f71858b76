//! What a control node asks of its peers.
ghost use Rattle.std.specs.Prelude.{◌≡◌, ◌++◌, IfOk, OnOk, map};
ghost use Rattle.std.specs.List.{flat_map};
ghost use Rattle.ov_types.specs.declared.numbers.InstanceId.{InstanceId};
ghost use Rattle.node_model.specs.Members.{Member};
ghost use Rattle.node_model.specs.Paths.{Told};
ghost use Rattle.node_model.specs.Tables.{table};
ghost use Rattle.node_model.specs.Uses.{imports};
ghost use Rattle.node_model.specs.Wants.{wanted_by_agent, wanted_by_peers};
ghost use Rattle.vpn_tables.specs.Gathered.{in_order};
ghost use Rattle.rt_constrain.specs.Needs.{UsesFit};
ghost use Rattle.rt_constrain.specs.Covering.{AreAsked};
ghost use Rattle.rt_constrain.specs.Needed.{needed};
ghost use Rattle.rt_constrain.specs.Asking.{asked, asked_for, asked_order, cut};

use crate::needing::needed;
use ov_types::{InstanceId, NoMemory};
use route_targets::target;
use rt_membership::Asked;
use std::alloc::Global;
use vpn_tables::{VpnTables, in_order as ordered};

/// The length of a prefix that is a whole target.
const WHOLE: u8 = 96;

/// The imports of instances, one after the other.
fn imports_of(
    alloc: Global,
    tables: &VpnTables,
    instances: &[InstanceId],
) -> Result<Vec<InstanceId>, NoMemory>
    ensures { IfOk result (λ imported. imported.items ≡ flat_map (imports tables.now.feed) instances.now) }
{
    let mut imported = Vec::new(alloc);
    for instance in instances {
        push_imports(tables, *instance, &mut imported)?;
    }
    Ok(imported)
}

fn push_imports(
    tables: &VpnTables,
    instance: InstanceId,
    imported: &mut Vec<InstanceId>,
) -> Result<(), NoMemory>
    ensures { OnOk result (imported.new.items ≡ imported.old.items ++ imports tables.now.feed instance) }
{
    let mut imports = tables.imports(instance)?;
    imported.append(&mut imports)?;
    Ok(())
}

/// What asks for the routes of each of these instances.
fn entries(alloc: Global, asn: u32, instances: &[InstanceId]) -> Result<Vec<Asked>, NoMemory>
    ensures { IfOk result (λ asked. asked.items ≡ map (asked_for asn) instances.now) }
{
    let mut asked = Vec::with_capacity(alloc, instances.len())?;
    for instance in instances {
        asked.push(Asked {
            length: WHOLE,
            origin: asn,
            target: target(asn, *instance),
        })?;
    }
    Ok(asked)
}

/// What a control node asks, in order.
fn asked_by(alloc: Global, tables: &VpnTables, asn: u32) -> Result<Vec<Asked>, NoMemory>
    ensures asked { IfOk result (λ found. found.items
        ≡ in_order asked_order (map (asked_for asn) (flat_map (imports tables.now.feed) (needed tables.now)))) }
    ensures in_range { UsesFit tables.now.feed }
{
    let instances = needed(alloc, tables)?;
    let imported = imports_of(alloc, tables, instances.as_slice())?;
    let each = entries(alloc, asn, imported.as_slice())?;
    let found = ordered(alloc, each.as_slice())?;
    Ok(found)
}

/// What a control node asks of its peers, in order: the targets of the imports of the instances that it needs.
///
/// Where its peers send only that, nothing changes of what it tells its agents and its peers, nor of the tables of the
/// instances that it needs.
pub fn asked(alloc: Global, tables: &VpnTables, asn: u32) -> Result<Vec<Asked>, NoMemory>
    requires { asn ≡ tables.now.asn }
    ensures asked { IfOk result (λ found. found.items ≡ asked tables.now) }
    ensures form { IfOk result (λ found. AreAsked found.items) }

    // What is wanted of all that peers sent is wanted of what is asked of it.
    ensures peers { wanted_by_peers (cut tables.now) ≡ wanted_by_peers tables.now }
    ensures agents { (a : Told) → Member a tables.now.agents
        → wanted_by_agent (cut tables.now) a ≡ wanted_by_agent tables.now a }
    ensures tables { (i : InstanceId) → Member i (needed tables.now) → table (cut tables.now) i ≡ table tables.now i }
{
    asked_by(alloc, tables, asn)
}
