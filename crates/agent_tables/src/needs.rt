//! The instances that an agent needs.
ghost use Rattle.std.specs.Prelude.{◌≡◌, ◌++◌, true, IfOk, IsTrue, OnOk};
ghost use Rattle.std.specs.List.{filter_map, list_all};
ghost use Rattle.std.specs.Option.{option_copied, option_map};
ghost use Rattle.node_core.specs.NodeModel.Agent.{entered_by, needed_by, needed_for};
ghost use Rattle.agent_tables.specs.Listed.{needed_at};
ghost use Rattle.agent_tables.specs.Slice.{pairs_of};
ghost use Rattle.agent_tables.specs.Touched.{is_listed};

use crate::object::SliceObject;
use ov_types::{AclAction, AclRule, InstanceId, LowValue, NoMemory};
use route_targets::circuit_instance;
use std::alloc::Global;

/// The instances that the objects of a slice make the agent need, object by object. One may occur more than once.
pub(crate) fn needed(alloc: Global, slice: &[SliceObject<'_>]) -> Result<Vec<InstanceId>, NoMemory>
    ensures { IfOk result (λ needed. needed.items ≡ needed_by (pairs_of slice.now)) }
{
    let mut needed = Vec::new(alloc);
    for object in slice {
        need(&mut needed, object)?;
    }
    Ok(needed)
}

/// Appends the instances that an object needs: the own one of a port or a circuit, and each that an access list enters.
fn need(needed: &mut Vec<InstanceId>, object: &SliceObject<'_>) -> Result<(), NoMemory>
    ensures { OnOk result (needed.new.items ≡ needed.old.items ++ needed_for object.now.value.now) }
{
    match object.value {
        LowValue::AttachPort { instance, .. } => {
            needed.push(*instance)?;
            Ok(())
        }
        LowValue::AttachCircuit { circuit, .. } => {
            needed.push(circuit_instance(*circuit))?;
            Ok(())
        }
        LowValue::Acl { rules, .. } => need_entered(needed, rules.as_slice()),
        _ => Ok(()),
    }
}

fn need_entered(needed: &mut Vec<InstanceId>, rules: &[AclRule]) -> Result<(), NoMemory>
    ensures { OnOk result (needed.new.items
        ≡ needed.old.items ++ filter_map (λ r. entered_by r.action) rules.now) }
{
    for rule in rules {
        if let AclAction::Enter(instance) = rule.action {
            needed.push(instance)?;
        }
    }
    Ok(())
}

/// The instances that an object makes the agent need; none where there is no object.
pub(crate) fn needed_at(
    alloc: Global,
    object: Option<SliceObject<'_>>,
) -> Result<Vec<InstanceId>, NoMemory>
    ensures { IfOk result (λ needed. needed.items ≡ needed_at (option_map (λ o. o.value.now) object.entry)) }
{
    let mut needed = Vec::new(alloc);
    if let Some(object) = object {
        need(&mut needed, &object)?;
    }
    Ok(needed)
}

fn is_among(instances: &[InstanceId], instance: InstanceId) -> bool
    ensures { result ≡ is_listed instances.now instance }
{
    for other in instances {
        if other.0 == instance.0 {
            return true;
        }
    }
    false
}

/// Whether all of some instances are among others.
pub(crate) fn are_among(others: &[InstanceId], instances: &[InstanceId]) -> bool
    ensures { result ≡ list_all (λ i. is_listed others.now i) instances.now }
{
    for instance in instances {
        if !is_among(others, *instance) {
            return false;
        }
    }
    true
}

/// Whether each instance that some rules enter is among given ones.
fn enter_only(others: &[InstanceId], rules: &[AclRule]) -> bool
    ensures { result ≡ list_all (λ i. is_listed others.now i) (filter_map (λ r. entered_by r.action) rules.now) }
{
    for rule in rules {
        if let AclAction::Enter(instance) = rule.action
            && !is_among(others, instance)
        {
            return false;
        }
    }
    true
}

/// Whether an access list, where there is one, makes the agent need only instances that are among given ones.
pub(crate) fn needs_only(others: &[InstanceId], list: Option<&LowValue>) -> bool
    ensures { IsTrue result → list_all (λ i. is_listed others.now i) (needed_at (option_copied list.entry)) ≡ true }
{
    match list {
        None => true,
        Some(LowValue::Acl { rules, .. }) => enter_only(others, rules.as_slice()),
        Some(_) => false,
    }
}
