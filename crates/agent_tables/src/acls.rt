//! The access lists of a slice.
ghost use Rattle.std.specs.Prelude.{◌≡◌, ◌↔◌, IfOk, IsTrue, OnErr, OnOk, map};
ghost use Rattle.std.specs.Option.{IfSome, option_copied, option_map};
ghost use Rattle.std.specs.List.{filter_map};
ghost use Rattle.std.specs.List.Sorted.{IsStrictlySortedBy};
ghost use Rattle.ov_types.specs.Keys.{low_key_cmp};
ghost use Rattle.node_core.specs.NodeModel.Agent.{acl_entry};
ghost use Rattle.ov_types.specs.declared.objects.LowKey.TheVariants.{Acl as AclKey};
ghost use Rattle.agent_tables.specs.Kept.{with_entry};
ghost use Rattle.agent_tables.specs.Listed.{with_object};
ghost use Rattle.agent_tables.specs.Slice.{pairs_of};

use crate::object::SliceObject;
use flow_acl::Acls;
use ov_types::{InstanceId, LowKey, LowValue, NoMemory};
use std::alloc::Global;

/// The access lists of a slice.
pub(crate) fn acls_of(alloc: Global, slice: &[SliceObject<'_>]) -> Result<Acls, NoMemory>
    requires { IsStrictlySortedBy low_key_cmp (map (λ e. e.0) (pairs_of slice.now)) }
    ensures { IfOk result (λ acls. acls ≡ filter_map (λ e. acl_entry e.0 e.1) (pairs_of slice.now)) }
{
    let mut acls = Acls::new(alloc);
    for object in slice {
        list(&mut acls, object)?;
    }
    Ok(acls)
}

/// Adds an object, where it is an access list, in place of the one under its key.
pub(crate) fn list(acls: &mut Acls, object: &SliceObject<'_>) -> Result<(), NoMemory>
    ensures listed { OnOk result (acls.new
        ≡ with_entry low_key_cmp acls.old (acl_entry object.now.key object.now.value.now)) }
    ensures unchanged { OnErr result (acls.new ≡ acls.old) }
{
    let LowKey::Acl { from, to } = object.key else {
        return Ok(());
    };
    let value = copy_of(object.value)?;
    acls.set(InstanceId(from), InstanceId(to), value)
}

pub(crate) fn copy_of(value: &LowValue) -> Result<LowValue, NoMemory>
    ensures { IfOk result (λ copy. copy ≡ value.now) }
{
    Ok(value.clone()?)
}

/// Whether the very same access list, or none, stands in both places.
pub(crate) fn are_same(list: Option<&LowValue>, other: Option<&LowValue>) -> bool
    ensures { IsTrue result ↔ (option_copied list.entry ≡ option_copied other.entry) }
{
    match (list, other) {
        (Some(list), Some(other)) => *list == *other,
        (None, None) => true,
        _ => false,
    }
}

/// The access list between two networks is this one from now on, and there is none where this is none.
pub(crate) fn put_list(
    acls: &mut Acls,
    from: InstanceId,
    to: InstanceId,
    object: Option<SliceObject<'_>>,
) -> Result<(), NoMemory>
    requires { IfSome object (λ o. o.key ≡ AclKey from.0 to.0) }
    ensures listed { OnOk result (acls.new
        ≡ with_object acls.old (AclKey from.0 to.0) (option_map (λ o. o.value.now) object.entry)) }
    ensures unchanged { OnErr result (acls.new ≡ acls.old) }
{
    match object {
        Some(object) => list(acls, &object),
        None => {
            acls.remove(from, to);
            Ok(())
        }
    }
}
