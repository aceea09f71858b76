//! The slice in use.
ghost use Rattle.std.specs.Prelude.{◌≡◌, IfOk, map};
ghost use Rattle.std.specs.List.{AllByRecursion};
ghost use Rattle.std.specs.FinMap.{find};
ghost use Rattle.std.specs.Option.{IfSome, option_map};
ghost use Rattle.ov_types.specs.Keys.{low_key_cmp};
ghost use Rattle.node_core.specs.Told.{AllFit, Fits, down_of, down_value};
ghost use Rattle.node_core.specs.NodeModel.Agent.{Heard, slice_in_use};
ghost use Rattle.node_core.specs.NodeModel.Keys.{of_down};
ghost use Rattle.node_core.specs.NodeModel.Maps.{low_entry, objects};
ghost use Rattle.agent_tables.specs.Listed.{object_in_use};
ghost use Rattle.agent_tables.specs.Slice.{pair_of, pairs_of};
ghost use Rattle.agent_tables.specs.Views.{heard_of};

use crate::hearing::Hearing;
use crate::object::SliceObject;
use ov_sync::SyncIn;
use ov_types::{DownKey, DownValue, LowKey, NoMemory};
use std::alloc::Global;

/// The objects of the slice in use, in the order of their keys: of that of the first session that is up, and none where
/// no session is.
pub(crate) fn slice_in_use(
    alloc: Global,
    sessions: &[Hearing],
) -> Result<Vec<SliceObject<'_>>, NoMemory>
    requires { AllByRecursion (λ (s : Heard). AllFit s.map) (map heard_of sessions.now) }
    ensures { IfOk result (λ slice. pairs_of slice.items ≡ slice_in_use (map heard_of sessions.now)) }
{
    for session in sessions {
        if session.is_up() {
            return objects(alloc, &session.held);
        }
    }
    Ok(Vec::new(alloc))
}

/// The objects that a control node told.
fn objects(
    alloc: Global,
    held: &SyncIn<DownKey, DownValue>,
) -> Result<Vec<SliceObject<'_>>, NoMemory>
    requires { AllFit (down_of held.now) }
    ensures { IfOk result (λ slice. pairs_of slice.items ≡ objects (down_of held.now)) }
{
    let mut slice = Vec::new(alloc);
    for (key, value) in held.iter() {
        if let Some(object) = object_of(key, value) {
            slice.push(object)?;
        }
    }
    Ok(slice)
}

fn object_of<'a>(key: &DownKey, value: &'a DownValue) -> Option<SliceObject<'a>>
    requires { Fits (of_down key.now) (down_value value.now) }
    ensures { option_map pair_of result ≡ low_entry (of_down key.now) (down_value value.now) }
{
    let DownKey::Slice(key) = *key else {
        return None;
    };
    match value {
        DownValue::Object(value) => Some(SliceObject { key, value }),
        DownValue::Row(_) => None,
    }
}

/// The object under a key in the slice in use.
pub(crate) fn object_in_use(sessions: &[Hearing], key: LowKey) -> Option<SliceObject<'_>>
    requires { AllByRecursion (λ (s : Heard). AllFit s.map) (map heard_of sessions.now) }
    ensures object { option_map (λ o. o.value.now) result ≡ object_in_use (map heard_of sessions.now) key }
    ensures key { IfSome result (λ o. o.key ≡ key) }
{
    for session in sessions {
        if session.is_up() {
            return object_under(&session.held, key);
        }
    }
    None
}

fn object_under(held: &SyncIn<DownKey, DownValue>, key: LowKey) -> Option<SliceObject<'_>>
    requires { AllFit (down_of held.now) }
    ensures object { option_map (λ o. o.value.now) result ≡ find low_key_cmp key (objects (down_of held.now)) }
    ensures key { IfSome result (λ o. o.key ≡ key) }
{
    match held.get(&DownKey::Slice(key)) {
        Some(DownValue::Object(value)) => Some(SliceObject { key, value }),
        Some(DownValue::Row(_)) => None,
        None => None,
    }
}
