//! What the control nodes are to be told of a configuration.
ghost use Rattle.std.specs.Prelude.{◌≡◌, IfOk, OnErr, OnOk, option_copied};
ghost use Rattle.std.specs.FinMap.{get, insert, remove};
ghost use Rattle.ov_sync.specs.Keyed.{map_of, set_key};
ghost use Rattle.node_core.specs.Told.{AllFit};
ghost use Rattle.config_node.specs.MachineModel.Setup.{low_in};
ghost use Rattle.config_node.specs.Ends.{low_of, low_order};

use config_check::Valid;
use ov_sync::first_of_each;
use ov_types::{LowKey, LowValue, NoMemory};
use schema_transform::low;
use std::alloc::Global;
use std::collections::BTreeMap;

/// Low-level objects by their keys.
pub(crate) type Objects = BTreeMap<LowKey, LowValue>;

/// The low-level objects of a valid configuration.
pub(crate) fn wanted(alloc: Global, valid: &Valid) -> Result<Objects, NoMemory>
    ensures wanted { IfOk result (λ objects. low_of objects.entries ≡ low_in valid.now) }
    ensures fits { AllFit (low_in valid.now) }
{
    // (for its clauses: the configuration is valid and of the written form)
    let _config = valid.config();
    let objects = low(alloc, valid)?;
    let wants = first_of_each(alloc, objects.into_vec())?;
    Ok(wants)
}

fn copied(value: Option<&LowValue>) -> Result<Option<LowValue>, NoMemory>
    ensures { IfOk result (λ copy. copy ≡ option_copied value.entry) }
{
    match value {
        Some(value) => Ok(Some(value.clone()?)),
        None => Ok(None),
    }
}

/// What is wanted of a key.
pub(crate) fn wanted_of(wants: &Objects, key: &LowKey) -> Result<Option<LowValue>, NoMemory>
    ensures { IfOk result (λ value. value ≡ get (map_of low_order wants.now.entries) key.now) }
{
    let value = copied(wants.get(key))?;
    Ok(value)
}

fn put(wants: &mut Objects, key: LowKey, value: LowValue) -> Result<(), NoMemory>
    ensures ok { OnOk result (map_of low_order wants.new.entries
        ≡ insert (map_of low_order wants.old.entries) key value) }
    ensures err { OnErr result (wants.new.entries ≡ wants.old.entries) }
{
    wants.insert(key, value)?;
    Ok(())
}

fn take_out(wants: &mut Objects, key: LowKey)
    ensures { map_of low_order wants.new.entries ≡ remove (map_of low_order wants.old.entries) key }
{
    wants.remove(&key);
}

/// Sets what is wanted of a key.
pub(crate) fn want(
    wants: &mut Objects,
    key: LowKey,
    value: Option<LowValue>,
) -> Result<(), NoMemory>
    ensures ok { OnOk result (map_of low_order wants.new.entries
        ≡ set_key (map_of low_order wants.old.entries) key value) }
    ensures err { OnErr result (wants.new.entries ≡ wants.old.entries) }
{
    match value {
        Some(value) => put(wants, key, value),
        None => {
            take_out(wants, key);
            Ok(())
        }
    }
}
