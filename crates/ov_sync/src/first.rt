//! Maps of entries that are listed.
ghost use Rattle.std.specs.Prelude.{◌≡◌, IfOk};
ghost use Rattle.std.specs.FinMap.{from_entries};
ghost use Rattle.ov_sync.specs.Keyed.{map_of};

use ov_types::NoMemory;
use std::alloc::Global;
use std::collections::BTreeMap;

/// The map of entries. Of those of one key the first counts.
pub fn first_of_each<K: Ord + Drop, V: Drop>(
    alloc: Global,
    mut entries: Vec<(K, V)>,
) -> Result<BTreeMap<K, V>, NoMemory>
    ensures { IfOk result (λ first. map_of K.cmp first.entries ≡ from_entries entries.items) }
{
    let mut first = BTreeMap::new(alloc);
    while let Some((key, value)) = entries.pop() {
        first.insert(key, value)?;
    }
    Ok(first)
}
