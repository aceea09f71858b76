//! The uses of chains that are in effect, by their numbers.
ghost use Rattle.std.specs.Prelude.{◌≡◌, ◌==◌, ℕ, None, Some, if◌then◌else◌, map, option_map, IfOk, OnOk};
ghost use Rattle.ov_types.specs.First.{◌<|>◌};
ghost use Rattle.schema_transform.specs.HeldUses.{use_of};
ghost use Rattle.schema_transform.specs.ByNumber.{use_at, use_in, use_numbered};

use crate::chain_use::ChainUse;
use ov_types::{InstanceId, NoMemory};
use route_targets::hop_of;
use std::alloc::Global;
use std::collections::BTreeMap;

/// Uses by their numbers.
pub(crate) type UsesByNumber<'a> = BTreeMap<u16, &'a ChainUse>;

/// Puts a use under its number, where none is there.
fn put_use<'a>(found: &'a ChainUse, numbered: &mut UsesByNumber<'a>) -> Result<(), NoMemory>
    ensures { (n : ℕ) → OnOk result (use_in numbered.new.entries n ≡ (use_in numbered.old.entries n
        <|> (if found.now.number == n then Some (use_of found.now) else None))) }
{
    if numbered.contains_key(&found.number) {
        return Ok(());
    }
    numbered.insert(found.number, found)?;
    Ok(())
}

/// Uses by their numbers, of several with one number the first.
pub(crate) fn by_number<'a>(
    alloc: Global,
    chain_uses: &'a [ChainUse],
) -> Result<UsesByNumber<'a>, NoMemory>
    ensures { IfOk result (λ numbered. (n : ℕ) → use_in numbered.entries n
        ≡ use_numbered (map use_of chain_uses.now) n) }
{
    let mut numbered = BTreeMap::new(alloc);
    for found in chain_uses {
        put_use(found, &mut numbered)?;
    }
    Ok(numbered)
}

/// The use that an instance is a hop of.
pub(crate) fn use_at<'a>(numbered: &UsesByNumber<'a>, instance: InstanceId) -> Option<&'a ChainUse>
    ensures { option_map (λ u. use_of u.now) result ≡ use_at (use_in numbered.now.entries) instance }
{
    let hop = hop_of(instance)?;
    numbered.get(&hop.use_no).copied()
}
