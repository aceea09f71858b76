//! Objects that may not stand in one list.
ghost use Rattle.std.specs.Prelude.{◌≡◌, Bool, find, option_copied, IfOk};
ghost use Rattle.std.specs.BTreeMap.{get};
ghost use Rattle.std.specs.Ordering.{eq_by_cmp};
ghost use Rattle.ov_types.specs.First.{first_meeting};

use ov_types::{Name, NoMemory};
use std::alloc::Global;
use std::collections::BTreeMap;

/// What may not stand in a list beside another of its key.
pub(crate) trait Meets {
    type Key: Ord + Drop;

    ghost meets: { Self → Self → Bool };

    ghost key_of: { Self → Self.Key };

    fn key(&self) -> Self::Key
        ensures { result ≡ key_of self.now };

    ghost by_key: { (a b : Self) → meets a b ≡ eq_by_cmp Self.Key.cmp (key_of a) (key_of b) };
}

impl Meets for Name {
    ghost use Rattle.std.specs.Cmp.Lexicographic.{texts_ties};
    ghost use Rattle.ov_types.specs.First.{same_name};

    type Key = Name;

    ghost meets = { same_name };

    ghost key_of = { λ name. name };

    fn key(&self) -> Name {
        *self
    }

    ghost by_key = { texts_ties };
}

impl Meets for u32 {
    ghost use Rattle.std.specs.Cmp.{unsigned_ties};
    ghost use Rattle.std.specs.Prelude.{nat_eq};

    type Key = u32;

    ghost meets = { nat_eq };

    ghost key_of = { λ number. number };

    fn key(&self) -> u32 {
        *self
    }

    ghost by_key = { unsigned_ties };
}

/// The first item that meets one before it, after the first one that it meets.
pub(crate) fn first_meeting<T: Meets + Copy>(
    alloc: Global,
    items: &[T],
) -> Result<Option<(T, T)>, NoMemory>
    ensures { IfOk result (λ found. found ≡ first_meeting T.meets items.now) }
{
    let mut before = BTreeMap::new(alloc);
    for item in items {
        if let Some(earlier) = before.insert(item.key(), item)? {
            return Ok(Some((*earlier, *item)));
        }
    }
    Ok(None)
}

/// The first item of each key.
pub(crate) fn first_of_each_key<'a, T: Meets>(
    alloc: Global,
    items: &'a [T],
) -> Result<BTreeMap<T::Key, &'a T>, NoMemory>
    ensures { IfOk result (λ first. (key : T.Key) → option_copied (get T.Key.cmp first key)
        ≡ find (λ x. eq_by_cmp T.Key.cmp key (T.key_of x)) items.now) }
{
    let mut first = BTreeMap::new(alloc);
    for item in items {
        let key = item.key();
        if first.contains_key(&key) {
            continue;
        }
        first.insert(key, item)?;
    }
    Ok(first)
}
