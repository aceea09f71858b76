//! Names that others are looked for among.
ghost use Rattle.std.specs.Prelude.{◌≡◌, List, ℕ, IfOk};
ghost use Rattle.std.specs.BTreeSet.{contains};
ghost use Rattle.std.specs.Cmp.Lexicographic.{slice_cmp};
ghost use Rattle.std.specs.List.{list_any};
ghost use Rattle.std.specs.Ordering.{nat_cmp};
ghost use Rattle.ov_types.specs.First.{same_name};

use ov_types::{Name, NoMemory};
use std::alloc::Global;
use std::collections::BTreeSet;
use std::marker::Model;

/// Names, with the set of them. Contracts see the names as they were listed.
#[derive(Drop)]
pub(crate) struct KnownNames {
    listed: Vec<Name>,
    known: BTreeSet<Name>,
}

impl Model for KnownNames {
    ghost use Rattle.std.specs.Prelude.{◌≡◌, List, ℕ};
    ghost use Rattle.std.specs.BTreeSet.{contains};
    ghost use Rattle.std.specs.Cmp.Lexicographic.{slice_cmp};
    ghost use Rattle.std.specs.List.{list_any};
    ghost use Rattle.std.specs.Ordering.{nat_cmp};
    ghost use Rattle.ov_types.specs.First.{same_name};

    ghost Value = { List (List ℕ) };

    ghost view = { λ names. names.listed.items };

    ghost invariant = { λ names. (name : List ℕ) → contains (slice_cmp nat_cmp) names.known name
        ≡ list_any (same_name name) names.listed.items };
}

fn set_of(alloc: Global, names: &[Name]) -> Result<BTreeSet<Name>, NoMemory>
    ensures { IfOk result (λ known. (name : List ℕ) → contains (slice_cmp nat_cmp) known name
        ≡ list_any (same_name name) names.now) }
{
    let mut known = BTreeSet::new(alloc);
    for name in names {
        known.insert(*name)?;
    }
    Ok(known)
}

impl KnownNames {
    pub(crate) fn new(alloc: Global, listed: Vec<Name>) -> Result<KnownNames, NoMemory>
        ensures { IfOk result (λ names. names ≡ listed.items) }
    {
        let known = set_of(alloc, &listed)?;
        Ok(KnownNames { listed, known })
    }

    pub(crate) fn has(&self, name: &Name) -> bool
        ensures { result ≡ list_any (same_name name.now) self.now }
    {
        self.known.contains(name)
    }
}
