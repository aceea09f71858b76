//! Route targets.
ghost use Rattle.std.specs.Prelude.{◌≡◌, [], OnOk, OnErr};
ghost use Rattle.ov_types.specs.Targets.{with_target, is_target, IsAscending, IsPlace};

use crate::items::NoMemory;
use crate::kinded::Kinded;
use std::alloc::{AllocError, Global};
use std::fmt;
use std::marker::Model;

/// A route target: the eight octets of an extended community as a number, big-endian (RFC 4360, section 4).
#[derive(Clone, Copy, Debug, PartialEq, Eq, PartialOrd, Ord)]
pub struct Target(pub u64);

impl fmt::Display for Target {
    ghost use Rattle.std.specs.Prelude.{Some};
    ghost use Rattle.ov_types.specs.Texts.{target_text};

    ghost output = { λ t. Some (target_text t.0) };

    fn fmt<W: fmt::Write>(&self, f: &mut fmt::Formatter<W>) -> fmt::Result {
        let octets = self.0;
        let kind = octets >> 56;
        let text = Kinded { kind, octets };
        write!(f, "{text}")
    }
}

/// Whether eight octets of an extended community are a route target: of type 0x00, 0x01 or 0x02, whose second octet is
/// 0x02 (RFC 4360, section 4; RFC 5668).
pub fn is_target(community: u64) -> bool
    ensures { result ≡ is_target community }
{
    community >> 56 <= 2 && community >> 48 & 0xff == 2
}

/// Targets, ascending and distinct.
#[derive(Debug, Drop)]
pub struct Targets {
    list: Vec<Target>,
}

impl Model for Targets {
    ghost use Rattle.std.specs.Prelude.{List};
    ghost use Rattle.ov_types.specs.declared.targets.Target.{Target as TargetValue};
    ghost use Rattle.ov_types.specs.Targets.{IsAscending};

    ghost Value = { List TargetValue };

    ghost view = { λ a. a.list.items };

    ghost invariant = { λ a. IsAscending a.list.items };
}

impl Targets {
    /// No targets. It takes no memory.
    pub fn new(alloc: Global) -> Targets
        ensures { result ≡ [] }
    {
        Targets {
            list: Vec::new(alloc),
        }
    }

    pub fn items(&self) -> &[Target]
        ensures list { result.now ≡ self.now }
        ensures ascending { IsAscending self.now }
    {
        self.list.as_slice()
    }

    /// Puts a target in its place. One that is there changes nothing.
    pub fn insert(&mut self, target: Target) -> Result<(), NoMemory>
        ensures ok { OnOk result (self.new ≡ with_target target self.old) }
        ensures err { OnErr result (self.new ≡ self.old) }
    {
        match place_of(self.list.as_slice(), target) {
            TargetPlace::Held => Ok(()),
            TargetPlace::Before(index) => {
                self.list.insert(index, target)?;
                Ok(())
            }
        }
    }
}

impl PartialEq for Targets {
    ghost use Rattle.std.specs.Cmp.{nat_eq_equiv, on_equiv, partial_equiv_from_equiv};
    ghost use Rattle.std.specs.Cmp.Lexicographic.{pointwise, lists_per};

    ghost eq = { pointwise ⟦<Target as PartialEq>⟧.eq };

    ghost laws = { lists_per (partial_equiv_from_equiv (on_equiv (λ t. t.0) nat_eq_equiv)) };

    fn eq(&self, other: &Self) -> bool {
        self.list == other.list
    }
}

impl Eq for Targets {
    ghost use Rattle.std.specs.Cmp.{nat_eq_equiv, on_equiv};
    ghost use Rattle.std.specs.Cmp.Lexicographic.{lists_equiv};

    ghost laws = { lists_equiv (on_equiv (λ t. t.0) nat_eq_equiv) };
}

impl Clone for Targets {
    ghost is_clone = { λ a b. a ≡ b };

    fn clone(&self) -> Result<Targets, AllocError> {
        Ok(Targets {
            list: self.list.clone()?,
        })
    }
}

/// Where a target goes.
enum TargetPlace {
    Held,
    Before(usize),
}

fn place_of(list: &[Target], target: Target) -> TargetPlace
    ensures { IsPlace target list.now result }
{
    for (index, x) in list.iter().enumerate() {
        if target.0 < x.0 {
            return TargetPlace::Before(index);
        }
        if target.0 == x.0 {
            return TargetPlace::Held;
        }
    }
    TargetPlace::Before(list.len())
}
