//! The subnets of a network in order.
ghost use Rattle.std.specs.Prelude.{◌≡◌, IfOk};
ghost use Rattle.acl_compile.specs.Oriented.{ascending};

use ov_types::{Items, NoMemory, Prefix};
use std::alloc::Global;

/// Prefixes by address, and then by length.
pub fn ascending(alloc: Global, prefixes: &[Prefix]) -> Result<Items<Prefix>, NoMemory>
    ensures { IfOk result (λ list. list ≡ ascending prefixes.now) }
{
    let mut prefixes = Vec::from_slice(alloc, prefixes)?;
    prefixes.sort()?;
    Ok(Items::from_vec(prefixes))
}
