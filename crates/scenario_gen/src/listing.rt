//! Lists of what a scenario has several of.
ghost use Rattle.std.specs.Prelude.{◌≡◌, ◌++◌, ◌+◌, ◌≤◌, ◌<◌, ℕ, List, IfOk, OnOk, map};
ghost use Rattle.std.specs.List.{range_with_len, flat_map};
ghost use Rattle.scenario_gen.specs.Naming.{below};
ghost use Rattle.scenario_gen.specs.Tenants.{tenants};

use crate::tenancy::tenants;
use ov_types::{Items, NoMemory};
use std::alloc::Global;

/// What a scenario has several of, each with a number.
pub(crate) trait Numbered: Drop {
    /// The one of a number, in the scenario of a number.
    ghost by_number: { ℕ → ℕ → Self };

    fn numbered(alloc: Global, scenario: u16, number: u16) -> Result<Self, NoMemory>
        requires first { 1 ≤ scenario }
        requires last { scenario ≤ 999 }
        requires number { number < 1024 }
        ensures { IfOk result (λ x. x ≡ by_number scenario number) };
}

/// What each tenant of a scenario has some of.
pub(crate) trait OfTenant: Drop {
    /// The items of a tenant, in the scenario of a number.
    ghost of_tenant: { ℕ → ℕ → List Self };

    /// Appends the items of a tenant.
    fn append_to(
        items: &mut Items<Self>,
        alloc: Global,
        scenario: u16,
        tenant: u16,
    ) -> Result<(), NoMemory>
        requires first { 1 ≤ scenario }
        requires last { scenario ≤ 999 }
        requires tenant { tenant < 16 }
        ensures { OnOk result (items.new ≡ items.old ++ of_tenant scenario tenant) };
}

/// As many items as are counted, from the first number on.
pub(crate) fn all_numbered<T: Numbered>(
    alloc: Global,
    scenario: u16,
    first: u16,
    count: u16,
) -> Result<Items<T>, NoMemory>
    requires first { 1 ≤ scenario }
    requires last { scenario ≤ 999 }
    requires few { first + count ≤ 1024 }
    ensures { IfOk result (λ xs. xs ≡ map (T.by_number scenario) (range_with_len first count)) }
{
    let mut items = Items::new(alloc);
    for number in first..first + count {
        items.push(T::numbered(alloc, scenario, number)?)?;
    }
    Ok(items)
}

/// The items of all tenants, in the order of the tenants.
pub(crate) fn of_all_tenants<T: OfTenant>(
    alloc: Global,
    scenario: u16,
) -> Result<Items<T>, NoMemory>
    requires first { 1 ≤ scenario }
    requires last { scenario ≤ 999 }
    ensures { IfOk result (λ xs. xs ≡ flat_map (T.of_tenant scenario) (below (tenants scenario))) }
{
    let mut items = Items::new(alloc);
    for tenant in 0..tenants(scenario) {
        T::append_to(&mut items, alloc, scenario, tenant)?;
    }
    Ok(items)
}
