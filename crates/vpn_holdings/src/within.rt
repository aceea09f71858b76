//! Whether something within a subnet was told that is imported. It looks at what begins in the subnet alone.
ghost use Rattle.std.specs.Prelude.{◌≡◌, ◌+◌, Bool, true, IfSome};
ghost use Rattle.std.specs.BTreeMap.{IsOrdered};
ghost use Rattle.std.specs.List.{list_any};
ghost use Rattle.ov_types.specs.Prefix.{Block, is_inside, size_of};
ghost use Rattle.vpn_holdings.specs.Indexed.{is_label_within, is_route_within, label_order, leads_label};
ghost use Rattle.vpn_holdings.specs.Indexed.{leads_route, route_order};
ghost use Rattle.vpn_holdings.specs.declared.places.LabelAt.{LabelAt as LabelAtOf};
ghost use Rattle.vpn_holdings.specs.declared.places.RouteAt.{RouteAt as RouteAtOf};

use crate::holdings::VpnHoldings;
use crate::imports::Imports;
use crate::places::{LabelAt, Labels, RouteAt, Routes};
use ov_types::{Addr, InstanceId, Prefix, Rd};
use std::collections::btree_map::Range;
use std::ops::Bound;

/// The number past the last address of a block.
fn end_of(addr: Addr, len: u8) -> u64
    ensures { result ≡ addr.0 + size_of len }
{
    let bits = 32u8.saturating_sub(len);
    u64::from(addr.0) + (1u64 << bits)
}

fn is_within(addr: Addr, len: u8, subnet: &Prefix) -> bool
    ensures { result ≡ is_inside (record { addr = addr.0; len = len }) subnet.now }
{
    let start = subnet.addr();
    let end = end_of(start, subnet.len());
    start.0 <= addr.0 && end_of(addr, len) <= end
}

/// The address past a subnet's last, where there is one.
fn past(subnet: &Prefix) -> Option<Addr>
    ensures { IfSome result (λ addr. addr.0 ≡ subnet.now.addr + size_of subnet.now.len) }
{
    let end = end_of(subnet.addr(), subnet.len());
    if end > 4_294_967_295 {
        return None;
    }
    Some(Addr(end as u32))
}

/// What peers told that begins in a subnet.
fn routes_in<'a>(routes: &'a Routes, subnet: &Prefix) -> Range<'a, RouteAt, Prefix>
    ensures routes { (p : RouteAtOf × Block → Bool)
        → ((e : RouteAtOf × Block) → p e ≡ true → is_route_within subnet.now e.0 ≡ true)
        → list_any p result ≡ list_any p routes.now.entries }
    ensures ordered { IsOrdered route_order routes.now }
{
    let first = RouteAt {
        addr: subnet.addr(),
        len: 0,
        session: 0,
        rd: Rd(0),
    };
    let Some(addr) = past(subnet) else {
        return routes.range((Bound::Included(first), Bound::Unbounded));
    };
    let past = RouteAt {
        addr,
        len: 0,
        session: 0,
        rd: Rd(0),
    };
    routes.range((Bound::Included(first), Bound::Excluded(past)))
}

/// What agents publish that begins in a subnet.
fn labels_in<'a>(labels: &'a Labels, subnet: &Prefix) -> Range<'a, LabelAt, Prefix>
    ensures labels { (p : LabelAtOf × Block → Bool)
        → ((e : LabelAtOf × Block) → p e ≡ true → is_label_within subnet.now e.0 ≡ true)
        → list_any p result ≡ list_any p labels.now.entries }
    ensures ordered { IsOrdered label_order labels.now }
{
    let first = LabelAt {
        addr: subnet.addr(),
        len: 0,
        session: 0,
        instance: InstanceId(0),
    };
    let Some(addr) = past(subnet) else {
        return labels.range((Bound::Included(first), Bound::Unbounded));
    };
    let past = LabelAt {
        addr,
        len: 0,
        session: 0,
        instance: InstanceId(0),
    };
    labels.range((Bound::Included(first), Bound::Excluded(past)))
}

impl VpnHoldings {
    /// Whether the route at a place with its prefix is within a subnet, and imported.
    fn leads_route(
        &self,
        imports: &Imports<'_>,
        subnet: &Prefix,
        at: &RouteAt,
        prefix: &Prefix,
    ) -> bool
        ensures { result ≡ leads_route self.now imports.now subnet.now (at.now, prefix.now) }
    {
        if !is_within(at.addr, at.len, subnet) {
            return false;
        }
        self.route_path(imports, at, prefix).is_some()
    }

    /// Whether the publication at a place with its prefix is within a subnet, of a known instance, and imported.
    fn leads_label(
        &self,
        imports: &Imports<'_>,
        subnet: &Prefix,
        at: &LabelAt,
        prefix: &Prefix,
    ) -> bool
        ensures { result ≡ leads_label self.now imports.now subnet.now (at.now, prefix.now) }
    {
        if !is_within(at.addr, at.len, subnet) {
            return false;
        }
        self.label_path(imports, at, prefix).is_some()
    }
}

/// Whether a peer told something within a subnet that is imported.
pub(crate) fn have_routes(
    holdings: &VpnHoldings,
    routes: &Routes,
    subnet: &Prefix,
    imports: &Imports<'_>,
) -> bool
    ensures ordered { IsOrdered route_order routes.now }
    ensures leads { result ≡ list_any (leads_route holdings.now imports.now subnet.now) routes.now.entries }
{
    for (at, prefix) in routes_in(routes, subnet) {
        if holdings.leads_route(imports, subnet, at, prefix) {
            return true;
        }
    }
    false
}

/// Whether an agent publishes something within a subnet that is imported.
pub(crate) fn have_labels(
    holdings: &VpnHoldings,
    labels: &Labels,
    subnet: &Prefix,
    imports: &Imports<'_>,
) -> bool
    ensures ordered { IsOrdered label_order labels.now }
    ensures leads { result ≡ list_any (leads_label holdings.now imports.now subnet.now) labels.now.entries }
{
    for (at, prefix) in labels_in(labels, subnet) {
        if holdings.leads_label(imports, subnet, at, prefix) {
            return true;
        }
    }
    false
}
