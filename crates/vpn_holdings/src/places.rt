//! Where what was told stands in the order of prefixes.
ghost use Rattle.std.specs.Prelude.{◌≡◌};
ghost use Rattle.std.specs.BTreeMap.{IsOrdered};
ghost use Rattle.std.specs.List.{filter};
ghost use Rattle.vpn_holdings.specs.Indexed.{is_label_to, is_route_to, label_at, label_order};
ghost use Rattle.vpn_holdings.specs.Indexed.{place_told, route_at, route_order};

use crate::holdings::VpnHoldings;
use ov_types::{Addr, InstanceId, Prefix, Rd, UpKey, VpnKey};
use std::collections::BTreeMap;
use std::collections::btree_map::Range;
use std::ops::Bound;

/// Where a route of a peer stands: its prefix first. What stands between two places need not be a prefix.
#[derive(Clone, Copy, PartialEq, Eq, PartialOrd, Ord)]
pub(crate) struct RouteAt {
    pub(crate) addr: Addr,
    pub(crate) len: u8,
    pub(crate) session: u16,
    pub(crate) rd: Rd,
}

/// Where a publication of an agent stands: its prefix first.
#[derive(Clone, Copy, PartialEq, Eq, PartialOrd, Ord)]
pub(crate) struct LabelAt {
    pub(crate) addr: Addr,
    pub(crate) len: u8,
    pub(crate) session: u16,
    pub(crate) instance: InstanceId,
}

/// Where the routes of peers stand, each with its prefix.
pub(crate) type Routes = BTreeMap<RouteAt, Prefix>;

/// Where the publications of agents stand, each with its prefix.
pub(crate) type Labels = BTreeMap<LabelAt, Prefix>;

pub(crate) fn route_at(session: u16, key: &VpnKey) -> RouteAt
    ensures { result ≡ route_at session key.now }
{
    RouteAt {
        addr: key.prefix.addr(),
        len: key.prefix.len(),
        session,
        rd: key.rd,
    }
}

fn label_at(session: u16, instance: InstanceId, prefix: &Prefix) -> LabelAt
    ensures { result ≡ label_at session instance prefix.now }
{
    LabelAt {
        addr: prefix.addr(),
        len: prefix.len(),
        session,
        instance,
    }
}

/// Where a publication stands, with its prefix: nowhere where the session is no agent's, and no subscription does.
pub(crate) fn place_told(
    holdings: &VpnHoldings,
    session: u16,
    key: &UpKey,
) -> Option<(LabelAt, Prefix)>
    ensures { result ≡ place_told holdings.now.agents session key.now }
{
    let UpKey::Publish(instance, prefix) = *key else {
        return None;
    };
    match holdings.key_published(session, key) {
        Some(_) => Some((label_at(session, instance, &prefix), prefix)),
        None => None,
    }
}

/// Where peers told something with a prefix.
pub(crate) fn routes_to<'a>(routes: &'a Routes, prefix: &Prefix) -> Range<'a, RouteAt, Prefix>
    ensures routes { result ≡ filter (λ e. is_route_to prefix.now e.0) routes.now.entries }
    ensures ordered { IsOrdered route_order routes.now }
{
    let first = RouteAt {
        addr: prefix.addr(),
        len: prefix.len(),
        session: 0,
        rd: Rd(0),
    };
    let past = RouteAt {
        addr: prefix.addr(),
        len: prefix.len() + 1,
        session: 0,
        rd: Rd(0),
    };
    routes.range((Bound::Included(first), Bound::Excluded(past)))
}

/// Where agents publish something with a prefix.
pub(crate) fn labels_to<'a>(labels: &'a Labels, prefix: &Prefix) -> Range<'a, LabelAt, Prefix>
    ensures labels { result ≡ filter (λ e. is_label_to prefix.now e.0) labels.now.entries }
    ensures ordered { IsOrdered label_order labels.now }
{
    let first = LabelAt {
        addr: prefix.addr(),
        len: prefix.len(),
        session: 0,
        instance: InstanceId(0),
    };
    let past = LabelAt {
        addr: prefix.addr(),
        len: prefix.len() + 1,
        session: 0,
        instance: InstanceId(0),
    };
    labels.range((Bound::Included(first), Bound::Excluded(past)))
}
