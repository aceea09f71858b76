//! The routes of chains that a control node tells its peers: one for each key, in the order of the keys.
ghost use Rattle.std.specs.Prelude.{◌≡◌, IfOk, OnOk, map};
ghost use Rattle.std.specs.FinMap.{entries, from_entries};
ghost use Rattle.std.specs.List.Sorted.{IsStrictlySortedBy};
ghost use Rattle.ov_sync.specs.Embed.{moved_entry};
ghost use Rattle.ov_sync.specs.Keyed.{map_of};
ghost use Rattle.vpn_tables.specs.NodeModel.Keys.{Vpn, key_cmp};
ghost use Rattle.vpn_tables.specs.NodeModel.Reaching.{reoriginated_paths};
ghost use Rattle.vpn_tables.specs.NodeModel.Values.{Route as RouteValue};
ghost use Rattle.vpn_tables.specs.NodeModel.Wants.{route_entry};
ghost use Rattle.vpn_tables.specs.Views.{vpn_order};
ghost use Rattle.chain_reorigin.specs.Counting.{keyed, told_entry, told_of};
ghost use Rattle.chain_reorigin.specs.Told.{reoriginated};

use ov_types::{NoMemory, Targets, VpnKey, VpnRoute};
use std::alloc::Global;
use std::collections::BTreeMap;
use vpn_tables::{Route, VpnTables};

/// The re-originated routes in the order of their keys, each with the target of the instance that it leads into. Of
/// those of one key the first of `reoriginated_paths` counts: a right subnet's before a left's.
pub fn reoriginated(alloc: Global, tables: &VpnTables) -> Result<Vec<(VpnKey, VpnRoute)>, NoMemory>
    ensures routes { IfOk result (λ routes. routes.items ≡ reoriginated tables.now) }
    ensures of_the_model { IfOk result (λ routes. map (moved_entry Vpn RouteValue) routes.items
        ≡ entries (from_entries {R = key_cmp} (map route_entry (reoriginated_paths tables.now)))) }
{
    let led = tables.reoriginated_paths()?;
    let counting = first_of_each(alloc, led)?;
    let routes = told(alloc, &counting)?;
    Ok(routes)
}

/// The first route of each key.
fn first_of_each(alloc: Global, mut led: Vec<Route>) -> Result<BTreeMap<VpnKey, Route>, NoMemory>
    ensures { IfOk result (λ first. map_of vpn_order first.entries ≡ from_entries (map keyed led.items)) }
{
    let mut first = BTreeMap::new(alloc);
    while let Some(route) = led.pop() {
        let key = VpnKey {
            rd: route.path.rd,
            prefix: route.prefix,
        };
        first.insert(key, route)?;
    }
    Ok(first)
}

/// The routes that count, as they are told.
fn told(
    alloc: Global,
    counting: &BTreeMap<VpnKey, Route>,
) -> Result<Vec<(VpnKey, VpnRoute)>, NoMemory>
    ensures routes { IfOk result (λ routes. routes.items ≡ map told_entry counting.now.entries) }
    ensures ascending { OnOk result (IsStrictlySortedBy vpn_order (map (λ e. e.0) counting.now.entries)) }
{
    let mut routes = Vec::new(alloc);
    for (key, route) in counting.iter() {
        let told = told_route(alloc, route)?;
        routes.push((*key, told))?;
    }
    Ok(routes)
}

/// A route as peers are told it, with its one target.
pub fn told_route(alloc: Global, route: &Route) -> Result<VpnRoute, NoMemory>
    ensures { IfOk result (λ told. told ≡ told_of route.now) }
{
    let mut targets = Targets::new(alloc);
    targets.insert(route.target)?;
    Ok(VpnRoute {
        next_hop: route.path.next_hop,
        label: route.path.label,
        targets,
    })
}
