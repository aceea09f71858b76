//! The path that is selected for one prefix of an instance, by a walk that takes no memory.
ghost use Rattle.std.specs.Prelude.{◌≡◌, [], map};
ghost use Rattle.std.specs.BTreeMap.{IsOrdered};
ghost use Rattle.std.specs.List.{cons_option, filter};
ghost use Rattle.path_select.specs.Selection.{plain};
ghost use Rattle.vpn_holdings.specs.At.{best_over, better_of, led_at, selected_at};
ghost use Rattle.vpn_holdings.specs.Indexed.{is_label_to, is_route_to, label_order, label_path};
ghost use Rattle.vpn_holdings.specs.Indexed.{route_order, route_path};

use crate::holdings::VpnHoldings;
use crate::imports::Imports;
use crate::places::{Labels, Routes, labels_to, routes_to};
use ov_types::{InstanceId, Prefix};
use path_select::{Path, better};

/// The one of two paths that is used, where they are there.
fn better_of(best: Option<Path>, path: Option<Path>) -> Option<Path>
    ensures { result ≡ better_of best path }
{
    let Some(path) = path else {
        return best;
    };
    let Some(held) = best else {
        return Some(path);
    };
    if better(&path, &held) {
        return Some(path);
    }
    Some(held)
}

/// Of a path and those that peers told and that are imported.
fn best_of_routes(
    first: Option<Path>,
    holdings: &VpnHoldings,
    routes: &Routes,
    prefix: &Prefix,
    imports: &Imports<'_>,
) -> Option<Path>
    ensures ordered { IsOrdered route_order routes.now }
    ensures best { result ≡ best_over (route_path holdings.now imports.now) first
        (filter (λ e. is_route_to prefix.now e.0) routes.now.entries) }
{
    let mut best = first;
    for (at, found) in routes_to(routes, prefix) {
        best = better_of(best, holdings.route_path(imports, at, found));
    }
    best
}

/// Of a path and those that agents publish and that are imported.
fn best_of_labels(
    first: Option<Path>,
    holdings: &VpnHoldings,
    labels: &Labels,
    prefix: &Prefix,
    imports: &Imports<'_>,
) -> Option<Path>
    ensures ordered { IsOrdered label_order labels.now }
    ensures best { result ≡ best_over (label_path holdings.now imports.now) first
        (filter (λ e. is_label_to prefix.now e.0) labels.now.entries) }
{
    let mut best = first;
    for (at, found) in labels_to(labels, prefix) {
        best = better_of(best, holdings.label_path(imports, at, found));
    }
    best
}

impl VpnHoldings {
    /// The path that is selected for a prefix of an instance, where it has one. It looks at what `paths_at` does, and
    /// takes no memory.
    pub fn selected(&self, i: InstanceId, prefix: &Prefix) -> Option<Path>
        ensures { result ≡ selected_at self.now i prefix.now }
    {
        self.uses_are_short();
        let imports = self.imported(i);
        let told = best_of_routes(None, self, &self.routes, prefix, &imports);
        let received = best_of_labels(told, self, &self.labels, prefix, &imports);
        let with_right = better_of(received, self.led_path(i, prefix, true));
        better_of(with_right, self.led_path(i, prefix, false))
    }

    /// The path that leads a subnet of a side of the instance's use on into the instance, where there is one.
    fn led_path(&self, i: InstanceId, prefix: &Prefix, right: bool) -> Option<Path>
        ensures { cons_option result [] ≡ map plain (led_at self.now i prefix.now right) }
    {
        match self.led_at(i, prefix, right) {
            Some(route) => Some(route.path),
            None => None,
        }
    }
}
