//! Nothing is kept any more of what a session told. It takes no memory.
ghost use Rattle.std.specs.Prelude.{◌≡◌, ◌==◌, None, if◌then◌else◌};
ghost use Rattle.std.specs.BTreeMap as tree;
ghost use Rattle.vpn_holdings.specs.Indexed.{label_order, route_order};
ghost use Rattle.vpn_holdings.specs.declared.places.LabelAt.{LabelAt as LabelAtOf};
ghost use Rattle.vpn_holdings.specs.declared.places.RouteAt.{RouteAt as RouteAtOf};

use crate::places::{Labels, Routes};

pub(crate) fn forget_routes(routes: &mut Routes, session: u16)
    ensures { (k : RouteAtOf) → tree.get route_order routes.new k
        ≡ (if k.session == session then None else tree.get route_order routes.old k) }
{
    routes.retain(|at, _| at.session != session);
}

pub(crate) fn forget_labels(labels: &mut Labels, session: u16)
    ensures { (k : LabelAtOf) → tree.get label_order labels.new k
        ≡ (if k.session == session then None else tree.get label_order labels.old k) }
{
    labels.retain(|at, _| at.session != session);
}
