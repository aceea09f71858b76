//! Laws of what a control node wants: each is the contract of a function that does nothing.
ghost use Rattle.std.specs.Prelude.{◌≡◌, ◌<◌, ◌^◌, Some};
ghost use Rattle.std.specs.FinMap.{get};
ghost use Rattle.ov_types.specs.declared.vpn.VpnKey.{VpnKey};
ghost use Rattle.ov_types.specs.declared.vpn.VpnRoute.{VpnRoute};
ghost use Rattle.node_core.specs.Told.{AllFit};
ghost use Rattle.node_routes.specs.NodeModel.Keys.{Vpn};
ghost use Rattle.node_routes.specs.NodeModel.Values.{Route};
ghost use Rattle.node_routes.specs.NodeModel.Paths.{Holdings, Told};
ghost use Rattle.node_routes.specs.NodeModel.Wants.{wanted_by_agent, wanted_by_peers};
ghost use Rattle.node_routes.specs.Told.{IsWritable};
ghost use Rattle.control_wants.specs.Held.{HoldingsFit};

/// Where what is held can be told, so can all that is wanted.
pub fn what_is_wanted_can_be_told()
    ensures peers { (h : Holdings) → h.asn < 2 ^ 32 → HoldingsFit h → (k : VpnKey) (r : VpnRoute)
        → get (wanted_by_peers h) (Vpn k) ≡ Some (Route r) → IsWritable r }
    ensures agents { (h : Holdings) (a : Told) → HoldingsFit h → AllFit a.map → AllFit (wanted_by_agent h a) }
{}
