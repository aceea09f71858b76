//! Laws of the routes that are told: each is the contract of a function that does nothing.
ghost use Rattle.std.specs.Prelude.{◌↔◌, map};
ghost use Rattle.std.specs.List.Sorted.{IsStrictlySortedBy};
ghost use Rattle.ov_types.specs.declared.vpn.VpnKey.{VpnKey};
ghost use Rattle.ov_types.specs.declared.vpn.VpnRoute.{VpnRoute};
ghost use Rattle.vpn_tables.specs.NodeModel.Members.{Member};
ghost use Rattle.vpn_tables.specs.NodeModel.Paths.{Holdings};
ghost use Rattle.vpn_tables.specs.NodeModel.Reaching.{reoriginated_paths};
ghost use Rattle.vpn_tables.specs.NodeModel.Uses.{Use, uses};
ghost use Rattle.vpn_tables.specs.Views.{vpn_order};
ghost use Rattle.chain_reorigin.specs.Laws.{IsFirst, RightFirst};
ghost use Rattle.chain_reorigin.specs.Told.{reoriginated};

/// A route is told exactly where it is the first of its key among the re-originated ones. Each key is told once, in
/// ascending order.
pub fn the_first_of_each_key_is_told()
    ensures exactly { (h : Holdings) (key : VpnKey) (route : VpnRoute)
        → Member (key, route) (reoriginated h) ↔ IsFirst (reoriginated_paths h) key route }
    ensures ascending { (h : Holdings) → IsStrictlySortedBy vpn_order (map (λ e. e.0) (reoriginated h)) }
{}

/// The routes of the right subnets of each held use stand before those of the left ones, and so count before them.
pub fn the_right_side_stands_first()
    ensures { (h : Holdings) (u : Use) → Member u (uses h.feed) → RightFirst h u }
{}
