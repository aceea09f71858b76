//! Laws of what is asked and needed: each is the contract of a function that does nothing.
ghost use Rattle.std.specs.Prelude.{◌≡◌, ◌↔◌, true, List};
ghost use Rattle.std.specs.List.Sorted.{IsStrictlySortedBy};
ghost use Rattle.ov_types.specs.declared.numbers.InstanceId.{InstanceId};
ghost use Rattle.ov_types.specs.declared.vpn.VpnRoute.{VpnRoute};
ghost use Rattle.node_model.specs.Members.{Member};
ghost use Rattle.node_model.specs.Paths.{Holdings};
ghost use Rattle.rt_constrain.specs.Needs.{IsNeeded};
ghost use Rattle.rt_membership.specs.declared.asked.Asked.{Asked};
ghost use Rattle.rt_constrain.specs.Covering.{AreAsked, covers, IsCovered};
ghost use Rattle.rt_constrain.specs.Needed.{instance_order, needed};
ghost use Rattle.rt_constrain.specs.Asking.{asked, asked_order, IsAskedFor};

/// A route is covered exactly where something that is asked has length 0, or one of the route's targets begins with its
/// bits.
pub fn a_route_is_covered_by_the_bits_of_its_targets()
    ensures { (entries : List Asked) (r : VpnRoute) → AreAsked entries
        → (covers entries r ≡ true) ↔ IsCovered entries r }
{}

/// The list of what is needed has exactly what is: each known instance that an agent subscribed, or that a circuit
/// published here has on its other side. It has each once, in ascending order.
pub fn what_is_needed_is_listed()
    ensures exactly { (h : Holdings) (i : InstanceId) → Member i (needed h) ↔ IsNeeded h i }
    ensures ascending { (h : Holdings) → IsStrictlySortedBy instance_order (needed h) }
{}

/// What is asked is exactly the whole targets of the imports of needed instances, each once, in ascending order.
pub fn the_imports_of_what_is_needed_are_asked()
    ensures exactly { (h : Holdings) (a : Asked) → Member a (asked h) ↔ IsAskedFor h a }
    ensures ascending { (h : Holdings) → IsStrictlySortedBy asked_order (asked h) }
{}
