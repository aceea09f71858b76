//! Laws of the longest prefix, each the contract of a function that does nothing.
ghost use Rattle.std.specs.Prelude.{◌≡◌, ◌<◌, ◌^◌, ◌↔◌, ℕ, IsTrue, List, Some, None, false};
ghost use Rattle.std.specs.List.{All};
ghost use Rattle.ov_types.specs.Prefix.{Block, contains};
ghost use Rattle.ov_types.specs.Routing.{longest};
ghost use Rattle.ov_types.specs.declared.rows.Entry.{Entry};
ghost use Rattle.vrouter_fib.specs.Longest.{IsLongest, IsTable};

/// What is taken is a route that contains the address, while none that contains it has a longer prefix. In a table
/// there is one such route at most, so that it is taken exactly where it is that one. None is taken exactly where no
/// prefix contains the address.
pub fn the_longest_prefix_is_taken()
    ensures taken { (a : ℕ) (routes : List (Block × Entry)) (route : Block × Entry)
        → longest a routes ≡ Some route → IsLongest routes a route }
    ensures exactly { (a : ℕ) (routes : List (Block × Entry)) (route : Block × Entry) → IsTable routes
        → (longest a routes ≡ Some route) ↔ IsLongest routes a route }
    ensures none { (a : ℕ) (routes : List (Block × Entry))
        → (longest a routes ≡ None) ↔ All (λ r. contains r.0 a ≡ false) routes }
{}

/// The default route contains every address.
pub fn the_default_route_contains_all()
    ensures { (a : ℕ) → a < 2 ^ 32 → IsTrue (contains (record { addr = 0; len = 0 }) a) }
{}
