//! Laws of the definitions of loops and expansions.
ghost use Rattle.std.specs.Prelude.{◌≡◌, ◌≢◌, ◌≤◌, ◌↔◌, ℕ, List, length, IsTrue, IsOk, AllPairs};
ghost use Rattle.config_types.specs.declared.config.Config.{Config as Configuration};
ghost use Rattle.config_types.specs.declared.config.Service.{Service as Instance};
ghost use Rattle.chain_expand.specs.Expansion.{leads, hops_of, expansion, expansion_of};
ghost use Rattle.chain_expand.specs.Leading.{Leads, Expands, IsLoopFree, NamesThings};
ghost use Rattle.chain_expand.specs.Laws.{TwiceNamesTheService};

/// A chain leads to another by its hops: no way needs more steps than there are chains.
pub fn leads_by_hops()
    ensures { (c : Configuration) (from to : List ℕ) → IsTrue (leads c from to) ↔ Leads c from to }
{}

/// Where no chain on the way loops, and each hop names something, the expansion is hop by hop.
pub fn expands_by_hops()
    ensures { (c : Configuration) (name : List ℕ) → IsLoopFree c name → NamesThings c name
        → Expands c (hops_of c name) (expansion c name) }
{}

/// Hops expand to one list of services only.
pub fn expands_to_one()
    ensures { (c : Configuration) (hops : List (List ℕ)) (xs ys : List Instance) → Expands c hops xs
        → Expands c hops ys → xs ≡ ys }
{}

/// A chain has its numbers exactly where no chain on the way loops, it has at most 15 services, and none of them has
/// the number of another.
pub fn expands_where()
    ensures { (c : Configuration) (name : List ℕ) → IsOk (expansion_of c name)
        ↔ (IsLoopFree c name × (length (expansion c name) ≤ 15)
        × AllPairs (λ a b. a.id.0 ≢ b.id.0) (expansion c name)) }
{}

/// The fault of a chain that has a service twice names that chain, and the service where it stands again.
pub fn twice_names_the_service()
    ensures { TwiceNamesTheService }
{}
