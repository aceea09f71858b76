//! Laws of ranks: what a node wants at a key depends on what it holds at keys of lower rank alone. Each is the contract
//! of a function that does nothing.
ghost use Rattle.std.specs.Prelude.{◌≡◌, ◌≤◌, ◌+◌, ℕ};
ghost use Rattle.std.specs.List.{AllByRecursion, AllZip};
ghost use Rattle.std.specs.FinMap.{get};
ghost use Rattle.ov_types.specs.declared.objects.LowKey.{LowKey};
ghost use Rattle.node_model.specs.Members.{Member};
ghost use Rattle.node_model.specs.Keys.{Key, Low};
ghost use Rattle.node_model.specs.Uses.{Use, uses};
ghost use Rattle.node_model.specs.Paths.{Holdings, Told};
ghost use Rattle.node_model.specs.Wants.{wanted_by_agent, wanted_by_peers};
ghost use Rattle.node_model.specs.Agent as agent;
ghost use Rattle.node_model.specs.Ranks.{Agree, AreOrdered, IsTargeted, SameSlice, peer_rank};

/// Each route that is wanted towards peers has exactly the target of its distinguisher's instance.
pub fn wanted_routes_are_targeted()
    ensures { (h : Holdings) → AreOrdered h.feed → IsTargeted h.asn (wanted_by_peers h) }
{}

/// Towards peers: where two control nodes of one configuration agree at all keys up to a rank, they want the same at
/// each key of the next rank.
pub fn wants_towards_peers_are_local()
    ensures { (rank : ℕ) (h g : Holdings) → AreOrdered h.feed
        → AllByRecursion (IsTargeted h.asn) h.peers → AllByRecursion (IsTargeted h.asn) g.peers
        → Agree rank h g → (k : Key) → peer_rank h.feed k ≤ rank + 1
        → get (wanted_by_peers h) k ≡ get (wanted_by_peers g) k }
{}

/// Towards an agent: the slice depends on the feed and the agent's address alone, and everything on the keys of ranks
/// up to 4 more than the services of the longest chain.
pub fn wants_towards_agents_are_local()
    ensures slices { (h g : Holdings) (a b : Told) → h.feed ≡ g.feed → a.address ≡ b.address
        → (k : LowKey) → get (wanted_by_agent h a) (Low k) ≡ get (wanted_by_agent g b) (Low k) }
    ensures all { (longest : ℕ) (h g : Holdings) → ((u : Use) → Member u (uses h.feed) → u.services ≤ longest)
        → Agree (longest + 4) h g → (a : Told) → wanted_by_agent h a ≡ wanted_by_agent g a }
{}

/// What an agent wants depends on which of its sessions are up, and on the objects of their slices alone.
pub fn wants_of_agents_are_local()
    ensures { (h g : agent.Holdings) → AllZip SameSlice h g → agent.wanted h ≡ agent.wanted g }
{}
