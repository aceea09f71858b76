//! Laws of what control nodes receive and know, and of what agents subscribe: each is the contract of a function that
//! does nothing.
ghost use Rattle.std.specs.Prelude.{◌≡◌, ◌↔◌, Some, IsTrue};
ghost use Rattle.std.specs.FinMap.{get};
ghost use Rattle.ov_types.specs.Prefix.{Block};
ghost use Rattle.ov_types.specs.declared.numbers.InstanceId.{InstanceId};
ghost use Rattle.ov_types.specs.declared.numbers.Label.{Label as LabelNo};
ghost use Rattle.ov_types.specs.declared.vpn.VpnKey.{VpnKey};
ghost use Rattle.ov_types.specs.declared.vpn.VpnRoute.{VpnRoute};
ghost use Rattle.node_model.specs.Members.{Member};
ghost use Rattle.node_model.specs.Keys.{Key, Subscribe, Vpn};
ghost use Rattle.node_model.specs.Values.{Value, Label, Route};
ghost use Rattle.node_model.specs.Maps.{Map};
ghost use Rattle.node_model.specs.Uses.{is_known};
ghost use Rattle.node_model.specs.Paths.{Holdings, Path, Told, peer_paths, received};
ghost use Rattle.node_model.specs.Reaching.{AreShort};
ghost use Rattle.node_model.specs.Tables.{known_instances};
ghost use Rattle.node_model.specs.Wants.{wanted_by_peers};
ghost use Rattle.node_model.specs.Agent as agent;
ghost use Rattle.node_model.specs.Agent.{IsNeeded, slice_in_use};
ghost use Rattle.node_laws.specs.Counts.{AreListed, AreNumbered, IsCounted, IsLowestSession, Publishes};
ghost use Rattle.node_laws.specs.Counts.{published_key, published_route};
ghost use Rattle.node_laws.specs.Received.{AreNetworks, IsKnown, IsPeerRoute, IsReceived};
ghost use Rattle.node_laws.specs.Labelled.{IsToldUp};

/// The paths of peers are exactly the routes that they told, each under the session of its peer.
pub fn peer_paths_are_what_peers_told()
    ensures { (h : Holdings) (p : Path) → Member p (peer_paths h) ↔ IsPeerRoute h p }
{}

/// A path is received in an instance exactly where it is an own route or a peer's, and has the target of an import.
pub fn received_paths_have_an_imported_target()
    ensures { (h : Holdings) (i : InstanceId) (p : Path) → Member p (received h i) ↔ IsReceived h i p }
{}

/// The known instances are exactly those of held networks and of the places of held uses. Where networks have numbers
/// below those of places, and no use has more than 15 services, the test of an instance says the same.
pub fn instances_that_are_known()
    ensures listed { (feed : Map) (i : InstanceId) → Member i (known_instances feed) ↔ IsKnown feed i }
    ensures tested { (feed : Map) → AreNetworks feed → AreShort feed
        → (i : InstanceId) → IsTrue (is_known feed i) ↔ IsKnown feed i }
{}

/// An agent subscribes exactly the instances that the slice in use needs, and tells nothing but publications and
/// subscriptions.
pub fn needed_instances_are_subscribed()
    ensures exactly { (h : agent.Holdings) (i : InstanceId)
        → (get (agent.wanted h) (Subscribe i) ≡ Some (Label (record { 0 = 0 }))) ↔ IsNeeded (slice_in_use h) i }
    ensures alone { (h : agent.Holdings) (k : Key) (v : Value) → get (agent.wanted h) k ≡ Some v
        → IsToldUp (slice_in_use h) k }
{}

/// Where paths have one key, a control node tells its peers exactly the own route of the lowest session; where there is
/// none, a right subnet's; and where there is none of these, a left one's. It tells them nothing but routes.
pub fn of_equal_keys_the_first_counts()
    ensures exactly { (h : Holdings) → AreListed h.agents → AreNumbered h.feed → (k : VpnKey) (r : VpnRoute)
        → (get (wanted_by_peers h) (Vpn k) ≡ Some (Route r)) ↔ IsCounted h k r }
    ensures alone { (h : Holdings) (k : Key) (v : Value) → get (wanted_by_peers h) k ≡ Some v
        → ((at : VpnKey) × (k ≡ Vpn at)) × ((r : VpnRoute) × (v ≡ Route r)) }
{}

/// Where agents publish under one key, peers are told what the agent of the lowest session publishes there: its address,
/// its label, and the target of its instance alone.
pub fn the_lowest_session_publishes()
    ensures { (h : Holdings) → AreListed h.agents → AreNumbered h.feed
        → (a : Told) (i : InstanceId) (prefix : Block) (label : LabelNo) → Publishes h a i prefix label
        → IsLowestSession h (published_key a i prefix) a.session
        → get (wanted_by_peers h) (Vpn (published_key a i prefix)) ≡ Some (Route (published_route h a i label)) }
{}
