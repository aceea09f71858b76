//! Laws of what a change touches: each is the contract of a function that does nothing.
ghost use Rattle.std.specs.Prelude.{◌≡◌, ◌≢◌, ◌↔◌, ◌⊎◌, [], ℕ, List, None, Some, is_some, length, suc};
ghost use Rattle.std.specs.FinMap.{get};
ghost use Rattle.ov_sync.specs.declared.Delta.{Delta};
ghost use Rattle.ov_sync.specs.declared.Delta.TheVariants.{Drop};
ghost use Rattle.ov_sync.specs.Keyed.{key_of};
ghost use Rattle.ov_types.specs.Prefix.{Block};
ghost use Rattle.ov_types.specs.declared.keys.UpKey.{UpKey};
ghost use Rattle.ov_types.specs.declared.keys.UpKey.TheVariants as Up;
ghost use Rattle.ov_types.specs.declared.numbers.InstanceId.{InstanceId};
ghost use Rattle.ov_types.specs.declared.numbers.Label.{Label as LabelNo};
ghost use Rattle.ov_types.specs.declared.objects.LowKey.{LowKey};
ghost use Rattle.ov_types.specs.declared.objects.LowKey.TheVariants as key;
ghost use Rattle.ov_types.specs.declared.objects.LowValue.{LowValue};
ghost use Rattle.ov_types.specs.declared.targets.Target.{Target};
ghost use Rattle.ov_types.specs.declared.vpn.VpnKey.{VpnKey};
ghost use Rattle.ov_types.specs.declared.vpn.VpnRoute.{VpnRoute};
ghost use Rattle.node_model.specs.Members.{Member};
ghost use Rattle.node_model.specs.Keys.{Key, Publish, Row, Vpn};
ghost use Rattle.node_model.specs.Maps.{object};
ghost use Rattle.node_model.specs.Paths.{Holdings, Told};
ghost use Rattle.node_model.specs.Reaching.{AreShort};
ghost use Rattle.node_model.specs.Tables.{table};
ghost use Rattle.node_model.specs.Wants.{wanted_by_agent, wanted_by_peers};
ghost use Rattle.vpn_holdings.specs.Changes.{with_low, with_publication, with_route};
ghost use Rattle.vpn_holdings.specs.Moved.{moved_by_publication, moved_by_route};
ghost use Rattle.vpn_holdings.specs.Moved.{targets_by_publication, targets_by_route, told_on};
ghost use Rattle.vpn_holdings.specs.Touched.{rows_by_key, touched, touched_rows};
ghost use Rattle.vpn_tables.specs.Importing.{IsAlongUse, IsAtPrefix, IsOfPublication, IsOfRoute, held_of, route_put};
ghost use Rattle.vpn_tables.specs.PeerKeys.{IsTouchedKey};
ghost use Rattle.vpn_holdings.specs.TouchedKeys.{key_published, keys_led};

/// There are as many touched rows as is touched.
pub fn touched_rows_are_counted()
    ensures { (h : Holdings) (targets : List Target) (prefix : Block)
        → length (touched_rows h targets prefix) ≡ touched h targets }
{}

/// A row is touched exactly where it is that of the prefix in a known instance that imports one of the targets, or that
/// of a subnet at a place of a held use of which a place imports one.
pub fn touched_rows_are_those_that_import()
    ensures { (h : Holdings) (targets : List Target) (prefix : Block) (i : InstanceId) (q : Block)
        → Member (i, q) (touched_rows h targets prefix)
        ↔ (IsAtPrefix h targets prefix i q ⊎ IsAlongUse h targets i q) }
{}

/// The targets of a change of a route are exactly those of the route that was held and of the one that is put, and of a
/// change of a publication that of its instance, where something is put or was told. So a drop of what is not there
/// touches nothing. What the feed tells are no routes.
pub fn targets_are_those_before_and_after()
    ensures route { (h : Holdings) (place : ℕ) (d : Delta VpnKey VpnRoute) (t : Target)
        → Member t (targets_by_route h (suc place) d)
        ↔ (IsOfRoute (held_of h place (key_of d)) t ⊎ IsOfRoute (route_put d) t) }
    ensures feed { (h : Holdings) (d : Delta VpnKey VpnRoute) → targets_by_route h 0 d ≡ [] }
    ensures publication { (h : Holdings) (session : ℕ) (d : Delta UpKey LabelNo) (t : Target)
        → Member t (targets_by_publication h session d) ↔ IsOfPublication h session d t }
    ensures no_route { (h : Holdings) (place : ℕ) (k : VpnKey) → held_of h place k ≡ None
        → touched h (targets_by_route h (suc place) (Drop k)) ≡ 0 }
    ensures no_publication { (h : Holdings) (session : ℕ) (i : InstanceId) (prefix : Block) (a : Told)
        → told_on h.agents session ≡ Some a → get a.map (Publish i prefix) ≡ None
        → touched h (targets_by_publication h session (Drop (Up.Publish i prefix))) ≡ 0 }
{}

/// A change of a peer's route changes tables and what agents are to be told at touched rows alone, and what peers are
/// to be told at touched keys alone.
pub fn a_route_changes_what_it_touches()
    ensures tables { (h : Holdings) (session : ℕ) (d : Delta VpnKey VpnRoute) → AreShort h.feed
        → (i : InstanceId) (q : Block)
        → (Member (i, q) (touched_rows h (targets_by_route h session d) (key_of d).prefix) → ⊥)
        → get (table h i) q ≡ get (table (with_route h session d) i) q }
    ensures agents { (h : Holdings) (session : ℕ) (d : Delta VpnKey VpnRoute) → AreShort h.feed
        → (a : Told) (k : Key)
        → ((i : InstanceId) (q : Block)
        → Member (i, q) (touched_rows h (targets_by_route h session d) (key_of d).prefix) → k ≡ Row i q → ⊥)
        → get (wanted_by_agent h a) k ≡ get (wanted_by_agent (with_route h session d) a) k }
    ensures peers { (h : Holdings) (session : ℕ) (d : Delta VpnKey VpnRoute) → AreShort h.feed → (k : Key)
        → (IsTouchedKey (moved_by_route h session d) (targets_by_route h session d) h (with_route h session d) k → ⊥)
        → get (wanted_by_peers h) k ≡ get (wanted_by_peers (with_route h session d)) k }
    ensures keys { (h : Holdings) (session : ℕ) (d : Delta VpnKey VpnRoute) → AreShort h.feed → (k : VpnKey) → k ≢ key_of d
        → (Member k (keys_led h (targets_by_route h session d)) → ⊥)
        → (Member k (keys_led (with_route h session d) (targets_by_route h session d)) → ⊥)
        → get (wanted_by_peers h) (Vpn k) ≡ get (wanted_by_peers (with_route h session d)) (Vpn k) }
{}

/// A change of an agent's publication changes tables and what agents are to be told at touched rows alone, and what
/// peers are to be told at touched keys alone.
pub fn a_publication_changes_what_it_touches()
    ensures tables { (h : Holdings) (session : ℕ) (d : Delta UpKey LabelNo) (j : InstanceId) (prefix : Block)
        → AreShort h.feed → key_of d ≡ Up.Publish j prefix
        → (i : InstanceId) (q : Block)
        → (Member (i, q) (touched_rows h (targets_by_publication h session d) prefix) → ⊥)
        → get (table h i) q ≡ get (table (with_publication h session d) i) q }
    ensures agents { (h : Holdings) (session : ℕ) (d : Delta UpKey LabelNo) (j : InstanceId) (prefix : Block)
        → AreShort h.feed → key_of d ≡ Up.Publish j prefix
        → (a : Told) (k : Key)
        → ((i : InstanceId) (q : Block)
        → Member (i, q) (touched_rows h (targets_by_publication h session d) prefix) → k ≡ Row i q → ⊥)
        → get (wanted_by_agent h a) k ≡ get (wanted_by_agent (with_publication h session d) a) k }
    ensures peers { (h : Holdings) (session : ℕ) (d : Delta UpKey LabelNo) → AreShort h.feed → (k : Key)
        → (IsTouchedKey (moved_by_publication h session d) (targets_by_publication h session d) h
        (with_publication h session d) k → ⊥)
        → get (wanted_by_peers h) k ≡ get (wanted_by_peers (with_publication h session d)) k }
    ensures rows { (h : Holdings) (session : ℕ) (d : Delta UpKey LabelNo) → AreShort h.feed
        → (i : InstanceId) (q : Block)
        → (Member (i, q) (rows_by_key h (targets_by_publication h session d) (key_of d)) → ⊥)
        → get (table h i) q ≡ get (table (with_publication h session d) i) q }
    ensures keys { (h : Holdings) (session : ℕ) (d : Delta UpKey LabelNo) → AreShort h.feed → (k : VpnKey)
        → key_published h session (key_of d) ≢ Some k
        → (Member k (keys_led h (targets_by_publication h session d)) → ⊥)
        → (Member k (keys_led (with_publication h session d) (targets_by_publication h session d)) → ⊥)
        → get (wanted_by_peers h) (Vpn k) ≡ get (wanted_by_peers (with_publication h session d)) (Vpn k) }
{}

/// A change of a subscription touches nothing: it changes no table, and nothing that peers are to be told.
pub fn a_subscription_touches_nothing()
    ensures touched { (h : Holdings) (session : ℕ) (d : Delta UpKey LabelNo) (j : InstanceId)
        → key_of d ≡ Up.Subscribe j → touched h (targets_by_publication h session d) ≡ 0 }
    ensures tables { (h : Holdings) (session : ℕ) (d : Delta UpKey LabelNo) (j : InstanceId)
        → AreShort h.feed → key_of d ≡ Up.Subscribe j → (i : InstanceId) (q : Block)
        → get (table h i) q ≡ get (table (with_publication h session d) i) q }
    ensures peers { (h : Holdings) (session : ℕ) (d : Delta UpKey LabelNo) (j : InstanceId)
        → AreShort h.feed → key_of d ≡ Up.Subscribe j → (k : Key)
        → get (wanted_by_peers h) k ≡ get (wanted_by_peers (with_publication h session d)) k }
{}

/// A change of an object that is no instance and no use, as an attachment or an access list, changes no table, and
/// nothing that peers are to be told.
pub fn an_attachment_changes_no_table()
    ensures tables { (h : Holdings) (d : Delta LowKey LowValue) → ((n : ℕ) → key_of d ≢ key.Instance n)
        → ((n : ℕ) → key_of d ≢ key.ChainUse n) → (i : InstanceId) → table h i ≡ table (with_low h d) i }
    ensures peers { (h : Holdings) (d : Delta LowKey LowValue) → ((n : ℕ) → key_of d ≢ key.Instance n)
        → ((n : ℕ) → key_of d ≢ key.ChainUse n) → wanted_by_peers h ≡ wanted_by_peers (with_low h d) }
{}

/// A change of an instance that stays known, or stays unknown, as an edit of what it imports, changes no table but its
/// own, and nothing that peers are to be told.
pub fn an_instance_that_stays_changes_its_own_table_alone()
    ensures tables { (h : Holdings) (d : Delta LowKey LowValue) (n : ℕ) → key_of d ≡ key.Instance n
        → is_some (object h.feed (key.Instance n)) ≡ is_some (object (with_low h d).feed (key.Instance n))
        → (i : InstanceId) → i.0 ≢ n → table h i ≡ table (with_low h d) i }
    ensures peers { (h : Holdings) (d : Delta LowKey LowValue) (n : ℕ) → key_of d ≡ key.Instance n
        → is_some (object h.feed (key.Instance n)) ≡ is_some (object (with_low h d).feed (key.Instance n))
        → wanted_by_peers h ≡ wanted_by_peers (with_low h d) }
{}
