//! Laws of what a control node holds and wants: each is the contract of a function that does nothing.
ghost use Rattle.std.specs.Prelude.{◌≡◌, ◌≢◌, ◌≤◌, ◌↔◌, ℕ, [], Some, IsTrue, false, is_some};
ghost use Rattle.std.specs.FinMap.{get, entries};
ghost use Rattle.ov_types.specs.Prefix.{Block};
ghost use Rattle.ov_types.specs.declared.numbers.InstanceId.{InstanceId};
ghost use Rattle.ov_types.specs.declared.objects.LowKey.{LowKey};
ghost use Rattle.ov_types.specs.declared.objects.LowKey.TheVariants as key;
ghost use Rattle.ov_types.specs.declared.objects.LowValue.{LowValue};
ghost use Rattle.ov_types.specs.declared.prefix.Addr.{Addr};
ghost use Rattle.ov_types.specs.declared.rows.Entry.{Entry as RouteEntry};
ghost use Rattle.ov_types.specs.declared.vpn.VpnRoute.{VpnRoute};
ghost use Rattle.node_model.specs.Members.{Member};
ghost use Rattle.node_model.specs.Keys.{Key, Low, Row};
ghost use Rattle.node_model.specs.Values.{Object, Route, Entry};
ghost use Rattle.node_model.specs.Maps.{Map, objects};
ghost use Rattle.node_model.specs.Uses.{Use, IsImportedAt, hop, imports, is_known, uses};
ghost use Rattle.node_model.specs.Paths.{Holdings, IsOwnRoute, IsPublishedHere, Path, Told, own_paths};
ghost use Rattle.node_model.specs.Reaching.{AreShort, IsReached, IsReoriginated, Side, is_up, reoriginated_paths};
ghost use Rattle.node_model.specs.Tables.{IsBetter, IsLeast, is_better, paths_of, table};
ghost use Rattle.node_model.specs.Wants.{BelongsTo, IsSubscribedRow, slice, wanted_by_agent, wanted_by_peers};

/// An instance that is not known has no imports and, where no use has more than 15 services, an empty table.
pub fn unknown_instances_have_nothing()
    ensures imports { (feed : Map) (i : InstanceId) → is_known feed i ≡ false → imports feed i ≡ [] }
    ensures table { (h : Holdings) (i : InstanceId) → AreShort h.feed → is_known h.feed i ≡ false
        → entries (table h i) ≡ [] }
{}

/// Place j of a held use imports itself, the left network exactly at the left end, and the right network exactly at the
/// right end.
pub fn places_import_their_ends()
    ensures { (feed : Map) (u : Use) (j : ℕ) (n : InstanceId) → Member u (uses feed) → j ≤ 15 → j ≤ u.services
        → Member n (imports feed (hop u j)) ↔ IsImportedAt u j n }
{}

/// The own routes are exactly the publications of known instances.
pub fn own_routes_are_publications()
    ensures { (h : Holdings) (p : Path) → Member p (own_paths h) ↔ IsOwnRoute h p }
{}

/// A subnet is up at a place exactly where some place from there to its end has a path within it, and every circuit on
/// the way is published here.
pub fn up_is_reached()
    ensures { (h : Holdings) (s : Side) (subnet : Block) (d : ℕ)
        → IsTrue (is_up h s subnet d) ↔ IsReached h s subnet d }
{}

/// The re-originated routes are exactly those that lead a subnet on which is up one place nearer to its end, towards a
/// circuit that is published here.
pub fn reoriginated_routes_lead_on()
    ensures { (h : Holdings) (p : Path) → Member p (reoriginated_paths h) ↔ IsReoriginated h p }
{}

/// The lesser next hop is better; of one next hop the lesser label; of one label the lesser distinguisher; of one
/// distinguisher the lesser session.
pub fn the_order_of_paths()
    ensures { (a b : Path) → IsTrue (is_better a b) ↔ IsBetter a b }
{}

/// Every row of a table is a least path of its prefix, and each prefix with a path has a row.
pub fn rows_are_least_paths()
    ensures least { (h : Holdings) (i : InstanceId) (prefix : Block) (p : Path) → get (table h i) prefix ≡ Some p
        → IsLeast prefix (paths_of h i) p }
    ensures each { (h : Holdings) (i : InstanceId) (p : Path) → Member p (paths_of h i)
        → IsTrue (is_some (get (table h i) p.prefix)) }
{}

/// The next hop and the label of each route that is wanted towards peers are those of a publication of an agent here.
pub fn next_hops_publish_here()
    ensures { (h : Holdings) (k : Key) (r : VpnRoute) → get (wanted_by_peers h) k ≡ Some (Route r)
        → IsPublishedHere h r.next_hop r.label }
{}

/// A slice has exactly the attachments at its address and the access lists of the networks of its ports, and no
/// attachment is in the slices of two addresses.
pub fn slices_are_of_their_addresses()
    ensures exactly { (feed : Map) (address : Addr) (k : LowKey) (v : LowValue)
        → Member (k, v) (slice feed address) ↔ (Member (k, v) (objects feed) × BelongsTo feed address k v) }
    ensures apart { (feed : Map) (a b : Addr) → a ≢ b → (label : ℕ) (v : LowValue)
        → Member (key.Attach label, v) (slice feed a) → Member (key.Attach label, v) (slice feed b) → ⊥ }
{}

/// An agent is wanted to have been told exactly its slice, and exactly the rows of the tables of the instances that it
/// subscribed.
pub fn agents_are_told_what_they_subscribed()
    ensures slice { (h : Holdings) (a : Told) (k : LowKey) (v : LowValue)
        → (get (wanted_by_agent h a) (Low k) ≡ Some (Object v)) ↔ Member (k, v) (slice h.feed a.address) }
    ensures rows { (h : Holdings) (a : Told) (i : InstanceId) (prefix : Block) (hop : RouteEntry)
        → (get (wanted_by_agent h a) (Row i prefix) ≡ Some (Entry hop)) ↔ IsSubscribedRow h a i prefix hop }
{}
