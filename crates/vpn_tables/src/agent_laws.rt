//! Laws of what agents are to be told: each is the contract of a function that does nothing.
ghost use Rattle.std.specs.Prelude.{◌≡◌, ◌≢◌, ℕ, true, false, is_some};
ghost use Rattle.std.specs.FinMap.{get};
ghost use Rattle.ov_sync.specs.Keyed.{key_of};
ghost use Rattle.ov_sync.specs.declared.Delta.{Delta};
ghost use Rattle.ov_types.specs.Prefix.{Block};
ghost use Rattle.ov_types.specs.declared.keys.UpKey.{UpKey};
ghost use Rattle.ov_types.specs.declared.keys.UpKey.TheVariants as Up;
ghost use Rattle.ov_types.specs.declared.numbers.InstanceId.{InstanceId};
ghost use Rattle.ov_types.specs.declared.numbers.Label.{Label as LabelNo};
ghost use Rattle.ov_types.specs.declared.objects.LowKey.{LowKey};
ghost use Rattle.ov_types.specs.declared.objects.LowKey.TheVariants as key;
ghost use Rattle.ov_types.specs.declared.objects.LowValue.{LowValue};
ghost use Rattle.ov_types.specs.declared.vpn.VpnKey.{VpnKey};
ghost use Rattle.ov_types.specs.declared.vpn.VpnRoute.{VpnRoute};
ghost use Rattle.node_model.specs.Keys.{Key, Low, Row, Subscribe};
ghost use Rattle.node_model.specs.Maps.{object};
ghost use Rattle.node_model.specs.Paths.{Holdings, Told};
ghost use Rattle.node_model.specs.Reaching.{AreShort};
ghost use Rattle.node_model.specs.Tables.{table};
ghost use Rattle.node_model.specs.Wants.{wanted_by_agent};
ghost use Rattle.vpn_holdings.specs.Changes.{with_low, with_publication, with_route};
ghost use Rattle.vpn_holdings.specs.Listing.{told_in};
ghost use Rattle.vpn_tables.specs.Here.{IsListOfPort, IsRowOf, is_here, port_here, put_by, wanted_on};

/// A change of an object that is no instance and no use, as an attachment or an access list, changes of what an agent
/// is to be told at most that object, where the agent is at neither address at which the object was attached and is.
pub fn an_object_elsewhere_changes_itself_alone()
    ensures { (h : Holdings) (d : Delta LowKey LowValue) (a : Told) (k : Key) → ((n : ℕ) → key_of d ≢ key.Instance n)
        → ((n : ℕ) → key_of d ≢ key.ChainUse n) → is_here a.address (object h.feed (key_of d)) ≡ false
        → is_here a.address (put_by d) ≡ false → k ≢ Low (key_of d)
        → get (wanted_by_agent h a) k ≡ get (wanted_by_agent (with_low h d) a) k }
{}

/// A change of an object that is no instance and no use changes of what an agent is to be told at most that object and,
/// where it is a port at the agent's address before the change or after it, and does not stay one of the same network
/// there, held access lists of the port's network.
pub fn an_attachment_changes_itself_and_its_networks_lists()
    ensures { (h : Holdings) (d : Delta LowKey LowValue) (a : Told) (k : Key) → ((n : ℕ) → key_of d ≢ key.Instance n)
        → ((n : ℕ) → key_of d ≢ key.ChainUse n) → k ≢ Low (key_of d)
        → (port_here a.address (object h.feed (key_of d)) ≢ port_here a.address (put_by d)
        → IsListOfPort h.feed a.address (object h.feed (key_of d)) k → ⊥)
        → (port_here a.address (object h.feed (key_of d)) ≢ port_here a.address (put_by d)
        → IsListOfPort h.feed a.address (put_by d) k → ⊥)
        → get (wanted_by_agent h a) k ≡ get (wanted_by_agent (with_low h d) a) k }
{}

/// A change of a peer's route, or of a publication, changes of what an agent is to be told rows alone of tables that
/// change and that it subscribed. A change of an object changes besides these at most what
/// `an_attachment_changes_itself_and_its_networks_lists` says.
pub fn rows_change_with_their_tables()
    ensures route { (h : Holdings) (session : ℕ) (d : Delta VpnKey VpnRoute) (agent : ℕ) (k : Key)
        → ((i : InstanceId) (q : Block) → k ≡ Row i q
        → is_some (get (told_in h.agents agent).map (Subscribe i)) ≡ true
        → get (table h i) q ≡ get (table (with_route h session d) i) q)
        → get (wanted_on h agent) k ≡ get (wanted_on (with_route h session d) agent) k }
    ensures publication { (h : Holdings) (session : ℕ) (d : Delta UpKey LabelNo) (j : InstanceId) (prefix : Block)
        → key_of d ≡ Up.Publish j prefix → (agent : ℕ) (k : Key)
        → ((i : InstanceId) (q : Block) → k ≡ Row i q
        → is_some (get (told_in h.agents agent).map (Subscribe i)) ≡ true
        → get (table h i) q ≡ get (table (with_publication h session d) i) q)
        → get (wanted_on h agent) k ≡ get (wanted_on (with_publication h session d) agent) k }
    ensures object { (h : Holdings) (d : Delta LowKey LowValue) (a : Told) (k : Key)
        → ((i : InstanceId) (q : Block) → k ≡ Row i q → is_some (get a.map (Subscribe i)) ≡ true
        → get (table h i) q ≡ get (table (with_low h d) i) q)
        → k ≢ Low (key_of d)
        → (port_here a.address (object h.feed (key_of d)) ≢ port_here a.address (put_by d)
        → IsListOfPort h.feed a.address (object h.feed (key_of d)) k → ⊥)
        → (port_here a.address (object h.feed (key_of d)) ≢ port_here a.address (put_by d)
        → IsListOfPort h.feed a.address (put_by d) k → ⊥)
        → get (wanted_by_agent h a) k ≡ get (wanted_by_agent (with_low h d) a) k }
{}

/// A change of a subscription changes of what agents are to be told rows alone that the table of its instance has.
pub fn a_subscription_changes_rows_of_its_instance_alone()
    ensures { (h : Holdings) (session : ℕ) (d : Delta UpKey LabelNo) (j : InstanceId) → AreShort h.feed
        → key_of d ≡ Up.Subscribe j → (agent : ℕ) (k : Key) → (IsRowOf h j k → ⊥)
        → get (wanted_on h agent) k ≡ get (wanted_on (with_publication h session d) agent) k }
{}

/// A change of a subscription changes what its own agent is to be told alone.
pub fn a_subscription_is_of_its_agent_alone()
    ensures { (h : Holdings) (session : ℕ) (d : Delta UpKey LabelNo) (j : InstanceId) → AreShort h.feed
        → key_of d ≡ Up.Subscribe j → (agent : ℕ) → agent ≢ session → (k : Key)
        → get (wanted_on h agent) k ≡ get (wanted_on (with_publication h session d) agent) k }
{}

/// Whose session it is stays, whatever peers, agents and the feed tell.
pub fn addresses_stay()
    ensures route { (h : Holdings) (session : ℕ) (d : Delta VpnKey VpnRoute) (agent : ℕ)
        → (told_in (with_route h session d).agents agent).address ≡ (told_in h.agents agent).address }
    ensures publication { (h : Holdings) (session : ℕ) (d : Delta UpKey LabelNo) (agent : ℕ)
        → (told_in (with_publication h session d).agents agent).address ≡ (told_in h.agents agent).address }
{}
