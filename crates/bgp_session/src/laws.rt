//! What the table of a session promises.
ghost use Rattle.std.specs.Prelude.{◌≡◌, ◌≢◌, ◌↔◌, ℕ, Bool, List, Some, None};
ghost use Rattle.ov_types.specs.declared.prefix.Addr.{Addr};
ghost use Rattle.ov_types.specs.declared.rows.NodeId.{NodeId};
ghost use Rattle.bgp_wire.specs.Content.{OpenFields, UpdateFields, Content, Opens, Updates};
ghost use Rattle.bgp_wire.specs.Opens.{asn_of, is_wide};
ghost use Rattle.bgp_session.specs.declared.event.State.{State};
ghost use Rattle.bgp_session.specs.declared.event.State.TheVariants.{Established};
ghost use Rattle.bgp_session.specs.Inputs.{Came, RightOpen, bad_peer_as, bad_identifier, open_refusal};
ghost use Rattle.bgp_session.specs.Inputs.{Brings, BringsUpdate};
ghost use Rattle.bgp_session.specs.Happenings.{idle_session, next_state, next_happening};
ghost use Rattle.bgp_session.specs.Reading.{after_all, last_open, ReadsAs};
ghost use Rattle.bgp_session.specs.Words.{step_of};

/// Each state does with each input what its words say.
pub fn each_cell_says_its_words()
    ensures { (state : State) (came : Came) → (next_state state came, next_happening state came) ≡ step_of state came }
{}

/// An OPEN is right exactly where its autonomous system is this one and its identifier is the peer's address; another
/// autonomous system is refused first.
pub fn opens_are_judged_by_their_speaker()
    ensures right { (asn : ℕ) (peer : Addr) (fields : OpenFields)
        → (open_refusal asn peer fields ≡ None) ↔ ((asn_of fields ≡ asn) × (fields.id ≡ peer.0)) }
    ensures other_system { (asn : ℕ) (peer : Addr) (fields : OpenFields)
        → (open_refusal asn peer fields ≡ Some bad_peer_as) ↔ (asn_of fields ≢ asn) }
    ensures other_identifier { (asn : ℕ) (peer : Addr) (fields : OpenFields)
        → (open_refusal asn peer fields ≡ Some bad_identifier) ↔ ((asn_of fields ≡ asn) × (fields.id ≢ peer.0)) }
{}

/// A message brings one thing.
pub fn a_message_brings_one_thing()
    ensures { (asn : ℕ) (peer : Addr) (wide : Bool) (message : Content) (a b : Came)
        → Brings asn peer wide message a → Brings asn peer wide message b → a ≡ b }
{}

/// A session reads UPDATEs with numbers of four octets exactly where the OPEN that it took from its peer on this
/// connection has the capability for them (RFC 6793, section 4): whatever came to it from its start on, and in whichever
/// order.
pub fn updates_are_read_as_the_peer_said()
    ensures sessions { (asn : ℕ) (peer : NodeId) (inputs : List Came)
        → let s = after_all (idle_session asn peer) inputs in ReadsAs s.state s.wide (last_open None inputs) }
    ensures updates { (asn : ℕ) (peer : NodeId) (inputs : List Came) (parts : UpdateFields) (came : Came)
        → let s = after_all (idle_session asn peer) inputs in s.state ≡ Established
        → Brings asn peer.address s.wide (Updates parts) came
        → (wide : Bool) × (last_open None inputs ≡ Some wide) × BringsUpdate wide parts came }
    ensures opens { (asn : ℕ) (peer : Addr) (reads wide : Bool) (fields : OpenFields)
        → Brings asn peer reads (Opens fields) (RightOpen wide) → wide ≡ is_wide fields }
{}
