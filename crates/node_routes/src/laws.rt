//! What the definitions of hearing and of telling promise.
ghost use Rattle.std.specs.Prelude.{◌≡◌, ◌≢◌, ◌<◌, ◌^◌, ◌++◌, ◌∷◌, [], ℕ, Bool, true, List, Some, None, IfSome, length};
ghost use Rattle.std.specs.declared.cmp.Ordering.{Ordering};
ghost use Rattle.std.specs.List.{AllByRecursion, concat};
ghost use Rattle.std.specs.FinMap.{FinMap, get};
ghost use Rattle.ov_types.specs.declared.vpn.VpnKey.{VpnKey};
ghost use Rattle.ov_types.specs.declared.vpn.VpnRoute.{VpnRoute};
ghost use Rattle.ov_sync.specs.declared.Delta.{Delta};
ghost use Rattle.ov_sync.specs.Embed.{moved_delta};
ghost use Rattle.ov_sync.specs.Keyed as keyed;
ghost use Rattle.ov_sync.specs.Keyed.{Values};
ghost use Rattle.bgp_wire.specs.Content.{Notifies, KeepsAlive};
ghost use Rattle.bgp_wire.specs.Frames.{IsProperPrefix};
ghost use Rattle.bgp_wire.specs.Messages.{AreOctets};
ghost use Rattle.bgp_wire.specs.Spelling.{spelling};
ghost use Rattle.bgp_vpn.specs.Written.{IfPut};
ghost use Rattle.ov_types.specs.declared.prefix.Addr.{Addr};
ghost use Rattle.bgp_session.specs.declared.event.Cause.{Cause};
ghost use Rattle.bgp_session.specs.declared.event.State.TheVariants.{Idle};
ghost use Rattle.bgp_session.specs.Happenings.{SessionFields};
ghost use Rattle.bgp_session.specs.Inputs.{Came, RightOpen, KeepaliveCame, NotificationCame, RightUpdate};
ghost use Rattle.node_model.specs.Keys.{Vpn};
ghost use Rattle.node_model.specs.Values.{Route};
ghost use Rattle.node_model.specs.Maps.{Map, difference};
ghost use Rattle.node_routes.specs.Hearing.{Hears, heard, open_octets};
ghost use Rattle.node_routes.specs.Keeping.{Leaves, PartsLeave, and_then, session_after};
ghost use Rattle.node_routes.specs.First.{BringFirst, ChangeFitsItsTypes};
ghost use Rattle.node_routes.specs.Told.{IsWritable, route_change, spelled};

/// A change of a route, among all changes, is the change of that route.
pub fn route_changes()
    ensures { (d : Delta VpnKey VpnRoute) → route_change (moved_delta Vpn Route d) ≡ Some d }
{}

/// Where all routes that are wanted can be written, so can each change that leads to them.
pub fn differences_can_be_written()
    ensures among_all { (sent wanted : Map)
        → ((k : VpnKey) (r : VpnRoute) → get wanted (Vpn k) ≡ Some (Route r) → IsWritable r)
        → AllByRecursion (λ c. IfSome (route_change c) (λ d. IfPut d IsWritable)) (difference sent wanted) }
    ensures of_routes { (order : VpnKey → VpnKey → Ordering) (same : VpnRoute → VpnRoute → Bool)
        (sent wanted : FinMap order VpnRoute) → Values (λ k r. IsWritable r) wanted
        → AllByRecursion (λ d. IfPut d IsWritable) (keyed.difference same sent wanted) }
{}

/// What is told is heard, and nothing else: an UPDATE as its change, however the session reads, the OPEN of the peer as a
/// right one with numbers of four octets, a KEEPALIVE and a NOTIFICATION as such. What follows is left.
pub fn updates_are_heard()
    ensures update { (s : SessionFields) (d : Delta VpnKey VpnRoute) (more : List ℕ) → IfPut d IsWritable
        → ChangeFitsItsTypes d
        → BringFirst s (spelled (moved_delta Vpn Route d) ++ more) (RightUpdate (d ∷ [])) more }
    ensures hello { (s : SessionFields) (more : List ℕ) → s.asn < 2 ^ 32 → s.peer.address.0 < 2 ^ 32
        → s.peer.address.0 ≢ 0 → BringFirst s (open_octets s.asn s.peer.address ++ more) (RightOpen true) more }
    ensures keepalive { (s : SessionFields) (more : List ℕ)
        → BringFirst s (spelling KeepsAlive ++ more) KeepaliveCame more }
    ensures notification { (s : SessionFields) (code subcode : ℕ) (more : List ℕ)
        → BringFirst s (spelling (Notifies code subcode) ++ more) (NotificationCame code subcode) more }
{}

/// Octets bring a list of inputs, and only one.
pub fn what_is_heard_is_one()
    ensures some { (s : SessionFields) (octets : List ℕ) → AreOctets octets
        → (inputs : List Came) × Hears s octets inputs }
    ensures one { (s : SessionFields) (octets : List ℕ) (a b : List Came) → Hears s octets a → Hears s octets b
        → a ≡ b }
{}

/// Octets that bring inputs leave octets, and only these: fewer than the longest message has, and none once the session
/// went down.
pub fn what_is_left_is_one()
    ensures some { (s : SessionFields) (octets : List ℕ) → AreOctets octets
        → (inputs : List Came) × (left : List ℕ) × Leaves s octets inputs left }
    ensures one { (s : SessionFields) (octets : List ℕ) (i j : List Came) (a b : List ℕ) → Leaves s octets i a
        → Leaves s octets j b → (i ≡ j) × (a ≡ b) }
    ensures hears { (s : SessionFields) (octets : List ℕ) (inputs : List Came) (left : List ℕ)
        → Leaves s octets inputs left → Hears s octets inputs }
    ensures few { (s : SessionFields) (octets : List ℕ) (inputs : List Came) (left : List ℕ)
        → Leaves s octets inputs left → length left < 4096 }
    ensures part { (id : Addr) (s : SessionFields) (octets : List ℕ) (inputs : List Came) (left : List ℕ)
        → Leaves s octets inputs left → (heard id s inputs).cause ≡ None → IsProperPrefix left }
    ensures none { (id : Addr) (s : SessionFields) (octets : List ℕ) (inputs : List Came) (left : List ℕ)
        (cause : Cause) → Leaves s octets inputs left → (heard id s inputs).cause ≡ Some cause → left ≡ [] }
{}

/// Octets that come to a session that is not Idle may be cut anywhere. Where the first part leaves the session up, what
/// is left of it is heard again before the second part, and all that is heard of both is what is heard of the whole:
/// the replies and the changes in order, the state, and why the session went down. Where the first part takes the
/// session down, the second changes nothing.
pub fn octets_may_be_cut()
    ensures up { (id : Addr) (s : SessionFields) (a b : List ℕ) (first more : List Came) (kept left : List ℕ)
        → s.state ≢ Idle → Leaves s a first kept → (heard id s first).cause ≡ None
        → Leaves (session_after id s first) (kept ++ b) more left → Leaves s (a ++ b) (first ++ more) left }
    ensures both { (id : Addr) (s : SessionFields) (first more : List Came) → (heard id s first).cause ≡ None
        → heard id s (first ++ more) ≡ and_then (heard id s first) (heard id (session_after id s first) more) }
    ensures down { (id : Addr) (s : SessionFields) (a b : List ℕ) (inputs : List Came) (left : List ℕ) (cause : Cause)
        → s.state ≢ Idle → Leaves s a inputs left → (heard id s inputs).cause ≡ Some cause
        → Leaves s (a ++ b) inputs left }

    // Any number of parts.
    ensures parts { (id : Addr) (parts : List (List ℕ)) (s : SessionFields) (kept : List ℕ) (inputs : List Came)
        (left : List ℕ) → s.state ≢ Idle → IsProperPrefix kept → PartsLeave id s kept parts inputs left
        → Leaves s (kept ++ concat parts) inputs left }
{}
