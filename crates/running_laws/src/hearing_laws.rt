//! What the inputs of a node make of its ends, as laws: each is the contract of a function that does nothing.
ghost use Rattle.std.specs.Prelude.{◌≡◌, ◌<◌, ◌++◌, [], ℕ, List, IsTrue, Some, None, Bool, false, length};
ghost use Rattle.std.specs.Borrow.{Bor};
ghost use Rattle.std.specs.List.{AllByRecursion, concat, slice_index_or};
ghost use Rattle.std.specs.Prelude.{map};
ghost use Rattle.ov_link.specs.declared.step.Input.TheVariants.{Bytes, Closed, Opened};
ghost use Rattle.config_types.specs.Form.{has_topology_form};
ghost use Rattle.schedule_script.specs.ConfigCheck.Rules.{first_broken};
ghost use Rattle.node_model.specs.Maps.{Map};
ghost use Rattle.node_model.specs.Members.{Member};
ghost use Rattle.node_model.specs.Step.{Beginning, Phase, Post};
ghost use Rattle.machine_laws.specs.MachineModel.Setup.{Name, Setup};
ghost use Rattle.machine_laws.specs.MachineModel.Moments.{HasNumbers, NoneGoesDown, cell};
ghost use Rattle.machine_laws.specs.MachineModel.Session.{Message, are_peers, is_idle};
ghost use Rattle.running_nodes.specs.Seats.{Who, name_of, others_of, role_of, whos};
ghost use Rattle.running_nodes.specs.Stands.{message_size, octets_of};
ghost use Rattle.running_nodes.specs.Steps.{BeginsAt};
ghost use Rattle.running_nodes.specs.Taking.{closed, opened, taken, taken_all};
ghost use Rattle.running_nodes.specs.Telling.{CanSend};
ghost use Rattle.running_laws.specs.Cutting.{PartsAreAsWhole, WholeIsAsParts, and_then, told, with_sent};
ghost use Rattle.running_laws.specs.Hearing.{HasNoCause, IsBetween, IsMessageOf, IsPartial, IsPhaseOf};

/// Each session of a node of a valid configuration is with one of its nodes, unless its number is retired.
pub fn sessions_are_between()
    ensures { (x : Setup) → IsTrue (has_topology_form x.topology) → first_broken x.topology x.config ≡ None
        → HasNumbers x → (a : Who) → Member a (whos x) → (i : ℕ) (name : Name)
        → slice_index_or (others_of a) i None ≡ Some name → (b : Who) × IsBetween x a b i }
{}

/// A message that leads a live end on is one of its session, and the end's state is one of its session too.
pub fn messages_come_on_their_sessions()
    ensures message { (peering : Bool) (phase : Phase) (m : Message) (next : Phase) → is_idle phase ≡ false
        → cell peering phase m ≡ Some next → IsMessageOf peering m }
    ensures phase { (peering : Bool) (phase : Phase) (m : Message) (next : Phase) → cell peering phase m ≡ Some next
        → IsPhaseOf peering phase }
{}

/// A message of a session, as a node spells it that may send it there, has as many octets as the network's machine
/// counts, and it has some.
pub fn messages_have_sizes()
    ensures { (a b : Who) (m : Message) → CanSend (role_of a) (role_of b) m
        → IsMessageOf (are_peers (role_of a) (role_of b)) m
        → (length (octets_of a (are_peers (role_of a) (role_of b)) m) ≡ message_size (name_of a) m)
        × (0 < length (octets_of a (are_peers (role_of a) (role_of b)) m)) }
{}

/// Between two nodes of a valid configuration, the octets of messages that the one may send, and that do not take the
/// other's end down, with a first part of one more behind them, make of that end what the machine's cells say, one
/// message after another, with all the machine's replies and without a cause. The part changes nothing and is kept.
pub fn octets_are_heard()
    ensures { (x : Setup) → IsTrue (has_topology_form x.topology) → first_broken x.topology x.config ≡ None
        → HasNumbers x → (a b : Who) (i : ℕ) → IsBetween x a b i → (p : Post) → is_idle p.phase ≡ false
        → IsPhaseOf (are_peers (role_of a) (role_of b)) p.phase
        → (ms : List Message) → NoneGoesDown (are_peers (role_of a) (role_of b)) p.phase ms
        → AllByRecursion (CanSend (role_of b) (role_of a)) ms → (part : List ℕ) → IsPartial a b part
        → (kept : List ℕ) (octets : Bor (List ℕ))
        → kept ++ octets.now ≡ concat (map (octets_of b (are_peers (role_of a) (role_of b))) ms) ++ part
        → (given : Beginning) (left : List ℕ) (begins : BeginsAt a i p kept (Bytes i octets) given left)
        → (given ≡ taken_all a (are_peers (role_of a) (role_of b)) p ms) × (left ≡ part)
        × HasNoCause a i p kept (Bytes i octets) given left begins }
{}

/// The octets of one such message make of the end what the machine's cell says, and nothing of them is left.
pub fn messages_are_heard()
    ensures { (x : Setup) → IsTrue (has_topology_form x.topology) → first_broken x.topology x.config ≡ None
        → HasNumbers x → (a b : Who) (i : ℕ) → IsBetween x a b i → (p : Post) → is_idle p.phase ≡ false
        → (m : Message) (next : Phase) → cell (are_peers (role_of a) (role_of b)) p.phase m ≡ Some next
        → CanSend (role_of b) (role_of a) m → (kept : List ℕ) (octets : Bor (List ℕ))
        → kept ++ octets.now ≡ octets_of b (are_peers (role_of a) (role_of b)) m
        → (given : Beginning) (left : List ℕ) (begins : BeginsAt a i p kept (Bytes i octets) given left)
        → (given ≡ taken a (are_peers (role_of a) (role_of b)) p m next) × (left ≡ [])
        × HasNoCause a i p kept (Bytes i octets) given left begins }
{}

/// An end that opens sends its greeting and nothing else.
pub fn ends_open()
    ensures { (x : Setup) → IsTrue (has_topology_form x.topology) → first_broken x.topology x.config ≡ None
        → HasNumbers x → (a b : Who) (i : ℕ) → IsBetween x a b i → (p : Post) (kept : List ℕ) (given : Beginning) (left : List ℕ)
        → (begins : BeginsAt a i p kept (Opened i) given left)
        → (given ≡ opened a (are_peers (role_of a) (role_of b)) p) × (left ≡ [])
        × HasNoCause a i p kept (Opened i) given left begins }
{}

/// An end that closes has nothing, and sends nothing.
pub fn ends_close()
    ensures { (a : Who) (i : ℕ) (p : Post) (kept : List ℕ) (given : Beginning) (left : List ℕ)
        → (begins : BeginsAt a i p kept (Closed i) given left)
        → (given ≡ closed) × (left ≡ []) × HasNoCause a i p kept (Closed i) given left begins }
{}

/// Octets that come to a live end of any node may be cut anywhere. Where the first part leaves the end up, the second,
/// heard behind what is kept of the first, makes of it what both make at once. Where the first takes the end down, the
/// second changes nothing, and nothing is kept. What was sent on the end makes no difference. So with any number of
/// parts, whatever the node sends between them: the holdings after any cutting are those after the whole.
pub fn nodes_hear_cut_octets()
    ensures up { (who : Who) (i : ℕ) (p q : Post) (kept between left : List ℕ) (a b whole : Bor (List ℕ))
        (first more : Beginning) → is_idle p.phase ≡ false → BeginsAt who i p kept (Bytes i a) first between
        → first.after ≡ Some q → BeginsAt who i q between (Bytes i b) more left → whole.now ≡ a.now ++ b.now
        → BeginsAt who i p kept (Bytes i whole) (and_then first more) left }
    ensures down { (who : Who) (i : ℕ) (p : Post) (kept between : List ℕ) (a b whole : Bor (List ℕ)) (first : Beginning)
        → is_idle p.phase ≡ false → BeginsAt who i p kept (Bytes i a) first between → first.after ≡ None
        → whole.now ≡ a.now ++ b.now → BeginsAt who i p kept (Bytes i whole) first [] }
    ensures sent { (who : Who) (i : ℕ) (p : Post) (kept left : List ℕ) (octets : Bor (List ℕ)) (given : Beginning)
        (sent : Map) → BeginsAt who i p kept (Bytes i octets) given left
        → BeginsAt who i (told sent p) kept (Bytes i octets) (with_sent sent given) left }
    ensures whole { (who : Who) (i : ℕ) → WholeIsAsParts who i }
    ensures parts { (who : Who) (i : ℕ) → PartsAreAsWhole who i }
{}
