//! What a settled moment is, which events deliver, what is due as a round begins, which end a connection opens first, and
//! which numbers sessions have at the start. Laws alone.
ghost use Rattle.std.specs.Prelude.{◌≡◌, ◌≢◌, ◌↔◌, ◌≤◌, ◌<◌, ◌+◌, ◌-◌, ℕ, List, Some, [], ◌∷◌, slice_get, true};
ghost use Rattle.std.specs.List.{AllByRecursion};
ghost use Rattle.ov_types.specs.declared.rows.NodeId.{NodeId};
ghost use Rattle.config_types.specs.declared.edit.Edit.{Edit};
ghost use Rattle.config_types.specs.declared.topology.Node.{Node};
ghost use Rattle.schedule_script.specs.ConfigCheck.Checked.{Checked};
ghost use Rattle.schedule_script.specs.ConfigCheck.Finding.{node_named};
ghost use Rattle.node_laws.specs.NodeModel.Members.{Member};
ghost use Rattle.node_laws.specs.NodeModel.Step.{Idle};
ghost use Rattle.machine_model.specs.Setup.{Move, Name, Setup, agents_of, edited, id_of, lists, moves, opening};
ghost use Rattle.machine_model.specs.Session.{Message, Session};
ghost use Rattle.machine_model.specs.Network.{MachineState, config};
ghost use Rattle.machine_model.specs.Steps.{dues, in_flight, is_settled, may_connect, pass, session_of};
ghost use Rattle.machine_model.specs.Events.{MachineEvent, Break, Connect, Deliver, DeliverOctets, Edits, Round, after, next};
ghost use Rattle.machine_model.specs.Moments.{Each};
ghost use Rattle.machine_model.specs.Rounds.{AreRounds, IsRound, after_rounds, is_delivery, taken_by, taken_of};
ghost use Rattle.machine_laws.specs.Rounding.{AreAtEase, AreDue, AreNumberedInOrder, Delivers, IsFromTo, OpenedNearAlone};
ghost use Rattle.machine_laws.specs.Rounding.{OpenedNone, with_new_sessions};

/// A moment is settled exactly where each session is up at both ends, no notice waits and nothing is in flight. A break
/// that is pending is not asked about: one more changes nothing of that.
pub fn settled_moments_are_at_ease()
    ensures sessions { (w : MachineState) → (is_settled w ≡ true) ↔ Each AreAtEase w.sessions }
    ensures breaks { (size : Name → Message → ℕ) (w : MachineState) (from to : Name) (n : ℕ)
        → is_settled (next size w (Break from to n)) ≡ is_settled w }
{}

/// A delivery is one of messages, one of octets or a round. Of its own direction one takes what is no more in flight
/// then, and a round takes all; two take what each of them does. Deliveries are a round exactly where they take of each
/// direction at least what was in flight when they began; the event `Round` alone is one. Of two rounds the second begins
/// where the first ends.
pub fn rounds_are_of_messages_octets_and_rounds()
    ensures deliveries { (e : MachineEvent) → (is_delivery e ≡ true) ↔ Delivers e }
    ensures messages { (size : Name → Message → ℕ) (w : MachineState) (from to : Name) (n : ℕ)
        → taken_by size from to w (Deliver from to n)
        ≡ in_flight w from to - in_flight (next size w (Deliver from to n)) from to }
    ensures octets { (size : Name → Message → ℕ) (w : MachineState) (from to : Name) (n : ℕ)
        → taken_by size from to w (DeliverOctets from to n)
        ≡ in_flight w from to - in_flight (next size w (DeliverOctets from to n)) from to }
    ensures rounds { (size : Name → Message → ℕ) (w : MachineState) (es : List MachineEvent)
        → IsRound size w es ↔ (AllByRecursion Delivers es
        × ((from to : Name) → in_flight w from to ≤ taken_of size from to w es)) }
    ensures two { (size : Name → Message → ℕ) (w : MachineState) (e f : MachineEvent) (from to : Name)
        → taken_of size from to w (e ∷ f ∷ []) ≡ taken_by size from to w e + taken_by size from to (next size w e) f }
    ensures one { (size : Name → Message → ℕ) (w : MachineState) → IsRound size w (Round ∷ []) }
    ensures in_turn { (size : Name → Message → ℕ) (w : MachineState) (es fs : List MachineEvent)
        → AreRounds size w (es ∷ fs ∷ []) ↔ (IsRound size w es × IsRound size (after size w es) fs) }
    ensures in_turn_then { (size : Name → Message → ℕ) (w : MachineState) (es fs : List MachineEvent)
        → after_rounds size w (es ∷ fs ∷ []) ≡ after size (after size w es) fs }
{}

/// When a round begins, exactly what waits is due: of each session in turn, from its earlier node to its later one and
/// then back, the notice that waits, or else each message that is in flight.
pub fn rounds_begin_with_what_is_in_flight()
    ensures { (w : MachineState) → AreDue w.sessions (dues w) }
{}

/// Whichever of two nodes is named first, the earlier one opens its end first. Where the first send of the later one fails
/// then, a notice waits at the earlier one; where the first send of the earlier one fails, the later one does not open.
pub fn the_earlier_end_opens_first()
    ensures either { (size : Name → Message → ℕ) (w : MachineState) (a b : Name) → a ≢ b
        → next size w (Connect a b) ≡ next size w (Connect b a) }
    ensures later { (size : Name → Message → ℕ) (w : MachineState) (a b : Name) (s : Session) → a ≢ b → IsFromTo w a b s
        → may_connect s ≡ true → s.near.breaks ≡ [] → s.far.breaks ≡ 1 ∷ []
        → OpenedNearAlone (session_of (next size w (Connect b a)) a b) }
    ensures earlier { (size : Name → Message → ℕ) (w : MachineState) (a b : Name) (s : Session) → a ≢ b → IsFromTo w a b s
        → may_connect s ≡ true → s.far.phase ≡ Idle → s.near.breaks ≡ 1 ∷ []
        → OpenedNone s.far (session_of (next size w (Connect b a)) a b) }
{}

/// At the start the agents that list a control node have their numbers there in the topology's order.
pub fn the_first_numbers_go_by_the_topology()
    ensures { (x : Checked) (c : NodeId) (i j : ℕ) (m n : Node) → Member c x.topology.controllers
        → i < j → slice_get x.topology.nodes i ≡ Some m → slice_get x.topology.nodes j ≡ Some n
        → lists m c ≡ true → lists n c ≡ true
        → AreNumberedInOrder (agents_of (opening x) c.name) (id_of m) (id_of n) }
{}

/// Where an edit moves a compute node that listed two control nodes, its old sessions go and its new ones come, and then the
/// two make their passes in the order of the old list, and the configuration node after them.
pub fn control_nodes_pass_in_the_order_of_the_old_list()
    ensures { (size : Name → Message → ℕ) (w : MachineState) (d : Edit) (x : Setup) (m : Move) (n : Node) (a b : Name)
        → edited w.setup d ≡ Some x → moves d w.setup.topology ≡ Some m
        → node_named w.setup.topology m.name ≡ Some n → n.controllers ≡ a ∷ b ∷ []
        → next size w (Edits d) ≡ pass config (pass b (pass a (with_new_sessions w x m))) }
{}
