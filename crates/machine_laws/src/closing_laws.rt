//! When nodes close sessions: only where one of their sends fails. Which sessions an edit takes away, which send a break
//! makes fail, and how octets are taken. Laws alone.
ghost use Rattle.std.specs.Prelude.{◌≡◌, ◌⊎◌, ◌↔◌, ◌≤◌, ◌<◌, ◌+◌, ◌-◌, ℕ, List, [], ◌∷◌, length, true, false};
ghost use Rattle.ov_types.specs.declared.rows.NodeId.{NodeId};
ghost use Rattle.config_types.specs.declared.edit.Edit.{Edit};
ghost use Rattle.config_types.specs.declared.edit.Edit.TheVariants.{Put};
ghost use Rattle.config_types.specs.declared.edit.Object.TheVariants as Objects;
ghost use Rattle.config_types.specs.declared.topology.Node.{Node};
ghost use Rattle.node_laws.specs.NodeModel.Members.{Member};
ghost use Rattle.machine_model.specs.Setup.{Name};
ghost use Rattle.machine_model.specs.Session.{Message, Session, arrived, counted, octets_arrived, told, with_breaks};
ghost use Rattle.machine_model.specs.Network.{MachineState};
ghost use Rattle.machine_model.specs.Steps.{session_of};
ghost use Rattle.machine_model.specs.Events.{MachineEvent, Edits, add_break, next};
ghost use Rattle.machine_model.specs.Moments.{AtEveryMoment, EditIsValid, LaidOut, WhereLaidOut};
ghost use Rattle.machine_model.specs.Deeds.{StandsThere};
ghost use Rattle.machine_laws.specs.Closing.{IsUnbroken, IsWhole, MovesNode, StaysOrNone, TakesDown, anew};

/// At every moment of every schedule: where no break is pending on a session, no event takes it down but its own loss, a
/// restart of one of its two nodes, and an edit by which one of them comes, goes, or lists other control nodes. So no
/// message that nodes send each other, no other edit and no connection makes a node close a session: only a send that
/// fails does.
pub fn nodes_close_no_session_but_by_a_failed_send()
    ensures { AtEveryMoment (λ size w. (a b : Name) (e : MachineEvent) → IsUnbroken w a b → (TakesDown w a b e → ⊥)
        → IsWhole (next size w e) a b) }
{}

/// An accepted edit by which a compute node comes, goes, or lists other control nodes takes all sessions of that node
/// away: of each control node and it there is a new one then, of which nothing is there, where it lists that control
/// node, and none else. An edit takes no other session away, and brings no other: where no break is pending on it, what
/// both ends hold, what is in flight and how far it is taken stays, but for the changes that their nodes tell more. So a
/// put of a compute node with the address and the list of control nodes that it has takes no session away.
pub fn edits_take_away_the_sessions_of_a_node_that_moves()
    ensures anew { WhereLaidOut (λ size w. (d : Edit) (name : Name) → EditIsValid LaidOut w (Edits d) → MovesNode w d name
        → (c : NodeId) → Member c w.setup.topology.controllers
        → session_of (next size w (Edits d)) c.name name ≡ anew (next size w (Edits d)) c.name name) }
    ensures others { (size : Name → Message → ℕ) (w : MachineState) (d : Edit) (a b : Name)
        → (TakesDown w a b (Edits d) → ⊥)
        → StaysOrNone (session_of w a b) (session_of (next size w (Edits d)) a b) }
    ensures stays { (size : Name → Message → ℕ) (w : MachineState) (n : Node) → StandsThere w.setup.topology n
        → (a b : Name)
        → StaysOrNone (session_of w a b) (session_of (next size w (Edits (Put (Objects.Node n)))) a b) }
{}

/// A break n makes the n-th send of its direction from then on fail, beside those that fail without it, and changes
/// nothing else of the session. Every send counts, also one that fails and one that is discarded.
pub fn breaks_count_the_sends_of_their_direction()
    ensures fails { (n : ℕ) (ms : List Message) (s : Session) → s.is_down ≡ false → 1 ≤ n
        → ((told ms (add_break n s)).is_down ≡ true) ↔ ((n ≤ length ms) ⊎ ((told ms s).is_down ≡ true)) }
    ensures counts { (m : Message) (s : Session) → (told (m ∷ []) s).near.breaks ≡ counted s.near.breaks }
    ensures alone { (n : ℕ) (s : Session) → with_breaks s.near.breaks (add_break n s) ≡ s }
{}

/// Octets up to the end of a message, and more, take it as a message is taken, and go on with the next; of octets that
/// end within one only their number is kept, beside those of it that were taken before. A notice is taken by any number.
pub fn octets_are_taken_message_by_message()
    ensures whole { (size : Name → Message → ℕ) (k : ℕ) (s : Session) (m : Message) (ms : List Message)
        → s.is_down ≡ false → s.near.notice ≡ false → s.far.flight ≡ m ∷ ms
        → octets_arrived size ((size s.far.name m - s.far.taken) + k) s ≡ octets_arrived size k (arrived s) }
    ensures part { (size : Name → Message → ℕ) (n : ℕ) (s : Session) (m : Message) (ms : List Message)
        → s.is_down ≡ false → s.near.notice ≡ false → s.far.flight ≡ m ∷ ms → n < size s.far.name m - s.far.taken
        → octets_arrived size n s ≡ record s { far = record s.far { taken = s.far.taken + n } } }
    ensures notice { (size : Name → Message → ℕ) (n : ℕ) (s : Session) → s.near.notice ≡ true
        → octets_arrived size n s ≡ arrived s }
    ensures none { (size : Name → Message → ℕ) (n : ℕ) (s : Session) → s.near.notice ≡ false → s.far.flight ≡ []
        → octets_arrived size n s ≡ s }
{}
