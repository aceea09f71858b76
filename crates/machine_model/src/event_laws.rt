//! Laws of events and their answers: each is the contract of a function that does nothing.
ghost use Rattle.std.specs.Prelude.{◌≡◌, ◌≢◌, ◌↔◌, ◌==◌, ℕ, List, Some, None, [], map, length, false, true};
ghost use Rattle.std.specs.Option.{option_map};
ghost use Rattle.ov_types.specs.declared.rows.NodeId.{NodeId};
ghost use Rattle.schedule_script.specs.ConfigTypes.Edit.{Edit};
ghost use Rattle.schedule_script.specs.ConfigTypes.Node.{Node};
ghost use Rattle.schedule_script.specs.ConfigCheck.Edits as edits;
ghost use Rattle.schedule_script.specs.ConfigCheck.EditFault.{EditFault};
ghost use Rattle.schedule_script.specs.declared.answer.Answer.TheVariants.{Idle, EditRefused};
ghost use Rattle.transform_model.specs.NodeModel.Members.{Member};
ghost use Rattle.machine_model.specs.Setup.{Name, Move, agents_of, checked, id_of, lists, moves, with_agent, without_agent};
ghost use Rattle.machine_model.specs.Session.{Message, Session, lost, shut, told};
ghost use Rattle.machine_model.specs.Network.{MachineState, sessions_of};
ghost use Rattle.machine_model.specs.Steps.{in_flight, may_connect, session_of};
ghost use Rattle.machine_model.specs.Events.{MachineEvent, Break, Connect, Deliver, Edits, Lose, Restart};
ghost use Rattle.machine_model.specs.Events.{add_break, answer_to, is_node, next};
ghost use Rattle.machine_model.specs.Moments.{AtEveryMoment, Each, IsLost, NodeHasTold};
ghost use Rattle.machine_model.specs.Deeds.{AreOthers, HasNothingToDo, IsClosed, IsNewFor, IsOpenedAt, MeetsOne};
ghost use Rattle.machine_model.specs.Deeds.{NodeTells, SendsFreely};

/// An event is answered by Idle exactly where there is nothing to do, and an edit by a refusal exactly where it has
/// that fault.
pub fn idle_and_refused_are_where_they_are_said()
    ensures idle { (w : MachineState) (e : MachineEvent) → (answer_to w e ≡ Idle) ↔ HasNothingToDo w e }
    ensures refused { (w : MachineState) (d : Edit) (f : EditFault)
        → (answer_to w (Edits d) ≡ EditRefused f) ↔ (edits.edit_fault (checked w.setup) d ≡ Some f) }
{}

/// An event that is answered by Idle changes nothing, and so does an edit that is refused.
pub fn what_is_not_done_changes_nothing()
    ensures idle { (size : Name → Message → ℕ) (w : MachineState) (e : MachineEvent) → answer_to w e ≡ Idle → next size w e ≡ w }
    ensures refused { (size : Name → Message → ℕ) (w : MachineState) (e : MachineEvent) (f : EditFault)
        → answer_to w e ≡ EditRefused f → next size w e ≡ w }
{}

/// An edit without a fault makes of topology and configuration what it says; no other event changes either, or the
/// numbers of sessions. Where an edit moves no compute node, all numbers stay. Where it moves one, the number that the
/// node had at a control node is retired, and at one that it lists then it has the least that is no agent's after that.
pub fn edits_change_the_configuration()
    ensures made { (size : Name → Message → ℕ) (w : MachineState) (d : Edit) → edits.edit_fault (checked w.setup) d ≡ None
        → checked (next size w (Edits d)).setup ≡ edits.edited d (checked w.setup) }
    ensures kept { (size : Name → Message → ℕ) (w : MachineState) (e : MachineEvent) → ((d : Edit) → e ≢ Edits d)
        → (next size w e).setup ≡ w.setup }
    ensures numbers_stay { (size : Name → Message → ℕ) (w : MachineState) (d : Edit) → moves d w.setup.topology ≡ None
        → (next size w (Edits d)).setup.numbers ≡ w.setup.numbers }
    ensures numbers_go { (size : Name → Message → ℕ) (w : MachineState) (d : Edit) (m : Move) (c : NodeId)
        → edits.edit_fault (checked w.setup) d ≡ None → moves d w.setup.topology ≡ Some m
        → ((n : Node) → m.now ≡ Some n → lists n c ≡ false)
        → agents_of (next size w (Edits d)).setup c.name ≡ without_agent m.name (agents_of w.setup c.name) }
    ensures numbers_come { AtEveryMoment (λ size w. (d : Edit) (m : Move) (n : Node) (c : NodeId)
        → Member c w.setup.topology.controllers → edits.edit_fault (checked w.setup) d ≡ None
        → moves d w.setup.topology ≡ Some m → m.now ≡ Some n → lists n c ≡ true
        → agents_of (next size w (Edits d)).setup c.name
        ≡ with_agent (id_of n) (without_agent m.name (agents_of w.setup c.name))) }
{}

/// After a delivery the node that took it has told what it wants by then, unless one of its sessions is down.
pub fn deliveries_end_with_a_pass()
    ensures { (size : Name → Message → ℕ) (w : MachineState) (from to : Name) → (in_flight w from to == 0) ≡ false
        → NodeHasTold (next size w (Deliver from to 1)) to }
{}

/// A session that is lost has nothing in flight, and a notice at each live end; all others stay as they were.
pub fn losses_leave_notices()
    ensures lost { (size : Name → Message → ℕ) (w : MachineState) (a b : Name) (s : Session) → session_of w a b ≡ Some s
        → s.is_down ≡ false → session_of (next size w (Lose a b)) a b ≡ Some (lost s) }
    ensures notices { (s : Session) → IsLost (lost s) }
    ensures others { (size : Name → Message → ℕ) (w : MachineState) (a b c d : Name) → AreOthers a b c d
        → session_of (next size w (Lose a b)) c d ≡ session_of w c d }
{}

/// Where a session may connect and no break is pending on it, it is not down after that, and both of its ends are
/// opened.
pub fn connections_open_both_ends()
    ensures { (size : Name → Message → ℕ) (w : MachineState) (a b : Name) (s : Session) → a ≢ b → session_of w a b ≡ Some s
        → may_connect s ≡ true → s.near.breaks ≡ [] → s.far.breaks ≡ []
        → IsOpenedAt (session_of (next size w (Connect a b)) a b) }
{}

/// A restart leaves a node nothing: each of its ends is closed, and the other end is left as by a loss. The sessions of
/// other nodes stay as they were.
pub fn restarts_empty_a_node()
    ensures own { (size : Name → Message → ℕ) (w : MachineState) (n : Name) → is_node w n ≡ true
        → sessions_of n (next size w (Restart n)).sessions ≡ map shut (sessions_of n w.sessions) }
    ensures closed { (s : Session) → IsClosed (shut s).near × IsLost (shut s) }
    ensures others { (size : Name → Message → ℕ) (w : MachineState) (n a b : Name) → n ≢ a → n ≢ b
        → session_of (next size w (Restart n)) a b ≡ session_of w a b }
{}

/// A break is added to those of its direction, and to no other. Of the messages that are sent on a session which is not
/// down one fails exactly where one of the next so many sends meets a break.
pub fn breaks_fail_sends()
    ensures added { (size : Name → Message → ℕ) (w : MachineState) (from to : Name) (n : ℕ)
        → session_of (next size w (Break from to n)) from to ≡ option_map (add_break n) (session_of w from to) }
    ensures others { (size : Name → Message → ℕ) (w : MachineState) (from to : Name) (n : ℕ) (c d : Name)
        → AreOthers from to c d → session_of (next size w (Break from to n)) c d ≡ session_of w c d }
    ensures fails { (ms : List Message) (s : Session) → s.is_down ≡ false
        → ((told ms s).is_down ≡ true) ↔ MeetsOne (length ms) s.near.breaks }
{}

/// A compute node that an edit puts anew or with another list of control nodes has no session from before, and one that
/// is deleted has none: each session of it is down then, and both of its ends are closed.
pub fn nodes_that_move_begin_anew()
    ensures { (size : Name → Message → ℕ) (w : MachineState) (d : Edit) (m : Move)
        → edits.edit_fault (checked w.setup) d ≡ None → moves d w.setup.topology ≡ Some m
        → Each (IsNewFor m.name) (next size w (Edits d)).sessions }
{}

/// After an edit that moves a compute node each control node that it listed until then has told, on each of its
/// sessions, what it wants of what it holds then, whether its end of the session that goes was live or not: where no
/// break is pending on what it sends.
pub fn control_nodes_tell_where_a_session_goes()
    ensures { (size : Name → Message → ℕ) (w : MachineState) (d : Edit) (m : Move) (control : Name)
        → edits.edit_fault (checked w.setup) d ≡ None → moves d w.setup.topology ≡ Some m → Member control m.left
        → Each (SendsFreely control) w.sessions → NodeTells (next size w (Edits d)) control }
{}
