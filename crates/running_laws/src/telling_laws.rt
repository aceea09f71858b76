//! What holds at any moment of any schedule, and that what is in flight then can be told, so that it is heard as it was
//! told: laws alone.
ghost use Rattle.std.specs.List.{AllByRecursion};
ghost use Rattle.std.specs.Prelude.{◌≡◌, List, false};
ghost use Rattle.schedule_script.specs.ConfigCheck.Checked.{Checked};
ghost use Rattle.machine_laws.specs.MachineModel.Events.{MachineEvent, after, next};
ghost use Rattle.machine_laws.specs.MachineModel.Moments.{Each, EditIsValid, EditsAreValid, HasSessions, IsJoined, NumbersFit};
ghost use Rattle.machine_laws.specs.MachineModel.Network.{MachineState, start};
ghost use Rattle.machine_laws.specs.MachineModel.Setup.{agents_of, opening};
ghost use Rattle.node_model.specs.Members.{Member};
ghost use Rattle.ov_types.specs.declared.rows.NodeId.{NodeId};
ghost use Rattle.machine_laws.specs.Headline.{IsOfForm, IsWritten};
ghost use Rattle.running_nodes.specs.Stands.{message_size};
ghost use Rattle.running_nodes.specs.Telling.{CanBeHeard};
ghost use Rattle.running_laws.specs.Moments.{IsMoment, unbroken};

/// At every moment each message in flight is one that its receiver hears as it was told: a change between control nodes
/// is one of a route that has an UPDATE, and any other has a record that its sender may send there.
pub fn what_is_in_flight_can_be_heard()
    ensures { (w : MachineState) → IsMoment w → AllByRecursion CanBeHeard w.sessions }
{}

/// The state after any schedule of a valid configuration is a moment. So is the one after the next event of a moment,
/// where what an edit puts is of the written form, and the one in which no send is to fail any more.
pub fn moments_lead_to_moments()
    ensures first { (x : Checked) → IsWritten (opening x) → (es : List MachineEvent) → EditsAreValid message_size IsOfForm (start x) es
        → IsMoment (after message_size (start x) es) }
    ensures events { (w : MachineState) → IsMoment w → (e : MachineEvent) → EditIsValid IsOfForm w e
        → IsMoment (next message_size w e) }
    ensures unbroken { (w : MachineState) → IsMoment w → IsMoment (unbroken w) }
{}

/// At every moment the configuration is a valid one of the written form, the sessions are those of its topology, the
/// numbers of agents' sessions at each control node are of the agents that list it, and each session that is not down is
/// joined: what was sent and not taken is in flight in order, as both ends' states say.
pub fn moments_are_of_valid_configurations()
    ensures written { (w : MachineState) → IsMoment w → IsWritten w.setup }
    ensures sessions { (w : MachineState) → IsMoment w → HasSessions w }
    ensures numbers { (w : MachineState) → IsMoment w → (c : NodeId) → Member c w.setup.topology.controllers
        → NumbersFit w.setup.topology c (agents_of w.setup c.name) }
    ensures joined { (w : MachineState) → IsMoment w → Each (λ s. s.is_down ≡ false → IsJoined s) w.sessions }
{}
