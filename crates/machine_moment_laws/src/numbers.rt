//! What is said by the definitions of what answers promise: each in full, with its numbers.
ghost use Rattle.std.specs.Prelude.{◌≡◌, ◌≢◌, ◌≤◌, ◌+◌, ℕ, Bool, List, take, true};
ghost use Rattle.std.specs.List.{AllPairs};
ghost use Rattle.ov_types.specs.declared.numbers.PortNo.{PortNo};
ghost use Rattle.ov_types.specs.declared.numbers.ServiceNo.{ServiceNo};
ghost use Rattle.ov_types.specs.declared.packet.Outcome.TheVariants.{Delivered};
ghost use Rattle.ov_types.specs.declared.packet.Packet.{Packet};
ghost use Rattle.ov_types.specs.declared.rows.NodeId.{NodeId};
ghost use Rattle.ov_types.specs.declared.rows.NodeRows.TheVariants as rows;
ghost use Rattle.config_types.specs.declared.event.Event.{Event};
ghost use Rattle.config_types.specs.declared.event.Event.TheVariants.{Settle, Show, Trace};
ghost use Rattle.config_types.specs.declared.topology.Node.{Node};
ghost use Rattle.config_check.specs.Checked.{Checked};
ghost use Rattle.machine_laws.specs.Moments.{SettlesInTime};
ghost use Rattle.running_nodes.specs.Stands.{moment};
ghost use Rattle.machine_laws.specs.Settling.{SettlesIn};
ghost use Rattle.machine_laws.specs.MachineModel.Network.{MachineState};
ghost use Rattle.machine_laws.specs.MachineModel.Session.{Message};
ghost use Rattle.machine_laws.specs.MachineModel.Setup.{Name, checked, longest};
ghost use Rattle.machine_laws.specs.MachineModel.Steps.{is_settled};
ghost use Rattle.node_model.specs.Members.{Member};
ghost use Rattle.reach_plain.specs.Reachability.{reachability};
ghost use Rattle.machine_moment_laws.specs.Compiled.{AnswersCompiled, AreAsCompiled, StandsAt};
ghost use Rattle.machine_moment_laws.specs.Ends.{SettlesAtOnce};
ghost use Rattle.schedule_script.specs.declared.answer.Answer.{Answer};
ghost use Rattle.schedule_script.specs.declared.answer.Answer.TheVariants.{Rounds, Shown, Traced};
ghost use Rattle.machine_laws.specs.TransformModel.Compiled.{agent_rows};
ghost use Rattle.machine_laws.specs.TransformModel.Tables.{control_rows};

/// Where answers are as compiled, that of an event at a settled moment is the compiled one.
pub fn settled_answers_are_compiled()
    ensures { (x : Checked) (es : List Event) (answered : List Answer) → AreAsCompiled x es answered
        → (place : ℕ) (e : Event) (a : Answer) → StandsAt es answered place e a
        → is_settled (moment x (take place es)) ≡ true → AnswersCompiled (checked (moment x (take place es)).setup) e a }
{}

/// A control node shows the tables of all instances.
pub fn a_control_node_shows_its_tables()
    ensures { (y : Checked) (c : NodeId) (a : Answer) → Member c y.topology.controllers
        → AnswersCompiled y (Show c.name) a → a ≡ Shown (rows.Control (control_rows y.topology y.config)) }
{}

/// An agent shows the rows of its node's address.
pub fn an_agent_shows_its_rows()
    ensures { (y : Checked) (n : Node) (a : Answer) → Member n y.topology.nodes
        → AnswersCompiled y (Show n.name) a → a ≡ Shown (rows.Agent (agent_rows y.topology y.config n.address)) }
{}

/// A packet has the outcome that policies give.
pub fn a_packet_goes_where_policies_permit()
    ensures { (y : Checked) (p : Packet) (a : Answer) → AnswersCompiled y (Trace p) a
        → a ≡ Traced (reachability y.config p) }
{}

/// A packet passes no service twice.
pub fn each_service_is_passed_once()
    ensures { (y : Checked) (p : Packet) (port : PortNo) (services : List ServiceNo)
        → AnswersCompiled y (Trace p) (Traced (Delivered port services)) → AllPairs (λ s u. s.0 ≢ u.0) services }
{}

/// Where no session is down and no break is pending, five rounds more than the longest chain in effect has services end
/// settled.
pub fn rounds_are_few()
    ensures { (size : Name → Message → ℕ) (w : MachineState) → SettlesInTime size w
        → SettlesIn (longest w.setup + 5) size w }
{}

/// `settle` takes at most six more, and ends settled.
pub fn settle_takes_few_rounds()
    ensures { (before then : MachineState) (rounds : ℕ) (settled : Bool)
        → SettlesAtOnce before Settle (Rounds rounds settled) then
        → (rounds ≤ longest before.setup + 6) × (settled ≡ true) × (is_settled then ≡ true) }
{}
