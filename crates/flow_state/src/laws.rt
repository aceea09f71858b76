//! Laws of flows, each the contract of a function that does nothing.
ghost use Rattle.std.specs.Prelude.{◌≡◌, ◌≢◌, ◌↔◌, ◌⊎◌, ℕ, IsTrue, List, Option, Some, None};
ghost use Rattle.std.specs.List.{All, Contains, list_all};
ghost use Rattle.ov_types.specs.declared.numbers.PortNo.{PortNo};
ghost use Rattle.ov_types.specs.declared.numbers.ServiceNo.{ServiceNo};
ghost use Rattle.ov_types.specs.declared.packet.Outcome.TheVariants.{Delivered, Dropped};
ghost use Rattle.ov_types.specs.declared.packet.Packet.{Packet};
ghost use Rattle.ov_types.specs.declared.packet.RuleNo.{RuleNo};
ghost use Rattle.ov_types.specs.declared.packet.Why.{Why};
ghost use Rattle.ov_types.specs.declared.packet.Why.TheVariants.{Denied};
ghost use Rattle.config_types.specs.Form.{has_config_form};
ghost use Rattle.config_types.specs.declared.config.Config.{Config};
ghost use Rattle.config_types.specs.declared.topology.Topology.{Topology};
ghost use Rattle.config_check.specs.Checked.{Checked};
ghost use Rattle.config_check.specs.Rules.{first_broken};
ghost use Rattle.reach_plain.specs.Reachability.{reachability};
ghost use Rattle.flow_state.specs.Steps.{has_step_form};
ghost use Rattle.flow_state.specs.declared.step.FlowStep.{FlowStep};
ghost use Rattle.flow_state.specs.declared.flow.Flow.{Flow};
ghost use Rattle.flow_state.specs.Flows.{PermitsOneWay, flow_outcome, flow_use, reply_packet};
ghost use Rattle.flow_state.specs.Laws.{AreAnswered, IsForwardUse, IsLetBack, IsNoDenial, IsReplyUse, WasUsedLast};
ghost use Rattle.flow_state.specs.Recent.{recent};
ghost use Rattle.flow_state.specs.Replay.{answers, at_start};

/// What is delivered without a table of flows is delivered with it, to the same port and through the same services.
pub fn delivered_packets_stay_delivered()
    ensures { (c : Config) (flows : List Flow) (p : Packet) (number : PortNo) (services : List ServiceNo)
        → reachability c p ≡ Delivered number services → flow_outcome c flows p ≡ Delivered number services }
{}

/// A packet that is dropped, and not since it is denied, stays dropped for the same reason.
pub fn drops_without_a_denial_stay()
    ensures { (c : Config) (flows : List Flow) (p : Packet) (why : Why) → IsNoDenial why
        → reachability c p ≡ Dropped why → flow_outcome c flows p ≡ Dropped why }
{}

/// In a valid configuration of the written form that permits each flow of a table one way, a denied packet passes
/// exactly where it is the reply of a flow in the table, to that flow's source, through the services of its forward
/// packet in reverse; it stays denied exactly where it is the reply of none.
pub fn denied_packets_pass_where_they_answer_a_flow()
    ensures passes { (t : Topology) (c : Config) (flows : List Flow) (p : Packet) (rule : Option RuleNo)
        (number : PortNo) (services : List ServiceNo) → IsTrue (has_config_form c) → first_broken t c ≡ None
        → All (PermitsOneWay c) flows → reachability c p ≡ Dropped (Denied rule)
        → (flow_outcome c flows p ≡ Delivered number services) ↔ IsLetBack c flows p number services }
    ensures stays { (t : Topology) (c : Config) (flows : List Flow) (p : Packet) (rule : Option RuleNo)
        → IsTrue (has_config_form c) → first_broken t c ≡ None
        → All (PermitsOneWay c) flows → reachability c p ≡ Dropped (Denied rule)
        → (flow_outcome c flows p ≡ Dropped (Denied rule)) ↔ All (λ f. reply_packet c f ≢ Some p) flows }
{}

/// In a valid configuration of the written form that permits each flow of a table one way, a packet uses a flow exactly
/// where it is the forward packet of that flow, which is permitted one way, or is denied and the reply of that flow,
/// which is in the table.
pub fn flows_are_used_by_their_packets()
    ensures { (t : Topology) (c : Config) (flows : List Flow) (p : Packet) (f : Flow)
        → IsTrue (has_config_form c) → first_broken t c ≡ None → All (PermitsOneWay c) flows
        → (flow_use c flows p ≡ Some f) ↔ (IsForwardUse c p f ⊎ IsReplyUse c flows p f) }
{}

/// A flow stands in the table that some uses leave exactly where since its last use fewer other flows than there is room
/// for were used.
pub fn flows_stand_by_their_last_use()
    ensures { (capacity : ℕ) (uses : List Flow) (f : Flow)
        → Contains (recent capacity uses) f ↔ WasUsedLast capacity uses f }
{}

/// Each step of a replay that begins with a valid configuration of the written form is answered in the words of a user,
/// whatever steps came before: what is delivered stays delivered, and a denied packet passes exactly where it answers a
/// flow that stands by its last use.
pub fn replays_are_answered()
    ensures { (capacity : ℕ) (v : Checked) (steps : List FlowStep) → IsTrue (has_config_form v.config)
        → first_broken v.topology v.config ≡ None → IsTrue (list_all has_step_form steps)
        → AreAnswered capacity (at_start v) steps (answers capacity steps (at_start v)) }
{}
