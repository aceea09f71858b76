//! Laws of the sessions that agents get and leave: each is the contract of a function that does nothing.
ghost use Rattle.std.specs.Prelude.{◌≡◌, ◌≤◌, ◌==◌, ◌&&◌, ◌||◌, ℕ, not, true, false};
ghost use Rattle.ov_types.specs.declared.rows.NodeId.{NodeId as Agent};
ghost use Rattle.control_node.specs.Agents.{AreRetired, is_retired, number_for, retiring, with_agent};
ghost use Rattle.control_node.specs.Core.{sessions};
ghost use Rattle.control_node.specs.declared.plan.ControlPlan.{ControlPlan as Plan};

/// An agent that comes gets the least of the retired sessions, and where none is retired the one behind all others. That
/// one is not retired then, and of each other session it stays as it was.
pub fn the_least_retired_number_is_taken()
    ensures least { (plan : Plan) → AreRetired plan → (session : ℕ) → is_retired plan session ≡ true
        → (is_retired plan (number_for plan) ≡ true) × (number_for plan ≤ session) }
    ensures behind { (plan : Plan) → ((session : ℕ) → is_retired plan session ≡ false)
        → number_for plan ≡ sessions plan }
    ensures taken { (plan : Plan) (agent : Agent) → AreRetired plan → (session : ℕ)
        → is_retired (with_agent plan agent) session
        ≡ (is_retired plan session && not (session == number_for plan)) }
{}

/// The session of an agent that goes becomes retired, and no other session does.
pub fn one_number_is_retired()
    ensures { (plan : Plan) (session number : ℕ)
        → is_retired (retiring plan session) number ≡ (number == session || is_retired plan number) }
{}
