//! Laws of every moment and of settled moments, from the empty state after any schedule: each is the contract of a
//! function that does nothing.
ghost use Rattle.std.specs.Prelude.{◌≡◌, Some, None, true, false};
ghost use Rattle.transform_model.specs.NodeModel.Step.{Phase};
ghost use Rattle.ov_types.specs.declared.rows.NodeId.{NodeId};
ghost use Rattle.transform_model.specs.NodeModel.Members.{Member};
ghost use Rattle.machine_model.specs.Setup.{Name, agents_of};
ghost use Rattle.machine_model.specs.Session.{Message, Session, is_peering, shut, took};
ghost use Rattle.machine_model.specs.Steps.{is_settled};
ghost use Rattle.machine_model.specs.Moments.{AtEveryMoment, Each, IsAtRest, IsJoined, IsLost, IsProperEnd};
ghost use Rattle.machine_model.specs.Moments.{HasSessions, NodeHasTold, NumbersFit, WhereLaidOut, WhereNamed, cell};

/// A message whose cell goes down closes the end; another leads to the state of its cell, unless a break closes the
/// end.
pub fn cells_tell_what_messages_do()
    ensures down { (m : Message) (s : Session) → cell (is_peering s) s.near.phase m ≡ None → took m s ≡ shut s }
    ensures leads { (m : Message) (s : Session) (next : Phase) → cell (is_peering s) s.near.phase m ≡ Some next
        → s.is_down ≡ false → (took m s).is_down ≡ false → (took m s).near.phase ≡ next }
{}

/// An end is live exactly where its state is not Idle; one that is not live has sent and held nothing. A notice stands
/// only at a live end. Fewer octets of a first message are taken than it has, and none where no message is in flight.
pub fn ends_are_proper()
    ensures { AtEveryMoment (λ size w. Each (λ s. IsProperEnd size s.near × IsProperEnd size s.far) w.sessions) }
{}

/// On a session that is not down both ends are live and no notice is pending. In each direction what is held, with the
/// changes in flight applied, is what was sent; greetings are in flight ahead of all changes, and are those that the
/// sender's state says were sent and the receiver's state does not say were taken; and no message in flight meets a
/// cell that goes down.
pub fn sessions_that_are_not_down_are_joined()
    ensures { AtEveryMoment (λ size w. Each (λ s. s.is_down ≡ false → IsJoined s) w.sessions) }
{}

/// On a session that is down nothing is in flight, and each live end has a notice.
pub fn sessions_that_are_down_are_lost()
    ensures { AtEveryMoment (λ size w. Each (λ s. s.is_down ≡ true → IsLost s) w.sessions) }
{}

/// At a node none of whose sessions is down, what was sent on each session that may send is what its holdings want.
pub fn nodes_have_told_what_they_want()
    ensures { WhereNamed (λ size w. (n : Name) → NodeHasTold w n) }
{}

/// Where names tell nodes apart at the start: at a settled moment, in each direction, what is held is what was sent, and
/// what the sender's holdings want.
pub fn settled_moments_are_at_rest()
    ensures { WhereNamed (λ size w. is_settled w ≡ true → IsAtRest w) }
{}

/// Where the topology of each moment is laid out, the sessions are those that it asks for, in the order of a round.
pub fn sessions_are_those_of_the_topology()
    ensures { WhereLaidOut (λ size w. HasSessions w) }
{}

/// Where the topology of each moment is laid out, at each control node the numbers of sessions are of the agents that
/// list it, each once and under its address, or retired.
pub fn numbers_are_of_agents()
    ensures { WhereLaidOut (λ size w. (c : NodeId) → Member c w.setup.topology.controllers
        → NumbersFit w.setup.topology c (agents_of w.setup c.name)) }
{}
