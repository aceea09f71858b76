//! A network whose configurations keep their ties is isolated at every moment, settled or not. Laws alone.
ghost use Rattle.machine_laws.specs.Headline.{AfterAnySchedule};
ghost use Rattle.machine_laws.specs.TiedMoments.{AtTiedMoments, DeliversToJoined, IsTiedState};
ghost use Rattle.machine_laws.specs.Running.{AtMomentsOfRuns, HasAllTies, IsIsolated};
ghost use Rattle.machine_laws.specs.Stood.{DeliversToThoseJoined, HasItsTies, IsStayingAmong, StaysAmong};
ghost use Rattle.machine_laws.specs.Past.{StaysAmongPresent};
ghost use Rattle.machine_laws.specs.Untied.{AtMomentsWithout, MovesNothingYet};
ghost use Rattle.machine_laws.specs.Refusing.{AtMomentsWithTies, GoesOn, KeepsWhatIsNotRefused};

/// At every moment of every schedule the configuration, its low-level objects, all that nodes hold and all that is in
/// flight are as the ties have it.
pub fn all_that_is_told_is_tied()
    ensures { AtTiedMoments IsTiedState }
{}

/// At every moment of every schedule, settled or not, a packet is delivered only between ports of networks that are one
/// or were related.
pub fn packets_reach_only_joined_ports()
    ensures { AtTiedMoments (λ t asn w. DeliversToJoined t w) }
{}

/// Where each accepted edit breaks no tie of the run so far, the ties of the run so far join the ports of each packet
/// that is delivered.
pub fn runs_that_keep_their_ties_are_isolated()
    ensures { AtMomentsOfRuns IsIsolated }
{}

/// The ties of a run are exactly those of its configurations so far: each stood in one, and each configuration is as the
/// ties have it.
pub fn ties_are_those_of_the_configurations()
    ensures each { AtMomentsOfRuns HasItsTies }
    ensures all { AtMomentsOfRuns HasAllTies }
{}

/// Where each accepted edit breaks no tie of the run so far: a packet is delivered only between ports that stood in
/// configurations so far, in networks that are one or that a configuration so far related.
pub fn packets_stay_among_networks_that_were_related()
    ensures { AtMomentsOfRuns DeliversToThoseJoined }
{}

/// The machine that refuses edits which break a tie has, after any schedule, the state that the machine without ties has
/// after the events that are not refused so.
pub fn what_is_refused_changes_nothing()
    ensures { KeepsWhatIsNotRefused }
{}

/// An event more is one step more of the machine that refuses edits which break a tie, and is among the events that are
/// kept exactly where it is not refused so.
pub fn schedules_go_on()
    ensures { GoesOn }
{}

/// In the machine that refuses edits which break a tie, at every moment of every schedule, settled or not: a packet is
/// delivered only between ports that stood in configurations so far, in networks that are one or that a configuration
/// so far related. Whichever networks configurations so far had the two ports in, they are such.
pub fn machines_that_keep_ties_are_isolated()
    ensures configurations { AtMomentsWithTies DeliversToThoseJoined }
    ensures ties { AtMomentsWithTies IsIsolated }
    ensures networks { AtMomentsWithTies IsStayingAmong }
{}

/// An edit moves no packet by itself: agents forward after it by what they forwarded by before. The agent of a compute
/// node that it puts anew or with another list of control nodes forwards by nothing.
pub fn edits_move_no_packet_yet()
    ensures { AfterAnySchedule MovesNothingYet }
{}

/// Without ties it is false that a packet stays among networks that were related: a port number is moved to another
/// network while an agent still holds a route to it.
pub fn ties_are_needed()
    ensures { ¬ AtMomentsWithout StaysAmong }
{}

/// Ties need the relations of the past: once two networks are related no more, a packet may still be delivered from the
/// one to the other.
pub fn relations_of_the_past_are_needed()
    ensures { ¬ AtMomentsOfRuns StaysAmongPresent }
{}
