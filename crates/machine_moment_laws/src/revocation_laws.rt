//! What the present configuration does not have is gone from every agent after two rounds of deliveries, with sessions
//! down or not, so that a packet which policies refuse is dropped. Laws alone.

ghost use Rattle.std.specs.Prelude.{List, IsTrue};
ghost use Rattle.std.specs.List.{list_all};
ghost use Rattle.config_types.specs.Form.{has_event_form};
ghost use Rattle.config_types.specs.declared.event.Event.{Event};
ghost use Rattle.schedule_script.specs.ConfigCheck.Checked.{Checked};
ghost use Rattle.machine_model.specs.Moments.{WhereLaidOut};
ghost use Rattle.machine_model.specs.Setup.{opening};
ghost use Rattle.machine_laws.specs.Headline.{AfterAnySchedule, IsWritten};
ghost use Rattle.machine_moment_laws.specs.Runs.{answers};
ghost use Rattle.machine_moment_laws.specs.Revocation.{AllTellSlices, FeedsInOne, RefusesInTwo, RefusesSoonAfter, RevokesInTwo, SlicesInTwo};
ghost use Rattle.machine_moment_laws.specs.RevocationSchedules.{IsRevoked};

/// From any moment without a pending break, with sessions down or not, one round of deliveries leaves each control node
/// with the low-level objects of the present configuration, or with none where its feed is down.
pub fn feeds_are_present_after_one_round()
    ensures { WhereLaidOut FeedsInOne }
{}

/// At every moment of every schedule, with sessions down or not, each control node has told each agent of objects what
/// it wants the agent to have been told of them.
pub fn slices_are_told()
    ensures { WhereLaidOut (λ size w. AllTellSlices w) }
{}

/// From any moment without a pending break, with sessions down or not, two rounds of deliveries leave each agent, on each
/// of its sessions, with the part of the present low-level objects that concerns its address, or with none.
pub fn slices_are_held_after_two_rounds()
    ensures { WhereLaidOut SlicesInTwo }
{}

/// From any moment without a pending break, with sessions down or not, two rounds of deliveries leave each agent with the
/// slice of the present configuration in use, or with none.
pub fn slices_are_present_after_two_rounds()
    ensures { WhereLaidOut RevokesInTwo }
{}

/// From any moment without a pending break, two rounds of deliveries later, a packet is dropped for which the present
/// policies have no source port or no destination, or that they deny: for the same reason, or since no agent has its
/// source port.
pub fn refused_packets_are_dropped_after_two_rounds()
    ensures { AfterAnySchedule RefusesInTwo }
{}

/// From any moment without a pending break let a schedule have nothing but deliveries, and events that only look at the
/// network. Once two rounds are among them, a packet that the present policies refuse is dropped.
pub fn refused_packets_are_dropped_once_two_rounds_passed()
    ensures { AfterAnySchedule RefusesSoonAfter }
{}

/// Where ties are kept, take any place of a schedule at which no break is pending. A trace of a packet that the
/// policies of the moment refuse is answered as dropped, once two rounds have passed since then in which nothing else
/// happened.
pub fn refused_packets_are_answered_as_dropped()
    ensures { (x : Checked) → IsWritten (opening x) → (es : List Event) → IsTrue (list_all has_event_form es)
        → IsRevoked x es (answers x es) }
{}
