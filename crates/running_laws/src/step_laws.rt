//! What the steps of nodes make of the state for which the seats of a network stand: laws alone.
ghost use Rattle.running_laws.specs.Asking.{ClosedSessionsMayConnect, NoPlaceIsNoSession, NothingWaitsAtClosedEnds};
ghost use Rattle.running_laws.specs.Asking.{PlacesSayWhatSessionsAre};
ghost use Rattle.running_laws.specs.Breaking.{BreaksAreRemoved, BreaksAreSet, NothingIsBroken};
ghost use Rattle.running_laws.specs.Connecting.{ConnectionsAreMade, EarlierConnectionsAreEvents, NearIsEarlier};
ghost use Rattle.running_laws.specs.Connecting.{NothingIsConnected};
ghost use Rattle.running_laws.specs.Delivering.{MessagesAreDelivered, NothingIsDelivered, NoticesAreDelivered};
ghost use Rattle.running_laws.specs.Delivering.{NoticesCountAsOctets, OctetsAreDelivered};
ghost use Rattle.running_laws.specs.Editing.{EditsAreMade, FaultyEditsAreRefused};
ghost use Rattle.running_laws.specs.Losing.{LossesAreMade, NothingIsLost, NothingIsRestarted, RestartsAreMade};
ghost use Rattle.running_laws.specs.OneState.{SeatsStandForOneState};
ghost use Rattle.running_laws.specs.Starting.{FreshSeatsStandForTheStart};

/// The session of two nodes stands at the place of their names: both of its ends say how far it is, whether a notice
/// waits, how many messages are in flight, and whether it is down, may be connected and is at rest. Nothing waits at an
/// end that is not live, and a session may be connected exactly where neither end is live.
pub fn places_say_what_sessions_are()
    ensures said { PlacesSayWhatSessionsAre }
    ensures none { NoPlaceIsNoSession }
    ensures closed { NothingWaitsAtClosedEnds }
    ensures connects { ClosedSessionsMayConnect }
{}

/// A node that takes the first message, or the notice of loss, that waits at a place of it, makes of the seats those of
/// the state after the delivery, once the sessions of which it closed its end are down.
pub fn messages_and_notices_are_delivered()
    ensures messages { MessagesAreDelivered }
    ensures notices { NoticesAreDelivered }
    ensures nothing { NothingIsDelivered }
{}

/// A node that takes some of the octets that wait at a place of it, which may end within a message, makes of the seats
/// those of the state after the delivery. A notice counts as one octet.
pub fn octets_are_delivered()
    ensures octets { OctetsAreDelivered }
    ensures notices { NoticesCountAsOctets }
{}

/// A session that is not down is lost where a notice waits at both of its ends and nothing is left in flight.
pub fn losses_are_made()
    ensures made { LossesAreMade }
    ensures nothing { NothingIsLost }
{}

/// A node that is not the configuration node restarts where it is emptied, and each live end at the other side of its
/// sessions has a notice and nothing in flight.
pub fn restarts_are_made()
    ensures made { RestartsAreMade }
    ensures nothing { NothingIsRestarted }
{}

/// An edit without a fault is made where first a compute node moves, if one comes, goes or lists other control nodes, and
/// then the configuration node tells every control node what the configuration wants. One with a fault changes nothing.
pub fn edits_are_made()
    ensures made { EditsAreMade }
    ensures refused { FaultyEditsAreRefused }
{}

/// A session that may connect is connected where its one end opens and then, where that is live still, the other; the
/// sessions of which their nodes closed an end go down. From the earlier node of a session to the later one this is an
/// event, and the near node of each session is the earlier one.
pub fn connections_are_made()
    ensures made { ConnectionsAreMade }
    ensures nothing { NothingIsConnected }
    ensures events { EarlierConnectionsAreEvents }
    ensures earlier { NearIsEarlier }
{}

/// Seats of which every session is idle stand for the empty state.
pub fn fresh_seats_stand_for_the_start()
    ensures { FreshSeatsStandForTheStart }
{}

/// Seats stand for one moment only.
pub fn seats_stand_for_one_state()
    ensures { SeatsStandForOneState }
{}

/// A break is set at the first node's end of a session, and those that were not met are removed at every end.
pub fn breaks_are_set_and_removed()
    ensures set { BreaksAreSet }
    ensures nothing { NothingIsBroken }
    ensures removed { BreaksAreRemoved }
{}
