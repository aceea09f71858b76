//! A packet that all configurations since a moment keep to a port is delivered there so many rounds later, though the network
//! never settles. Laws alone.

ghost use Rattle.std.specs.Prelude.{List, IsTrue};
ghost use Rattle.std.specs.List.{list_all};
ghost use Rattle.config_types.specs.Form.{has_event_form};
ghost use Rattle.config_types.specs.declared.event.Event.{Event};
ghost use Rattle.schedule_script.specs.ConfigCheck.Checked.{Checked};
ghost use Rattle.machine_model.specs.Setup.{opening};
ghost use Rattle.machine_laws.specs.Headline.{IsWritten};
ghost use Rattle.machine_moment_laws.specs.Runs.{answers};
ghost use Rattle.machine_moment_laws.specs.Recovery.{AtMomentsSince};
ghost use Rattle.machine_moment_laws.specs.Again.{KeptAreDeliveredAgain, OneDeliversAgain};
ghost use Rattle.machine_moment_laws.specs.AgainSchedules.{IsAgainThroughout};

/// Take any moment at which no session is down, whatever is held and in flight then. A packet that all configurations since then
/// keep to a port by some ways is delivered there by one of these ways, through just its services: from five rounds later on, and
/// one more for each service of the longest of these ways, whatever other edits go on meanwhile. Asked is, where a way leads
/// through no chain, that its destination's address does not change hands. The source port may get another address.
pub fn kept_packets_are_delivered_again()
    ensures { AtMomentsSince KeptAreDeliveredAgain }
{}

/// Take any moment at which no session is down, and let no edit be accepted since then. Each packet that the policies
/// deliver is delivered as they say, from five rounds later on, and one more for each service that it visits. What an
/// edit interrupts it interrupts for no longer.
pub fn what_one_configuration_delivers_is_delivered_again()
    ensures { AtMomentsSince OneDeliversAgain }
{}

/// Where ties are kept, take any place of a schedule at which no session is down. A trace of a packet that all
/// configurations since then keep to a port, or that the only one delivers, is answered as delivered: from five rounds
/// later on, and one more for each service of the longest of its ways.
pub fn traces_are_answered_as_delivered_again()
    ensures { (x : Checked) → IsWritten (opening x) → (es : List Event) → IsTrue (list_all has_event_form es)
        → IsAgainThroughout x es (answers x es) }
{}
