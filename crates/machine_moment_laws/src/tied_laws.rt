//! What the events of a schedule answer where ties are kept: as its configurations compile to once the network is
//! settled, and isolated at every moment. Laws alone.
ghost use Rattle.std.specs.Prelude.{◌≡◌, List, IsTrue, is_some};
ghost use Rattle.std.specs.List.{list_all};
ghost use Rattle.config_check.specs.Checked.{Checked};
ghost use Rattle.config_types.specs.Form.{has_event_form};
ghost use Rattle.config_types.specs.declared.event.Event.{Event};
ghost use Rattle.machine_laws.specs.Headline.{IsWritten};
ghost use Rattle.machine_laws.specs.Refusing.{TiedNetwork, refuses};
ghost use Rattle.machine_laws.specs.MachineModel.Events.{MachineEvent as Happening};
ghost use Rattle.machine_laws.specs.MachineModel.Setup.{opening};
ghost use Rattle.machine_moment_laws.specs.TiedCompiled.{AreAsCompiled};
ghost use Rattle.machine_moment_laws.specs.Isolated.{IsIsolated, StaysAmongRelated};
ghost use Rattle.machine_moment_laws.specs.Runs.{answers, tie_broken};

/// From any valid configuration and after any events: what a settled network shows is what the configuration of that
/// moment compiles to, a packet goes exactly where policies permit it, and `settle` always ends settled, in at most six
/// rounds more than the longest chain in effect has services.
pub fn answers_are_as_compiled()
    ensures { (x : Checked) → IsWritten (opening x) → (es : List Event) → IsTrue (list_all has_event_form es)
        → AreAsCompiled x es (answers x es) }
{}

/// At every moment of every schedule, settled or not: a packet is delivered only between ports that stood in
/// configurations so far, in networks that are one or that a configuration so far related.
pub fn deliveries_are_isolated()
    ensures { (x : Checked) → IsWritten (opening x) → (es : List Event) → IsTrue (list_all has_event_form es)
        → IsIsolated x es (answers x es) }
{}

/// At every moment of every schedule, settled or not: a packet is delivered only between ports that stood in
/// configurations so far, in networks that are one or between which a configuration so far had a rule that passes
/// packets or leads them through a chain.
pub fn deliveries_stay_among_networks_related_by_rules()
    ensures { (x : Checked) → IsWritten (opening x) → (es : List Event) → IsTrue (list_all has_event_form es)
        → StaysAmongRelated x es (answers x es) }
{}

/// An edit is answered with a tie exactly where the machine that keeps ties refuses it.
pub fn ties_are_answered_where_edits_are_refused()
    ensures { (s : TiedNetwork) (e : Happening) → refuses s.ties s.network e ≡ is_some (tie_broken s e) }
{}
