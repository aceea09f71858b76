//! What the events of a schedule answer, against what its configurations compile to. Laws alone.
ghost use Rattle.std.specs.Prelude.{List, IsTrue};
ghost use Rattle.std.specs.List.{list_all};
ghost use Rattle.config_check.specs.Checked.{Checked};
ghost use Rattle.config_types.specs.Form.{has_event_form};
ghost use Rattle.config_types.specs.declared.event.Event.{Event};
ghost use Rattle.machine_laws.specs.Headline.{IsWritten};
ghost use Rattle.machine_laws.specs.MachineModel.Setup.{opening};
ghost use Rattle.machine_moment_laws.specs.Compiled.{AreAsCompiled, answers};

/// From any valid configuration and after any events: what a settled network shows is what the configuration of that
/// moment compiles to, a packet goes exactly where policies permit it, and `settle` always ends settled, in at most six
/// rounds more than the longest chain in effect has services.
pub fn answers_are_as_compiled()
    ensures { (x : Checked) → IsWritten (opening x) → (es : List Event) → IsTrue (list_all has_event_form es)
        → AreAsCompiled x es (answers x es) }
{}
