//! No packet passes that no configuration so far permitted: which ports a packet comes to, and through which services, at
//! every moment of every schedule, settled or not. Laws alone.

ghost use Rattle.std.specs.Prelude.{◌≡◌, List, [], ◌∷◌, IsTrue};
ghost use Rattle.std.specs.List.{list_all};
ghost use Rattle.ov_types.specs.declared.numbers.InstanceId.{InstanceId};
ghost use Rattle.ov_types.specs.declared.numbers.PortNo.{PortNo};
ghost use Rattle.ov_types.specs.declared.numbers.ServiceNo.{ServiceNo};
ghost use Rattle.ov_types.specs.declared.packet.Outcome.TheVariants.{Delivered};
ghost use Rattle.ov_types.specs.declared.packet.Packet.{Packet};
ghost use Rattle.config_types.specs.Form.{has_event_form};
ghost use Rattle.config_types.specs.declared.event.Event.{Event};
ghost use Rattle.reach_plain.specs.Reachability.{reachability};
ghost use Rattle.schedule_script.specs.ConfigCheck.Checked.{Checked};
ghost use Rattle.machine_model.specs.Setup.{opening};
ghost use Rattle.machine_laws.specs.Headline.{IsWritten};
ghost use Rattle.machine_laws.specs.Refusing.{AtMomentsWithTies};
ghost use Rattle.machine_moment_laws.specs.Runs.{answers};
ghost use Rattle.machine_moment_laws.specs.Permission.{DeliversAsPermitted, HeadsTo, IsLedOn, IsPermitted};
ghost use Rattle.machine_moment_laws.specs.Permission.{IsPermittedSomehow, KeptServices, OfEachPacket, WasPermitted};
ghost use Rattle.machine_moment_laws.specs.PermissionSchedules.{IsPermittedThroughout};

/// In the machine that keeps ties, after any schedule: let the destination have lain in the subnets of one network alone,
/// among the source's network and those that some configuration so far related to it. Then a delivered packet comes to a
/// port that stood in that network. Either that is the source's own, or some configuration so far permitted this very
/// tuple from the one into the other.
pub fn packets_come_only_where_they_were_permitted()
    ensures { AtMomentsWithTies (λ t cs w. OfEachPacket IsPermittedSomehow cs w) }
{}

/// Let the destination be as in `packets_come_only_where_they_were_permitted`, and each use between the two networks
/// have had one list of services in all configurations so far in which it was in effect. Then the services that a
/// delivered packet visited are just those by which a configuration permitted it: none in its own network or by a pass
/// rule, and by a chain rule exactly those of the chain, in order, or reversed where it matched mirrored.
pub fn packets_visit_only_what_was_permitted()
    ensures { AtMomentsWithTies (λ t cs w. OfEachPacket IsPermitted cs w) }
{}

/// Where the destination is as in `packets_come_only_where_they_were_permitted`, a packet visits at most 15 services,
/// so that it is looked up at most 16 times, and is never dropped for want of lookups.
pub fn packets_never_run_out_of_lookups()
    ensures { AtMomentsWithTies (λ t cs w. OfEachPacket IsLedOn cs w) }
{}

/// Where ties are kept, each trace in a schedule is answered with an outcome that keeps to what configurations so far
/// permitted.
pub fn traces_keep_to_what_was_permitted()
    ensures { (x : Checked) → IsWritten (opening x) → (es : List Event) → IsTrue (list_all has_event_form es)
        → IsPermittedThroughout x es (answers x es) }
{}

/// A configuration meets the premises of `packets_visit_only_what_was_permitted` by itself: each of its uses has one
/// list of services, and the destination of each packet that its policies deliver lies in one network alone. It permits
/// exactly what its policies deliver, by the services that they name.
pub fn what_policies_deliver_is_permitted()
    ensures services { (x : Checked) → IsWritten (opening x) → (a b : InstanceId) → KeptServices (x.config ∷ []) a b }
    ensures delivered { (x : Checked) → IsWritten (opening x) → (p : Packet) (q : PortNo) (services : List ServiceNo)
        → reachability x.config p ≡ Delivered q services → DeliversAsPermitted x.config p q services }
    ensures permitted { (x : Checked) → IsWritten (opening x) → (p : Packet) (from to : InstanceId) (q : PortNo)
        (services : List ServiceNo) → HeadsTo x.config p from to q → WasPermitted (x.config ∷ []) from to p.tuple services
        → reachability x.config p ≡ Delivered q services }
{}
