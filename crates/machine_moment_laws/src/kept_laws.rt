//! A packet that all configurations of a change keep to a port is delivered there while the change goes on, whole, in any order
//! of deliveries. Laws alone.

ghost use Rattle.std.specs.Prelude.{◌≡◌, List, ◌∷◌, [], IsTrue, None};
ghost use Rattle.std.specs.List.{list_all};
ghost use Rattle.ov_types.specs.declared.numbers.PortNo.{PortNo};
ghost use Rattle.config_types.specs.Form.{has_event_form};
ghost use Rattle.config_types.specs.declared.edit.Edit.{Edit};
ghost use Rattle.config_types.specs.declared.edit.Object.TheVariants as Objects;
ghost use Rattle.config_types.specs.declared.edit.ObjectKind.TheVariants as Kinds;
ghost use Rattle.config_types.specs.declared.event.Event.{Event};
ghost use Rattle.schedule_script.specs.ConfigCheck.Checked.{Checked};
ghost use Rattle.schedule_script.specs.ConfigCheck.EditLaws.{chains_of, networks_of, nodes_of, policies_of, ports_of, services_of};
ghost use Rattle.schedule_script.specs.ConfigCheck.Edits.{chain_name, network_name, node_name, policy_name, port_name, service_name};
ghost use Rattle.schedule_script.specs.ConfigCheck.Edits.{edit_fault, edited};
ghost use Rattle.machine_model.specs.Setup.{opening};
ghost use Rattle.machine_laws.specs.Headline.{IsWritten};
ghost use Rattle.machine_moment_laws.specs.Runs.{answers};
ghost use Rattle.machine_moment_laws.specs.Windows.{AtMomentsOfWindows};
ghost use Rattle.machine_moment_laws.specs.Kept.{DeleteInterruptsNothing, GoesByEither, HasOneAddress};
ghost use Rattle.machine_moment_laws.specs.Kept.{HitlessInterruptsNothing, KeptAreDelivered, KeptInOneEdit};
ghost use Rattle.machine_moment_laws.specs.Kept.{NewInterruptsNothing, PutsPort};
ghost use Rattle.machine_moment_laws.specs.KeptSchedules.{IsKeptThroughout};

/// At every moment of every window: a packet that all configurations of the window so far keep to a port by some ways is
/// delivered there by one of these ways, through just the services of its track, as the policies of one of these configurations
/// have it: never by a mixture of several. Asked is, where a way leads through no chain, that its destination's address does not
/// change hands. The source port may get another address.
pub fn kept_packets_are_delivered()
    ensures { AtMomentsOfWindows KeptAreDelivered }
{}

/// In a window with one accepted edit at most no address changes hands, so that nothing is asked of hands for
/// `kept_packets_are_delivered` there.
pub fn kept_packets_are_delivered_in_one_edit()
    ensures { AtMomentsOfWindows KeptInOneEdit }
{}

/// At every moment of a window with one accepted edit a packet that both configurations lead to one port, by ways that both
/// offer with one track, is delivered there as the old policies have it, or as the new ones do.
pub fn packets_go_the_old_way_or_the_new_one()
    ensures { AtMomentsOfWindows GoesByEither }
{}

/// An accepted edit that is hitless interrupts no packet that both configurations deliver.
pub fn hitless_edits_interrupt_nothing()
    ensures { AtMomentsOfWindows HitlessInterruptsNothing }
{}

/// An accepted put of an object whose name none of its kind has interrupts nothing: at every moment of its window all that was
/// delivered before is delivered to the same port, through the same services.
pub fn new_objects_interrupt_no_delivery()
    ensures network { AtMomentsOfWindows (NewInterruptsNothing network_name (λ x. Objects.Network x) networks_of) }
    ensures port { AtMomentsOfWindows (NewInterruptsNothing port_name (λ x. Objects.Port x) ports_of) }
    ensures policy { AtMomentsOfWindows (NewInterruptsNothing policy_name (λ x. Objects.Policy x) policies_of) }
    ensures service { AtMomentsOfWindows (NewInterruptsNothing service_name (λ x. Objects.Service x) services_of) }
    ensures chain { AtMomentsOfWindows (NewInterruptsNothing chain_name (λ x. Objects.Chain x) chains_of) }
    ensures node { AtMomentsOfWindows (NewInterruptsNothing node_name (λ x. Objects.Node x) nodes_of) }
{}

/// An accepted delete interrupts nothing that goes on: at every moment of its window all that is delivered after it is delivered
/// to the same port, through the same services.
pub fn deletes_interrupt_no_delivery_that_goes_on()
    ensures network { AtMomentsOfWindows (DeleteInterruptsNothing Kinds.Network) }
    ensures port { AtMomentsOfWindows (DeleteInterruptsNothing Kinds.Port) }
    ensures policy { AtMomentsOfWindows (DeleteInterruptsNothing Kinds.Policy) }
    ensures service { AtMomentsOfWindows (DeleteInterruptsNothing Kinds.Service) }
    ensures chain { AtMomentsOfWindows (DeleteInterruptsNothing Kinds.Chain) }
    ensures node { AtMomentsOfWindows (DeleteInterruptsNothing Kinds.Node) }
{}

/// The port of a number keeps its address in each accepted edit that puts no port of this number.
pub fn ports_that_are_not_put_keep_their_address()
    ensures { (x : Checked) (e : Edit) (number : PortNo) → IsWritten (opening x) → edit_fault x e ≡ None
        → (PutsPort e number → ⊥) → HasOneAddress (x ∷ edited e x ∷ []) number }
{}

/// Where ties are kept, each trace in a schedule of a packet that all configurations of a window keep to a port is
/// answered as delivered there, by one of its ways, while the window goes on. Where the window had one accepted edit at
/// most, nothing is asked of addresses that change hands.
pub fn traces_of_kept_packets_are_answered_as_delivered()
    ensures { (x : Checked) → IsWritten (opening x) → (es : List Event) → IsTrue (list_all has_event_form es)
        → IsKeptThroughout x es (answers x es) }
{}
