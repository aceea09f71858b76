//! Which changes of a configuration interrupt no packet that is delivered before and after: said of configurations alone, as
//! laws. Each is the contract of a function that does nothing.
ghost use Rattle.std.specs.Prelude.{◌≡◌, ◌≢◌, ◌↔◌, ℕ, Bool, IsTrue, List, [], ◌∷◌, None};
ghost use Rattle.ov_types.specs.declared.numbers.PortNo.{PortNo};
ghost use Rattle.ov_types.specs.declared.packet.Outcome.TheVariants.{Delivered};
ghost use Rattle.ov_types.specs.declared.packet.Packet.{Packet};
ghost use Rattle.ov_types.specs.declared.packet.Tuple.{Tuple};
ghost use Rattle.config_types.specs.Form.{has_edit_form};
ghost use Rattle.config_types.specs.declared.config.Action.TheVariants.{Through};
ghost use Rattle.config_types.specs.declared.config.Network.{Network};
ghost use Rattle.config_types.specs.declared.edit.Edit.{Edit};
ghost use Rattle.config_types.specs.declared.edit.Object.TheVariants as Objects;
ghost use Rattle.config_types.specs.declared.edit.ObjectKind.TheVariants as Kinds;
ghost use Rattle.policy_rules.specs.Standing.{IsBetween};
ghost use Rattle.policy_rules.specs.Taking.{IsTaken};
ghost use Rattle.policy_rules.specs.declared.numbered.NumberedRule.{NumberedRule};
ghost use Rattle.config_check.specs.Checked.{Checked};
ghost use Rattle.config_check.specs.EditLaws.{chains_of, networks_of, nodes_of, policies_of, ports_of, services_of};
ghost use Rattle.config_check.specs.Edits.{chain_name, network_name, node_name, policy_name, port_name};
ghost use Rattle.config_check.specs.Edits.{edit_fault, edited, service_name};
ghost use Rattle.reach_plain.specs.Reachability.{reachability};
ghost use Rattle.hitless_cells.specs.Hands.{KeepsInHand};
ghost use Rattle.hitless_cells.specs.Keeping.{Delivers, IsValidAsWritten, Keep, OfferAlike};
ghost use Rattle.hitless_cells.specs.Kinds.{DeleteIsHitless, NewIsHitless};
ghost use Rattle.hitless_cells.specs.Ways.{HasPorts, LeadsTo, Offers, SpeaksOf, Track, Way, visited};

/// A configuration leads a packet to a port by some way exactly where it delivers it there.
pub fn packets_are_led_where_they_are_delivered()
    ensures { (x : Checked) (p : Packet) (number : PortNo) → IsValidAsWritten x
        → Delivers x p number ↔ ((way : Way) × LeadsTo x.config p number way) }
{}

/// A configuration leads a packet to one port alone, by one way.
pub fn packets_are_led_by_one_way()
    ensures { (x : Checked) (p : Packet) (number other : PortNo) (way another : Way) → IsValidAsWritten x
        → LeadsTo x.config p number way → LeadsTo x.config p other another → (number ≡ other) × (way ≡ another) }
{}

/// The way by which a configuration leads a packet it offers too, with some track.
pub fn ways_that_are_taken_are_offered()
    ensures { (x : Checked) (p : Packet) (number : PortNo) (way : Way) → IsValidAsWritten x
        → LeadsTo x.config p number way → (track : Track) × Offers x p number way track }
{}

/// A chain rule that stands between two networks, and has some ports, speaks of packets from the one into the other, forwards
/// or mirrored, exactly where there is a tuple for which it is taken so. So a use is offered in a direction exactly where some
/// tuple would be led through it in that direction, came its rule first.
pub fn uses_are_offered_where_they_could_be_taken()
    ensures { (x : Checked) (own target : Network) (r : NumberedRule) (chain : List ℕ) (use_no : ℕ) (mirrored : Bool)
        → IsValidAsWritten x → IsBetween x.config own target r → r.rule.action ≡ Through chain use_no → HasPorts r.rule
        → own.name ≢ target.name
        → SpeaksOf own target r.rule mirrored ↔ ((t : Tuple) × IsTaken own target t r.rule mirrored) }
{}

/// A configuration offers a way with one track alone.
pub fn ways_are_offered_with_one_track()
    ensures { (x : Checked) (p : Packet) (number : PortNo) (way : Way) (one two : Track) → IsValidAsWritten x
        → Offers x p number way one → Offers x p number way two → one ≡ two }
{}

/// A packet visits just the services of the track that its way is offered with, in order, or reversed where it is mirrored.
pub fn packets_visit_the_services_of_the_track()
    ensures { (x : Checked) (p : Packet) (number : PortNo) (way : Way) (track : Track) → IsValidAsWritten x
        → LeadsTo x.config p number way → Offers x p number way track
        → reachability x.config p ≡ Delivered number (visited way track) }
{}

/// Two configurations that lead a packet to one port keep it exactly where both offer the way of the one and the way of the
/// other, each with one track.
pub fn packets_are_kept_where_both_ways_are_offered_alike()
    ensures { (x y : Checked) (p : Packet) (number : PortNo) (before after : Way) → IsValidAsWritten x
        → IsValidAsWritten y → LeadsTo x.config p number before → LeadsTo y.config p number after
        → ((ways : List Way) × Keep (x ∷ y ∷ []) p number ways)
        ↔ (OfferAlike x y p number before × OfferAlike x y p number after) }
{}

/// Each accepted put of an object whose name none of its kind has is hitless, whatever the kind: a packet that is delivered
/// before is delivered after to the same port, by one way, which both offer with one track, and through the same services.
pub fn new_objects_interrupt_nothing()
    ensures network { NewIsHitless network_name (λ x. Objects.Network x) networks_of }
    ensures port { NewIsHitless port_name (λ x. Objects.Port x) ports_of }
    ensures policy { NewIsHitless policy_name (λ x. Objects.Policy x) policies_of }
    ensures service { NewIsHitless service_name (λ x. Objects.Service x) services_of }
    ensures chain { NewIsHitless chain_name (λ x. Objects.Chain x) chains_of }
    ensures node { NewIsHitless node_name (λ x. Objects.Node x) nodes_of }
{}

/// Each accepted delete is hitless, whatever the kind: a packet that is delivered after was delivered before to the same port,
/// by one way, which both offer with one track, and through the same services.
pub fn deletes_interrupt_nothing_that_goes_on()
    ensures network { DeleteIsHitless Kinds.Network }
    ensures port { DeleteIsHitless Kinds.Port }
    ensures policy { DeleteIsHitless Kinds.Policy }
    ensures service { DeleteIsHitless Kinds.Service }
    ensures chain { DeleteIsHitless Kinds.Chain }
    ensures node { DeleteIsHitless Kinds.Node }
{}

/// Where the configurations before and after an accepted edit offer a way for a packet with one track, its destination's
/// address does not change hands in that edit: among the networks that its source's network imports, before or after, none but
/// its destination's has a port at the address, before or after.
pub fn one_edit_keeps_addresses_in_hand()
    ensures { (x : Checked) (e : Edit) (p : Packet) (number : PortNo) (way : Way) (track : Track) → IsValidAsWritten x
        → IsTrue (has_edit_form e) → edit_fault x e ≡ None → Offers x p number way track
        → Offers (edited e x) p number way track
        → KeepsInHand (x ∷ edited e x ∷ []) track.from track.to p.destination }
{}
