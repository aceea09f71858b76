//! What the grammar of memberships promises.
ghost use Rattle.std.specs.Prelude.{◌≡◌, ◌⊎◌, ℕ, Bool, List, length, Some, IsTrue};
ghost use Rattle.ov_sync.specs.declared.Delta.{Delta};
ghost use Rattle.bgp_wire.specs.declared.fault.WireFault.{WireFault};
ghost use Rattle.bgp_wire.specs.Content.{UpdateFields};
ghost use Rattle.bgp_wire.specs.Messages.{AreOctets};
ghost use Rattle.bgp_vpn.specs.Checks.{optional_attribute};
ghost use Rattle.bgp_vpn.specs.Routes.{RouteFields};
ghost use Rattle.bgp_vpn.specs.Updates.{HasUpdateFault};
ghost use Rattle.rt_membership.specs.declared.asked.Asked.{Asked};
ghost use Rattle.rt_membership.specs.Asked.{IsAsked};
ghost use Rattle.rt_membership.specs.Entries.{IsEntry, are_entries, AreEntries, AgreeIn, asked_of, entry_of};
ghost use Rattle.rt_membership.specs.Memberships.{before_reached, entries_behind, Asks, HasMembershipFault};
ghost use Rattle.rt_membership.specs.Written.{FitsItsTypes, reach_value};

/// An UPDATE changes what is asked or has a fault: always one of the two, only one, and in one way.
pub fn a_membership_says_one_thing()
    ensures some { (wide : Bool) (parts : UpdateFields) → AreOctets parts.attributes
        → ((deltas : List (Delta Asked Unit)) × Asks wide parts deltas)
        ⊎ ((f : WireFault) × HasMembershipFault wide parts f) }
    ensures never_both { (wide : Bool) (parts : UpdateFields) (deltas : List (Delta Asked Unit)) (f : WireFault)
        → Asks wide parts deltas → HasMembershipFault wide parts f → ⊥ }
    ensures changes { (wide : Bool) (parts : UpdateFields) (a b : List (Delta Asked Unit))
        → Asks wide parts a → Asks wide parts b → a ≡ b }
    ensures fault { (wide : Bool) (parts : UpdateFields) (f g : WireFault)
        → HasMembershipFault wide parts f → HasMembershipFault wide parts g → f ≡ g }
{}

/// The test on entries holds of exactly the octets that are lists of these.
pub fn the_test_holds_of_exactly_the_entries()
    ensures entries { (octets : List ℕ) → IsTrue (are_entries octets)
        → (entries : List RouteFields) × AreEntries octets entries }
    ensures no_others { (octets : List ℕ) (entries : List RouteFields) → AreEntries octets entries
        → IsTrue (are_entries octets) }
{}

/// The checks on every UPDATE come first: a fault that they find is the fault, and any other is one of an optional
/// attribute.
pub fn the_checks_on_every_update_come_first()
    ensures first { (wide : Bool) (parts : UpdateFields) (f : WireFault) → HasUpdateFault wide parts f
        → HasMembershipFault wide parts f }
    ensures others { (wide : Bool) (parts : UpdateFields) (f : WireFault) → HasMembershipFault wide parts f
        → HasUpdateFault wide parts f ⊎ (f ≡ optional_attribute) }
{}

/// What is asked is what entries ask: each entry asks something of this form, and each thing of this form is what its
/// entry asks.
pub fn entries_are_what_is_asked()
    ensures form { (r : RouteFields) → IsEntry r → IsAsked (asked_of r) }
    ensures entry { (a : Asked) → IsAsked a → IsEntry (entry_of a) }
    ensures read_again { (a : Asked) → FitsItsTypes a → IsAsked a → asked_of (entry_of a) ≡ a }
{}

/// What an UPDATE says of memberships does not depend on what its spelling leaves open: bits past the length of an
/// entry, the next hop and the reserved octet behind it.
pub fn spellings_of_memberships_are_one()
    ensures trailing_bits { (bits : ℕ) (p q : List ℕ) → AgreeIn bits p q
        → asked_of (record { bits = bits; octets = p }) ≡ asked_of (record { bits = bits; octets = q }) }
    ensures next_hop { (next_hop entries : List ℕ) (reserved : ℕ)
        → entries_behind before_reached (Some (reach_value (length next_hop) next_hop reserved entries)) ≡ entries }
{}
