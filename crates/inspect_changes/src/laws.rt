//! What ways and differences promise, as laws: each is the contract of a function that does nothing.
ghost use Rattle.std.specs.Prelude.{◌≡◌, ◌≢◌, ◌↔◌, ℕ, IsTrue, None};
ghost use Rattle.std.specs.List.{Contains};
ghost use Rattle.ov_types.specs.declared.packet.Packet.{Packet};
ghost use Rattle.ov_types.specs.declared.packet.Tuple.{Tuple};
ghost use Rattle.config_types.specs.Form.{has_config_form};
ghost use Rattle.config_types.specs.declared.config.Config.{Config};
ghost use Rattle.config_types.specs.declared.config.Network.{Network};
ghost use Rattle.config_types.specs.declared.topology.Topology.{Topology};
ghost use Rattle.config_check.specs.Rules.{first_broken};
ghost use Rattle.policy_rules.specs.declared.matching.Decision.{Decision};
ghost use Rattle.policy_regions.specs.Parts.{IsTuple};
ghost use Rattle.inspect_changes.specs.Deliveries.{GoesBetween, delivery_in};
ghost use Rattle.inspect_changes.specs.Fates.{FaresOtherwise, IsOnDifference, IsOnOneDifferenceAtMost};
ghost use Rattle.inspect_changes.specs.Fates.{all_differences, differences_between, fate_between, passage};
ghost use Rattle.inspect_changes.specs.Objects.{gone, objects_of};
ghost use Rattle.inspect_changes.specs.Unnamed.{GoesOn, IsOnLine, IsUnnamed};
ghost use Rattle.inspect_changes.specs.Ways.{IsLetThrough, IsOnOneAtMost, IsOnOneOf, ways_between};
ghost use Rattle.inspect_changes.specs.declared.fate.Difference.{Difference};
ghost use Rattle.inspect_changes.specs.declared.fate.Fate.{Fate};
ghost use Rattle.inspect_changes.specs.declared.objects.Object.{Object};
ghost use Rattle.inspect_changes.specs.declared.way.Passage.{Passage};

/// No tuple is on two ways from one network to another, and one is on a way exactly where the rule that decides on it
/// lets it through: with that rule, matched so, and straight or through those services.
pub fn ways_are_what_is_let_through()
    ensures apart { (c : Config) (a b : Network) (t : Tuple) → IsTuple t → IsOnOneAtMost (ways_between c a b) t }
    ensures exact { (c : Config) (a b : Network) (t : Tuple) (d : Decision) (passage : Passage) → IsTuple t
        → IsOnOneOf (ways_between c a b) t d passage ↔ IsLetThrough c a b t d passage }
{}

/// No tuple is on two differences between two networks as one configuration and another have them, and one is on a
/// difference exactly where it is let through in one of the two and not in the other, or by other services: with what
/// becomes of it in both.
pub fn differences_are_what_fares_otherwise()
    ensures apart { (c d : Config) (a b a' b' : Network) (t : Tuple) → IsTuple t
        → IsOnOneDifferenceAtMost (differences_between c a b d a' b') t }
    ensures exact { (c d : Config) (a b a' b' : Network) (t : Tuple) (was becomes : Fate) → IsTuple t
        → IsOnDifference (differences_between c a b d a' b') t was becomes
        ↔ FaresOtherwise c a b d a' b' t was becomes }
{}

/// Let a packet leave a port of one network and have the address of a port of another, in two valid configurations.
/// Whether it is delivered to that port, or through which services, differs exactly where its tuple is on a difference
/// between the two networks; and then it is delivered, or not, as the difference has it.
pub fn differences_are_of_deliveries()
    ensures exact { (c d : Config) (a b a' b' : Network) (p : Packet) (number : ℕ)
        → GoesBetween c p a b number → GoesBetween d p a' b' number
        → (delivery_in c p number ≢ delivery_in d p number)
        ↔ IsOnDifference (differences_between c a b d a' b') p.tuple (fate_between c a b p.tuple) (fate_between d a' b' p.tuple) }
    ensures told { (c d : Config) (a b a' b' : Network) (p : Packet) (number : ℕ) (was becomes : Fate)
        → GoesBetween c p a b number → GoesBetween d p a' b' number
        → IsOnDifference (differences_between c a b d a' b') p.tuple was becomes
        → (delivery_in c p number ≡ passage was) × (delivery_in d p number ≡ passage becomes) }
{}

/// The objects that went are those that one configuration has, as they stand there, and the other has not.
pub fn what_went_is_not_there()
    ensures { (c d : Config) (o : Object) → Contains (gone c d) o ↔ (Contains (objects_of c) o × ¬ Contains (objects_of d) o) }
{}

/// A packet between ports of two networks goes between networks of the same names in another valid configuration too,
/// and to the same port, where neither the networks nor the ports are among what went.
pub fn unnamed_packets_go_on()
    ensures { (c d : Config) (p : Packet) (a b : Network) (number : ℕ) (topology : Topology) → IsTrue (has_config_form d)
        → first_broken topology d ≡ None → GoesBetween c p a b number → IsUnnamed (gone c d) c p a b number
        → GoesOn d p a b number }
{}

/// Let a packet go between ports of two networks, where neither the networks nor the ports are among what went from one
/// valid configuration to another. Whether it is delivered to its port, or through which services, differs exactly
/// where one of all differences of the two configurations is of these networks and holds it; and then it is delivered,
/// or not, as that difference has it.
pub fn lines_are_of_deliveries()
    ensures exact { (c d : Config) (p : Packet) (a b : Network) (number : ℕ) (topology : Topology) → IsTrue (has_config_form d)
        → first_broken topology d ≡ None → GoesBetween c p a b number → IsUnnamed (gone c d) c p a b number
        → (delivery_in c p number ≢ delivery_in d p number)
        ↔ ((x : Difference) × IsOnLine (all_differences c d) a.name b.name p.tuple x) }
    ensures told { (c d : Config) (p : Packet) (a b : Network) (number : ℕ) (topology : Topology) (x : Difference)
        → IsTrue (has_config_form d) → first_broken topology d ≡ None → GoesBetween c p a b number
        → IsUnnamed (gone c d) c p a b number → IsOnLine (all_differences c d) a.name b.name p.tuple x
        → (delivery_in c p number ≡ passage x.was) × (delivery_in d p number ≡ passage x.becomes) }
{}
