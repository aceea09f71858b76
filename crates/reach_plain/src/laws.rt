//! What outcomes promise in valid configurations, as laws: each is the contract of a function that does nothing.
ghost use Rattle.std.specs.Prelude.{◌≡◌, ◌≢◌, ◌↔◌, ℕ, List, not, IsTrue};
ghost use Rattle.std.specs.List.{AllPairs, Contains};
ghost use Rattle.ov_types.specs.declared.numbers.PortNo.{PortNo};
ghost use Rattle.ov_types.specs.declared.numbers.ServiceNo.{ServiceNo};
ghost use Rattle.ov_types.specs.declared.packet.Outcome.{Outcome};
ghost use Rattle.ov_types.specs.declared.packet.Outcome.TheVariants.{Delivered};
ghost use Rattle.ov_types.specs.declared.packet.Packet.{Packet};
ghost use Rattle.ov_types.specs.declared.packet.Tuple.{Tuple};
ghost use Rattle.config_types.specs.Form.{has_config_form};
ghost use Rattle.config_types.specs.declared.config.Action.TheVariants.{Through};
ghost use Rattle.config_types.specs.declared.config.Config.{Config};
ghost use Rattle.config_types.specs.declared.config.Network.{Network};
ghost use Rattle.config_types.specs.declared.topology.Topology.{Topology};
ghost use Rattle.policy_rules.specs.declared.matching.Match.{Match};
ghost use Rattle.policy_rules.specs.Matching.{deciding};
ghost use Rattle.policy_rules.specs.Answering.{answering, SpeakBothWays};
ghost use Rattle.config_check.specs.Rules.{first_broken};
ghost use Rattle.reach_plain.specs.Reachability.{network_towards, reachability};
ghost use Rattle.reach_plain.specs.Outcomes.{IsTowards, Becomes};

/// In a valid configuration, where all rules between two networks are of both directions, a packet that is decided by
/// a chain rule and its answer are decided in opposite directions. (That one rule decides both, so that they pass the
/// same services in opposite order, is `answers_are_decided_alike` of `policy_rules`.)
pub fn chains_are_passed_back()
    ensures { (topology : Topology) (c : Config) (a b : Network) (t : Tuple) (m n : Match) (chain : List ℕ) (use_no : ℕ)
        → first_broken topology c ≡ None → SpeakBothWays c a b
        → deciding c a b t ≡ Some m → deciding c b a (answering t) ≡ Some n
        → m.rule.rule.action ≡ Through chain use_no → n.mirrored ≡ not m.mirrored }
{}

/// In a valid configuration of the written form this becomes of a packet exactly where it is so described: it is
/// delivered to a port through services, or dropped for a reason, each where its own relation holds.
pub fn outcomes_are_as_described()
    ensures { (topology : Topology) (c : Config) (p : Packet) (o : Outcome)
        → IsTrue (has_config_form c) → first_broken topology c ≡ None → (reachability c p ≡ o) ↔ Becomes c p o }
{}

/// In a valid configuration of the written form no two descriptions of outcomes hold of one packet.
pub fn packets_have_one_outcome()
    ensures { (topology : Topology) (c : Config) (p : Packet) (o u : Outcome)
        → IsTrue (has_config_form c) → first_broken topology c ≡ None → Becomes c p o → Becomes c p u → o ≡ u }
{}

/// In a valid configuration of the written form the network that an address is of, for packets from a network, is the
/// one that is that network itself or related to it and has a subnet that holds the address. In any configuration none
/// is found where there is none.
pub fn destinations_are_found()
    ensures network { (topology : Topology) (c : Config) (own target : Network) (address : ℕ)
        → IsTrue (has_config_form c) → first_broken topology c ≡ None → Contains c.networks own
        → (network_towards c own address ≡ Some target) ↔ IsTowards c own target address }
    ensures none { (c : Config) (own : Network) (address : ℕ)
        → (network_towards c own address ≡ None) ↔ ((target : Network) → ¬ IsTowards c own target address) }
{}

/// In a valid configuration no packet is led through a service twice.
pub fn services_are_passed_once()
    ensures { (topology : Topology) (c : Config) (p : Packet) (number : PortNo) (services : List ServiceNo)
        → first_broken topology c ≡ None → reachability c p ≡ Delivered number services
        → AllPairs (λ s u. s.0 ≢ u.0) services }
{}
