//! What the rules mean, as laws: each is the contract of a function that does nothing.
ghost use Rattle.std.specs.Prelude.{◌≡◌, ◌≢◌, ◌↔◌, ◌≤◌, ℕ, IsTrue, List, length, false};
ghost use Rattle.std.specs.List.{All, AllPairs, Contains};
ghost use Rattle.ov_types.specs.Prefix.{contains};
ghost use Rattle.config_types.specs.Form.{has_config_form};
ghost use Rattle.config_types.specs.declared.config.Config.{Config};
ghost use Rattle.config_types.specs.declared.config.Network.{Network};
ghost use Rattle.config_types.specs.declared.topology.Topology.{Topology};
ghost use Rattle.chain_expand.specs.Expansion.{loops, expansion};
ghost use Rattle.config_check.specs.Finding.{Finds, network_named, network_numbered, port_numbered, port_at};
ghost use Rattle.config_check.specs.Finding.{node_named};
ghost use Rattle.policy_rules.specs.declared.numbered.NumberedRule.{NumberedRule};
ghost use Rattle.config_check.specs.Rules.{circuit_addresses, holds_address, broken_limit, broken_name, broken_id};
ghost use Rattle.config_check.specs.Rules.{broken_reference, broken_reserved, broken_nested, broken_outside};
ghost use Rattle.config_check.specs.Rules.{broken_taken, broken_needs, broken_same, broken_loop, broken_long};
ghost use Rattle.config_check.specs.Rules.{broken_twice, broken_overlap, first_broken};
ghost use Rattle.config_check.specs.Sentences.{dotted, KeepsLimits, HasDistinctNames, HasDistinctNumbers};
ghost use Rattle.config_check.specs.Sentences.{HasReferents, ReservesCircuits, HasFlatSubnets, HoldsAddresses};
ghost use Rattle.config_check.specs.Sentences.{HasDistinctAddresses, NamesEnds, NamesTwo, IsAround, AreApart};
ghost use Rattle.config_check.specs.Sentences.{IsValid};

/// The first rule is kept exactly where no count is outside its limits.
pub fn limits_are_kept()
    ensures { (t : Topology) (c : Config) → (broken_limit t c ≡ None) ↔ KeepsLimits t c }
{}

/// The second rule is kept exactly where names are distinct in each namespace.
pub fn names_are_distinct()
    ensures { (t : Topology) (c : Config) → (broken_name t c ≡ None) ↔ HasDistinctNames t c }
{}

/// The third rule is kept exactly where numbers of one kind are distinct.
pub fn numbers_are_distinct()
    ensures { (t : Topology) (c : Config) → (broken_id t c ≡ None) ↔ HasDistinctNumbers t c }
{}

/// The fourth rule is kept exactly where each name that is referred to exists.
pub fn references_exist()
    ensures { (t : Topology) (c : Config) → (broken_reference t c ≡ None) ↔ HasReferents t c }
{}

/// The fifth rule is kept exactly where no subnet overlaps the addresses of circuits.
pub fn circuits_are_reserved()
    ensures { (c : Config) → (broken_reserved c ≡ None) ↔ ReservesCircuits c }
{}

/// The addresses of circuits are exactly 250.0.0.0 to 250.1.255.255.
pub fn circuits_take_two_blocks()
    ensures { (a : ℕ) → IsTrue (contains circuit_addresses a) ↔ ((dotted 250 0 0 0 ≤ a) × (a ≤ dotted 250 1 255 255)) }
{}

/// The sixth rule is kept exactly where no two subnets of a network overlap.
pub fn subnets_are_flat()
    ensures { (c : Config) → (broken_nested c ≡ None) ↔ HasFlatSubnets c }
{}

/// The seventh rule is kept exactly where each port's address is in a subnet of its network.
pub fn addresses_are_inside()
    ensures { (c : Config) → (broken_outside c ≡ None) ↔ HoldsAddresses c }
{}

/// The eighth rule is kept exactly where no two ports of a network have one address.
pub fn addresses_are_distinct()
    ensures { (c : Config) → (broken_taken c ≡ None) ↔ HasDistinctAddresses c }
{}

/// The ninth rule is kept exactly where no end of a chain rule is `any`.
pub fn chain_rules_name_networks()
    ensures { (rules : List NumberedRule) → (broken_needs rules ≡ None) ↔ All (λ r. NamesEnds r.rule) rules }
{}

/// The tenth rule is kept exactly where no chain rule names one network twice.
pub fn chain_rules_name_two()
    ensures { (rules : List NumberedRule) → (broken_same rules ≡ None) ↔ All (λ r. NamesTwo r.rule) rules }
{}

/// The eleventh rule is kept exactly where no chain leads back to itself.
pub fn chains_are_straight()
    ensures { (c : Config) → (broken_loop c ≡ None) ↔ All (λ d. loops c d.name ≡ false) c.chains }
{}

/// Where no chain loops, the twelfth rule is kept exactly where no expansion has more than 15 services.
pub fn chains_are_short()
    ensures { (c : Config) → broken_loop c ≡ None
        → (broken_long c ≡ None) ↔ All (λ d. length (expansion c d.name) ≤ 15) c.chains }
{}

/// Where no chain loops, the thirteenth rule is kept exactly where no expansion has a service twice.
pub fn services_stand_once()
    ensures { (c : Config) → broken_loop c ≡ None
        → (broken_twice c ≡ None) ↔ All (λ d. AllPairs (λ s u. s.id.0 ≢ u.id.0) (expansion c d.name)) c.chains }
{}

/// The last rule is kept exactly where no two networks, each a third one or related to it, have overlapping subnets.
pub fn related_networks_are_apart()
    ensures { (c : Config) → (broken_overlap c ≡ None)
        ↔ All (λ n. AllPairs (λ a b. IsAround c n a → IsAround c n b → AreApart a b) c.networks) c.networks }
{}

/// In a valid configuration a name finds exactly the network that has it.
pub fn names_find_networks()
    ensures { (t : Topology) (c : Config) (name : List ℕ) → IsValid t c
        → Finds (network_named c name) (λ n. n.name ≡ name) c.networks }
{}

/// In a valid configuration a number finds exactly the network that has it.
pub fn numbers_find_networks()
    ensures { (t : Topology) (c : Config) (number : ℕ) → IsValid t c
        → Finds (network_numbered c number) (λ n. n.id.0 ≡ number) c.networks }
{}

/// In a valid configuration a number finds exactly the port that has it.
pub fn numbers_find_ports()
    ensures { (t : Topology) (c : Config) (number : ℕ) → IsValid t c
        → Finds (port_numbered c number) (λ p. p.id.0 ≡ number) c.ports }
{}

/// In a valid configuration an address finds exactly the port of a network that has it.
pub fn addresses_find_ports()
    ensures { (t : Topology) (c : Config) (n : Network) (address : ℕ) → IsValid t c
        → Finds (port_at c n address) (λ p. (p.network ≡ n.name) × (p.address.0 ≡ address)) c.ports }
{}

/// In a valid configuration a name finds exactly the compute node that has it.
pub fn names_find_nodes()
    ensures { (t : Topology) (c : Config) (name : List ℕ) → IsValid t c
        → Finds (node_named t name) (λ n. n.name ≡ name) t.nodes }
{}

/// In a valid configuration of the written form no address has two networks among a network and those related to it.
pub fn addresses_have_one_network()
    ensures { (t : Topology) (c : Config) (n a b : Network) (address : ℕ) → IsTrue (has_config_form c) → IsValid t c
        → Contains c.networks n → Contains c.networks a → Contains c.networks b → IsAround c n a → IsAround c n b
        → IsTrue (holds_address a address) → IsTrue (holds_address b address) → a ≡ b }
{}

/// No rule is broken exactly where the fourteen sentences hold.
pub fn none_broken_is_valid()
    ensures { (t : Topology) (c : Config) → (first_broken t c ≡ None) ↔ IsValid t c }
{}
