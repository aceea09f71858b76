//! What scenarios promise, as laws: each is the contract of a function that does nothing.
ghost use Rattle.std.specs.Prelude.{◌≡◌, ◌≤◌, ◌<◌, ◌+◌, ◌*◌, ℕ, length, map};
ghost use Rattle.std.specs.List.{All, Contains, range_with_len};
ghost use Rattle.config_types.specs.declared.config.Network.{Network};
ghost use Rattle.config_types.specs.declared.config.Port.{Port};
ghost use Rattle.scenario_gen.specs.Laws.{uses_of, IsNetworkAt, IsPortAt, HasNetwork, NamesWhatIs, node_names};
ghost use Rattle.scenario_gen.specs.Schedule.{events, packets};
ghost use Rattle.scenario_gen.specs.Scenario.{config};
ghost use Rattle.scenario_gen.specs.Tenants.{tenants};

/// The first sixteen scenarios have one tenant more each time, and then it begins anew.
pub fn tenants_go_round()
    ensures first { (n : ℕ) → 1 ≤ n → n ≤ 16 → tenants n ≡ n }
    ensures again { (n : ℕ) → 1 ≤ n → tenants (n + 16) ≡ tenants n }
{}

/// Each tenant has four networks, sixty-four ports, three policies, two services and a chain.
pub fn tenants_have_equal_shares()
    ensures networks { (n : ℕ) → length (config n).networks ≡ 4 * tenants n }
    ensures ports { (n : ℕ) → length (config n).ports ≡ 64 * tenants n }
    ensures policies { (n : ℕ) → length (config n).policies ≡ 3 * tenants n }
    ensures services { (n : ℕ) → length (config n).services ≡ 2 * tenants n }
    ensures chains { (n : ℕ) → length (config n).chains ≡ tenants n }
{}

/// Networks, services and the sequences of policies are numbered from 1 on in the order in which they stand, and ports
/// from 0 on.
pub fn numbers_go_up()
    ensures networks { (n : ℕ) → map (λ x. x.id.0) (config n).networks ≡ range_with_len 1 (4 * tenants n) }
    ensures ports { (n : ℕ) → map (λ p. p.id.0) (config n).ports ≡ range_with_len 0 (64 * tenants n) }
    ensures policies { (n : ℕ) → map (λ p. p.sequence) (config n).policies ≡ range_with_len 1 (3 * tenants n) }
    ensures services { (n : ℕ) → map (λ s. s.id.0) (config n).services ≡ range_with_len 1 (2 * tenants n) }
{}

/// There is one use of a chain for each tenant, and it has the tenant's number.
pub fn uses_are_tenants()
    ensures { (n : ℕ) → uses_of (config n).policies ≡ range_with_len 0 (tenants n) }
{}

/// Each tenant has a network at each of four places, and in each a port at each of the addresses 1 to 16 of its subnet.
pub fn tenants_have_networks_and_ports()
    ensures networks { (n t place : ℕ) → t < tenants n → place < 4
        → (x : Network) × Contains (config n).networks x × IsNetworkAt t place x }
    ensures ports { (n t place octet : ℕ) → t < tenants n → place < 4 → 1 ≤ octet → octet ≤ 16
        → (p : Port) × Contains (config n).ports p × IsPortAt t place octet p }
{}

/// The network of each port is there, and has a subnet that holds the port's address.
pub fn ports_are_in_their_networks()
    ensures { (n : ℕ) → All (HasNetwork (config n)) (config n).ports }
{}

/// Ports and services are at compute nodes that are there.
pub fn ports_and_services_have_nodes()
    ensures ports { (n : ℕ) → All (λ p. Contains node_names p.node) (config n).ports }
    ensures services { (n : ℕ) → All (λ s. Contains node_names s.node) (config n).services }
{}

/// The nodes and the port that the events name are there at first, and each packet leaves a port that is.
pub fn events_and_packets_name_what_is_there()
    ensures events { (n : ℕ) → All (NamesWhatIs n) (events n) }
    ensures packets { (n : ℕ) → All (λ q. Contains (map (λ p. p.id) (config n).ports) q.source) (packets n) }
{}
