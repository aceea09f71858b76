//! No two things have one number, as laws: each is the contract of a function that does nothing.
ghost use Rattle.std.specs.Prelude.{◌≡◌, ◌≢◌, ◌≤◌, ◌<◌, ◌-◌, ◌^◌, ℕ, IsTrue, Some, None};
ghost use Rattle.ov_types.specs.Prefix.{contains};
ghost use Rattle.ov_types.specs.Targets.{is_target};
ghost use Rattle.ov_types.specs.declared.numbers.InstanceId.{InstanceId};
ghost use Rattle.ov_types.specs.declared.numbers.PortNo.{PortNo};
ghost use Rattle.ov_types.specs.declared.prefix.Addr.{Addr};
ghost use Rattle.route_targets.specs.Numbers.{hop_instance_of, target_of, distinguisher_of, port_label_of};
ghost use Rattle.route_targets.specs.Numbers.{circuit_label_of, circuit_address_of, other_side_of};
ghost use Rattle.route_targets.specs.Numbers.{left_circuit_of, right_circuit_of, circuit_instance_of, hop_of};
ghost use Rattle.route_targets.specs.declared.numbers.UseHop.{UseHop};

/// The instances of different hops, of one use or of two, differ. None is a network's, and each is a number of an
/// instance.
pub fn hop_instances_are_distinct()
    ensures distinct { (u v j k : ℕ) → j ≤ 15 → k ≤ 15 → hop_instance_of u j ≡ hop_instance_of v k → (u ≡ v) × (j ≡ k) }
    ensures no_networks { (u j n : ℕ) → n ≤ 16383 → (hop_instance_of u j).0 ≢ n }
    ensures fit { (u j : ℕ) → u ≤ 3071 → j ≤ 15 → (hop_instance_of u j).0 ≤ 65535 }
{}

/// The instance of a hop is of that hop, an instance that is of a hop is that hop's, and a network's is of none.
pub fn hops_are_told_by_instances()
    ensures told { (u j : ℕ) → j ≤ 15 → hop_of (hop_instance_of u j) ≡ Some (record { use_no = u; place = j }) }
    ensures back { (i : InstanceId) (hop : UseHop) → hop_of i ≡ Some hop → hop_instance_of hop.use_no hop.place ≡ i }
    ensures networks { (i : InstanceId) → i.0 ≤ 16383 → hop_of i ≡ None }
{}

/// Labels of ports and of circuits never meet, and no two ports or circuits have one. Each is of 20 bits, and none is
/// reserved.
pub fn labels_are_distinct()
    ensures ports { (p q : PortNo) → port_label_of p ≡ port_label_of q → p ≡ q }
    ensures circuits { (m n : ℕ) → circuit_label_of m ≡ circuit_label_of n → m ≡ n }
    ensures apart { (p : PortNo) (n : ℕ) → p.0 ≤ 524271 → port_label_of p ≢ circuit_label_of n }
    ensures unreserved { (p : PortNo) → 16 ≤ (port_label_of p).0 }
    ensures fit { (n : ℕ) → n ≤ 131070 → (circuit_label_of n).0 < 2 ^ 20 }
{}

/// Different circuits have different addresses, in 250.0.0.0/15.
pub fn circuit_addresses_are_distinct()
    ensures distinct { (m n : ℕ) → circuit_address_of m ≡ circuit_address_of n → m ≡ n }
    ensures reserved { (n : ℕ) → n ≤ 131070
        → IsTrue (contains (record { addr = 0xfa00_0000; len = 15 }) (circuit_address_of n).0) }
{}

/// Targets of different instances or AS numbers differ, both types together, and each is a route target.
pub fn targets_are_distinct()
    ensures distinct { (a b : ℕ) (i j : InstanceId) → i.0 < 2 ^ 16 → j.0 < 2 ^ 16
        → target_of a i ≡ target_of b j → (a ≡ b) × (i ≡ j) }
    ensures targets { (a : ℕ) (i : InstanceId) → a < 2 ^ 32 → i.0 < 2 ^ 16 → IsTrue (is_target (target_of a i).0) }
{}

/// Distinguishers of different addresses or instances differ.
pub fn distinguishers_are_distinct()
    ensures { (a b : Addr) (i j : InstanceId) → i.0 < 2 ^ 16 → j.0 < 2 ^ 16
        → distinguisher_of a i ≡ distinguisher_of b j → (a ≡ b) × (i ≡ j) }
{}

/// The other side of a circuit's other side is that circuit, and the other side of a circuit is one.
pub fn other_sides_go_back()
    ensures back { (n : ℕ) → 32769 ≤ n → other_side_of (other_side_of n) ≡ n }
    ensures first { (n : ℕ) → 32769 ≤ n → 32769 ≤ other_side_of n }
    ensures last { (n : ℕ) → n ≤ 131070 → other_side_of n ≤ 131070 }
{}

/// The two sides of a service are each other's, and lie in neighbouring instances of one use: the left one in that of
/// the hop before, the right one in that behind.
pub fn sides_are_neighbours()
    ensures right_of_left { (u j : ℕ) → 1 ≤ j → other_side_of (left_circuit_of u j) ≡ right_circuit_of u j }
    ensures left_of_right { (u j : ℕ) → 1 ≤ j → other_side_of (right_circuit_of u j) ≡ left_circuit_of u j }
    ensures left { (u j : ℕ) → circuit_instance_of (left_circuit_of u j) ≡ hop_instance_of u (j - 1) }
    ensures right { (u j : ℕ) → circuit_instance_of (right_circuit_of u j) ≡ hop_instance_of u j }
{}

/// No two circuits of services are one, and each is from 32769 to 131070.
pub fn circuits_are_distinct()
    ensures left { (u v j k : ℕ) → 1 ≤ j → j ≤ 15 → 1 ≤ k → k ≤ 15
        → left_circuit_of u j ≡ left_circuit_of v k → (u ≡ v) × (j ≡ k) }
    ensures right { (u v j k : ℕ) → j ≤ 15 → k ≤ 15 → right_circuit_of u j ≡ right_circuit_of v k → (u ≡ v) × (j ≡ k) }
    ensures apart { (u v j k : ℕ) → left_circuit_of u j ≢ right_circuit_of v k }
    ensures first { (u j : ℕ) → 1 ≤ j → (32769 ≤ left_circuit_of u j) × (32769 ≤ right_circuit_of u j) }
    ensures last { (u j : ℕ) → u ≤ 3071 → j ≤ 15 → (left_circuit_of u j ≤ 131070) × (right_circuit_of u j ≤ 131070) }
{}
