//! What a configuration is transformed into, as laws: each is the contract of a function that does nothing. Where one
//! asks for `has_config_form`, the valid configuration that it speaks of has the written form too, as each that is read.
ghost use Rattle.std.specs.Prelude.{◌≡◌, ◌≢◌, ◌↔◌, ◌<◌, ℕ, IsTrue, List, flat_map};
ghost use Rattle.std.specs.List.{AllPairs, Contains};
ghost use Rattle.std.specs.List.Sorted.{IsPermutation};
ghost use Rattle.std.specs.declared.cmp.Ordering.TheVariants.{Less};
ghost use Rattle.ov_types.specs.Keys.{low_key_cmp, row_key_cmp};
ghost use Rattle.ov_types.specs.Prefix.{Block};
ghost use Rattle.ov_types.specs.declared.numbers.InstanceId.{InstanceId};
ghost use Rattle.ov_types.specs.declared.numbers.Label.{Label};
ghost use Rattle.ov_types.specs.declared.prefix.Addr.{Addr};
ghost use Rattle.ov_types.specs.declared.rows.Attached.{Attached};
ghost use Rattle.ov_types.specs.declared.rows.Entry.{Entry};
ghost use Rattle.acl_compile.specs.ConfigTypes.Form.{has_config_form};
ghost use Rattle.acl_compile.specs.ConfigTypes.Config.{Config};
ghost use Rattle.acl_compile.specs.ConfigTypes.Network.{Network};
ghost use Rattle.acl_compile.specs.ConfigTypes.Port.{Port};
ghost use Rattle.acl_compile.specs.ConfigTypes.Node.{Node};
ghost use Rattle.acl_compile.specs.ConfigTypes.Topology.{Topology};
ghost use Rattle.acl_compile.specs.ConfigCheck.Rules.{first_broken};
ghost use Rattle.node_model.specs.Agent.{needed_by};
ghost use Rattle.transform_model.specs.Compiled.{agent_rows, slice_of};
ghost use Rattle.transform_model.specs.IsLabel.{IsLabel, instance_of};
ghost use Rattle.transform_model.specs.IsNeeded.{IsAccessList, IsNeeded, IsRoute};
ghost use Rattle.transform_model.specs.IsObject.{IsObject};
ghost use Rattle.transform_model.specs.IsRow.{IsRow};
ghost use Rattle.transform_model.specs.IsUse.{IsInstance, IsLeftCircuit, IsRightCircuit, IsUse};
ghost use Rattle.transform_model.specs.Leads.{LeadsToCircuit, LeadsToPort};
ghost use Rattle.transform_model.specs.Objects.{LowObject, low_objects, objects};
ghost use Rattle.transform_model.specs.Tables.{Row, circuit_route, control_rows, host_route, instance_table};
ghost use Rattle.transform_model.specs.Tables.{instances, tables_of};
ghost use Rattle.transform_model.specs.Uses.{Circuit, ConfiguredUse, left_circuits, right_circuits, uses};

/// In a valid configuration the uses are those of chain rules whose networks both attach the rule's policy, and no two
/// have one number.
pub fn uses_are_those_in_effect()
    ensures exactly { (t : Topology) (c : Config) (u : ConfiguredUse) → first_broken t c ≡ None
        → Contains (uses c) u ↔ IsUse c u }
    ensures distinct { (t : Topology) (c : Config) → first_broken t c ≡ None
        → AllPairs (λ u v. u.number ≢ v.number) (uses c) }
{}

/// The circuits of a use are those of its services.
pub fn circuits_are_of_services()
    ensures left { (u : ConfiguredUse) (k : Circuit) → Contains (left_circuits u) k ↔ ((place : ℕ) × IsLeftCircuit u place k) }
    ensures right { (u : ConfiguredUse) (k : Circuit) → Contains (right_circuits u) k ↔ ((place : ℕ) × IsRightCircuit u place k) }
{}

/// In a valid configuration the instances are those of its networks and of the hops of its uses in effect, each once.
pub fn instances_are_of_networks_and_hops()
    ensures exactly { (t : Topology) (c : Config) (i : InstanceId) → first_broken t c ≡ None
        → Contains (instances c) i ↔ IsInstance c i }
    ensures distinct { (t : Topology) (c : Config) → IsTrue (has_config_form c) → first_broken t c ≡ None
        → AllPairs (λ i j. i.0 ≢ j.0) (instances c) }
{}

/// In a valid configuration an instance's table has exactly the rows that networks, and uses in effect, ask for there.
pub fn tables_have_exactly_these_rows()
    ensures { (t : Topology) (c : Config) (i : InstanceId) (r : Row) → first_broken t c ≡ None
        → Contains (instance_table t c i) r ↔ IsRow t c i r }
{}

/// A row leads to the node of its port or circuit by the label there, and has the distinguisher of that node with the
/// port's network, or with the circuit row's instance.
pub fn rows_lead_to_nodes()
    ensures ports { (i : InstanceId) (home : Network) (node : Node) (port : Port)
        → LeadsToPort i home node port (host_route i home node port) }
    ensures circuits { (i : InstanceId) (prefix : Block) (k : Circuit) (node : Node)
        → LeadsToCircuit i prefix k node (circuit_route i prefix k node) }
{}

/// In a valid configuration no two rows of an instance's table have one prefix.
pub fn prefixes_are_distinct()
    ensures { (t : Topology) (c : Config) (i : InstanceId) → IsTrue (has_config_form c) → first_broken t c ≡ None
        → AllPairs (λ r s. r.0.1 ≢ s.0.1) (instance_table t c i) }
{}

/// In a valid configuration the low-level objects are exactly those that networks, ports, and uses in effect give.
pub fn objects_are_exactly_these()
    ensures { (t : Topology) (c : Config) (o : LowObject) → IsTrue (has_config_form c) → first_broken t c ≡ None
        → Contains (low_objects t c) o ↔ IsObject t c o }
{}

/// The low-level objects are in strictly ascending order of their keys, whatever the configuration.
pub fn keys_ascend()
    ensures { (t : Topology) (c : Config) → AllPairs (λ d e. low_key_cmp d.0 e.0 ≡ Less) (low_objects t c) }
{}

/// In a valid configuration no two low-level objects have one key, so that none is lost.
pub fn none_is_lost()
    ensures { (t : Topology) (c : Config) → IsTrue (has_config_form c) → first_broken t c ≡ None
        → IsPermutation (objects t c) (low_objects t c) }
{}

/// The rows of any instances together, and those of all, are in strictly ascending order of their keys, whatever the
/// configuration.
pub fn rows_ascend()
    ensures some { (t : Topology) (c : Config) (is : List InstanceId)
        → AllPairs (λ r s. row_key_cmp r.0 s.0 ≡ Less) (tables_of t c is) }
    ensures all { (t : Topology) (c : Config) → AllPairs (λ r s. row_key_cmp r.0 s.0 ≡ Less) (control_rows t c) }
{}

/// In a valid configuration the rows of distinct instances together, and those of all, are those of each instance's
/// table, none lost and none added.
pub fn rows_are_kept()
    ensures some { (t : Topology) (c : Config) (is : List InstanceId) → IsTrue (has_config_form c)
        → first_broken t c ≡ None → AllPairs (λ i j. i.0 ≢ j.0) is
        → IsPermutation (flat_map (instance_table t c) is) (tables_of t c is) }
    ensures all { (t : Topology) (c : Config) → IsTrue (has_config_form c) → first_broken t c ≡ None
        → IsPermutation (flat_map (instance_table t c) (instances c)) (control_rows t c) }
{}

/// In a valid configuration an agent needs exactly the instances of its ports and circuits, and those by which packets
/// of its ports enter chains.
pub fn needed_instances_are_exactly_these()
    ensures { (t : Topology) (c : Config) (a : Addr) (i : InstanceId) → IsTrue (has_config_form c)
        → first_broken t c ≡ None → Contains (needed_by (slice_of (low_objects t c) a)) i ↔ IsNeeded t c a i }
{}

/// In a valid configuration every instance that an agent needs is that of a network or of a hop of a use in effect.
pub fn needed_instances_exist()
    ensures { (t : Topology) (c : Config) (a : Addr) (i : InstanceId) → IsTrue (has_config_form c)
        → first_broken t c ≡ None → Contains (needed_by (slice_of (low_objects t c) a)) i → IsInstance c i }
{}

/// In a valid configuration an agent has exactly the labels of the ports and circuits at its node.
pub fn labels_are_exactly_these()
    ensures { (t : Topology) (c : Config) (a : Addr) (l : Label × Attached) → IsTrue (has_config_form c)
        → first_broken t c ≡ None → Contains (agent_rows t c a).labels l ↔ IsLabel t c a l }
{}

/// In a valid configuration an agent has exactly the access lists of the networks that have a port at its node.
pub fn access_lists_are_exactly_these()
    ensures { (t : Topology) (c : Config) (a : Addr) (o : LowObject) → IsTrue (has_config_form c)
        → first_broken t c ≡ None → Contains (agent_rows t c a).acls o ↔ IsAccessList t c a o }
{}

/// In a valid configuration an agent has exactly the rows of the instances that it needs, without their distinguishers.
pub fn routes_are_exactly_these()
    ensures { (t : Topology) (c : Config) (a : Addr) (q : (InstanceId × Block) × Entry) → IsTrue (has_config_form c)
        → first_broken t c ≡ None → Contains (agent_rows t c a).routes q ↔ IsRoute t c a q }
{}

/// An agent's labels, access lists and routes are each in strictly ascending order of their keys, whatever the
/// configuration.
pub fn lists_of_agents_ascend()
    ensures labels { (t : Topology) (c : Config) (a : Addr)
        → AllPairs (λ l m. l.0.0 < m.0.0) (agent_rows t c a).labels }
    ensures acls { (t : Topology) (c : Config) (a : Addr)
        → AllPairs (λ d e. low_key_cmp d.0 e.0 ≡ Less) (agent_rows t c a).acls }
    ensures routes { (t : Topology) (c : Config) (a : Addr)
        → AllPairs (λ q r. row_key_cmp q.0 r.0 ≡ Less) (agent_rows t c a).routes }
{}

/// In a valid configuration each row of a table has a label of the agent at its next hop, and each label of an agent is
/// that of a row with this next hop in the instance of the port or of the circuit.
pub fn labels_agree()
    ensures rows { (t : Topology) (c : Config) (i : InstanceId) (r : Row) → IsTrue (has_config_form c)
        → first_broken t c ≡ None → Contains (instance_table t c i) r
        → (x : Attached) × Contains (agent_rows t c r.1.next_hop).labels (r.1.label, x) }
    ensures labels { (t : Topology) (c : Config) (a : Addr) (l : Label × Attached) → IsTrue (has_config_form c)
        → first_broken t c ≡ None → Contains (agent_rows t c a).labels l
        → (r : Row) × Contains (instance_table t c (instance_of l.1)) r × (r.1.next_hop ≡ a) × (r.1.label ≡ l.0) }
{}
