//! Laws of what a network stands on: each is the contract of a function that does nothing.
ghost use Rattle.std.specs.Prelude.{◌≡◌, ◌≢◌, ◌↔◌, ◌⊎◌, ◌≤◌, ℕ, List, Some, None, Option, length, map};
ghost use Rattle.std.specs.FinMap.{entries};
ghost use Rattle.ov_types.specs.declared.rows.NodeId.{NodeId};
ghost use Rattle.schedule_script.specs.ConfigTypes.Edit.{Edit};
ghost use Rattle.schedule_script.specs.ConfigTypes.Edit.TheVariants.{Put, Delete};
ghost use Rattle.schedule_script.specs.ConfigTypes.Object.TheVariants as Objects;
ghost use Rattle.schedule_script.specs.ConfigTypes.ObjectKind.TheVariants as Kinds;
ghost use Rattle.schedule_script.specs.ConfigTypes.Node.{Node};
ghost use Rattle.schedule_script.specs.ConfigTypes.Topology.{Topology};
ghost use Rattle.schedule_script.specs.ConfigCheck.Checked.{Checked};
ghost use Rattle.schedule_script.specs.ConfigCheck.Edits.{edit_fault};
ghost use Rattle.schedule_script.specs.ConfigCheck.Finding.{node_named};
ghost use Rattle.transform_model.specs.Objects.{low_objects};
ghost use Rattle.transform_model.specs.Uses.{ConfiguredUse, uses};
ghost use Rattle.transform_model.specs.NodeModel.Members.{Member};
ghost use Rattle.transform_model.specs.NodeModel.Maps.{objects};
ghost use Rattle.transform_model.specs.NodeModel.Wants.{slice_entry};
ghost use Rattle.machine_model.specs.Setup.{Name, Setup, listed_by, longest, low, moves, with_agent, without_agent};
ghost use Rattle.machine_model.specs.Deeds.{HasTaken, IsOfNoNode, StandsThere, agent_at};

/// The configuration node holds exactly the low-level objects of the configuration, in the order of their keys.
pub fn the_feed_is_of_low_level_objects()
    ensures entries { (x : Setup) → entries (low x) ≡ map slice_entry (low_objects x.topology x.config) }
    ensures objects { (x : Setup) → objects (low x) ≡ low_objects x.topology x.config }
{}

/// The longest chain in effect has as many services as one use in effect, and no use has more; where none is in effect
/// it has 0.
pub fn the_longest_chain_is_in_effect()
    ensures greatest { (x : Setup) (u : ConfiguredUse) → Member u (uses x.config) → length u.services ≤ longest x }
    ensures met { (x : Setup)
        → (longest x ≡ 0) ⊎ ((u : ConfiguredUse) × Member u (uses x.config) × (length u.services ≡ longest x)) }
{}

/// A put moves the compute node, unless one of its name stands there with the same address and the same list of control
/// nodes: then it moves none. A delete that is accepted moves the node that has the name. No other edit moves one.
pub fn nodes_move_unless_they_stand_as_they_were()
    ensures none { (n : Node) (t : Topology) → (moves (Put (Objects.Node n)) t ≡ None) ↔ StandsThere t n }
    ensures put { (n : Node) (t : Topology) → (StandsThere t n → ⊥) → moves (Put (Objects.Node n)) t
        ≡ Some (record { name = n.name; left = listed_by (node_named t n.name); now = Some n }) }
    ensures deleted { (x : Checked) (name : Name) → edit_fault x (Delete Kinds.Node name) ≡ None
        → (n : Node) × (node_named x.topology name ≡ Some n)
        × (moves (Delete Kinds.Node name) x.topology
        ≡ Some (record { name = name; left = n.controllers; now = None })) }
    ensures others { (d : Edit) (t : Topology) → IsOfNoNode d → moves d t ≡ None }
{}

/// A new session gets the least number that is no agent's at its control node: one that is retired, or the next one
/// where none is. The numbers of all other sessions stay.
pub fn the_least_number_is_taken()
    ensures { (a : NodeId) (agents : List (Option NodeId)) → HasTaken a agents (with_agent a agents) }
{}

/// The number of an agent that goes is retired: it is no agent's then, and stays one of the numbers. Those of all others
/// stay theirs.
pub fn numbers_are_retired()
    ensures agents { (name : Name) (agents : List (Option NodeId)) (i : ℕ) (a : NodeId)
        → (agent_at (without_agent name agents) i ≡ Some a) ↔ ((agent_at agents i ≡ Some a) × (a.name ≢ name)) }
    ensures count { (name : Name) (agents : List (Option NodeId))
        → length (without_agent name agents) ≡ length agents }
{}
