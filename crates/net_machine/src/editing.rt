//! Edits.
ghost use Rattle.std.specs.Prelude.{◌≡◌, IfOk, None};
ghost use Rattle.config_check.specs.Checked.{Checked};
ghost use Rattle.config_check.specs.Edits.{edited};
ghost use Rattle.config_types.specs.declared.edit.Object.TheVariants as objects;
ghost use Rattle.running_nodes.specs.MachineModel.Setup.{delete_moves, moves, put_moves};
ghost use Rattle.running_nodes.specs.Moving.{MovesIf};
ghost use Rattle.running_nodes.specs.Seats.{Configuring, seat};
ghost use Rattle.running_laws.specs.Editing.{MakesEdit};
ghost use Rattle.net_machine.specs.Moving.{CanMoveIf, did_move};
ghost use Rattle.net_machine.specs.Seating.{AreLong, IsConfigured, Keeps};

use crate::clear::clear_node;
use crate::moving::{move_node, stands};
use config_check::Valid;
use config_types::{Edit, Node, Object, ObjectKind, Topology};
use ov_types::{Name, NoMemory};
use running_nodes::Nodes;
use std::alloc::Global;

/// Whether an edit moved a compute node: then the sessions of the network are others.
#[derive(Clone, Copy, PartialEq, Eq)]
pub enum Moved {
    Yes,
    No,
}

/// A compute node that is put moves, unless it stands as it is put.
fn move_put(
    alloc: Global,
    nodes: &mut Nodes,
    topology: &Topology,
    node: &Node,
) -> Result<Moved, NoMemory>
    requires long { AreLong nodes.old.seats }
    requires can { (x : Checked) → (seat nodes.old.seats 0).who ≡ Configuring x
        → CanMoveIf topology.now (put_moves (objects.Node node.now) x.topology) nodes.old.seats }
    ensures moves { IfOk result (λ _. (x : Checked) → (seat nodes.old.seats 0).who ≡ Configuring x
        → MovesIf topology.now (put_moves (objects.Node node.now) x.topology) nodes.old.seats nodes.new.seats) }
    ensures moved { IfOk result (λ m. (x : Checked) → (seat nodes.old.seats 0).who ≡ Configuring x
        → m ≡ did_move (put_moves (objects.Node node.now) x.topology)) }
    ensures failed { IfOk result (λ _. nodes.new.failed ≡ nodes.old.failed) }
{
    if stands(nodes.valid().topology(), node) {
        return Ok(Moved::No);
    }
    move_node(alloc, nodes, topology, &node.name, Some(node))?;
    Ok(Moved::Yes)
}

/// What is put moves, where it is a compute node.
fn move_object(
    alloc: Global,
    nodes: &mut Nodes,
    topology: &Topology,
    object: &Object,
) -> Result<Moved, NoMemory>
    requires long { AreLong nodes.old.seats }
    requires can { (x : Checked) → (seat nodes.old.seats 0).who ≡ Configuring x
        → CanMoveIf topology.now (put_moves object.now x.topology) nodes.old.seats }
    ensures moves { IfOk result (λ _. (x : Checked) → (seat nodes.old.seats 0).who ≡ Configuring x
        → MovesIf topology.now (put_moves object.now x.topology) nodes.old.seats nodes.new.seats) }
    ensures moved { IfOk result (λ m. (x : Checked) → (seat nodes.old.seats 0).who ≡ Configuring x
        → m ≡ did_move (put_moves object.now x.topology)) }
    ensures failed { IfOk result (λ _. nodes.new.failed ≡ nodes.old.failed) }
{
    match object {
        Object::Node(node) => move_put(alloc, nodes, topology, node),
        _ => Ok(Moved::No),
    }
}

/// What is deleted moves, where it is a compute node.
fn move_deleted(
    alloc: Global,
    nodes: &mut Nodes,
    topology: &Topology,
    kind: ObjectKind,
    name: &Name,
) -> Result<Moved, NoMemory>
    requires long { AreLong nodes.old.seats }
    requires can { (x : Checked) → (seat nodes.old.seats 0).who ≡ Configuring x
        → CanMoveIf topology.now (delete_moves kind name.now x.topology) nodes.old.seats }
    ensures moves { IfOk result (λ _. (x : Checked) → (seat nodes.old.seats 0).who ≡ Configuring x
        → MovesIf topology.now (delete_moves kind name.now x.topology) nodes.old.seats nodes.new.seats) }
    ensures moved { IfOk result (λ m. (x : Checked) → (seat nodes.old.seats 0).who ≡ Configuring x
        → m ≡ did_move (delete_moves kind name.now x.topology)) }
    ensures failed { IfOk result (λ _. nodes.new.failed ≡ nodes.old.failed) }
{
    match kind {
        ObjectKind::Node => {
            move_node(alloc, nodes, topology, name, None)?;
            Ok(Moved::Yes)
        }
        _ => Ok(Moved::No),
    }
}

/// The compute node that an edit puts or deletes moves, in the topology that the edit leads to.
fn move_edited(
    alloc: Global,
    nodes: &mut Nodes,
    topology: &Topology,
    edit: &Edit,
) -> Result<Moved, NoMemory>
    requires long { AreLong nodes.old.seats }
    requires can { (x : Checked) → (seat nodes.old.seats 0).who ≡ Configuring x
        → CanMoveIf topology.now (moves edit.now x.topology) nodes.old.seats }
    ensures moves { IfOk result (λ _. (x : Checked) → (seat nodes.old.seats 0).who ≡ Configuring x
        → MovesIf topology.now (moves edit.now x.topology) nodes.old.seats nodes.new.seats) }
    ensures moved { IfOk result (λ m. (x : Checked) → (seat nodes.old.seats 0).who ≡ Configuring x
        → m ≡ did_move (moves edit.now x.topology)) }
    ensures failed { IfOk result (λ _. nodes.new.failed ≡ nodes.old.failed) }
{
    match edit {
        Edit::Put(object) => move_object(alloc, nodes, topology, object),
        Edit::Delete(kind, name) => move_deleted(alloc, nodes, topology, *kind, name),
    }
}

/// An edit is made that led to this valid configuration: the compute node that it puts or deletes moves, every control
/// node is told what the configuration wants then, and the sessions of which the configuration node closed its end go
/// down.
pub(crate) fn make_edit(
    alloc: Global,
    nodes: &mut Nodes,
    valid: Valid,
    edit: &Edit,
) -> Result<Moved, NoMemory>
    requires long { AreLong nodes.old.seats }
    requires configured { IsConfigured nodes.old.seats }
    requires edited { (x : Checked) → (seat nodes.old.seats 0).who ≡ Configuring x → valid ≡ edited edit.now x }
    requires can { (x : Checked) → (seat nodes.old.seats 0).who ≡ Configuring x
        → CanMoveIf valid.topology (moves edit.now x.topology) nodes.old.seats }
    ensures makes { IfOk result (λ _. (x : Checked) → (seat nodes.old.seats 0).who ≡ Configuring x
        → MakesEdit nodes.old.seats x edit.now nodes.new.seats) }
    ensures moved { IfOk result (λ m. (x : Checked) → (seat nodes.old.seats 0).who ≡ Configuring x
        → m ≡ did_move (moves edit.now x.topology)) }
    ensures long { IfOk result (λ _. AreLong nodes.new.seats) }
    ensures valid { IfOk result (λ _. (seat nodes.new.seats 0).who ≡ Configuring valid) }
    ensures keeps { IfOk result (λ _. (x : Checked) → (seat nodes.old.seats 0).who ≡ Configuring x
        → moves edit.now x.topology ≡ None → Keeps nodes.old.seats nodes.new.seats) }
    ensures failed { IfOk result (λ _. nodes.new.failed ≡ nodes.old.failed) }
{
    let moved = move_edited(alloc, nodes, valid.topology(), edit)?;
    nodes.set_valid(valid)?;
    clear_node(nodes, 0);
    Ok(moved)
}
