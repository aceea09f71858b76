//! Events of a network that keeps ties.
ghost use Rattle.std.specs.Prelude.{◌≡◌, false, IfOk, IsTrue};
ghost use Rattle.std.specs.List.{All};
ghost use Rattle.report.specs.Answers.{IsAnswerTo};
ghost use Rattle.config_check.specs.Checked.{Checked};
ghost use Rattle.config_check.specs.Edits.{edited};
ghost use Rattle.config_types.specs.Form.{has_edit_form};
ghost use Rattle.config_types.specs.Form.{has_event_form};
ghost use Rattle.config_types.specs.declared.event.Event.TheVariants as written;
ghost use Rattle.running_nodes.specs.Seats.{Configuring, seat};
ghost use Rattle.running_laws.specs.Editing.{MakesEdit};
ghost use Rattle.schedule_script.specs.Answers.{OfAnswer};
ghost use Rattle.running_nodes.specs.MachineModel.Setup.{moves};
ghost use Rattle.net_machine.specs.Moving.{CanHappen, CanMoveIf};
ghost use Rattle.net_machine.specs.Seating.{AreLong, AreSeated, IsConfigured};
ghost use Rattle.net_machine.specs.Tying.{HappensTied, IsFound, Orders, OrdersAs, OrdersThen};

use crate::editing::{Moved, make_edit};
use crate::ends::SessionEnds;
use crate::happen::happen;
use crate::order::order_of;
use config_check::{EditFault, Valid};
use config_types::{Edit, Event};
use ov_types::NoMemory;
use running_nodes::Nodes;
use schedule_script::{Answer, Tie, TiedAnswer, TiedFault, TiedRefusal, Ties, apply_tied_edit};
use std::alloc::Global;

/// What is found of an edit.
#[derive(Drop)]
pub enum Found {
    /// The edit has no fault and breaks no tie, and what it makes is valid.
    Made(Valid),
    /// The edit has a fault.
    Faulty(EditFault),
    /// The edit has no fault, and would break this tie.
    Tied(Tie),
}

/// Ties what an edit makes, and answers that. An edit that has a fault, or that would break a tie, ties nothing.
fn tie_edit(alloc: Global, ties: &mut Ties, valid: &Valid, edit: &Edit) -> Result<Found, NoMemory>
    requires { IsTrue (has_edit_form edit.now) }
    ensures { IfOk result (λ found. IsFound valid.now edit.now ties.old found ties.new) }
{
    match apply_tied_edit(alloc, valid, ties, edit) {
        Ok((made, more)) => {
            *ties = more;
            Ok(Found::Made(made))
        }
        Err(TiedRefusal::Edit(TiedFault::Tied(tie))) => Ok(Found::Tied(tie)),
        Err(TiedRefusal::Edit(TiedFault::Edit(fault))) => Ok(Found::Faulty(fault)),
        Err(TiedRefusal::NoMemory) => Err(NoMemory),
    }
}

/// The order of a round is made anew where a compute node moved.
fn order_moved(
    alloc: Global,
    nodes: &Nodes,
    order: &mut Vec<SessionEnds>,
    moved: Moved,
) -> Result<(), NoMemory>
    requires { AreLong nodes.now.seats }
    ensures { IfOk result (λ _. OrdersThen moved nodes.now.seats order.old.items order.new.items) }
{
    match moved {
        Moved::Yes => {
            *order = order_of(alloc, nodes, nodes.valid().topology())?;
            Ok(())
        }
        Moved::No => Ok(()),
    }
}

/// An edit is made that led to this valid configuration.
fn edit_made(
    alloc: Global,
    nodes: &mut Nodes,
    order: &mut Vec<SessionEnds>,
    valid: Valid,
    edit: &Edit,
) -> Result<(), NoMemory>
    requires long { AreLong nodes.old.seats }
    requires configured { IsConfigured nodes.old.seats }
    requires edited { (x : Checked) → (seat nodes.old.seats 0).who ≡ Configuring x → valid ≡ edited edit.now x }
    requires can { (x : Checked) → (seat nodes.old.seats 0).who ≡ Configuring x
        → CanMoveIf valid.topology (moves edit.now x.topology) nodes.old.seats }
    ensures makes { IfOk result (λ _. (x : Checked) → (seat nodes.old.seats 0).who ≡ Configuring x
        → MakesEdit nodes.old.seats x edit.now nodes.new.seats) }
    ensures orders { IfOk result (λ _. (x : Checked) → (seat nodes.old.seats 0).who ≡ Configuring x
        → OrdersAs (moves edit.now x.topology) nodes.old.seats nodes.new.seats order.old.items order.new.items) }
    ensures failed { IfOk result (λ _. nodes.new.failed ≡ nodes.old.failed) }
{
    let moved = make_edit(alloc, nodes, valid, edit)?;
    order_moved(alloc, nodes, order, moved)
}

/// An edit is made, unless it has a fault or would break a tie.
fn edited(
    alloc: Global,
    nodes: &mut Nodes,
    order: &mut Vec<SessionEnds>,
    ties: &mut Ties,
    edit: &Edit,
) -> Result<TiedAnswer, NoMemory>
    requires form { IsTrue (has_edit_form edit.now) }
    requires long { AreLong nodes.old.seats }
    requires configured { IsConfigured nodes.old.seats }
    requires can { (x : Checked) → (seat nodes.old.seats 0).who ≡ Configuring x
        → CanHappen x (written.Edit edit.now) nodes.old.seats }
    ensures happens { IfOk result (λ a. (x : Checked) → (seat nodes.old.seats 0).who ≡ Configuring x
        → HappensTied x order.old.items (written.Edit edit.now) ties.old nodes.old.seats a ties.new nodes.new.seats) }
    ensures orders { IfOk result (λ a. (x : Checked) → (seat nodes.old.seats 0).who ≡ Configuring x
        → Orders x (written.Edit edit.now) a nodes.old.seats nodes.new.seats order.old.items order.new.items) }
    ensures failed { IfOk result (λ _. nodes.new.failed ≡ nodes.old.failed) }
    ensures shown { IfOk result (λ a. OfAnswer (IsAnswerTo (written.Edit edit.now)) (written.Edit edit.now) a) }
{
    match tie_edit(alloc, ties, nodes.valid(), edit)? {
        Found::Made(valid) => {
            edit_made(alloc, nodes, order, valid, edit)?;
            Ok(TiedAnswer::Answered(Answer::Did))
        }
        Found::Faulty(fault) => Ok(TiedAnswer::Answered(Answer::EditRefused(fault))),
        Found::Tied(tie) => Ok(TiedAnswer::EditTied(tie)),
    }
}

/// An event happens, unless it is an edit that would break a tie.
pub(crate) fn happen_tied(
    alloc: Global,
    nodes: &mut Nodes,
    order: &mut Vec<SessionEnds>,
    ties: &mut Ties,
    event: &Event,
) -> Result<TiedAnswer, NoMemory>
    requires form { IsTrue (has_event_form event.now) }
    requires long { AreLong nodes.old.seats }
    requires configured { IsConfigured nodes.old.seats }
    requires seated { All (AreSeated nodes.old.seats) order.old.items }
    requires can { (x : Checked) → (seat nodes.old.seats 0).who ≡ Configuring x
        → CanHappen x event.now nodes.old.seats }
    requires works { nodes.old.failed ≡ false }
    ensures happens { IfOk result (λ a. (x : Checked) → (seat nodes.old.seats 0).who ≡ Configuring x
        → HappensTied x order.old.items event.now ties.old nodes.old.seats a ties.new nodes.new.seats) }
    ensures orders { IfOk result (λ a. (x : Checked) → (seat nodes.old.seats 0).who ≡ Configuring x
        → Orders x event.now a nodes.old.seats nodes.new.seats order.old.items order.new.items) }
    ensures works { IfOk result (λ _. nodes.new.failed ≡ false) }
    ensures shown { IfOk result (λ a. OfAnswer (IsAnswerTo event.now) event.now a) }
{
    match event {
        Event::Edit(edit) => edited(alloc, nodes, order, ties, edit),
        _ => {
            let answer = happen(alloc, nodes, order.as_slice(), event)?;
            Ok(TiedAnswer::Answered(answer))
        }
    }
}
