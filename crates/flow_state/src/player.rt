//! A replay of steps.
ghost use Rattle.std.specs.Prelude.{◌≡◌, ◌<◌, List, IsTrue, IfOk, OnOk, OnErr};
ghost use Rattle.config_types.specs.Form.{has_edit_form};
ghost use Rattle.flow_state.specs.Steps.{has_step_form};
ghost use Rattle.flow_state.specs.declared.step.FlowStep.{FlowStep as Asked};
ghost use Rattle.flow_state.specs.Playing.{answer_in, answers_in, fault_in, opening, played, played_edit, playing};
ghost use Rattle.flow_state.specs.Replay.{answers, at_start, edit_answer};

use crate::answer::FlowAnswer;
use crate::step::FlowStep;
use crate::table::FlowTable;
use config_check::Valid;
use config_types::Edit;
use ov_types::NoMemory;
use schedule_script::{TiedRefusal, Ties, apply_tied_edit};
use std::alloc::Global;
use std::marker::Model;

/// What is configured, the ties of the configurations so far, and the flows that may be answered.
#[derive(Drop)]
pub struct Player {
    valid: Valid,
    ties: Ties,
    table: FlowTable,
}

impl Model for Player {
    ghost use Rattle.std.specs.List.{All};
    ghost use Rattle.flow_state.specs.Flows.{PermitsOneWay};
    ghost use Rattle.flow_state.specs.Playing.{Held};

    ghost Value = { Held };

    ghost view = { λ p. record { checked = p.valid; kept = p.ties; capacity = p.table.capacity; flows = p.table.flows } };

    ghost invariant = { λ p. All (PermitsOneWay p.valid.config) p.table.flows };
}

impl Player {
    /// A replay of which no step is done yet. To any list of steps it answers what the definition says.
    #[tactic(auto, using(crate::proofs::Kept::starts))]
    pub fn new(alloc: Global, valid: Valid, capacity: u16) -> Result<Player, NoMemory>
        requires { 0 < capacity }
        ensures opening { IfOk result (λ p. playing p ≡ opening capacity valid) }
        ensures answers { IfOk result (λ p. (steps : List Asked)
            → answers_in steps (playing p) ≡ answers capacity steps (at_start valid)) }
    {
        let ties = Ties::new(alloc, &valid)?;
        let table = FlowTable::new(alloc, capacity)?;
        Ok(Player { valid, ties, table })
    }

    /// The configuration is edited, and the table emptied, where the edit is made.
    #[tactic(auto, using(crate::proofs::Kept::goes_on))]
    fn edit(&mut self, alloc: Global, edit: &Edit) -> Result<FlowAnswer, NoMemory>
        requires { IsTrue (has_edit_form edit.now) }
        ensures answer { IfOk result (λ a. a ≡ edit_answer (fault_in edit.now (playing self.old))) }
        ensures next { OnOk result
            (playing self.new ≡ played_edit edit.now (fault_in edit.now (playing self.old)) (playing self.old)) }
        ensures err { OnErr result (self.new ≡ self.old) }
    {
        match apply_tied_edit(alloc, &self.valid, &self.ties, edit) {
            Ok((valid, ties)) => {
                self.table.clear();
                self.valid = valid;
                self.ties = ties;
                Ok(FlowAnswer::Edited)
            }
            Err(TiedRefusal::Edit(fault)) => Ok(FlowAnswer::Refused(fault)),
            Err(TiedRefusal::NoMemory) => Err(NoMemory),
        }
    }

    /// The next step is done, and answered. On want of memory all stays as it is.
    #[tactic(auto, unfolding(crate::specs::Steps::has_step_form))]
    pub fn step(&mut self, alloc: Global, step: &FlowStep) -> Result<FlowAnswer, NoMemory>
        requires { IsTrue (has_step_form step.now) }
        ensures answer { IfOk result (λ a. a ≡ answer_in step.now (playing self.old)) }
        ensures next { OnOk result (playing self.new ≡ played step.now (playing self.old)) }
        ensures err { OnErr result (self.new ≡ self.old) }
    {
        match step {
            FlowStep::Edit(edit) => self.edit(alloc, edit),
            FlowStep::Trace(packet) => {
                let outcome = self.table.pass(&self.valid, *packet)?;
                Ok(FlowAnswer::Traced(outcome))
            }
        }
    }
}
