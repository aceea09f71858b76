//! Edits, one after the other, and which packets each of them interrupts.
ghost use Rattle.std.specs.Prelude.{◌≡◌, None, IsTrue, IfOk, OnOk, OnErr};
ghost use Rattle.config_types.specs.Form.{has_edit_form};
ghost use Rattle.config_check.specs.Edits.{edit_fault, edited};
ghost use Rattle.hitless_cells.specs.Keeping.{IsValidAsWritten};
ghost use Rattle.hitless_cells.specs.Lines.{interruptions};
ghost use Rattle.hitless_answers.specs.Judging.{judged, standing, standing_first, standing_next};

use crate::sparing::replaces;
use config_check::Valid;
use config_types::{Config, Edit};
use hitless_cells::{Interruption, interruptions};
use ov_types::{Items, NoMemory};
use schedule_script::{TiedFault, TiedRefusal, Ties, apply_tied_edit};
use std::alloc::Global;
use std::marker::Model;

/// What is said of an edit.
#[derive(Drop)]
pub(crate) enum Judgement {
    /// The edit is not made.
    Refused(TiedFault),
    /// The edit is made, and interrupts these packets: none where it is hitless.
    Made(Items<Interruption>),
}

/// What is configured after some edits, and the ties of the configurations so far.
#[derive(Drop)]
pub(crate) struct Judge {
    valid: Valid,
    ties: Ties,
}

impl Model for Judge {
    ghost use Rattle.hitless_answers.specs.Judging.{Held};

    ghost Value = { Held };

    ghost view = { λ j. record { checked = j.valid; kept = j.ties } };
}

/// What is known of a valid configuration.
pub(crate) fn know_written(valid: &Valid)
    ensures { IsValidAsWritten valid.now }
{
    // (for its clauses: the configuration is valid and of the written form)
    let _config = valid.config();
}

/// The packets that an accepted edit interrupts. An edit that replaces no object interrupts none, whatever it makes.
#[tactic(auto, using(crate::proofs::Spared::nothing_interrupted))]
fn interrupted_by(
    alloc: Global,
    before: &Valid,
    edit: &Edit,
    after: &Valid,
) -> Result<Items<Interruption>, NoMemory>
    requires form { IsTrue (has_edit_form edit.now) }
    requires accepted { edit_fault before.now edit.now ≡ None }
    requires made { after.now ≡ edited edit.now before.now }
    ensures { IfOk result (λ lines. lines ≡ interruptions before.now (edited edit.now before.now)) }
{
    // (for its clause: the configuration is valid and of the written form)
    know_written(before);
    if !replaces(before, edit) {
        return Ok(Items::new(alloc));
    }
    interruptions(alloc, before, after)
}

impl Judge {
    /// The judge before the first edit, of a valid configuration.
    #[tactic(auto, using(crate::proofs::Standing::starts))]
    pub(crate) fn new(alloc: Global, valid: Valid) -> Result<Judge, NoMemory>
        ensures { IfOk result (λ j. standing j ≡ standing_first valid) }
    {
        let ties = Ties::new(alloc, &valid)?;
        Ok(Judge { valid, ties })
    }

    /// The configuration that stands.
    pub(crate) fn config(&self) -> &Config
        ensures { result.now ≡ (standing self.now).checked.config }
    {
        self.valid.config()
    }

    /// Makes an edit, if it is not refused, and says which packets it interrupts. On want of memory all stays as it is.
    #[tactic(auto, using(crate::proofs::Standing::goes_on, crate::proofs::Standing::unfaulty))]
    pub(crate) fn judge(&mut self, alloc: Global, edit: &Edit) -> Result<Judgement, NoMemory>
        requires { IsTrue (has_edit_form edit.now) }
        ensures judgement { IfOk result (λ j. j ≡ judged (standing self.old) edit.now) }
        ensures next { OnOk result (standing self.new ≡ standing_next edit.now (standing self.old)) }
        ensures err { OnErr result (self.new ≡ self.old) }
    {
        match apply_tied_edit(alloc, &self.valid, &self.ties, edit) {
            Ok((valid, ties)) => {
                let lines = interrupted_by(alloc, &self.valid, edit, &valid)?;
                self.valid = valid;
                self.ties = ties;
                Ok(Judgement::Made(lines))
            }
            Err(TiedRefusal::Edit(fault)) => Ok(Judgement::Refused(fault)),
            Err(TiedRefusal::NoMemory) => Err(NoMemory),
        }
    }
}
