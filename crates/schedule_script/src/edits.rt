//! Edits that keep the ties of the configurations so far.
ghost use Rattle.std.specs.Prelude.{◌≡◌, None, IfOk, IfErr, IsTrue};
ghost use Rattle.config_types.specs.Form.{has_edit_form};
ghost use Rattle.config_check.specs.Edits.{edited};
ghost use Rattle.schedule_script.specs.Kept.{AreAlike, ties_in};
ghost use Rattle.schedule_script.specs.Tied.{RefusesTied, tie_fault, tied_fault};
ghost use Rattle.schedule_script.specs.Tying.{joined};

use crate::breaking::{Tie, broken_tie};
use crate::joining::{joined, rules_of};
use crate::kept::Ties;
use config_check::{EditFault, EditRefusal, Valid, apply_edit};
use config_types::Edit;
use ov_types::NoMemory;
use std::alloc::Global;

/// Why an edit is not made.
#[derive(Clone, Copy, PartialEq, Eq)]
pub enum TiedFault {
    /// What it deletes is missing, or what it makes breaks a rule.
    Edit(EditFault),
    /// The edited configuration is valid, and would break a tie.
    Tied(Tie),
}

/// Why an edited configuration was not answered.
#[derive(Clone, Copy, PartialEq, Eq)]
pub enum TiedRefusal {
    Edit(TiedFault),
    NoMemory,
}

impl From<NoMemory> for TiedRefusal {
    ghost use Rattle.std.specs.Prelude.{◌≡◌};
    ghost use Rattle.schedule_script.specs.declared.edits.TiedRefusal.TheVariants.{NoMemory as WantsMemory};

    ghost from_gives = { λ _ e. e ≡ WantsMemory };

    fn from(_e: NoMemory) -> TiedRefusal {
        TiedRefusal::NoMemory
    }
}

impl From<EditRefusal> for TiedRefusal {
    ghost use Rattle.std.specs.Prelude.{◌≡◌};
    ghost use Rattle.schedule_script.specs.Tied.{as_tied};

    ghost from_gives = { λ refusal e. e ≡ as_tied refusal };

    fn from(refusal: EditRefusal) -> TiedRefusal {
        match refusal {
            EditRefusal::Edit(fault) => TiedRefusal::Edit(TiedFault::Edit(fault)),
            EditRefusal::NoMemory => TiedRefusal::NoMemory,
        }
    }
}

/// The ties with those of a valid configuration, where it breaks none.
fn kept_by(alloc: Global, ties: &Ties, valid: &Valid) -> Result<Ties, TiedRefusal>
    ensures ties { IfOk result (λ more. AreAlike (ties_in more) (joined (ties_in ties.now) valid.now)) }
    ensures kept { IfOk result (λ more. tie_fault (ties_in ties.now) valid.now ≡ None) }
    ensures refused { IfErr result (λ e. RefusesTied e (tie_fault (ties_in ties.now) valid.now)) }
{
    let rules = rules_of(alloc, valid)?;
    if let Some(tie) = broken_tie(ties, valid, &rules) {
        return Err(TiedRefusal::Edit(TiedFault::Tied(tie)));
    }
    Ok(joined(alloc, ties, valid, &rules)?)
}

/// Answers the edited configuration where it is valid and breaks no tie, with the ties that it adds to. The edit is as
/// `apply_edit` makes it, and its ties are tried after all rules. An error leaves all as it was.
pub fn apply_tied_edit(
    alloc: Global,
    valid: &Valid,
    ties: &Ties,
    edit: &Edit,
) -> Result<(Valid, Ties), TiedRefusal>
    requires { IsTrue (has_edit_form edit.now) }
    ensures configuration { IfOk result (λ made. made.0 ≡ edited edit.now valid.now) }
    ensures ties { IfOk result (λ made. AreAlike (ties_in made.1)
        (joined (ties_in ties.now) (edited edit.now valid.now))) }
    ensures accepted { IfOk result (λ made. tied_fault valid.now (ties_in ties.now) edit.now ≡ None) }
    ensures refused { IfErr result (λ e. RefusesTied e (tied_fault valid.now (ties_in ties.now) edit.now)) }
{
    let valid = apply_edit(alloc, valid, edit)?;
    let ties = kept_by(alloc, ties, &valid)?;
    Ok((valid, ties))
}
