//! What is true of every step that is read, in the words of its subject.
ghost use Rattle.std.specs.Prelude.{codes, ◌∷◌, []};
ghost use Rattle.config_model.specs.EventLaws.{NotOneIsRange, OtherIsUnknown};
ghost use Rattle.config_model.specs.Laws.{FirstIsMissed, IsRead};
ghost use Rattle.flow_state.specs.Documents.{FlowsHasJust, NotObjectIsKind, StepHasJust};
ghost use Rattle.flow_state.specs.Documents.{flows_document, flows_form, step_document, step_form};
ghost use Rattle.flow_state.specs.Steps.{flows_at, step_at};

/// Each step, and what `flows` takes, if of the written form, has a document, which reads as it.
#[tactic(auto, using(crate::proofs::Read::step_is_read, crate::proofs::Read::flows_is_read))]
pub fn steps_are_read()
    ensures step { IsRead step_at step_form step_document }
    ensures flows { IsRead flows_at flows_form flows_document }
{}

/// A step has one member, and what `flows` takes has four; each has no other.
#[tactic(auto, using(crate::proofs::Just::step_has_just, crate::proofs::Just::flows_has_just, crate::proofs::Just::flows_missed))]
pub fn steps_have_just_their_members()
    ensures step { StepHasJust }
    ensures flows { FlowsHasJust }
    ensures first { FirstIsMissed flows_at (codes "topology") }
{}

/// An object in place of a step is out of range with no member or with more than one, and one member of another name
/// is unknown.
#[tactic(auto, using(crate::proofs::Faults::step_not_one, crate::proofs::Faults::step_unknown))]
pub fn steps_have_one_member()
    ensures not_one { NotOneIsRange step_at }
    ensures other { OtherIsUnknown step_at (codes "edit" ∷ codes "trace" ∷ []) }
{}

/// What is no object is no step: a text is of another kind, whatever it says.
#[tactic(auto, using(crate::proofs::Faults::no_step))]
pub fn texts_are_no_steps()
    ensures { NotObjectIsKind step_at }
{}
