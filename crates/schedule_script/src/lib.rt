//! Schedules: the events of a run, what each answers, and the ties that runs keep.
#![tactic(auto)]

mod addressing;
mod answer;
mod breaking;
mod edits;
mod joining;
mod kept;
pub mod laws;
mod naming;
mod relating;
mod texts;
mod tied_answer;

pub use answer::Answer;
pub use breaking::Tie;
pub use config_model::{Event, RunInput, read_events, read_run};
pub use edits::{TiedFault, TiedRefusal, apply_tied_edit};
pub use kept::Ties;
pub use tied_answer::TiedAnswer;
