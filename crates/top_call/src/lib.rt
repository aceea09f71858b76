//! All that the program does, as one call: from a source to a sink, what its words ask for. With the answers of the
//! commands that run a network. `run`: it takes the events of a schedule, and what they answer is written. `gen`: it takes
//! the events of a scenario and a trace of each of its packets, and what it answers is counted and summed up. `constrain`:
//! it settles, and what each control node asks of its peers is written, with how much of what they would tell it they send
//! then.
#![tactic(auto)]

mod answer;
mod asking;
mod command;
mod constraining;
mod generating;
mod laws;
mod running;
pub mod scenario_laws;
mod sending;
mod tally;
mod tallying;
mod top;
mod traces;

pub use constraining::answer_constrain;
pub use generating::answer_gen;
pub use laws::{each_input_has_a_text, numbers_are_decimal};
pub use net_machine::{Net, leave_none};
pub use running::answer_run;
pub use tally::Tally;
pub use tallying::{Ran, run_counted};
pub use top::{Status, overlay};
pub use traces::with_traces;
