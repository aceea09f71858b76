//! Replies: where a rule of one direction lets a packet through, what answers it passes too, while its flow stands in a
//! table of bounded size. Steps of a replay of flows, their written form, the exact reader of it, and the answer of `flows`.
#![tactic(auto)]

mod answer;
mod answering;
mod flow;
pub mod laws;
mod lines;
mod passing;
mod player;
mod replaying;
mod script_laws;
mod script_reader;
mod step;
mod table;
mod towards;
mod uses;

pub use answer::FlowAnswer;
pub use answering::answer_flows;
pub use flow::Flow;
pub use player::Player;
pub use script_laws::{
    steps_are_read, steps_have_just_their_members, steps_have_one_member, texts_are_no_steps,
};
pub use script_reader::read_flows;
pub use step::{FlowStep, FlowsInput};
pub use table::FlowTable;
