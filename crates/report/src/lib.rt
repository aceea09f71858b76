//! Every text that the program writes: low-level objects, the rows of nodes, outcomes, refusals, answers, what messages
//! say, and what scenarios come to.
#![tactic(auto)]

mod answers;
mod entries;
mod line;
mod lined;
mod lines;
mod lists;
mod memberships;
mod objects;
mod outcomes;
mod refusals;
mod restarts;
mod rows;
mod summaries;
mod targets;

pub use answers::{answer_lines, tied_answer_lines};
pub use lined::LinesOf;
pub use lines::{
    drop_lines, fault_lines, incomplete_lines, notification_lines, open_lines, put_lines,
};
pub use memberships::{asked_lines, membership_lines, sent_lines};
pub use objects::{ObjectLines, low_lines};
pub use outcomes::{OutcomeLines, SpreadLines};
pub use refusals::{doc_fault_lines, refusal_lines};
pub use restarts::{did_lines, faulty_lines, held_lines, idle_lines, show_lines};
pub use rows::{
    AgentAclLines, AgentLabelLines, AgentRowLines, ControlRowLines, agent_lines, control_lines,
    node_lines,
};
pub use summaries::summary_lines;
pub use targets::{TargetsText, put_lines_of};
