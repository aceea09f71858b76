//! A control node: octets in, octets out, over any link.
#![tactic(auto)]

mod begin;
mod cause;
mod closing;
mod coming;
mod ends;
mod going;
mod inputs;
pub mod laws;
mod looking;
mod making;
mod node;
mod offering;
mod plan;
mod planning;
mod seating;
mod taking;

pub use cause::NodeCause;
pub use node::ControlNode;
pub use plan::ControlPlan;
