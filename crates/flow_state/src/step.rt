//! Steps.
use config_model::CompileInput;
use config_types::Edit;
use ov_types::{Items, Packet};

/// One step of a replay of flows.
#[derive(Drop)]
pub enum FlowStep {
    /// A change of the configuration.
    Edit(Edit),
    /// What becomes of a packet now is asked for.
    Trace(Packet),
}

/// What there is and what is configured, how many flows a table has room for, and what happens.
#[derive(Drop)]
pub struct FlowsInput {
    pub input: CompileInput,
    pub capacity: u16,
    pub steps: Items<FlowStep>,
}
