//! What `hitless` takes.
use config_model::CompileInput;
use config_types::Edit;
use ov_types::Items;

/// What there is and what is configured, and the edits that follow.
#[derive(Drop)]
pub struct HitlessInput {
    pub input: CompileInput,
    pub edits: Items<Edit>,
}
