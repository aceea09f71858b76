//! Cases: tables or nodes of one kind, and steps with what is wanted of each.

use crate::nodes::Node;
use crate::scene::Scene;
use crate::tables;
use agent_node::AgentNode;
use case_lines::{CaseFault, Tally, count_all};
use config_node::ConfigNode;
use control_node::ControlNode;
use ov_io::TextOut;
use ov_types::NoMemory;
use std::alloc::Global;

/// Plays the cases of a text, which stand between blank lines.
pub(crate) fn play_all(alloc: Global, text: &str, tally: &mut Tally) -> Result<(), NoMemory> {
    for case in text.split("\n\n") {
        play(alloc, case, tally)?;
    }
    Ok(())
}

/// Plays a case. Its first line has its kind and its name, and each other line a step.
fn play(alloc: Global, case: &str, tally: &mut Tally) -> Result<(), NoMemory> {
    let (head, steps) = case.split_once("\n").unwrap_or((case, ""));
    let (kind, name) = head.split_once(" ").unwrap_or((head, ""));
    match kind {
        "#" => Ok(()),
        "tables" => tables::play(alloc, name, steps, tally),
        "config" => play_at::<ConfigNode>(alloc, name, steps, tally),
        "control" => play_at::<ControlNode>(alloc, name, steps, tally),
        "agent" => play_at::<AgentNode>(alloc, name, steps, tally),
        _ => tally.miss(name, kind, CaseFault::Unreadable),
    }
}

/// Plays the steps of a case at nodes that they make.
fn play_at<N: Node>(
    alloc: Global,
    name: &str,
    steps: &str,
    tally: &mut Tally,
) -> Result<(), NoMemory> {
    let mut scene = Scene::<N>::new(alloc);
    count_all(alloc, name, steps, &mut scene, tally)
}

/// Whether a step came to what is wanted. Where nothing was told, it came to none.
pub(crate) fn is_wanted(wanted: &str, came: &TextOut) -> bool {
    let told = came.octets();
    if told.is_empty() {
        wanted == "none"
    } else {
        told == wanted.as_bytes()
    }
}
