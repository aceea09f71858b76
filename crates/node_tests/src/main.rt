//! Cases of the tables that control nodes have, and of the configuration node, control nodes and agents over their links. Standard
//! input has them, with blank lines between, each step with what is wanted of it.
#![tactic(auto)]

mod agents;
mod answers;
mod cases;
mod changed;
mod changes;
mod configs;
mod controls;
mod counted;
mod flows;
mod held;
mod links;
mod listing;
mod nodes;
mod octets;
mod paths;
mod questions;
mod scene;
mod tables;
mod touched;
mod wanted;
mod words;

use crate::cases::play_all;
use case_lines::Tally;
use std::alloc::Global;
use std::io;

/// Plays the cases of a text, and prints how they went.
fn play(rt: &impl Print, alloc: Global, text: &str) -> io::Result<()> {
    let mut tally = Tally::new(alloc);
    let end = play_all(alloc, text, &mut tally);
    tally.print(rt, end)
}

fn main(rt: HostRuntime) -> io::Result<()> {
    let text = io::read_to_string(rt.alloc(), rt.stdin())?;
    play(&rt, rt.alloc(), text.as_str())
}
