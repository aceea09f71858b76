//! Documents: the exact readers of the written form of topologies, configurations, edits and events.
#![tactic(auto)]

mod bounds;
mod config_reader;
mod edit_reader;
mod event_laws;
mod event_reader;
mod fault;
mod fields;
mod input;
mod laws;
mod one_member;
pub mod reading;
mod rule_reader;
mod topology_reader;
mod values;

pub use config_reader::read_config;
pub use config_types::{
    Action, Chain, Config, Direction, Edit, End, Event, Network, Node, Object, ObjectKind, Policy,
    Port, Protocol, Rule, Service, Topology,
};
pub use edit_reader::read_edit;
pub use event_laws::{
    events_are_read, events_have_just_their_members, objects_have_one_member,
    other_values_are_no_events, other_words_are_unknown,
};
pub use event_reader::{read_events, read_run};
pub use fault::{DocFault, DocKind, ReadRefusal};
pub use input::{CompileInput, ReachInput, RunInput, read_compile, read_packet, read_reach};
pub use laws::{
    configurations_are_read, configurations_have_just_their_members, first_members_are_missed,
    inputs_are_read, inputs_have_just_their_members, lists_are_of_allowed_lengths,
    numbers_are_whole_and_within_bounds, other_texts_are_out_of_range, texts_are_of_their_kind,
    topologies_are_read, topologies_have_just_their_members,
};
pub use topology_reader::read_topology;
