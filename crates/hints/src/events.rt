//! Events of a schedule that name what is not there.

use crate::holders::name_of;
use crate::nodes::{Cast, is_config};
use ov_types::Name;
use serde_json::Value;
use std::alloc::{AllocError, Global};
use std::fmt;

/// What is named that is not there: a node, a session of two nodes, or a node of a kind that has no such event.
#[derive(Clone, Copy)]
pub enum Strange {
    Node(Name),
    /// The configuration node, where a control node or a compute node is to be named.
    Configuration,
    Session(Name, Name),
}

/// The first event that names what is not there, by its number.
#[derive(Clone, Copy)]
pub struct EventFault {
    pub number: usize,
    pub strange: Strange,
}

impl fmt::Display for EventFault {
    fn fmt<W: fmt::Write>(&self, f: &mut fmt::Formatter<W>) -> fmt::Result {
        let number = self.number;
        match self.strange {
            Strange::Node(name) => {
                write!(f, "event {number} names {name}, and no such node is there")
            }
            Strange::Configuration => write!(
                f,
                "event {number} names config, which is neither restarted nor shown"
            ),
            Strange::Session(first, second) => write!(
                f,
                "event {number} names a session of {first} and {second}, and they have none"
            ),
        }
    }
}

/// The members of an event that name a session.
static OF_SESSIONS: [&str; 5] = ["deliver", "deliver-bytes", "lose", "connect", "break"];

/// The members of an event that name a node.
static OF_NODES: [&str; 2] = ["restart", "show"];

/// What a list of names of two nodes has that is not there.
fn strange_session(cast: &Cast, names: &Value) -> Option<Strange> {
    let first = name_of(names.get(0usize)?)?;
    let second = name_of(names.get(1usize)?)?;
    if !cast.has(&first) && !is_config(&first) {
        return Some(Strange::Node(first));
    }
    if !cast.has(&second) && !is_config(&second) {
        return Some(Strange::Node(second));
    }
    if cast.joins(&first, &second) {
        return None;
    }
    Some(Strange::Session(first, second))
}

fn strange_node(cast: &Cast, value: &Value) -> Option<Strange> {
    let name = name_of(value)?;
    if cast.has(&name) {
        return None;
    }
    if is_config(&name) {
        return Some(Strange::Configuration);
    }
    Some(Strange::Node(name))
}

fn strange_of_sessions(cast: &Cast, event: &Value) -> Option<Strange> {
    for member in OF_SESSIONS {
        if let Some(names) = event.get(member) {
            return strange_session(cast, names);
        }
    }
    None
}

fn strange_of_nodes(cast: &Cast, event: &Value) -> Option<Strange> {
    for member in OF_NODES {
        if let Some(name) = event.get(member) {
            return strange_node(cast, name);
        }
    }
    None
}

/// The compute node that an event puts.
fn put_of(event: &Value) -> Option<&Value> {
    event.get("edit")?.get("put")?.get("node")
}

fn first_strange(cast: &mut Cast, events: &[Value]) -> Result<Option<EventFault>, AllocError> {
    for (index, event) in events.iter().enumerate() {
        if let Some(strange) = strange_of_sessions(cast, event).or(strange_of_nodes(cast, event)) {
            let number = index.saturating_add(1);
            return Ok(Some(EventFault { number, strange }));
        }
        if let Some(agent) = put_of(event) {
            cast.hear_agent(agent)?;
        }
    }
    Ok(None)
}

fn events_of(document: &Value) -> Option<&[Value]> {
    let events = document.get("events")?.as_array()?;
    Some(events.as_slice())
}

/// The first event that names a node or a session which neither the topology has nor an earlier edit puts.
pub(crate) fn strange_event(
    alloc: Global,
    document: &Value,
) -> Result<Option<EventFault>, AllocError> {
    let Some(events) = events_of(document) else {
        return Ok(None);
    };
    let mut cast = Cast::new(alloc);
    cast.hear_topology(document)?;
    first_strange(&mut cast, events)
}
