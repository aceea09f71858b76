//! What a document has that the sentence on a run does not say.

use crate::events::{EventFault, strange_event};
use crate::holders::{Excess, excess_of};
use crate::references::{Reference, reference_to};
use explanations::{FormFault, FormKind, KeptInput, Refused, RuleKind, form_fault_in, refused_in};
use ov_io::value_of;
use serde_json::Value;
use std::alloc::Global;
use std::fmt;

/// A second sentence for people. It prints as a line, or as nothing.
#[derive(Clone, Copy)]
pub enum Hint {
    /// Nothing more is told.
    Untold,
    /// What a command takes.
    Takes(&'static str),
    /// Who refers to a name that is missing.
    Reference(Reference),
    /// What has more than it may have.
    Excess(Excess),
    /// Which event names what is not there.
    Event(EventFault),
}

impl fmt::Display for Hint {
    fn fmt<W: fmt::Write>(&self, f: &mut fmt::Formatter<W>) -> fmt::Result {
        match self {
            Hint::Untold => Ok(()),
            Hint::Takes(taken) => write!(f, "overlay: {taken}\n"),
            Hint::Reference(reference) => write!(f, "overlay: {reference}\n"),
            Hint::Excess(excess) => write!(f, "overlay: {excess}\n"),
            Hint::Event(fault) => write!(f, "overlay: {fault}\n"),
        }
    }
}

/// What is said beside the sentence on a run of a command, by the front of what it wrote and by what was kept of its input.
pub fn hint_on(alloc: Global, command: &str, front: &[u8], heard: &KeptInput) -> Hint {
    if let Some(refused) = refused_in(front) {
        return rule_hint(alloc, refused, heard);
    }
    if let Some(fault) = form_fault_in(front) {
        return form_hint(command, fault);
    }
    match command {
        "run" => event_hint(alloc, heard),
        _ => Hint::Untold,
    }
}

/// The document that was kept, where there is memory for it.
fn document_of(alloc: Global, heard: &KeptInput) -> Option<Value> {
    match heard {
        KeptInput::Document(octets) => match value_of(alloc, octets.as_slice()) {
            Ok(found) => found,
            Err(_) => None,
        },
        _ => None,
    }
}

fn rule_hint(alloc: Global, refused: Refused<'_>, heard: &KeptInput) -> Hint {
    match document_of(alloc, heard) {
        Some(document) => rule_hint_in(&document, refused),
        None => Hint::Untold,
    }
}

fn rule_hint_in(document: &Value, refused: Refused<'_>) -> Hint {
    match refused.rule {
        RuleKind::BadReference => match reference_to(document, refused.first) {
            Some(reference) => Hint::Reference(reference),
            None => Hint::Untold,
        },
        RuleKind::Limit => match excess_of(document, refused.first) {
            Some(excess) => Hint::Excess(excess),
            None => Hint::Untold,
        },
        _ => Hint::Untold,
    }
}

fn event_hint(alloc: Global, heard: &KeptInput) -> Hint {
    match document_of(alloc, heard) {
        Some(document) => event_hint_in(alloc, &document),
        None => Hint::Untold,
    }
}

fn event_hint_in(alloc: Global, document: &Value) -> Hint {
    match strange_event(alloc, document) {
        Ok(Some(fault)) => Hint::Event(fault),
        _ => Hint::Untold,
    }
}

/// What the command takes, where a member of the whole document is none of it.
fn form_hint(command: &str, fault: FormFault<'_>) -> Hint {
    match fault.kind {
        FormKind::Unknown if is_of_document(fault.path) => takes(command),
        _ => Hint::Untold,
    }
}

/// Whether a path leads to a member of the whole document: it does not begin with one that may have members.
fn is_of_document(path: &str) -> bool {
    match path.split_once('.') {
        Some((first, _)) => !is_member(first),
        None => true,
    }
}

fn is_member(word: &str) -> bool {
    let name = match word.split_once('[') {
        Some((name, _)) => name,
        None => word,
    };
    matches!(
        name,
        "topology" | "configuration" | "packets" | "groups" | "events" | "steps"
    )
}

fn takes(command: &str) -> Hint {
    match command {
        "compile" => Hint::Takes("compile takes topology and configuration"),
        "constrain" => Hint::Takes("constrain takes topology and configuration"),
        "reach" => Hint::Takes("reach takes topology, configuration and packets"),
        "scale" => Hint::Takes("scale takes topology, configuration, groups and packets"),
        "run" => Hint::Takes("run takes topology, configuration and events"),
        "flows" => Hint::Takes("flows takes topology, configuration, capacity and steps"),
        "graceful" => Hint::Takes("graceful takes events alone"),
        _ => Hint::Untold,
    }
}
