//! Objects of a document that refer to a name which nothing of the wanted kind has.

use crate::holders::{Holder, Member, holder_of, objects_of};
use serde_json::Value;
use std::fmt;

/// An object that refers to a name, and the place of that in the list that its member is.
#[derive(Clone, Copy)]
pub struct Reference {
    pub holder: Holder,
    pub place: usize,
}

impl fmt::Display for Reference {
    fn fmt<W: fmt::Write>(&self, f: &mut fmt::Formatter<W>) -> fmt::Result {
        let kind = self.holder.kind();
        let name = self.holder.name;
        let wanted = wanted_by(self.holder.member);
        let holder = &self.holder;
        let place = self.place;
        write!(
            f,
            "{kind} {name} wants a {wanted} of that name, at {holder}"
        )?;
        match self.holder.member {
            Member::RuleSource => write!(f, "[{place}].source"),
            Member::RuleDestination => write!(f, "[{place}].destination"),
            Member::RuleChain => write!(f, "[{place}].chain"),
            Member::PortNetwork | Member::PortNode | Member::ServiceNode => Ok(()),
            _ => write!(f, "[{place}]"),
        }
    }
}

/// All members that refer to names, in the order in which the program looks at them.
static REFERRING: [Member; 9] = [
    Member::NodeControllers,
    Member::NetworkPolicies,
    Member::PortNetwork,
    Member::PortNode,
    Member::RuleSource,
    Member::RuleDestination,
    Member::RuleChain,
    Member::ServiceNode,
    Member::ChainHops,
];

/// The kind of the object that a member refers to.
fn wanted_by(member: Member) -> &'static str {
    match member {
        Member::NodeControllers => "control node",
        Member::PortNode | Member::ServiceNode => "compute node",
        Member::NetworkPolicies => "policy",
        Member::RuleChain => "chain",
        Member::ChainHops => "service or chain",
        _ => "network",
    }
}

fn is_text(value: &Value, text: &str) -> bool {
    match value.as_str() {
        Some(found) => found == text,
        None => false,
    }
}

fn has_text(object: &Value, member: &str, text: &str) -> bool {
    match object.get(member) {
        Some(value) => is_text(value, text),
        None => false,
    }
}

/// Whether an object of a list has a name.
fn is_given(document: &Value, part: &str, list: &str, name: &str) -> bool {
    match objects_of(document, part, list) {
        Some(objects) => objects.iter().any(|object| has_text(object, "name", name)),
        None => false,
    }
}

/// Whether an object of the kind that a member refers to has a name.
fn exists(document: &Value, member: Member, name: &str) -> bool {
    match member {
        Member::NodeControllers => is_given(document, "topology", "controllers", name),
        Member::PortNode | Member::ServiceNode => is_given(document, "topology", "nodes", name),
        Member::NetworkPolicies => is_given(document, "configuration", "policies", name),
        Member::RuleChain => is_given(document, "configuration", "chains", name),
        Member::ChainHops => is_given(document, "configuration", "services", name)
            || is_given(document, "configuration", "chains", name),
        _ => is_given(document, "configuration", "networks", name),
    }
}

/// Whether an item of a member's list refers to a name. What `any` stands for at an end of a rule is no network.
fn refers(item: &Value, member: Member, name: &str) -> bool {
    match member {
        Member::RuleSource => name != "any" && has_text(item, "source", name),
        Member::RuleDestination => name != "any" && has_text(item, "destination", name),
        Member::RuleChain => has_text(item, "chain", name),
        _ => is_text(item, name),
    }
}

/// The place of the first item that refers to a name.
fn place_among(items: &[Value], member: Member, name: &str) -> Option<usize> {
    for (place, item) in items.iter().enumerate() {
        if refers(item, member, name) {
            return Some(place);
        }
    }
    None
}

/// The place in the list that a member is where it refers to a name, and 0 where it is no list.
fn place_in(object: &Value, member: Member, name: &str) -> Option<usize> {
    let value = object.get(member.word())?;
    match value.as_array() {
        Some(items) => place_among(items.as_slice(), member, name),
        None if is_text(value, name) => Some(0),
        None => None,
    }
}

/// The first of the objects with a member that refers to a name.
fn reference_by(document: &Value, member: Member, name: &str) -> Option<Reference> {
    for (at, object) in objects_of(document, member.part(), member.list())?
        .iter()
        .enumerate()
    {
        if let Some(place) = place_in(object, member, name) {
            let holder = holder_of(object, member, at)?;
            return Some(Reference { holder, place });
        }
    }
    None
}

/// The first object that refers to a name which nothing of the wanted kind has.
pub(crate) fn reference_to(document: &Value, name: &str) -> Option<Reference> {
    for member in REFERRING {
        if !exists(document, member, name) {
            if let Some(reference) = reference_by(document, member, name) {
                return Some(reference);
            }
        }
    }
    None
}
