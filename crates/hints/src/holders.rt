//! Objects of a document, and members of theirs that break a rule.

use ov_types::Name;
use serde_json::Value;
use std::fmt;

/// A member of each object of a list. Those of a rule are told of its policy.
#[derive(Clone, Copy, Debug, PartialEq, Eq)]
pub enum Member {
    NodeControllers,
    NetworkSubnets,
    NetworkPolicies,
    PortNetwork,
    PortNode,
    PolicyRules,
    RuleSource,
    RuleDestination,
    RuleChain,
    ServiceNode,
    ChainHops,
}

impl Member {
    /// Under which member of the document the list of objects stands.
    pub(crate) fn part(self) -> &'static str {
        match self {
            Member::NodeControllers => "topology",
            _ => "configuration",
        }
    }

    /// What the list of objects is called.
    pub(crate) fn list(self) -> &'static str {
        match self {
            Member::NodeControllers => "nodes",
            Member::NetworkSubnets | Member::NetworkPolicies => "networks",
            Member::PortNetwork | Member::PortNode => "ports",
            Member::ServiceNode => "services",
            Member::ChainHops => "chains",
            _ => "policies",
        }
    }

    /// What one of the objects is called.
    fn kind(self) -> &'static str {
        match self {
            Member::NodeControllers => "compute node",
            Member::NetworkSubnets | Member::NetworkPolicies => "network",
            Member::PortNetwork | Member::PortNode => "port",
            Member::ServiceNode => "service",
            Member::ChainHops => "chain",
            _ => "policy",
        }
    }

    /// What the member of an object is called.
    pub(crate) fn word(self) -> &'static str {
        match self {
            Member::NodeControllers => "controllers",
            Member::NetworkSubnets => "subnets",
            Member::NetworkPolicies => "policies",
            Member::PortNetwork => "network",
            Member::PortNode | Member::ServiceNode => "node",
            Member::ChainHops => "hops",
            _ => "rules",
        }
    }
}

/// One of the objects that have a member, by its name and by its place in their list.
#[derive(Clone, Copy)]
pub struct Holder {
    pub member: Member,
    pub name: Name,
    pub at: usize,
}

impl Holder {
    /// What the object is called.
    pub(crate) fn kind(&self) -> &'static str {
        self.member.kind()
    }
}

/// A holder prints as the path of its member.
impl fmt::Display for Holder {
    fn fmt<W: fmt::Write>(&self, f: &mut fmt::Formatter<W>) -> fmt::Result {
        let (part, list, word) = (self.member.part(), self.member.list(), self.member.word());
        let at = self.at;
        write!(f, "{part}.{list}[{at}].{word}")
    }
}

/// An object whose member has more than it may have, and how much.
#[derive(Clone, Copy)]
pub struct Excess {
    pub holder: Holder,
    pub count: usize,
}

impl fmt::Display for Excess {
    fn fmt<W: fmt::Write>(&self, f: &mut fmt::Formatter<W>) -> fmt::Result {
        let kind = self.holder.kind();
        let name = self.holder.name;
        let count = self.count;
        let holder = &self.holder;
        write!(f, "{kind} {name} has {count}, at {holder}")
    }
}

/// The objects of a list.
pub(crate) fn objects_of<'v>(document: &'v Value, part: &str, list: &str) -> Option<&'v [Value]> {
    let objects = document.get(part)?.get(list)?.as_array()?;
    Some(objects.as_slice())
}

pub(crate) fn name_of(value: &Value) -> Option<Name> {
    Name::new(value.as_str()?)
}

pub(crate) fn holder_of(object: &Value, member: Member, at: usize) -> Option<Holder> {
    let name = name_of(object.get("name")?)?;
    Some(Holder { member, name, at })
}

/// The member that a limit is of which each object has for itself.
fn limited(word: &str) -> Option<Member> {
    match word {
        "subnets" => Some(Member::NetworkSubnets),
        "attachments" => Some(Member::NetworkPolicies),
        "rules" => Some(Member::PolicyRules),
        "hops" => Some(Member::ChainHops),
        _ => None,
    }
}

/// How much there may be in a member.
fn most_in(member: Member) -> usize {
    match member {
        Member::NetworkSubnets | Member::NetworkPolicies => 4,
        Member::PolicyRules => 16,
        _ => 64,
    }
}

fn count_in(object: &Value, word: &str) -> usize {
    match object.get(word) {
        Some(value) => match value.as_array() {
            Some(items) => items.len(),
            None => 0,
        },
        None => 0,
    }
}

/// The first object that has more than it may have, by the word for what is counted.
pub(crate) fn excess_of(document: &Value, word: &str) -> Option<Excess> {
    let member = limited(word)?;
    for (at, object) in objects_of(document, member.part(), member.list())?
        .iter()
        .enumerate()
    {
        let count = count_in(object, member.word());
        if count > most_in(member) {
            let holder = holder_of(object, member, at)?;
            return Some(Excess { holder, count });
        }
    }
    None
}
