//! Which members an object of a document may have, by the path of one of them.
ghost use Rattle.std.specs.Prelude.{◌≡◌};
ghost use Rattle.explanations.specs.Allowed.{allowed_at, begins_in_form, first_member, listed_members, members_of};

use crate::wanted::{NO_PHRASE, cut_at_point, member_name};

/// The members of the object that a path leads into.
#[tactic(auto, unfolding(crate::specs::Allowed::allowed_at))]
pub(crate) fn allowed_at(path: &str) -> &'static str
    ensures { result.now ≡ allowed_at path.now }
{
    let (front, _) = cut_at_point(path);
    if !begins_in_form(front) {
        return members_of("");
    }
    let (_, parent) = cut_at_point(front);
    members_of(member_name(parent))
}

/// Whether a path begins with a member of the document in which there are objects, or has no point.
#[tactic(auto, unfolding(crate::specs::Allowed::begins_in_form))]
fn begins_in_form(path: &str) -> bool
    ensures { result ≡ begins_in_form path.now }
{
    matches!(
        first_member(path),
        "" | "topology" | "configuration" | "packets" | "groups" | "events" | "steps" | "edits"
    )
}

/// The first member of a path, without the place of an item.
fn first_member(path: &str) -> &str
    ensures { result.now ≡ first_member path.now }
{
    match path.split_once('.') {
        Some((first, _)) => member_name(first),
        None => member_name(path),
    }
}

/// The members of an object: of that which stands in a list of this name, or under it.
#[tactic(auto, unfolding(crate::specs::Allowed::members_of))]
fn members_of(parent: &str) -> &'static str
    ensures { result.now ≡ members_of parent.now }
{
    match parent {
        "" =>
            "compile and constrain take topology and configuration, reach packets too, scale groups and packets, run events, flows capacity and steps, and graceful takes events alone; of inspect, ways, diff and unused take what compile takes, why and expect what reach takes, and hitless edits too",
        "topology" => "as, controllers and nodes",
        "controllers" => "name and address",
        "nodes" | "node" => "name, address and controllers",
        "configuration" => "networks, ports, policies, services and chains",
        "networks" | "network" => "name, id, subnets and policies",
        "ports" | "port" => "name, id, network, address and node",
        "policies" | "policy" => "name, sequence and rules",
        "rules" =>
            "direction, source, destination, protocol, source_ports, destination_ports and action, and with the action chain alone chain and use",
        "services" | "service" => "name, id and node",
        "chains" | "chain" => "name and hops",
        _ => listed_members(parent),
    }
}

/// The members that an object of a list of the commands may have, or of an edit in such a list.
#[tactic(auto, unfolding(crate::specs::Allowed::listed_members))]
fn listed_members(parent: &str) -> &'static str
    ensures { result.now ≡ listed_members parent.now }
{
    match parent {
        "packets" => "port, to, protocol, sport and dport, and for inspect expect also expect",
        "trace" => "port, to, protocol, sport and dport",
        "expect" => "port and services",
        "groups" => "service and members",
        "events" =>
            "one of edit, deliver, deliver-bytes, lose, connect, restart, show, trace and break in run, and of opened and update in graceful",
        "steps" => "one of edit and trace",
        "edit" | "edits" => "one of put and delete",
        "put" | "delete" => "one of network, port, policy, service, chain and node",
        _ => NO_PHRASE,
    }
}
