//! What the form wants at a place of a document, by the end of the place's path. The phrases are those of docs/FORMATS.md.
ghost use Rattle.std.specs.Prelude.{◌≡◌};
ghost use Rattle.explanations.specs.Wanted.{before_point, behind_point, is_item, member_name};
ghost use Rattle.explanations.specs.Wanted.{item_wanted, member_wanted, wanted_at};
ghost use Rattle.explanations.specs.Wanted.{controllers_item, is_third, item_of_three, policies_item, services_item};
ghost use Rattle.explanations.specs.Wanted.{chain_member, configuration_member, controller_member, document_member};
ghost use Rattle.explanations.specs.Wanted.{edit_member, edited_member, event_member, expect_member, group_member, kind_member};
ghost use Rattle.explanations.specs.Wanted.{listed_member};
ghost use Rattle.explanations.specs.Wanted.{network_member, node_member, packet_member, policy_member, port_member};
ghost use Rattle.explanations.specs.Wanted.{rule_member, service_member, topology_member};

/// What is said of a place that the form does not have.
pub(crate) const NO_PHRASE: &str = "docs/FORMATS.md has it";

const OBJECT: &str = "an object";

const LIST: &str = "a list";

const NAME: &str = "a name of 1 to 32 of the characters a to z, 0 to 9, - and _";

const NODE_NAME: &str =
    "a name of 1 to 32 of the characters a to z, 0 to 9, - and _, but not config";

const NODE_ADDRESS: &str = "an address from 1.0.0.0 to 223.255.255.255";

const ADDRESS: &str = "an address such as 10.1.0.5";

const PORT_ID: &str = "a whole number from 0 to 524271";

const SIXTEEN_BITS: &str = "a whole number from 0 to 65535";

const EDIT: &str = "an object with one member, put or delete";

/// What is wanted at a path.
#[tactic(auto, unfolding(crate::specs::Wanted::wanted_at))]
pub(crate) fn wanted_at(path: &str) -> &'static str
    ensures { result.now ≡ wanted_at path.now }
{
    let (front, word) = cut_at_point(path);
    let (_, parent) = cut_at_point(front);
    if is_item(word) {
        item_wanted(member_name(parent), member_name(word), word)
    } else {
        member_wanted(member_name(parent), member_name(word))
    }
}

/// A path cut at its last point; where there is none, nothing and the path.
pub(crate) fn cut_at_point(path: &str) -> (&str, &str)
    ensures front { result.0.now ≡ before_point path.now }
    ensures back { result.1.now ≡ behind_point path.now }
{
    match path.rsplit_once('.') {
        Some(parts) => parts,
        None => ("", path),
    }
}

/// A member without the place of an item.
pub(crate) fn member_name(word: &str) -> &str
    ensures { result.now ≡ member_name word.now }
{
    match word.split_once('[') {
        Some((name, _)) => name,
        None => word,
    }
}

/// Whether a word leads to an item of its list.
fn is_item(word: &str) -> bool
    ensures { result ≡ is_item word.now }
{
    word.as_bytes().strip_suffix(b"]").is_some()
}

/// What is wanted of a member, by the word that stands before it in a path: the list that its object is in, or the
/// object's kind in an edit.
#[tactic(auto, unfolding(crate::specs::Wanted::member_wanted))]
fn member_wanted(parent: &str, member: &str) -> &'static str
    ensures { result.now ≡ member_wanted parent.now member.now }
{
    match parent {
        "" => document_member(member),
        "topology" => topology_member(member),
        "controllers" => controller_member(member),
        "nodes" | "node" => node_member(member),
        "configuration" => configuration_member(member),
        "networks" | "network" => network_member(member),
        "ports" | "port" => port_member(member),
        "policies" | "policy" => policy_member(member),
        "rules" => rule_member(member),
        "services" | "service" => service_member(member),
        "chains" | "chain" => chain_member(member),
        _ => listed_member(parent, member),
    }
}

/// What is wanted of a member of an object in a list of the commands.
#[tactic(auto, unfolding(crate::specs::Wanted::listed_member))]
fn listed_member(parent: &str, member: &str) -> &'static str
    ensures { result.now ≡ listed_member parent.now member.now }
{
    match parent {
        "packets" | "trace" => packet_member(member),
        "expect" => expect_member(member),
        "groups" => group_member(member),
        "events" | "steps" => event_member(member),
        _ => edited_member(parent, member),
    }
}

/// What is wanted of a member of an edit, of a put or of a delete.
#[tactic(auto, unfolding(crate::specs::Wanted::edited_member))]
fn edited_member(parent: &str, member: &str) -> &'static str
    ensures { result.now ≡ edited_member parent.now member.now }
{
    match parent {
        "edit" | "edits" => edit_member(member),
        "put" => kind_member(OBJECT, member),
        "delete" => kind_member(NAME, member),
        _ => NO_PHRASE,
    }
}

/// What is wanted of a document, which the empty path leads to, and of its members, whatever the command.
#[tactic(auto, unfolding(crate::specs::Wanted::document_member))]
fn document_member(member: &str) -> &'static str
    ensures { result.now ≡ document_member member.now }
{
    match member {
        "" | "topology" | "configuration" => OBJECT,
        "packets" | "groups" | "events" | "steps" | "edits" => LIST,
        "capacity" => "a whole number from 1 to 65535",
        _ => NO_PHRASE,
    }
}

/// What is wanted of a member of the topology.
#[tactic(auto, unfolding(crate::specs::Wanted::topology_member))]
fn topology_member(member: &str) -> &'static str
    ensures { result.now ≡ topology_member member.now }
{
    match member {
        "as" => "a whole number from 1 to 4294967294, neither 23456 nor 65535",
        "controllers" => "a list of at least one control node",
        "nodes" => "a list of at least one compute node",
        _ => NO_PHRASE,
    }
}

/// What is wanted of a member of a control node.
#[tactic(auto, unfolding(crate::specs::Wanted::controller_member))]
fn controller_member(member: &str) -> &'static str
    ensures { result.now ≡ controller_member member.now }
{
    match member {
        "name" => NODE_NAME,
        "address" => NODE_ADDRESS,
        _ => NO_PHRASE,
    }
}

/// What is wanted of a member of a compute node.
#[tactic(auto, unfolding(crate::specs::Wanted::node_member))]
fn node_member(member: &str) -> &'static str
    ensures { result.now ≡ node_member member.now }
{
    match member {
        "name" => NODE_NAME,
        "address" => NODE_ADDRESS,
        "controllers" => "a list of one or two names",
        _ => NO_PHRASE,
    }
}

/// What is wanted of a member of the configuration.
#[tactic(auto, unfolding(crate::specs::Wanted::configuration_member))]
fn configuration_member(member: &str) -> &'static str
    ensures { result.now ≡ configuration_member member.now }
{
    match member {
        "networks" | "ports" | "policies" | "services" | "chains" => LIST,
        _ => NO_PHRASE,
    }
}

/// What is wanted of a member of a network.
#[tactic(auto, unfolding(crate::specs::Wanted::network_member))]
fn network_member(member: &str) -> &'static str
    ensures { result.now ≡ network_member member.now }
{
    match member {
        "name" => "a name of 1 to 32 of the characters a to z, 0 to 9, - and _, but not any",
        "id" => "a whole number from 1 to 16383",
        "subnets" => "a list of prefixes",
        "policies" => "a list of names",
        _ => NO_PHRASE,
    }
}

/// What is wanted of a member of a port.
#[tactic(auto, unfolding(crate::specs::Wanted::port_member))]
fn port_member(member: &str) -> &'static str
    ensures { result.now ≡ port_member member.now }
{
    match member {
        "name" | "network" | "node" => NAME,
        "id" => PORT_ID,
        "address" => ADDRESS,
        _ => NO_PHRASE,
    }
}

/// What is wanted of a member of a policy.
#[tactic(auto, unfolding(crate::specs::Wanted::policy_member))]
fn policy_member(member: &str) -> &'static str
    ensures { result.now ≡ policy_member member.now }
{
    match member {
        "name" => NAME,
        "sequence" => SIXTEEN_BITS,
        "rules" => LIST,
        _ => NO_PHRASE,
    }
}

/// What is wanted of a member of a rule.
#[tactic(auto, unfolding(crate::specs::Wanted::rule_member))]
fn rule_member(member: &str) -> &'static str
    ensures { result.now ≡ rule_member member.now }
{
    match member {
        "direction" => "> or <>",
        "source" | "destination" =>
            "the name of a network, 1 to 32 of the characters a to z, 0 to 9, - and _, or any",
        "protocol" => "a whole number from 0 to 255, or any",
        "source_ports" | "destination_ports" =>
            "a list of two numbers, the first not above the second",
        "action" => "pass, deny or chain",
        "chain" => NAME,
        "use" => "a whole number from 0 to 3071",
        _ => NO_PHRASE,
    }
}

/// What is wanted of a member of a service.
#[tactic(auto, unfolding(crate::specs::Wanted::service_member))]
fn service_member(member: &str) -> &'static str
    ensures { result.now ≡ service_member member.now }
{
    match member {
        "name" | "node" => NAME,
        "id" => SIXTEEN_BITS,
        _ => NO_PHRASE,
    }
}

/// What is wanted of a member of a chain.
#[tactic(auto, unfolding(crate::specs::Wanted::chain_member))]
fn chain_member(member: &str) -> &'static str
    ensures { result.now ≡ chain_member member.now }
{
    match member {
        "name" => NAME,
        "hops" => "a list of at least one name",
        _ => NO_PHRASE,
    }
}

/// What is wanted of a member of a packet.
#[tactic(auto, unfolding(crate::specs::Wanted::packet_member))]
fn packet_member(member: &str) -> &'static str
    ensures { result.now ≡ packet_member member.now }
{
    match member {
        "port" => PORT_ID,
        "to" => ADDRESS,
        "protocol" => "a whole number from 0 to 255",
        "sport" | "dport" => SIXTEEN_BITS,
        "expect" =>
            "dropped, dropped and a reason such as denied, or an object with port and services",
        _ => NO_PHRASE,
    }
}

/// What is wanted of a member of what is expected of a packet that is delivered.
#[tactic(auto, unfolding(crate::specs::Wanted::expect_member))]
fn expect_member(member: &str) -> &'static str
    ensures { result.now ≡ expect_member member.now }
{
    match member {
        "port" => PORT_ID,
        "services" => "a list of numbers of services, in the order in which the packet passes them",
        _ => NO_PHRASE,
    }
}

/// What is wanted of a member of a group.
#[tactic(auto, unfolding(crate::specs::Wanted::group_member))]
fn group_member(member: &str) -> &'static str
    ensures { result.now ≡ group_member member.now }
{
    match member {
        "service" => "the name of a service of the configuration, which no earlier group names",
        "members" => "a list of 1 to 16 numbers, each below the next",
        _ => NO_PHRASE,
    }
}

/// What is wanted of a member of an event of a schedule, of an entry of a log or of a step. A member that two of these
/// share is the same in both.
#[tactic(auto, unfolding(crate::specs::Wanted::event_member))]
fn event_member(member: &str) -> &'static str
    ensures { result.now ≡ event_member member.now }
{
    match member {
        "edit" => EDIT,
        "deliver" | "deliver-bytes" | "break" => "a list of two names and a number",
        "lose" | "connect" => "a list of two names",
        "restart" | "show" => NAME,
        "trace" => OBJECT,
        "opened" =>
            "an OPEN without a fault of its frame or its parts, in pairs of hexadecimal digits",
        "update" =>
            "an UPDATE without a fault of its frame or its parts, in pairs of hexadecimal digits; its attributes may have faults",
        _ => NO_PHRASE,
    }
}

/// What is wanted of a member of an edit.
#[tactic(auto, unfolding(crate::specs::Wanted::edit_member))]
fn edit_member(member: &str) -> &'static str
    ensures { result.now ≡ edit_member member.now }
{
    match member {
        "put" | "delete" =>
            "an object with one member: network, port, policy, service, chain or node",
        _ => NO_PHRASE,
    }
}

/// What is wanted of a member of a put or a delete: one phrase for each kind of object.
#[tactic(auto, unfolding(crate::specs::Wanted::kind_member))]
fn kind_member(phrase: &'static str, member: &str) -> &'static str
    ensures { result.now ≡ kind_member phrase.now member.now }
{
    match member {
        "network" | "port" | "policy" | "service" | "chain" | "node" => phrase,
        _ => NO_PHRASE,
    }
}

/// What is wanted of an item of a list, by the member before it where two lists have one name, and by its place where it is
/// one of three.
#[tactic(auto, unfolding(crate::specs::Wanted::item_wanted))]
fn item_wanted(parent: &str, member: &str, word: &str) -> &'static str
    ensures { result.now ≡ item_wanted parent.now member.now word.now }
{
    match member {
        "controllers" => controllers_item(parent),
        "policies" => policies_item(parent),
        "services" => services_item(parent),
        "nodes" | "networks" | "ports" | "chains" | "rules" | "packets" | "groups" => OBJECT,
        "edits" => EDIT,
        "subnets" => "a prefix such as 10.1.0.0/24, with no bit set past its length",
        "source_ports" | "destination_ports" | "members" => SIXTEEN_BITS,
        "hops" | "lose" | "connect" => NAME,
        "deliver" | "deliver-bytes" | "break" => item_of_three(word),
        "steps" => "an object with one member, edit or trace",
        "events" =>
            "of run round, settle or an object with one member: edit, deliver, deliver-bytes, lose, connect, restart, show, trace or break; of graceful closed, expired, show or an object with one member: opened or update",
        _ => NO_PHRASE,
    }
}

/// What is wanted of an item of a list of two names and a number.
fn item_of_three(word: &str) -> &'static str
    ensures { result.now ≡ item_of_three word.now }
{
    if is_third(word) {
        "a whole number from 1 to 1000000"
    } else {
        NAME
    }
}

/// Whether a word leads to the third item of its list.
fn is_third(word: &str) -> bool
    ensures { result ≡ is_third word.now }
{
    word.as_bytes().strip_suffix(b"[2]").is_some()
}

/// What is wanted of an item of the controllers of a topology, or of a node.
#[tactic(auto, unfolding(crate::specs::Wanted::controllers_item))]
fn controllers_item(parent: &str) -> &'static str
    ensures { result.now ≡ controllers_item parent.now }
{
    match parent {
        "topology" => OBJECT,
        "nodes" | "node" => NAME,
        _ => NO_PHRASE,
    }
}

/// What is wanted of an item of the policies of a configuration, or of a network.
#[tactic(auto, unfolding(crate::specs::Wanted::policies_item))]
fn policies_item(parent: &str) -> &'static str
    ensures { result.now ≡ policies_item parent.now }
{
    match parent {
        "configuration" => OBJECT,
        "networks" | "network" => NAME,
        _ => NO_PHRASE,
    }
}

/// What is wanted of an item of the services of a configuration, or of those that a packet is expected to pass.
#[tactic(auto, unfolding(crate::specs::Wanted::services_item))]
fn services_item(parent: &str) -> &'static str
    ensures { result.now ≡ services_item parent.now }
{
    match parent {
        "configuration" => OBJECT,
        "expect" => SIXTEEN_BITS,
        _ => NO_PHRASE,
    }
}
