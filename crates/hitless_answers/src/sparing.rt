//! Edits that interrupt nothing whatever they make: those that delete an object, and those that put one of a new name.
ghost use Rattle.std.specs.Prelude.{◌≡◌};
ghost use Rattle.hitless_answers.specs.Sparing.{has_chain, has_network, has_node, has_policy, has_port, has_service, is_known, replaces};

use config_check::Valid;
use config_types::{Config, Edit, Object, Topology};
use ov_types::Name;

fn has_network(config: &Config, name: &Name) -> bool
    ensures { result ≡ has_network config.now name.now }
{
    config
        .networks
        .as_slice()
        .iter()
        .any(|other| other.name == *name)
}

fn has_port(config: &Config, name: &Name) -> bool
    ensures { result ≡ has_port config.now name.now }
{
    config
        .ports
        .as_slice()
        .iter()
        .any(|other| other.name == *name)
}

fn has_policy(config: &Config, name: &Name) -> bool
    ensures { result ≡ has_policy config.now name.now }
{
    config
        .policies
        .as_slice()
        .iter()
        .any(|other| other.name == *name)
}

fn has_service(config: &Config, name: &Name) -> bool
    ensures { result ≡ has_service config.now name.now }
{
    config
        .services
        .as_slice()
        .iter()
        .any(|other| other.name == *name)
}

fn has_chain(config: &Config, name: &Name) -> bool
    ensures { result ≡ has_chain config.now name.now }
{
    config
        .chains
        .as_slice()
        .iter()
        .any(|other| other.name == *name)
}

fn has_node(topology: &Topology, name: &Name) -> bool
    ensures { result ≡ has_node topology.now name.now }
{
    topology
        .nodes
        .as_slice()
        .iter()
        .any(|other| other.name == *name)
}

/// Whether an object of the kind has the name already.
fn is_known(valid: &Valid, object: &Object) -> bool
    ensures { result ≡ is_known object.now valid.now }
{
    match object {
        Object::Network(x) => has_network(valid.config(), &x.name),
        Object::Port(x) => has_port(valid.config(), &x.name),
        Object::Policy(x) => has_policy(valid.config(), &x.name),
        Object::Service(x) => has_service(valid.config(), &x.name),
        Object::Chain(x) => has_chain(valid.config(), &x.name),
        Object::Node(x) => has_node(valid.topology(), &x.name),
    }
}

/// Whether an edit puts an object in the place of another.
pub(crate) fn replaces(valid: &Valid, edit: &Edit) -> bool
    ensures { result ≡ replaces edit.now valid.now }
{
    match edit {
        Edit::Put(object) => is_known(valid, object),
        Edit::Delete(..) => false,
    }
}
