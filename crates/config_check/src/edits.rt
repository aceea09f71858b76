//! Edits of a valid configuration.
ghost use Rattle.std.specs.Prelude.{◌≡◌, None, IfOk, IfErr, IsTrue};
ghost use Rattle.config_types.specs.Form.{has_edit_form};
ghost use Rattle.config_check.specs.Edits.{has_object, with_object, without_object, with_node, without_node};
ghost use Rattle.config_check.specs.Edits.{edited, edited_config, edited_topology, missing_name, edit_fault};
ghost use Rattle.config_check.specs.Edits.{RefusesEdit};

use crate::named::{place_of, with_put, without};
use crate::refusal::{CheckRefusal, Refusal};
use crate::valid::{Valid, check, copied_config, copied_topology};
use config_types::{Config, Edit, Object, ObjectKind, Topology};
use ov_types::{Name, NoMemory};
use std::alloc::{AllocError, Global};
use thiserror::Error;

/// Why an edit is not made.
#[derive(Clone, Copy, Debug, PartialEq, Eq, Error)]
pub enum EditFault {
    /// No object of the kind has the deleted name.
    #[error("Missing {name}")]
    Missing { name: Name },
    /// The edited configuration would break a rule.
    #[error(transparent)]
    Rule(Refusal),
}

/// Why an edited configuration was not answered.
#[derive(Clone, Copy, Debug, PartialEq, Eq, Error)]
pub enum EditRefusal {
    #[error(transparent)]
    Edit(EditFault),
    #[error("no memory")]
    NoMemory,
}

impl From<NoMemory> for EditRefusal {
    ghost use Rattle.std.specs.Prelude.{◌≡◌};
    ghost use Rattle.config_check.specs.declared.edits.EditRefusal.TheVariants.{NoMemory as WantsMemory};

    ghost from_gives = { λ _ e. e ≡ WantsMemory };

    fn from(_e: NoMemory) -> EditRefusal {
        EditRefusal::NoMemory
    }
}

impl From<AllocError> for EditRefusal {
    ghost use Rattle.std.specs.Prelude.{◌≡◌};
    ghost use Rattle.config_check.specs.declared.edits.EditRefusal.TheVariants.{NoMemory as WantsMemory};

    ghost from_gives = { λ _ e. e ≡ WantsMemory };

    fn from(_e: AllocError) -> EditRefusal {
        EditRefusal::NoMemory
    }
}

/// Whether an object of a kind has a name.
fn has_object(topology: &Topology, config: &Config, kind: ObjectKind, name: Name) -> bool
    ensures { result ≡ has_object kind name (record { topology = topology.now; config = config.now }) }
{
    match kind {
        ObjectKind::Network => place_of(config.networks.as_slice(), name).is_some(),
        ObjectKind::Port => place_of(config.ports.as_slice(), name).is_some(),
        ObjectKind::Policy => place_of(config.policies.as_slice(), name).is_some(),
        ObjectKind::Service => place_of(config.services.as_slice(), name).is_some(),
        ObjectKind::Chain => place_of(config.chains.as_slice(), name).is_some(),
        ObjectKind::Node => place_of(topology.nodes.as_slice(), name).is_some(),
    }
}

/// The name that an edit deletes, where no object of its kind has it.
#[tactic(auto, unfolding(crate::specs::Edits::missing_name))]
fn missing_name(topology: &Topology, config: &Config, edit: &Edit) -> Option<Name>
    ensures { result ≡ missing_name edit.now (record { topology = topology.now; config = config.now }) }
{
    match edit {
        Edit::Put(_) => None,
        Edit::Delete(kind, name) => {
            if has_object(topology, config, *kind, *name) {
                None
            } else {
                Some(*name)
            }
        }
    }
}

fn with_object(config: Config, object: Object) -> Result<Config, NoMemory>
    ensures { IfOk result (λ c. c ≡ with_object object config) }
{
    match object {
        Object::Network(network) => Ok(Config {
            networks: with_put(config.networks, network)?,
            ..config
        }),
        Object::Port(port) => Ok(Config {
            ports: with_put(config.ports, port)?,
            ..config
        }),
        Object::Policy(policy) => Ok(Config {
            policies: with_put(config.policies, policy)?,
            ..config
        }),
        Object::Service(service) => Ok(Config {
            services: with_put(config.services, service)?,
            ..config
        }),
        Object::Chain(chain) => Ok(Config {
            chains: with_put(config.chains, chain)?,
            ..config
        }),
        Object::Node(_) => Ok(config),
    }
}

fn without_object(config: Config, kind: ObjectKind, name: Name) -> Config
    ensures { result ≡ without_object kind name config }
{
    match kind {
        ObjectKind::Network => Config {
            networks: without(config.networks, name),
            ..config
        },
        ObjectKind::Port => Config {
            ports: without(config.ports, name),
            ..config
        },
        ObjectKind::Policy => Config {
            policies: without(config.policies, name),
            ..config
        },
        ObjectKind::Service => Config {
            services: without(config.services, name),
            ..config
        },
        ObjectKind::Chain => Config {
            chains: without(config.chains, name),
            ..config
        },
        ObjectKind::Node => config,
    }
}

fn with_node(topology: Topology, object: Object) -> Result<Topology, NoMemory>
    ensures { IfOk result (λ t. t ≡ with_node object topology) }
{
    match object {
        Object::Node(node) => Ok(Topology {
            nodes: with_put(topology.nodes, node)?,
            ..topology
        }),
        _ => Ok(topology),
    }
}

fn without_node(topology: Topology, kind: ObjectKind, name: Name) -> Topology
    ensures { result ≡ without_node kind name topology }
{
    match kind {
        ObjectKind::Node => Topology {
            nodes: without(topology.nodes, name),
            ..topology
        },
        _ => topology,
    }
}

fn copied_object(object: &Object) -> Result<Object, AllocError>
    ensures { IfOk result (λ x. x ≡ object.now) }
{
    object.clone()
}

/// What an edit makes of a configuration.
#[tactic(auto, unfolding(crate::specs::Edits::edited_config))]
fn edited_config(config: &Config, edit: &Edit) -> Result<Config, NoMemory>
    ensures { IfOk result (λ c. c ≡ edited_config edit.now config.now) }
{
    let config = copied_config(config)?;
    match edit {
        Edit::Put(object) => with_object(config, copied_object(object)?),
        Edit::Delete(kind, name) => Ok(without_object(config, *kind, *name)),
    }
}

/// What an edit makes of a topology.
#[tactic(auto, unfolding(crate::specs::Edits::edited_topology))]
fn edited_topology(topology: &Topology, edit: &Edit) -> Result<Topology, NoMemory>
    ensures { IfOk result (λ t. t ≡ edited_topology edit.now topology.now) }
{
    let topology = copied_topology(topology)?;
    match edit {
        Edit::Put(object) => with_node(topology, copied_object(object)?),
        Edit::Delete(kind, name) => Ok(without_node(topology, *kind, *name)),
    }
}

/// Answers the edited topology and configuration where they are valid. A put replaces the object of the same kind and
/// name in its place, or is appended; a delete removes it. An error leaves all as it was.
#[tactic(auto, using(crate::proofs::Edited::form_is_kept, crate::proofs::Edited::nodes_form_is_kept), unfolding(crate::specs::Edits::edit_fault))]
pub fn apply_edit(alloc: Global, valid: &Valid, edit: &Edit) -> Result<Valid, EditRefusal>
    requires { IsTrue (has_edit_form edit.now) }
    ensures ok { IfOk result (λ v. v ≡ edited edit.now valid.now) }
    ensures accepted { IfOk result (λ v. edit_fault valid.now edit.now ≡ None) }
    ensures refused { IfErr result (λ e. RefusesEdit e (edit_fault valid.now edit.now)) }
{
    if let Some(name) = missing_name(valid.topology(), valid.config(), edit) {
        return Err(EditRefusal::Edit(EditFault::Missing { name }));
    }
    let topology = edited_topology(valid.topology(), edit)?;
    let config = edited_config(valid.config(), edit)?;
    match check(alloc, topology, config) {
        Ok(valid) => Ok(valid),
        Err(CheckRefusal::Rule(refusal)) => Err(EditRefusal::Edit(EditFault::Rule(refusal))),
        Err(CheckRefusal::NoMemory) => Err(EditRefusal::NoMemory),
    }
}
