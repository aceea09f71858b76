//! The nodes and the sessions of a document, with those that its edits put.

use crate::holders::{name_of, objects_of};
use ov_types::Name;
use serde_json::Value;
use std::alloc::{AllocError, Global};
use std::collections::BTreeSet;

/// The names of control nodes and of compute nodes, and of each of these with each control node that it lists.
#[derive(Drop)]
pub(crate) struct Cast {
    controls: BTreeSet<Name>,
    agents: BTreeSet<Name>,
    listed: BTreeSet<(Name, Name)>,
}

impl Cast {
    /// The names of no node.
    pub(crate) fn new(alloc: Global) -> Cast {
        Cast {
            controls: BTreeSet::new(alloc),
            agents: BTreeSet::new(alloc),
            listed: BTreeSet::new(alloc),
        }
    }

    /// Adds the nodes of a document.
    pub(crate) fn hear_topology(&mut self, document: &Value) -> Result<(), AllocError> {
        if let Some(controls) = objects_of(document, "topology", "controllers") {
            self.hear_controls(controls)?;
        }
        if let Some(agents) = objects_of(document, "topology", "nodes") {
            self.hear_agents(agents)?;
        }
        Ok(())
    }

    fn hear_controls(&mut self, controls: &[Value]) -> Result<(), AllocError> {
        for control in controls {
            if let Some(name) = name_in(control) {
                self.controls.insert(name)?;
            }
        }
        Ok(())
    }

    fn hear_agents(&mut self, agents: &[Value]) -> Result<(), AllocError> {
        for agent in agents {
            self.hear_agent(agent)?;
        }
        Ok(())
    }

    /// Adds a compute node.
    pub(crate) fn hear_agent(&mut self, agent: &Value) -> Result<(), AllocError> {
        let Some(name) = name_in(agent) else {
            return Ok(());
        };
        self.agents.insert(name)?;
        if let Some(list) = agent.get("controllers") {
            if let Some(controls) = list.as_array() {
                self.hear_listed(name, controls.as_slice())?;
            }
        }
        Ok(())
    }

    fn hear_listed(&mut self, agent: Name, controls: &[Value]) -> Result<(), AllocError> {
        for control in controls {
            if let Some(name) = name_of(control) {
                self.listed.insert((agent, name))?;
            }
        }
        Ok(())
    }

    /// Whether a control node or a compute node has a name.
    pub(crate) fn has(&self, name: &Name) -> bool {
        self.controls.contains(name) || self.agents.contains(name)
    }

    /// Whether there is a session of two nodes.
    pub(crate) fn joins(&self, first: &Name, second: &Name) -> bool {
        self.leads(first, second) || self.leads(second, first)
    }

    /// Whether there is a session from a node to a control node.
    fn leads(&self, from: &Name, to: &Name) -> bool {
        if !self.controls.contains(to) {
            return false;
        }
        if is_config(from) {
            return true;
        }
        if self.controls.contains(from) {
            return from != to;
        }
        self.listed.contains(&(*from, *to))
    }
}

/// Whether a name is that of the configuration node.
pub(crate) fn is_config(name: &Name) -> bool {
    name.text() == "config"
}

fn name_in(object: &Value) -> Option<Name> {
    name_of(object.get("name")?)
}
