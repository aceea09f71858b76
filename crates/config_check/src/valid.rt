//! Valid configurations.
ghost use Rattle.std.specs.Prelude.{◌≡◌, ◌≤◌, length, IfOk, IfErr, IsTrue};
ghost use Rattle.config_types.specs.Form.{has_nodes_form, has_topology_form, has_config_form};
ghost use Rattle.config_check.specs.Rules.{broken_place, broken_use, broken_chain, first_broken};
ghost use Rattle.config_check.specs.Checked.{Checked, Refuses};

use crate::chains::{broken_long, broken_loop, broken_twice};
use crate::ids::broken_id;
use crate::limits::broken_limit;
use crate::names::broken_name;
use crate::overlaps::broken_overlap;
use crate::ports::{broken_outside, broken_taken};
use crate::references::broken_reference;
use crate::refusal::{CheckRefusal, Refusal};
use crate::subnets::{broken_nested, broken_reserved};
use crate::uses::{broken_needs, broken_same};
use chain_expand::MOST_CHAINS;
use config_types::{Config, Topology};
use ov_types::NoMemory;
use policy_rules::{NumberedRule, all_rules};
use std::alloc::{AllocError, Global};
use std::marker::Model;

/// A topology and a configuration that break no rule. Only `check` makes one.
#[derive(Drop)]
pub struct Valid {
    topology: Topology,
    config: Config,
}

impl Model for Valid {
    ghost use Rattle.std.specs.Prelude.{◌≡◌, None, IsTrue};
    ghost use Rattle.config_types.specs.Form.{has_topology_form, has_config_form};
    ghost use Rattle.config_check.specs.Rules.{first_broken};
    ghost use Rattle.config_check.specs.Checked.{Checked};

    ghost Value = { Checked };

    ghost view = { λ v. record { topology = v.topology; config = v.config } };

    ghost invariant = { λ v. IsTrue (has_topology_form v.topology) × IsTrue (has_config_form v.config)
        × (first_broken v.topology v.config ≡ None) };
}

impl Valid {
    /// The topology. It takes no memory.
    pub fn topology(&self) -> &Topology
        ensures part { result.now ≡ self.now.topology }
        ensures topology_form { IsTrue (has_topology_form self.now.topology) }
        ensures config_form { IsTrue (has_config_form self.now.config) }
        ensures valid { first_broken self.now.topology self.now.config ≡ None }
    {
        &self.topology
    }

    /// The configuration. It takes no memory.
    pub fn config(&self) -> &Config
        ensures part { result.now ≡ self.now.config }
        ensures topology_form { IsTrue (has_topology_form self.now.topology) }
        ensures config_form { IsTrue (has_config_form self.now.config) }
        ensures valid { first_broken self.now.topology self.now.config ≡ None }
    {
        &self.config
    }

    /// A copy of a valid topology and configuration, which need not be checked.
    pub fn copy(&self) -> Result<Valid, NoMemory>
        ensures { IfOk result (λ copy. copy ≡ self.now) }
    {
        let topology = copied_topology(&self.topology)?;
        let config = copied_config(&self.config)?;
        Ok(Valid { topology, config })
    }
}

pub(crate) fn copied_topology(topology: &Topology) -> Result<Topology, AllocError>
    ensures { IfOk result (λ t. t ≡ topology.now) }
{
    topology.clone()
}

pub(crate) fn copied_config(config: &Config) -> Result<Config, AllocError>
    ensures { IfOk result (λ c. c ≡ config.now) }
{
    config.clone()
}

/// The first of the rules of subnets and ports that is broken.
fn broken_place(alloc: Global, config: &Config) -> Result<Option<Refusal>, NoMemory>
    ensures { IfOk result (λ found. found ≡ broken_place config.now) }
{
    let reserved = broken_reserved(config);
    let nested = broken_nested(config);
    let outside = broken_outside(alloc, config)?;
    let taken = broken_taken(alloc, config)?;
    Ok(reserved.or(nested.or(outside.or(taken))))
}

/// The first of the rules of chain rules that is broken.
fn broken_use(rules: &[NumberedRule]) -> Option<Refusal>
    ensures { result ≡ broken_use rules.now }
{
    broken_needs(rules).or(broken_same(rules))
}

/// The first of the rules of chains that is broken.
fn broken_chain(config: &Config) -> Option<Refusal>
    requires { length config.now.chains ≤ MOST_CHAINS }
    ensures { result ≡ broken_chain config.now }
{
    if let Some(refusal) = broken_loop(config) {
        return Some(refusal);
    }
    if let Some(refusal) = broken_long(config) {
        return Some(refusal);
    }
    broken_twice(config)
}

#[tactic(auto, using(crate::proofs::Few::few), unfolding(crate::specs::Rules::first_broken))]
fn first_broken(
    alloc: Global,
    topology: &Topology,
    config: &Config,
) -> Result<Option<Refusal>, NoMemory>
    ensures { IfOk result (λ found. found ≡ first_broken topology.now config.now) }
{
    if let Some(refusal) = broken_limit(topology, config) {
        return Ok(Some(refusal));
    }
    if let Some(refusal) = broken_name(alloc, topology, config)? {
        return Ok(Some(refusal));
    }
    let rules = all_rules(alloc, config)?;
    if let Some(refusal) = broken_id(alloc, topology, config, &rules)? {
        return Ok(Some(refusal));
    }
    if let Some(refusal) = broken_reference(alloc, topology, config, &rules)? {
        return Ok(Some(refusal));
    }
    if let Some(refusal) = broken_place(alloc, config)? {
        return Ok(Some(refusal));
    }
    if let Some(refusal) = broken_use(&rules) {
        return Ok(Some(refusal));
    }
    if let Some(refusal) = broken_chain(config) {
        return Ok(Some(refusal));
    }
    broken_overlap(alloc, config)
}

/// Answers the first broken rule, in the order of the rules, else that the two are valid.
#[tactic(auto, using(crate::proofs::Validity::form_of))]
pub fn check(alloc: Global, topology: Topology, config: Config) -> Result<Valid, CheckRefusal>
    requires topology_form { IsTrue (has_nodes_form topology) }
    requires config_form { IsTrue (has_config_form config) }
    ensures ok { IfOk result (λ v. v ≡ record { topology = topology; config = config }) }
    ensures valid { IfOk result (λ v. first_broken topology config ≡ None) }
    ensures rule { IfErr result (λ e. Refuses e (first_broken topology config)) }
{
    match first_broken(alloc, &topology, &config)? {
        Some(refusal) => Err(CheckRefusal::Rule(refusal)),
        None => Ok(Valid { topology, config }),
    }
}
