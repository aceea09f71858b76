//! From a configuration to its low-level objects and to the rows of every node.
ghost use Rattle.std.specs.Prelude.{◌≡◌, ◌≢◌, ◌≤◌, ◌++◌, ◌∷◌, [], map, flat_map, IfOk, IsTrue, OnOk};
ghost use Rattle.route_targets.specs.Numbers.{hop_instance_of};
ghost use Rattle.std.specs.List.{All};
ghost use Rattle.ov_types.specs.declared.packet.Outcome.TheVariants.{Dropped};
ghost use Rattle.ov_types.specs.declared.packet.Packet.{Packet};
ghost use Rattle.ov_types.specs.declared.packet.Why.TheVariants.{NoLabel, TtlExpired};
ghost use Rattle.route_targets.specs.Forwarding.{forwarding};
ghost use Rattle.config_types.specs.Form.{has_config_form};
ghost use Rattle.config_check.specs.Rules.{first_broken};
ghost use Rattle.transform_model.specs.ReachPlain.Reachability.{reachability};
ghost use Rattle.transform_model.specs.Compiled.{agent_rows, compiled_tables, forwarders};
ghost use Rattle.transform_model.specs.Objects.{low_objects};
ghost use Rattle.transform_model.specs.Tables.{control_rows, instances};
ghost use Rattle.transform_model.specs.Uses.{hops, uses};
ghost use Rattle.schema_transform.specs.HeldUses.{use_of};
ghost use Rattle.schema_transform.specs.ByNumber.{AreUses};
ghost use Rattle.schema_transform.specs.Kept.{AreTables};
ghost use Rattle.schema_transform.specs.Sound.{IsSmall, IsSound};

use crate::agents::{agent_rows, tables_of};
use crate::chain_use::ChainUse;
use crate::hops::first_hop;
use crate::kept::{KeptTables, kept_tables};
use crate::numbered::{UsesByNumber, by_number};
use crate::objects::objects_of;
use crate::rows::entries_of;
use crate::uses::uses_in_effect;
use config_check::Valid;
use config_types::{Config, Network, Topology};
use ov_types::{
    AgentRows, ControlRows, InstanceId, Items, Low, LowKey, LowValue, NoMemory, NodeId,
};
use route_targets::hop_instance;
use std::alloc::Global;
use transform_model::Compiled;

/// The low-level objects of a configuration, in the order of their keys.
fn low_of(
    alloc: Global,
    topology: &Topology,
    config: &Config,
    chain_uses: &[ChainUse],
) -> Result<Low, NoMemory>
    requires sound { IsSound config.now }
    requires uses { map use_of chain_uses.now ≡ uses config.now }
    ensures { IfOk result (λ low. low ≡ low_objects topology.now config.now) }
{
    let objects = objects_of(alloc, topology, config, chain_uses)?;
    Ok(Items::from_vec(objects.into_iter().collect(alloc)?))
}

/// The low-level objects of a valid configuration, in the order of their keys.
#[tactic(auto, using(crate::proofs::Formed::is_sound))]
pub fn low(alloc: Global, valid: &Valid) -> Result<Low, NoMemory>
    ensures { IfOk result (λ low. low ≡ low_objects valid.now.topology valid.now.config) }
{
    let config = valid.config();
    let chain_uses = uses_in_effect(alloc, config)?;
    low_of(alloc, valid.topology(), config, chain_uses.as_slice())
}

fn push_hop(number: u16, place: u8, instances: &mut Vec<InstanceId>) -> Result<(), NoMemory>
    requires last_use { number ≤ 3071 }
    requires last_place { place ≤ 15 }
    ensures { OnOk result (instances.new.items ≡ instances.old.items ++ hop_instance_of number place ∷ []) }
{
    instances.push(hop_instance(number, place))?;
    Ok(())
}

/// Appends the instances of the hops of a use.
fn push_hops(found: &ChainUse, instances: &mut Vec<InstanceId>) -> Result<(), NoMemory>
    ensures { OnOk result (instances.new.items ≡ instances.old.items ++ hops (use_of found.now)) }
{
    instances.push(first_hop(found))?;
    for place in 0..found.services.len() as u8 {
        push_hop(found.number, place + 1, instances)?;
    }
    Ok(())
}

/// Appends the instances of the hops of each use.
fn push_all_hops(chain_uses: &[ChainUse], instances: &mut Vec<InstanceId>) -> Result<(), NoMemory>
    ensures { OnOk result (instances.new.items
        ≡ instances.old.items ++ flat_map hops (map use_of chain_uses.now)) }
{
    for found in chain_uses {
        push_hops(found, instances)?;
    }
    Ok(())
}

/// The instances of the networks.
fn network_instances(alloc: Global, networks: &[Network]) -> Result<Vec<InstanceId>, NoMemory>
    ensures { IfOk result (λ list. list.items ≡ map (λ n. n.id) networks.now) }
{
    Ok(networks.iter().map(|network| network.id).collect(alloc)?)
}

/// The instances of a configuration: those of its networks, and those of its uses in effect.
fn instances_of(
    alloc: Global,
    config: &Config,
    chain_uses: &[ChainUse],
) -> Result<Vec<InstanceId>, NoMemory>
    requires { map use_of chain_uses.now ≡ uses config.now }
    ensures { IfOk result (λ list. list.items ≡ instances config.now) }
{
    let mut instances = network_instances(alloc, config.networks.as_slice())?;
    push_all_hops(chain_uses, &mut instances)?;
    Ok(instances)
}

/// The tables of all instances.
#[tactic(auto, unfolding(transform_model::specs::Tables::control_rows))]
fn control_rows(
    alloc: Global,
    topology: &Topology,
    config: &Config,
    numbered: &UsesByNumber,
    kept: &KeptTables,
    every_instance: &[InstanceId],
) -> Result<ControlRows, NoMemory>
    requires sound { IsSound config.now }
    requires uses { AreUses numbered.now.entries config.now }
    requires kept { AreTables topology.now config.now kept.now.entries }
    requires instances { every_instance.now ≡ instances config.now }
    ensures { IfOk result (λ list. list ≡ control_rows topology.now config.now) }
{
    let rows = tables_of(alloc, topology, config, numbered, kept, every_instance)?;
    entries_of(alloc, &rows)
}

/// The rows, once for each control node.
fn copies(
    alloc: Global,
    rows: &ControlRows,
    controllers: &[NodeId],
) -> Result<Items<ControlRows>, NoMemory>
    ensures { IfOk result (λ list. list ≡ map (λ _. rows.now) controllers.now) }
{
    let mut list = Items::new(alloc);
    for _controller in controllers {
        list.push(copy_of(alloc, rows)?)?;
    }
    Ok(list)
}

fn copy_of(alloc: Global, rows: &ControlRows) -> Result<ControlRows, NoMemory>
    ensures { IfOk result (λ copy. copy ≡ rows.now) }
{
    Ok(Items::from_vec(Vec::from_slice(alloc, rows.as_slice())?))
}

/// The rows of every agent.
fn agents_of(
    alloc: Global,
    topology: &Topology,
    config: &Config,
    numbered: &UsesByNumber,
    kept: &KeptTables,
    low: &[(LowKey, LowValue)],
) -> Result<Items<AgentRows>, NoMemory>
    requires sound { IsSound config.now }
    requires uses { AreUses numbered.now.entries config.now }
    requires kept { AreTables topology.now config.now kept.now.entries }
    requires low { low.now ≡ low_objects topology.now config.now }
    requires small { All (λ e. IsSmall e.1) low.now }
    ensures { IfOk result (λ list. list
        ≡ map (λ n. agent_rows topology.now config.now n.address) topology.now.nodes) }
{
    let mut agents = Items::new(alloc);
    for node in topology.nodes.as_slice() {
        agents.push(agent_rows(alloc, topology, config, numbered, kept, low, node.address)?)?;
    }
    Ok(agents)
}

/// The rows of every node.
#[tactic(auto, using(crate::proofs::Formed::is_sound), unfolding(transform_model::specs::Compiled::compiled_tables))]
fn rows_of_nodes(alloc: Global, topology: &Topology, config: &Config) -> Result<Compiled, NoMemory>
    requires form { IsTrue (has_config_form config.now) }
    requires valid { first_broken topology.now config.now ≡ None }
    ensures { IfOk result (λ c. c ≡ compiled_tables (record { topology = topology.now; config = config.now })) }
{
    let chain_uses = uses_in_effect(alloc, config)?;
    let low = low_of(alloc, topology, config, chain_uses.as_slice())?;
    let numbered = by_number(alloc, chain_uses.as_slice())?;
    let instances = instances_of(alloc, config, chain_uses.as_slice())?;
    let kept = kept_tables(alloc, topology, config, &numbered, instances.as_slice())?;
    let rows = control_rows(
        alloc,
        topology,
        config,
        &numbered,
        &kept,
        instances.as_slice(),
    )?;
    Ok(Compiled {
        controls: copies(alloc, &rows, topology.controllers.as_slice())?,
        agents: agents_of(alloc, topology, config, &numbered, &kept, low.as_slice())?,
    })
}

/// The rows that a valid configuration asks for, of every node. What the rows of its agents do with a packet is what
/// policies alone say becomes of it; each label leads on, and no packet is under way for too long.
#[tactic(auto, using(crate::proofs::Forwarding::as_reached, crate::proofs::Forwarding::has_labels, crate::proofs::Forwarding::ends_in_time))]
pub fn compiled(alloc: Global, valid: &Valid) -> Result<Compiled, NoMemory>
    ensures tables { IfOk result (λ c. c ≡ compiled_tables valid.now) }
    ensures forwarding { (p : Packet) → IfOk result (λ c.
        forwarding (forwarders valid.now.topology.nodes c.agents) p ≡ reachability valid.now.config p) }
    ensures labelled { (p : Packet) → IfOk result (λ c.
        forwarding (forwarders valid.now.topology.nodes c.agents) p ≢ Dropped NoLabel) }
    ensures in_time { (p : Packet) → IfOk result (λ c.
        forwarding (forwarders valid.now.topology.nodes c.agents) p ≢ Dropped TtlExpired) }
{
    let topology = valid.topology();
    let config = valid.config();
    let rows = rows_of_nodes(alloc, topology, config)?;
    Ok(rows)
}
