//! The walk of a packet.
ghost use Rattle.std.specs.Prelude.{◌≡◌, IfOk, IsTrue};
ghost use Rattle.std.specs.List.{list_all};
ghost use Rattle.inspect_walks.specs.Sizes.{has_step_size};
ghost use Rattle.inspect_walks.specs.Taking.{told_steps};
ghost use Rattle.inspect_walks.specs.Told.{told_walk};
ghost use Rattle.inspect_walks.specs.Walks.{compiled_agents};

use crate::agent::TableAgent;
use crate::step::push_told;
use crate::told_step::ToldStep;
use config_check::{Valid, port_numbered};
use ov_types::{Addr, Items, NoMemory, Packet};
use packet_trace::{Hop, trace};
use std::alloc::Global;

/// What is told of lookups, in order.
fn told_steps<'a>(
    alloc: Global,
    valid: &Valid,
    agents: &[TableAgent<'a>],
    address: Addr,
    hops: &[Hop],
) -> Result<Vec<ToldStep>, NoMemory>
    ensures told { IfOk result (λ list. list.items ≡ told_steps valid.now agents.now address.0 hops.now) }
    ensures sized { IfOk result (λ list. IsTrue (list_all has_step_size list.items)) }
{
    let mut steps = Vec::new(alloc);
    for hop in hops {
        push_told(&mut steps, valid, agents, address, hop)?;
    }
    Ok(steps)
}

/// What is told of the walk of a packet over the tables that a valid configuration is compiled to.
#[tactic(auto, unfolding(crate::specs::Told::told_walk))]
pub fn walk_of<'a>(
    alloc: Global,
    valid: &Valid,
    agents: &mut [TableAgent<'a>],
    packet: Packet,
) -> Result<Items<ToldStep>, NoMemory>
    requires { agents.old ≡ compiled_agents valid.now }
    ensures walk { IfOk result (λ steps. steps ≡ told_walk valid.now packet) }
    ensures sized { IfOk result (λ steps. IsTrue (list_all has_step_size steps)) }
    ensures kept { agents.new ≡ agents.old }
{
    if port_numbered(valid.config(), packet.source).is_none() {
        return Ok(Items::new(alloc));
    }
    let traced = trace(agents, packet);
    let hops = traced.hops.as_slice();
    let steps = told_steps(alloc, valid, agents, packet.destination, hops)?;
    Ok(Items::from_vec(steps))
}
