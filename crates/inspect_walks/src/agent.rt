//! Agents with the rows that are compiled for them.
ghost use Rattle.std.specs.Prelude.{◌≡◌, ◌++◌, ◌∷◌, [], option_copied, IfOk, OnOk};
ghost use Rattle.std.specs.List.{filter_map};
ghost use Rattle.ov_types.specs.Routing.{longest};
ghost use Rattle.route_targets.specs.Forwarding.{agent_at, route_in};
ghost use Rattle.transform_model.specs.Compiled.{compiled_tables};
ghost use Rattle.inspect_walks.specs.Ordered.{AreOrdered};
ghost use Rattle.inspect_walks.specs.Walks.{compiled_agents};

use crate::rows::{attached, row_taken};
use crate::verdicts::evaluate;
use config_check::Valid;
use config_types::Node;
use ov_types::{
    Addr, AgentRows, Attached, Entry, InstanceId, Label, NoMemory, Packet, Prefix, Verdict,
};
use packet_trace::Vrouter;
use schema_transform::Compiled;
use std::alloc::Global;
use std::marker::Model;

/// An agent that forwards by compiled rows.
#[derive(Drop)]
pub struct TableAgent<'a> {
    address: Addr,
    rows: &'a AgentRows,
}

impl<'a> Model for TableAgent<'a> {
    ghost use Rattle.route_targets.specs.Forwarding.{Forwarder};
    ghost use Rattle.inspect_walks.specs.Ordered.{AreOrdered};

    ghost Value = { Forwarder };

    ghost view = { λ a. record { address = a.address; rows = a.rows.now } };

    ghost invariant = { λ a. AreOrdered a.rows.now };
}

impl<'a> TableAgent<'a> {
    /// The row of an instance with the longest prefix that contains an address.
    pub(crate) fn row(&self, instance: InstanceId, address: Addr) -> Option<(Prefix, Entry)>
        ensures { result ≡ longest address.0 (filter_map (route_in instance) self.now.rows.routes) }
    {
        row_taken(self.rows.routes.as_slice(), instance, address)
    }
}

impl<'a> Vrouter for TableAgent<'a> {
    ghost forwarder = { λ a. a };

    fn address(&self) -> Addr {
        self.address
    }

    fn find(&self, label: Label) -> Option<Attached> {
        attached(self.rows.labels.as_slice(), label)
    }

    fn verdict(&mut self, network: InstanceId, packet: &Packet) -> Verdict {
        evaluate(self.rows.acls.as_slice(), network, packet)
    }

    fn route(&self, i: InstanceId, a: Addr) -> Option<Entry> {
        let (_, entry) = self.row(i, a)?;
        Some(entry)
    }
}

/// The first agent of an address.
pub(crate) fn agent_at<'b, 'a>(
    agents: &'b [TableAgent<'a>],
    address: Addr,
) -> Option<&'b TableAgent<'a>>
    ensures { option_copied result ≡ agent_at agents.now address }
{
    agents.iter().find(|agent| agent.address().0 == address.0)
}

fn push_agent<'a>(
    agents: &mut Vec<TableAgent<'a>>,
    node: &Node,
    rows: &'a AgentRows,
) -> Result<(), NoMemory>
    requires { AreOrdered rows.now }
    ensures { OnOk result (agents.new.items ≡ agents.old.items ++ (record { address = node.now.address; rows = rows.now }) ∷ []) }
{
    let address = node.address;
    agents.push(TableAgent { address, rows })?;
    Ok(())
}

/// The agents of a topology, each with the rows that its configuration is compiled to.
pub fn agents_of<'a>(
    alloc: Global,
    valid: &Valid,
    compiled: &'a Compiled,
) -> Result<Vec<TableAgent<'a>>, NoMemory>
    requires { compiled.now ≡ compiled_tables valid.now }
    ensures { IfOk result (λ agents. agents.items ≡ compiled_agents valid.now) }
{
    let nodes = valid.topology().nodes.as_slice();
    let rows = compiled.agents.as_slice();
    let mut agents = Vec::new(alloc);
    for (place, node) in nodes.iter().enumerate() {
        push_agent(&mut agents, node, &rows[place])?;
    }
    Ok(agents)
}
