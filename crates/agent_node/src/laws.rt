//! Laws of agents: each is the contract of a function that does nothing.
ghost use Rattle.std.specs.Prelude.{◌≡◌};
ghost use Rattle.agent_node.specs.Core.{Core};

use crate::node::AgentNode;
use packet_trace::Vrouter;

/// An agent forwards packets by the rows that it shows, at the address of its node.
pub fn traces_go_by_what_is_shown()
    ensures rows { (node : Core) → (⟦<AgentNode as Vrouter>⟧.forwarder node).rows ≡ node.rows }
    ensures address { (node : Core) → (⟦<AgentNode as Vrouter>⟧.forwarder node).address ≡ node.plan.me.address }
{}
