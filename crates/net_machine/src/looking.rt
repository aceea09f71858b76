//! The control nodes of a network that runs.
ghost use Rattle.std.specs.Prelude.{◌≡◌, false, is_some, option_copied, IfSome};
ghost use Rattle.running_nodes.specs.ControlNode.Core.{holdings};
ghost use Rattle.running_nodes.specs.Cores.{present};
ghost use Rattle.node_laws.specs.Quiet.{SameButQuiet};
ghost use Rattle.machine_moment_laws.specs.Runs.{tied_moment};
ghost use Rattle.net_machine.specs.Looking.{held_at, is_control_node};

use crate::net::Net;
use ov_types::Name;
use running_nodes::ControlNode;

impl Net {
    /// The control node of this name. Of the sessions that are somebody's it holds what the machine's node of this name
    /// does; it has those of agents that went too, of which it holds nothing. It takes no memory.
    pub fn control(&self, name: &Name) -> Option<&ControlNode>
        requires { self.now.failed ≡ false }
        ensures found { is_some result
            ≡ is_control_node (tied_moment self.now.opening self.now.events).network.setup.topology name.now }
        ensures holds { IfSome (option_copied result) (λ node. SameButQuiet (holdings node.plan node.posts)
            (held_at (tied_moment self.now.opening self.now.events).network name.now)) }
        ensures exact { IfSome (option_copied result) (λ node. present node
            ≡ held_at (tied_moment self.now.opening self.now.events).network name.now) }
    {
        match self.nodes.seat_named(name) {
            Some(node) => self.nodes.control(node),
            None => None,
        }
    }
}
