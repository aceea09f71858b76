//! What walks promise, as laws: each is the contract of a function that does nothing.
ghost use Rattle.std.specs.Prelude.{◌≡◌, None, IsTrue};
ghost use Rattle.ov_types.specs.declared.packet.Packet.{Packet};
ghost use Rattle.config_types.specs.Form.{has_config_form};
ghost use Rattle.config_check.specs.Checked.{Checked};
ghost use Rattle.config_check.specs.Rules.{first_broken};
ghost use Rattle.reach_plain.specs.Reachability.{reachability};
ghost use Rattle.inspect_walks.specs.Following.{IsWalk};
ghost use Rattle.inspect_walks.specs.Walks.{compiled_agents, compiled_walk};

/// Over the tables that a valid configuration of the written form is compiled to, the walk of a packet has a step for each
/// lookup of its trace. Each step takes the row of the longest prefix, and leads to what is under that row's label at the
/// agent of its next hop. The first begins where the packet starts, each other one where the one before leads, and the last
/// ends as the packet's outcome says.
pub fn a_walk_ends_as_its_packet_does()
    ensures { (x : Checked) (p : Packet) → IsTrue (has_config_form x.config) → first_broken x.topology x.config ≡ None
        → IsWalk (compiled_agents x) p (reachability x.config p) (compiled_walk x p) }
{}
