//! The premises of the laws are met: each is shown of one chain through two services. Each is the contract of a
//! function that does nothing.
ghost use Rattle.std.specs.Prelude.{◌≡◌, ◌≢◌, ◌≤◌, ◌+◌, Some};
ghost use Rattle.std.specs.List.{AllByRecursion, AllZip};
ghost use Rattle.std.specs.FinMap.{get};
ghost use Rattle.node_model.specs.Members.{Member};
ghost use Rattle.node_model.specs.Keys.{Vpn};
ghost use Rattle.node_model.specs.Uses.{Use, uses};
ghost use Rattle.node_model.specs.Reaching.{AreShort};
ghost use Rattle.node_model.specs.Wants.{wanted_by_peers};
ghost use Rattle.node_model.specs.Ranks.{Agree, AreOrdered, IsTargeted, SameSlice};
ghost use Rattle.node_laws.specs.Counts.{AreListed, AreNumbered};
ghost use Rattle.node_laws.specs.Received.{AreNetworks};
ghost use Rattle.node_laws.specs.Chain.{all_told, chain_feed, chain_use, early, key_at, own_told};
ghost use Rattle.node_laws.specs.Chain.{leading_on, right_subnet, second_agent, settled, with_row, without_row};

/// The feed of the shown chain holds the use of the chain, and is within all ranges; its agents are listed in the order
/// of their sessions.
pub fn a_feed_is_ordered()
    ensures held { Member chain_use (uses chain_feed) }
    ensures ordered { AreOrdered chain_feed }
    ensures short { AreShort chain_feed }
    ensures networks { AreNetworks chain_feed }
    ensures numbered { AreNumbered chain_feed }
    ensures listed { AreListed settled.agents }
    ensures longest { (u : Use) → Member u (uses chain_feed) → u.services ≤ 2 }
{}

/// The routes that its control nodes tell each other have the targets of their distinguishers' instances. One that
/// holds all of them and one that holds none that lead on agree at the keys of rank 4, and not at all keys.
pub fn control_nodes_agree_up_to_a_rank()
    ensures targeted { AllByRecursion (IsTargeted 64512) settled.peers }
    ensures targeted_early { AllByRecursion (IsTargeted 64512) early.peers }
    ensures agree { Agree 4 settled early }
    ensures differ { get all_told (Vpn (key_at second_agent 16385 right_subnet))
        ≢ get own_told (Vpn (key_at second_agent 16385 right_subnet)) }
    ensures all { Agree (2 + 4) settled settled }
{}

/// Once all is told, the first control node leads the right subnet on, towards the left circuit of the first service.
/// All that it wants its peers to be told has again the targets of the distinguishers' instances.
pub fn the_right_subnet_leads_on()
    ensures wanted { get (wanted_by_peers settled) leading_on.0 ≡ Some leading_on.1 }
    ensures targeted { IsTargeted 64512 (wanted_by_peers settled) }
{}

/// Agents that hear the same slice, one of them with a row: the slices agree, and what is heard does not.
pub fn agents_agree_at_their_slices()
    ensures agree { AllZip SameSlice with_row without_row }
    ensures differ { with_row ≢ without_row }
{}
