//! What causes promise, as laws: each is the contract of a function that does nothing.
ghost use Rattle.std.specs.Prelude.{◌≡◌, None};
ghost use Rattle.ov_types.specs.declared.packet.Packet.{Packet};
ghost use Rattle.config_types.specs.declared.config.Config.{Config};
ghost use Rattle.config_types.specs.declared.topology.Topology.{Topology};
ghost use Rattle.config_check.specs.Rules.{first_broken};
ghost use Rattle.inspect_rules.specs.Causes.{causes};
ghost use Rattle.inspect_rules.specs.Explaining.{Explain};

/// In a valid configuration the causes of a packet's outcome explain it: between two networks they tell of each rule that
/// does not match before the one that decides, with the first condition that fails each way, and then of that one. Where
/// the packet goes nowhere, they tell of the policies of its network, and of each network that holds its destination.
pub fn causes_explain()
    ensures { (topology : Topology) (c : Config) (p : Packet) → first_broken topology c ≡ None → Explain c p (causes c p) }
{}
