//! What access lists say, as laws: each is the contract of a function that does nothing.
ghost use Rattle.std.specs.Prelude.{◌≡◌, ◌≢◌, ◌↔◌, ◌≤◌, ℕ, IsTrue, List, [], option_map};
ghost use Rattle.std.specs.List.{All, AllPairs};
ghost use Rattle.std.specs.List.Sorted.{IsPermutation};
ghost use Rattle.ov_types.specs.Prefix.{Block};
ghost use Rattle.ov_types.specs.declared.objects.AclRule.{AclRule as Entry};
ghost use Rattle.ov_types.specs.declared.packet.Tuple.{Tuple};
ghost use Rattle.route_targets.specs.Numbers.{circuit_address_of};
ghost use Rattle.config_types.specs.Form.{has_config_form};
ghost use Rattle.config_types.specs.declared.config.Config.{Config};
ghost use Rattle.config_types.specs.declared.config.Network.{Network};
ghost use Rattle.config_types.specs.declared.topology.Topology.{Topology};
ghost use Rattle.policy_rules.specs.Matching.{deciding, decision};
ghost use Rattle.policy_rules.specs.declared.matching.Match.{Match};
ghost use Rattle.config_check.specs.Sentences.{IsValid};
ghost use Rattle.acl_compile.specs.Oriented.{ascending, acl_rules};
ghost use Rattle.acl_compile.specs.Laws.{deciding_entry, entry_by, IsActionOf, ComesNoLater};

/// Between two networks the first entry that holds a packet is that of the rule that decides on it, as it is written
/// or mirrored: it has the rule's number and action, and there is none exactly where no rule decides.
pub fn the_first_entry_decides()
    ensures entry { (c : Config) (a b : Network) (t : Tuple) → a.name ≢ b.name
        → deciding_entry c a b t ≡ option_map (entry_by c) (deciding c a b t) }
    ensures number { (c : Config) (a b : Network) (t : Tuple) → a.name ≢ b.name
        → option_map (λ r. r.rule) (deciding_entry c a b t) ≡ option_map (λ d. d.rule) (decision c a b t) }
    ensures action { (c : Config) (a b : Network) (t : Tuple) (m : Match) (r : Entry) → a.name ≢ b.name
        → deciding c a b t ≡ Some m → deciding_entry c a b t ≡ Some r
        → IsActionOf c m.mirrored m.rule.rule.action r.action }
    ensures none { (c : Config) (a b : Network) (t : Tuple) → a.name ≢ b.name
        → (deciding_entry c a b t ≡ None) ↔ (decision c a b t ≡ None) }
{}

/// Inside a network no rule is asked.
pub fn no_entries_inside_a_network()
    ensures { (c : Config) (a b : Network) → a.name ≡ b.name → acl_rules c a b ≡ [] }
{}

/// The subnets of an access list are those of the network, by address and then by length.
pub fn subnets_ascend()
    ensures kept { (subnets : List Block) → IsPermutation subnets (ascending subnets) }
    ensures order { (subnets : List Block) → AllPairs ComesNoLater (ascending subnets) }
{}

/// No port of a valid configuration of the written form has the address of a circuit: its subnet would be refused as
/// reserved.
pub fn ports_have_no_circuit_address()
    ensures { (t : Topology) (c : Config) → IsTrue (has_config_form c) → IsValid t c
        → All (λ p. (n : ℕ) → n ≤ 131070 → p.address ≢ circuit_address_of n) c.ports }
{}
