//! Which networks ties call related, and which of several broken ties is named. Laws alone.
ghost use Rattle.std.specs.Prelude.{◌≡◌, ◌≢◌, ◌↔◌, ℕ, Some};
ghost use Rattle.std.specs.List.{Contains};
ghost use Rattle.ov_types.specs.declared.numbers.InstanceId.{InstanceId};
ghost use Rattle.ov_types.specs.declared.numbers.PortNo.{PortNo};
ghost use Rattle.ov_types.specs.declared.prefix.Addr.{Addr};
ghost use Rattle.config_types.specs.declared.config.Action.TheVariants.{Deny, Pass};
ghost use Rattle.config_types.specs.declared.config.Config.{Config};
ghost use Rattle.config_types.specs.declared.config.Network.{Network};
ghost use Rattle.config_types.specs.declared.config.Port.{Port};
ghost use Rattle.config_types.specs.declared.topology.Node.{Node};
ghost use Rattle.policy_rules.specs.Related.{all_rules};
ghost use Rattle.policy_rules.specs.Standing.{IsBetween};
ghost use Rattle.policy_rules.specs.declared.numbered.NumberedRule.{NumberedRule};
ghost use Rattle.schedule_script.specs.Broken.{broken_tie};
ghost use Rattle.schedule_script.specs.ConfigCheck.Checked.{Checked};
ghost use Rattle.schedule_script.specs.ConfigCheck.Sentences.{IsValid};
ghost use Rattle.schedule_script.specs.Ties.{HasPort, HasRelated, Ties};
ghost use Rattle.schedule_script.specs.declared.breaking.Tie.TheVariants as Tied;
ghost use Rattle.machine_laws.specs.Refusing.{AtMomentsWithTies};
ghost use Rattle.machine_laws.specs.Relating.{AreRelatedIn, DeliversAmongRelated, IsFirstToBreak, LeadsBy};
ghost use Rattle.machine_laws.specs.Relating.{LeavesItsAddress, LeavesItsNetwork, LeavesItsNetworks, StandsIn};

/// The relation of ties is that of the rules between networks: two numbers are related exactly where networks of these
/// numbers are, by a rule between them that passes packets or leads them through a chain. Where each rule between two
/// networks denies, they are not related; where one passes and they differ, they are.
pub fn ties_relate_networks_by_their_rules()
    ensures ports { (c : Config) (p : PortNo) (n : InstanceId) → HasPort c p n ↔ StandsIn c p n }
    ensures related { (c : Config) (a b : InstanceId) → HasRelated c a b ↔ AreRelatedIn c a b }
    ensures denied { (c : Config) (a b : InstanceId)
        → ((m n : Network) (r : NumberedRule) → m.id ≡ a → n.id ≡ b → IsBetween c m n r → r.rule.action ≡ Deny)
        → ¬ HasRelated c a b }
    ensures passed { (c : Config) (m n : Network) (r : NumberedRule) → Contains c.networks m → Contains c.networks n
        → m.name ≢ n.name → IsBetween c m n r → r.rule.action ≡ Pass → HasRelated c m.id n.id }
    ensures led { (c : Config) (m n : Network) (r : NumberedRule) (number : ℕ) → Contains c.networks m
        → Contains c.networks n → m.name ≢ n.name → IsBetween c m n r → LeadsBy number r → HasRelated c m.id n.id }
{}

/// In the machine that keeps ties, at every moment of every schedule, settled or not: a packet is delivered only between
/// ports that stood in configurations so far, in networks that are one or between which a configuration so far had a rule
/// that lets packets through.
pub fn packets_stay_among_networks_related_by_rules()
    ensures { AtMomentsWithTies DeliversAmongRelated }
{}

/// Where several ties are broken, the first in the document's order is named: no port before it is in another network
/// than the tie of its number has, no chain rule before it between other networks, and no compute node before it at
/// another address or under another name.
pub fn the_first_broken_tie_is_named()
    ensures ports { (t : Ties) (x : Checked) (number : PortNo) → IsValid x.topology x.config
        → broken_tie t x ≡ Some (Tied.Port number)
        → (p : Port) × (p.id ≡ number) × IsFirstToBreak (LeavesItsNetwork t x.config) x.config.ports p }
    ensures uses { (t : Ties) (x : Checked) (number : ℕ) → IsValid x.topology x.config
        → broken_tie t x ≡ Some (Tied.ChainUse number)
        → (r : NumberedRule) × LeadsBy number r
        × IsFirstToBreak (LeavesItsNetworks t x.config) (all_rules x.config) r }
    ensures nodes { (t : Ties) (x : Checked) (address : Addr) → IsValid x.topology x.config
        → broken_tie t x ≡ Some (Tied.Node address)
        → (n : Node) × (n.address ≡ address) × IsFirstToBreak (LeavesItsAddress t) x.topology.nodes n }
{}
