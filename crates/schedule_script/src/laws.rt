//! What ties mean, as laws: each is the contract of a function that does nothing.
ghost use Rattle.std.specs.Prelude.{◌≡◌, ◌↔◌, ℕ, IsTrue, List, None, Some};
ghost use Rattle.ov_types.specs.declared.numbers.InstanceId.{InstanceId};
ghost use Rattle.ov_types.specs.declared.numbers.PortNo.{PortNo};
ghost use Rattle.ov_types.specs.declared.prefix.Addr.{Addr};
ghost use Rattle.config_types.specs.declared.config.Config.{Config};
ghost use Rattle.config_types.specs.declared.topology.Topology.{Topology};
ghost use Rattle.config_check.specs.Checked.{Checked};
ghost use Rattle.config_check.specs.Sentences.{IsValid};
ghost use Rattle.schedule_script.specs.Ties.{BreaksNone, Grows, HasNode, HasPort, HasRelated, HasUse, IsTiedBy, Ties};
ghost use Rattle.schedule_script.specs.Ties.{AreNodesTied, NodesBreakNone};
ghost use Rattle.schedule_script.specs.Tying.{joined, no_ties, node_address, node_name, port_network, relates, use_networks};
ghost use Rattle.schedule_script.specs.declared.breaking.Tie.{Tie};
ghost use Rattle.schedule_script.specs.Broken.{IsBroken, broken_tie};
ghost use Rattle.schedule_script.specs.Kept.{AreAlike, RelatesBothWays};

/// A valid configuration ties a port number to a network exactly where such a port is in it, a use number to two
/// networks exactly where a chain rule leads by it from the one to the other, in effect or not, and relates two networks
/// exactly where a rule between them lets packets through.
pub fn ties_are_of_ports_rules_and_relations()
    ensures ports { (t : Topology) (c : Config) (p : PortNo) (n : InstanceId) → IsValid t c
        → (port_network c p ≡ Some n) ↔ HasPort c p n }
    ensures uses { (t : Topology) (c : Config) (number : ℕ) (pair : InstanceId × InstanceId) → IsValid t c
        → (use_networks c number ≡ Some pair) ↔ HasUse c number pair }
    ensures related { (c : Config) (a b : InstanceId) → IsTrue (relates c a b) ↔ HasRelated c a b }
    ensures both_ways { (c : Config) (a b : InstanceId) → HasRelated c a b → HasRelated c b a }
{}

/// A valid topology ties a name to an address, and the address to the name, exactly where a compute node of the name is
/// at the address.
pub fn ties_are_of_compute_nodes()
    ensures addresses { (t : Topology) (c : Config) (name : List ℕ) (a : Addr) → IsValid t c
        → (node_address t name ≡ Some a) ↔ HasNode t name a }
    ensures names { (t : Topology) (c : Config) (name : List ℕ) (a : Addr) → IsValid t c
        → (node_name t a ≡ Some name) ↔ HasNode t name a }
{}

/// A configuration more removes no tie, whatever it has.
pub fn ties_only_grow()
    ensures { (t : Ties) (x : Checked) → Grows t (joined t x) }
{}

/// A valid configuration that breaks no tie is as the ties with it have it, and so is a valid topology; the first breaks
/// none.
pub fn configurations_are_as_their_ties_have_them()
    ensures tied { (t : Ties) (x : Checked) → IsValid x.topology x.config → BreaksNone t x.config
        → IsTiedBy (joined t x) x.config }
    ensures nodes { (t : Ties) (x : Checked) → IsValid x.topology x.config → NodesBreakNone t x.topology
        → AreNodesTied (joined t x) x.topology }
    ensures first { (c : Config) → BreaksNone no_ties c }
    ensures first_nodes { (t : Topology) → NodesBreakNone no_ties t }
{}

/// No broken tie is found in what is valid exactly where it breaks none. One that is found is broken, is of a use only
/// where no port breaks its own, and is of a compute node only where no port and no use does.
pub fn broken_ties_are_found()
    ensures found { (t : Ties) (x : Checked) (tie : Tie) → IsValid x.topology x.config
        → broken_tie t x ≡ Some tie → IsBroken t x tie }
    ensures none { (t : Ties) (x : Checked) → IsValid x.topology x.config
        → (broken_tie t x ≡ None) ↔ (BreaksNone t x.config × NodesBreakNone t x.topology) }
{}

/// Ties that answer alike are one: nothing that is said of the ones is false of the others.
pub fn ties_that_answer_alike_are_one()
    ensures { (s t : Ties) → AreAlike s t → s ≡ t }
{}

/// Whether two networks were related does not depend on which of them comes first, in the ties of any configurations.
pub fn ties_relate_both_ways()
    ensures first { RelatesBothWays no_ties }
    ensures joined { (t : Ties) (x : Checked) → RelatesBothWays t → RelatesBothWays (joined t x) }
{}
