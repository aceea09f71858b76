//! What regions promise, as laws: each is the contract of a function that does nothing.
ghost use Rattle.std.specs.Prelude.{◌↔◌, IsTrue};
ghost use Rattle.ov_types.specs.declared.packet.Tuple.{Tuple};
ghost use Rattle.config_types.specs.declared.config.Config.{Config};
ghost use Rattle.config_types.specs.declared.config.Network.{Network};
ghost use Rattle.policy_rules.specs.Matching.{deciding, decision};
ghost use Rattle.policy_regions.specs.declared.region.Region.{Region};
ghost use Rattle.policy_regions.specs.Regions.{holds};
ghost use Rattle.policy_regions.specs.Claims.{effect_by};
ghost use Rattle.policy_regions.specs.Joined.{regions_between};
ghost use Rattle.policy_regions.specs.Parts.{Holds, IsTuple, LiesInOne, AllSay, AllDo};

/// A region holds just the tuples whose protocol and ports lie in its ranges, both ends included.
pub fn a_region_holds_its_tuples()
    ensures { (r : Region) (t : Tuple) → IsTrue (holds r t) ↔ Holds r t }
{}

/// Each tuple lies in exactly one of the regions between two networks, and the rule that decides on it is that of the
/// region; none does where the region has none.
pub fn each_tuple_lies_in_one_region()
    ensures partition { (c : Config) (a b : Network) (t : Tuple) → IsTuple t → LiesInOne t (regions_between c a b) }
    ensures decided { (c : Config) (a b : Network) (t : Tuple) → IsTuple t
        → AllSay (decision c a b t) t (regions_between c a b) }
    ensures effect { (c : Config) (a b : Network) (t : Tuple) → IsTuple t
        → AllDo (effect_by (deciding c a b t)) t (regions_between c a b) }
{}
