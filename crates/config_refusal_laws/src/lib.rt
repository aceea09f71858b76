//! What refusals of configurations say: the objects that a refusal names break its rule.
#![tactic(auto)]

ghost use Rattle.std.specs.Prelude.{◌≡◌, Some};
ghost use Rattle.config_types.specs.declared.config.Config.{Config};
ghost use Rattle.config_types.specs.declared.topology.Topology.{Topology};
ghost use Rattle.config_check.specs.declared.refusal.Refusal.{Refusal};
ghost use Rattle.config_check.specs.Rules.{first_broken};
ghost use Rattle.config_check.specs.Sentences.{IsValid};
ghost use Rattle.config_refusal_laws.specs.Breaks.{Breaks};
ghost use Rattle.config_refusal_laws.specs.Named.{NamesFirst};
ghost use Rattle.config_refusal_laws.specs.Order.{rule_number, IsBrokenBy};

/// What the refusal of a configuration names breaks the rule that it speaks of.
pub fn what_is_named_breaks_its_rule()
    ensures { (t : Topology) (c : Config) (r : Refusal) → first_broken t c ≡ Some r → Breaks t c r }
{}

/// What breaks a rule, whichever refusal says so, is not valid.
pub fn what_breaks_a_rule_is_not_valid()
    ensures { (t : Topology) (c : Config) (r : Refusal) → Breaks t c r → ¬ IsValid t c }
{}

/// What breaks a rule is refused by that rule or by an earlier one, in the written order.
pub fn what_breaks_a_rule_is_refused_by_it_or_earlier()
    ensures { (t : Topology) (c : Config) (r : Refusal) → Breaks t c r
        → IsBrokenBy (rule_number r) (first_broken t c) }
{}

/// What a refusal names is the first in the document that breaks its rule.
pub fn what_is_named_comes_first()
    ensures { (t : Topology) (c : Config) (r : Refusal) → first_broken t c ≡ Some r → NamesFirst t c r }
{}
