//! What the rules between two networks promise, as laws: each is the contract of a function that does nothing.
ghost use Rattle.std.specs.Prelude.{◌≡◌, ◌≢◌, ◌↔◌, ◌⊎◌, ◌≤◌, ◌==◌, ℕ, List, filter, not, IsTrue};
ghost use Rattle.std.specs.List.{All, AllPairs, Contains};
ghost use Rattle.ov_types.specs.declared.packet.Tuple.{Tuple};
ghost use Rattle.config_types.specs.declared.config.Config.{Config};
ghost use Rattle.config_types.specs.declared.config.Network.{Network};
ghost use Rattle.config_types.specs.declared.config.Policy.{Policy};
ghost use Rattle.policy_rules.specs.Related.{NumberedRule, by_sequence, rules_between, are_related, imports};
ghost use Rattle.policy_rules.specs.Matching.{Match, deciding, decision};
ghost use Rattle.policy_rules.specs.Standing.{ComesBefore, IsBetween, AreRelated, PassesBetween};
ghost use Rattle.policy_rules.specs.Taking.{MatchesNot, IsDeciding};
ghost use Rattle.policy_rules.specs.Answering.{answering, SpeakBothWays, NamesTwoEnds, rule_of};

/// The rules between two networks do not depend on which of them comes first.
pub fn rules_between_are_symmetric()
    ensures { (c : Config) (a b : Network) → rules_between c a b ≡ rules_between c b a }
{}

/// Where no two policies have one sequence, the rules between two networks stand in the order of their numbers: by
/// their policy's sequence, and then by position.
pub fn rules_between_are_in_order()
    ensures { (c : Config) (a b : Network) → AllPairs (λ p q. p.sequence ≢ q.sequence) c.policies
        → AllPairs (λ r s. ComesBefore r.number s.number) (rules_between c a b) }
{}

/// The rules between two networks are just those of the policies that both attach which speak of packets either way,
/// each numbered by its policy's sequence and by its place, counted from 1.
pub fn rules_between_are_those_of_shared_policies()
    ensures { (c : Config) (a b : Network) (r : NumberedRule) → Contains (rules_between c a b) r ↔ IsBetween c a b r }
{}

/// Policies by sequence are in order, and those of one sequence stand as in the document.
pub fn policies_stand_by_sequence()
    ensures order { (ps : List Policy) → AllPairs (λ p q. p.sequence ≤ q.sequence) (by_sequence ps) }
    ensures document { (ps : List Policy) (n : ℕ)
        → filter (λ p. p.sequence == n) (by_sequence ps) ≡ filter (λ p. p.sequence == n) ps }
{}

/// Two networks are related exactly where they differ, and a rule that lets packets through stands between them.
pub fn networks_are_related_by_rules()
    ensures { (c : Config) (a b : Network) → IsTrue (are_related c a b) ↔ AreRelated c a b }
{}

/// A network imports another exactly where it is that one, or a pass rule stands between the two.
pub fn networks_import_by_pass_rules()
    ensures { (c : Config) (a b : Network) → IsTrue (imports c a b) ↔ ((a.name ≡ b.name) ⊎ PassesBetween c a b) }
{}

/// A match decides on a packet exactly where its rule stands among the rules between the two networks, is taken this
/// way, forwards before mirrored, and no rule before it matches either way.
pub fn the_first_match_decides()
    ensures { (c : Config) (a b : Network) (t : Tuple) (m : Match)
        → (deciding c a b t ≡ Some m) ↔ IsDeciding c a b t m }
{}

/// No rule decides on a packet exactly where none between the two networks matches it either way.
pub fn none_decides_where_none_matches()
    ensures rule { (c : Config) (a b : Network) (t : Tuple) → (deciding c a b t ≡ None)
        ↔ All (λ r. MatchesNot a b t r.rule) (rules_between c a b) }
    ensures decision { (c : Config) (a b : Network) (t : Tuple) → (decision c a b t ≡ None)
        ↔ All (λ r. MatchesNot a b t r.rule) (rules_between c a b) }
{}

/// Where all rules between two networks are of both directions, a packet and its answer are decided by the same rule,
/// and by a rule that names two networks in opposite directions.
pub fn answers_are_decided_alike()
    ensures rule { (c : Config) (a b : Network) (t : Tuple) → SpeakBothWays c a b
        → rule_of (decision c b a (answering t)) ≡ rule_of (decision c a b t) }
    ensures direction { (c : Config) (a b : Network) (t : Tuple) (m n : Match) → SpeakBothWays c a b
        → deciding c a b t ≡ Some m → deciding c b a (answering t) ≡ Some n
        → NamesTwoEnds m.rule.rule → n.mirrored ≡ not m.mirrored }
{}
