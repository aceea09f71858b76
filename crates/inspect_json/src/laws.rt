//! What lines in a form promise, as laws: each is the contract of a function that does nothing.
ghost use Rattle.std.specs.Prelude.{◌≡◌, ◌<◌, ◌^◌, ℕ, List, IsTrue, None, Some, map};
ghost use Rattle.std.specs.List.{Contains, list_all};
ghost use Rattle.ov_types.specs.Name.{is_name};
ghost use Rattle.ov_types.specs.declared.packet.Outcome.{Outcome};
ghost use Rattle.config_types.specs.Form.{has_config_form};
ghost use Rattle.config_types.specs.declared.config.Config.{Config};
ghost use Rattle.config_types.specs.declared.config.Policy.{Policy};
ghost use Rattle.config_types.specs.declared.config.Port.{Port};
ghost use Rattle.config_types.specs.declared.config.Service.{Service};
ghost use Rattle.config_types.specs.declared.topology.Topology.{Topology};
ghost use Rattle.config_check.specs.Rules.{first_broken};
ghost use Rattle.inspect_changes.specs.DifferenceLines.{came_line, diff_text, difference_line, went_line};
ghost use Rattle.inspect_changes.specs.Lines.{way_line, ways_text};
ghost use Rattle.inspect_changes.specs.declared.fate.Difference.{Difference};
ghost use Rattle.inspect_changes.specs.declared.objects.Object.{Object};
ghost use Rattle.inspect_changes.specs.declared.pairs.Pairs.{Pairs};
ghost use Rattle.inspect_changes.specs.declared.way.Way.{Way};
ghost use Rattle.inspect_rules.specs.declared.idle.Idle.{Idle};
ghost use Rattle.inspect_rules.specs.declared.cause.Cause.{Cause};
ghost use Rattle.inspect_walks.specs.Lines.{step_text};
ghost use Rattle.inspect_walks.specs.Sizes.{has_step_size};
ghost use Rattle.inspect_walks.specs.declared.told_step.ToldStep.{ToldStep};
ghost use Rattle.inspect_json.specs.ChangeLines.{diff_in};
ghost use Rattle.inspect_json.specs.ChangeValues.{came_value, difference_value, port_name, went_value};
ghost use Rattle.inspect_json.specs.Form.{IsReadBack};
ghost use Rattle.inspect_json.specs.IdleValues.{idle_value};
ghost use Rattle.inspect_json.specs.ReasonValues.{explained_value};
ghost use Rattle.inspect_json.specs.Sizes.{has_cause_size, has_difference_size, has_idle_size, has_object_size};
ghost use Rattle.inspect_json.specs.Sizes.{has_outcome_size, has_way_size};
ghost use Rattle.inspect_json.specs.Values.{policy_name, service_name, way_value};
ghost use Rattle.inspect_json.specs.WayLines.{ways_in};
ghost use Rattle.inspect_json.specs.declared.form.Form.TheVariants.{Text};

/// The JSON of a way reads as its value, and two ways of one value have one line of text.
pub fn ways_read_as_their_values()
    ensures reads { (c : Config) (from to : List ℕ) (w : Way) → IsTrue (has_config_form c) → IsTrue (is_name from)
        → IsTrue (is_name to) → IsTrue (has_way_size w) → IsReadBack (way_value c from to w) }
    ensures says { (c d : Config) (from to from' to' : List ℕ) (w w' : Way) → way_value c from to w ≡ way_value d from' to' w'
        → way_line from to w ≡ way_line from' to' w' }
{}

/// The JSON of an object that went, and of one that came, reads as its value, and two of one value have one line of text.
pub fn objects_read_as_their_values()
    ensures went_reads { (c : Config) (o : Object) → IsTrue (has_config_form c) → IsTrue (has_object_size o)
        → IsReadBack (went_value c o) }
    ensures came_reads { (c : Config) (o : Object) → IsTrue (has_config_form c) → IsTrue (has_object_size o)
        → IsReadBack (came_value c o) }
    ensures went_says { (c d : Config) (o o' : Object) → went_value c o ≡ went_value d o' → went_line o ≡ went_line o' }
    ensures came_says { (c d : Config) (o o' : Object) → came_value c o ≡ came_value d o' → came_line o ≡ came_line o' }
{}

/// The JSON of a difference reads as its value, and two differences of one value have one line of text.
pub fn differences_read_as_their_values()
    ensures reads { (c d : Config) (x : Difference) → IsTrue (has_config_form c) → IsTrue (has_config_form d)
        → IsTrue (has_difference_size x) → IsReadBack (difference_value c d x) }
    ensures says { (c d c' d' : Config) (x y : Difference) → difference_value c d x ≡ difference_value c' d' y
        → difference_line x ≡ difference_line y }
{}

/// The JSON of what is idle reads as its value, and two of one value are one.
pub fn what_is_idle_reads_as_its_value()
    ensures reads { (c : Config) (x : Idle) → IsTrue (has_config_form c) → IsTrue (has_idle_size x) → IsReadBack (idle_value c x) }
    ensures says { (c d : Config) (x y : Idle) → idle_value c x ≡ idle_value d y → x ≡ y }
{}

/// The JSON of why a packet has its outcome, and of its walk, reads as its value, and two of one value say one thing of a
/// packet, with the same lines of steps.
pub fn reasons_read_as_their_values()
    ensures reads { (c : Config) (n : ℕ) (o : Outcome) (xs : List Cause) (walk : List ToldStep) → IsTrue (has_config_form c) → n < 2 ^ 64
        → IsTrue (has_outcome_size o) → IsTrue (list_all has_cause_size xs) → IsTrue (list_all has_step_size walk)
        → IsReadBack (explained_value c n o xs walk) }
    ensures says { (c d : Config) (n m : ℕ) (o p : Outcome) (xs ys : List Cause) (walk other : List ToldStep)
        → explained_value c n o xs walk ≡ explained_value d m p ys other
        → (n ≡ m) × (o ≡ p) × (xs ≡ ys) × (map step_text walk ≡ map step_text other) }
{}

/// In a valid configuration the name beside a number is that of the policy, the service or the port that has this number.
pub fn names_are_of_the_numbers()
    ensures policy { (t : Topology) (c : Config) (p : Policy) → first_broken t c ≡ None → Contains c.policies p
        → policy_name c p.sequence ≡ Some p.name }
    ensures service { (t : Topology) (c : Config) (s : Service) → first_broken t c ≡ None → Contains c.services s
        → service_name c s.id.0 ≡ Some s.name }
    ensures port { (t : Topology) (c : Config) (p : Port) → first_broken t c ≡ None → Contains c.ports p
        → port_name c p.id.0 ≡ Some p.name }
{}

/// In the form of text, what is written is the lines of ways, and the lines of what differs.
#[tactic(auto, unfolding(crate::specs::WayLines::ways_in, inspect_changes::specs::Lines::ways_text, crate::specs::ChangeLines::diff_in, inspect_changes::specs::DifferenceLines::diff_text))]
pub fn text_is_as_without_a_form()
    ensures ways { (pairs : Pairs) (c : Config) → ways_in Text pairs c ≡ ways_text pairs c }
    ensures differences { (c d : Config) → diff_in Text c d ≡ diff_text c d }
{}
