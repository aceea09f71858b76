//! What is promised of scenarios that are run, as laws: each is the contract of a function that does nothing.
ghost use Rattle.std.specs.Prelude.{◌≡◌, ◌≤◌, ◌↔◌, ℕ, List, true};
ghost use Rattle.std.specs.declared.option.Option.TheVariants.{None};
ghost use Rattle.ov_types.specs.declared.packet.Outcome.{Outcome};
ghost use Rattle.config_check.specs.Checked.{Checked};
ghost use Rattle.config_check.specs.Rules.{first_broken};
ghost use Rattle.config_types.specs.declared.event.Event.{Event};
ghost use Rattle.scenario_gen.specs.Scenario.{scenario};
ghost use Rattle.top_call.specs.Agreed.{PacketsAgree};
ghost use Rattle.top_call.specs.Counts.{CountsAnswers};
ghost use Rattle.top_call.specs.Tallies.{same_outcome, tally};

/// Where the scenario is valid, each of its packets has the outcome that policies give.
pub fn packets_agree()
    ensures { (n : ℕ) → 1 ≤ n → n ≤ 999 → first_broken (scenario n).topology (scenario n).config ≡ None
        → PacketsAgree n }
{}

/// Outcomes are counted as one exactly where they are.
pub fn outcomes_that_are_one()
    ensures { (one other : Outcome) → (same_outcome one other ≡ true) ↔ (one ≡ other) }
{}

/// What a schedule is counted to be is what its answers say: how many packets were delivered, whether all agree, and
/// the rounds of the last two settles.
pub fn counts_are_of_answers()
    ensures { (x : Checked) (es : List Event) → CountsAnswers x es (tally x es) }
{}
