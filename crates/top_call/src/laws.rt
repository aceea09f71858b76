//! What the definitions of what is written promise.
ghost use Rattle.std.specs.Prelude.{◌≡◌, ◌↔◌, ℕ, List, Some};
ghost use Rattle.top_call.specs.declared.command.Command.{Command};
ghost use Rattle.top_call.specs.Answers.{Writes};
ghost use Rattle.top_call.specs.Commands.{IsInDecimal, scenario_number};

/// Each command has a text for each input.
pub fn each_input_has_a_text()
    ensures { (command : Command) (octets : List ℕ) → (text : List ℕ) × Writes command octets text }
{}

/// A word is read as the number of a scenario exactly where it is that number in decimal, and the number is 1 to 999.
pub fn numbers_are_decimal()
    ensures { (text : List ℕ) (n : ℕ) → (scenario_number text ≡ Some n) ↔ IsInDecimal n text }
{}
