//! The commands.
ghost use Rattle.std.specs.Prelude.{◌≡◌, ◌≤◌, ◌-◌, IfSome};
ghost use Rattle.top_call.specs.Commands as commands;
ghost use Rattle.top_call.specs.Commands.{IsCommand, command_named, command_numbered, command_of};

/// What the program is asked to do.
#[derive(Clone, Copy, PartialEq, Eq)]
pub(crate) enum Command {
    /// The tables that a configuration asks for.
    Compile,
    /// What becomes of packets.
    Reach,
    /// What becomes of packets, with the member of each service that they visit.
    Scale,
    /// What control nodes ask of their peers, and how much these send then.
    Constrain,
    /// What the log of a session with a BGP peer answers, and which of its routes are held over a restart.
    Graceful,
    /// What becomes of packets where replies pass while the flow that they answer stands in a table.
    Flows,
    /// What the events of a schedule answer.
    Run,
    /// What BGP messages say that are spelled in hexadecimal digits.
    Decode,
    /// The summary of the scenario with this number, 1 to 999.
    Gen(u16),
}

/// The command that the words after the program's name give.
pub(crate) fn command_from(words: &[String]) -> Option<Command>
    ensures command { result ≡ command_of words.now }
    ensures numbered { IfSome result IsCommand }
{
    match words {
        [word] => named(word.as_str()),
        [word, number] => numbered(word.as_str(), number.as_str()),
        _ => None,
    }
}

/// The command of a name.
fn named(word: &str) -> Option<Command>
    ensures command { result ≡ command_named word.now }
    ensures numbered { IfSome result IsCommand }
{
    match word {
        "compile" => Some(Command::Compile),
        "reach" => Some(Command::Reach),
        "scale" => Some(Command::Scale),
        "constrain" => Some(Command::Constrain),
        "graceful" => Some(Command::Graceful),
        "flows" => Some(Command::Flows),
        "run" => Some(Command::Run),
        "decode" => Some(Command::Decode),
        _ => None,
    }
}

/// The command of a name with a number.
fn numbered(word: &str, number: &str) -> Option<Command>
    ensures command { result ≡ command_numbered word.now number.now }
    ensures numbered { IfSome result IsCommand }
{
    match word {
        "gen" => {
            let n = scenario_number(number)?;
            Some(Command::Gen(n))
        }
        _ => None,
    }
}

/// What a decimal digit stands for (US-ASCII).
fn value_of(digit: u8) -> u16
    requires least { 48 ≤ digit }
    requires most { digit ≤ 57 }
    ensures { result ≡ digit - 48 }
{
    u16::from(digit - b'0')
}

/// The number of a scenario that a text writes: 1 to 999 in decimal, without leading zeros.
#[tactic(auto, unfolding(crate::specs::Commands::scenario_number))]
fn scenario_number(text: &str) -> Option<u16>
    ensures number { result ≡ commands.scenario_number text.now }
    ensures range { IfSome result (λ n. (1 ≤ n) × (n ≤ 999)) }
{
    match *text.as_bytes() {
        [a @ b'1'..=b'9'] => Some(value_of(a)),
        [a @ b'1'..=b'9', b @ b'0'..=b'9'] => Some(10 * value_of(a) + value_of(b)),
        [a @ b'1'..=b'9', b @ b'0'..=b'9', c @ b'0'..=b'9'] => {
            Some(100 * value_of(a) + 10 * value_of(b) + value_of(c))
        }
        _ => None,
    }
}
