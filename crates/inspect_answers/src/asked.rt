//! What is asked for by the words of the command line.
ghost use Rattle.std.specs.Prelude.{◌≡◌};
ghost use Rattle.ov_types.specs.Name.{name_of};
ghost use Rattle.inspect_answers.specs.Commands.{are_two_files, asked_alone, asked_between, asked_by};
ghost use Rattle.inspect_answers.specs.Commands.{asked_of, form_behind, form_of, is_diff, is_input, is_json, is_ways};
ghost use Rattle.inspect_answers.specs.Commands.{named_by};

use inspect_changes::Pairs;
use inspect_json::Form;
use ov_types::Name;

/// What is asked of a document.
#[derive(Clone, Copy, PartialEq, Eq)]
pub enum Asked {
    /// What is let through between networks.
    Ways(Form, Pairs),
    /// Which packets have another outcome than is expected.
    Expect(Form),
    /// Which rules decide nothing, and which policies and chains are not in use.
    Unused(Form),
    /// What the outcomes of packets come of.
    Why(Form),
    /// Which packets each of some edits interrupts.
    Hitless(Form),
}

/// What the words after the program's name ask of a document: a command, `--json` where lines of JSON are asked for, the
/// document's file, and, for `ways`, none or two names of networks that differ.
pub fn asked_of(words: &[String]) -> Option<Asked>
    ensures { result ≡ asked_of words.now }
{
    match words {
        [] => None,
        [command, words @ ..] => asked_by(command.as_str(), form_behind(words), named_by(words)),
    }
}

fn is_json(word: &str) -> bool
    ensures { result ≡ is_json word.now }
{
    word == "--json"
}

/// The form of lines that the words behind a command ask for.
fn form_behind(words: &[String]) -> Form
    ensures { result ≡ form_behind words.now }
{
    match words {
        [word, ..] if is_json(word.as_str()) => Form::Json,
        _ => Form::Text,
    }
}

/// The words behind a command, and behind `--json`.
pub fn named_by(words: &[String]) -> &[String]
    ensures { result.now ≡ named_by words.now }
{
    match words {
        [word, others @ ..] if is_json(word.as_str()) => others,
        _ => words,
    }
}

/// What a command asks for by the words behind it.
fn asked_by(command: &str, form: Form, words: &[String]) -> Option<Asked>
    ensures { result ≡ asked_by command.now form words.now }
{
    match words {
        [_] => asked_alone(form, command),
        [_, from, to] if is_ways(command) => asked_between(form, from.as_str(), to.as_str()),
        _ => None,
    }
}

fn is_ways(word: &str) -> bool
    ensures { result ≡ is_ways word.now }
{
    word == "ways"
}

/// What a command asks for that is given a file alone.
fn asked_alone(form: Form, command: &str) -> Option<Asked>
    ensures { result ≡ asked_alone form command.now }
{
    match command {
        "ways" => Some(Asked::Ways(form, Pairs::All)),
        "expect" => Some(Asked::Expect(form)),
        "unused" => Some(Asked::Unused(form)),
        "why" => Some(Asked::Why(form)),
        "hitless" => Some(Asked::Hitless(form)),
        _ => None,
    }
}

fn asked_between(form: Form, from: &str, to: &str) -> Option<Asked>
    ensures { result ≡ asked_between form (name_of from.now) (name_of to.now) }
{
    let from = Name::new(from)?;
    let to = Name::new(to)?;
    if from == to {
        return None;
    }
    Some(Asked::Ways(form, Pairs::Between { from, to }))
}

fn is_input(file: &str) -> bool
    ensures { result ≡ is_input file.now }
{
    file == "-"
}

/// Two files, of which one at most is standard input.
fn are_two_files(words: &[String]) -> bool
    ensures { result ≡ are_two_files words.now }
{
    match words {
        [before, after] => !(is_input(before.as_str()) && is_input(after.as_str())),
        _ => false,
    }
}

/// Whether the words after the program's name ask what differs between two documents: the command, `--json` where lines
/// of JSON are asked for, and the files of both, of which one at most is standard input.
pub fn is_diff(words: &[String]) -> bool
    ensures { result ≡ is_diff words.now }
{
    match words {
        [] => false,
        [command, words @ ..] => command.as_str() == "diff" && are_two_files(named_by(words)),
    }
}

/// The form of lines that the words after the program's name ask for.
pub(crate) fn form_of(words: &[String]) -> Form
    ensures { result ≡ form_of words.now }
{
    match words {
        [] => Form::Text,
        [_, words @ ..] => form_behind(words),
    }
}
