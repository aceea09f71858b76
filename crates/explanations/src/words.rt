//! Words that are no command.

use crate::shown::Shown;
use std::alloc::{AllocError, Global};
use std::fmt;
use strsim::levenshtein;

/// What is wrong with words that are no command, where it can be told. It prints as a line, or as nothing.
#[derive(Clone, Copy)]
pub enum WordsFault<'a> {
    /// Nothing is told.
    Untold,
    /// Behind a command that reads an input stands a word, which may be the name of a file.
    Redirected {
        command: &'a str,
        word: &'a str,
    },
    /// `gen` has no number behind it.
    Numberless,
    /// A word is no command, and this one is the nearest.
    Near {
        word: &'a str,
        command: &'static str,
    },
    /// A word is no command, and none is near.
    Strange(&'a str),
}

impl fmt::Display for WordsFault<'_> {
    fn fmt<W: fmt::Write>(&self, f: &mut fmt::Formatter<W>) -> fmt::Result {
        match *self {
            WordsFault::Untold => Ok(()),
            WordsFault::Redirected { command, word } => {
                let file = Shown(word);
                write!(
                    f,
                    "overlay: {command} reads standard input: overlay {command} < {file}\n"
                )
            }
            WordsFault::Numberless => f.write_str("overlay: gen takes one number, 1 to 999\n"),
            WordsFault::Near { word, command } => {
                let stranger = Shown(word);
                write!(
                    f,
                    "overlay: {stranger} is no command, and the nearest is {command}\n"
                )
            }
            WordsFault::Strange(word) => {
                let stranger = Shown(word);
                write!(f, "overlay: {stranger} is no command\n")
            }
        }
    }
}

/// The words that stand first.
static FIRST_WORDS: [&str; 11] = [
    "compile",
    "reach",
    "scale",
    "flows",
    "constrain",
    "graceful",
    "run",
    "decode",
    "gen",
    "--help",
    "--version",
];

/// The least number of edits that is too many for two words to be near.
const FAR: usize = 3;

/// What is wrong with words that are no command.
pub fn explain_words(alloc: Global, words: &[String]) -> WordsFault<'_> {
    let Some((first, behind)) = words.split_first() else {
        return WordsFault::Untold;
    };
    let command = first.as_str();
    match command {
        "--help" | "-h" | "--version" => WordsFault::Untold,
        "gen" => WordsFault::Numberless,
        "compile" | "reach" | "scale" | "flows" | "constrain" | "graceful" | "run" | "decode" => {
            redirected(command, behind)
        }
        _ => strange(alloc, command),
    }
}

/// What is told of a command that reads an input.
fn redirected<'a>(command: &'a str, behind: &'a [String]) -> WordsFault<'a> {
    match behind.first() {
        Some(word) => WordsFault::Redirected {
            command,
            word: word.as_str(),
        },
        None => WordsFault::Untold,
    }
}

fn strange(alloc: Global, word: &str) -> WordsFault<'_> {
    match nearest(alloc, word) {
        Ok(Some(command)) => WordsFault::Near { word, command },
        _ => WordsFault::Strange(word),
    }
}

/// The first word that is near, and to which the fewest edits lead.
fn nearest(alloc: Global, word: &str) -> Result<Option<&'static str>, AllocError> {
    let mut least = FAR;
    let mut nearest = None;
    for command in FIRST_WORDS {
        let edits = levenshtein(alloc, word, command)?;
        if edits < least {
            least = edits;
            nearest = Some(command);
        }
    }
    Ok(nearest)
}
