//! Whether the manual page has a place for each command, option and status of the help.

use crate::fault::{CaseFault, told};
use explanations::{COMMANDS, STATUSES};
use ov_io::TextOut;

/// How many words of each part of the help have a place in a page, and which have none.
pub(crate) fn tell(page: &str, out: &mut TextOut) -> Result<(), CaseFault> {
    for help in [COMMANDS, STATUSES] {
        tell_part(page, help, out)?;
    }
    Ok(())
}

fn tell_part(page: &str, help: &str, out: &mut TextOut) -> Result<(), CaseFault> {
    let mut found = 0u64;
    let mut all = 0u64;
    for word in help.split('\n').filter_map(word_of) {
        all = all.saturating_add(1);
        if has_place(page, word) {
            found = found.saturating_add(1);
        } else {
            told(write!(out, "{word}? "))?;
        }
    }
    told(write!(out, "{found} of {all} have their place;"))
}

/// The word that begins a line of the help, behind two blanks.
fn word_of(line: &str) -> Option<&str> {
    let text = line.strip_prefix("  ")?;
    let (word, _) = text.split_once(' ')?;
    Some(word)
}

/// Whether a line of a page, in which lines end with `\n`, begins what is said of a word.
fn has_place(page: &str, word: &str) -> bool {
    page.split("\\n").any(|line| is_of(line, word))
}

/// Whether a line of the page begins what is said of a word: an item of a command or of a status, or an option.
fn is_of(line: &str, word: &str) -> bool {
    if let Some(option) = word.strip_prefix("--") {
        return names_option(line, option);
    }
    match line.strip_prefix(".It ") {
        Some(item) => item.strip_prefix("Cm ").unwrap_or(item) == word,
        None => false,
    }
}

fn names_option(line: &str, option: &str) -> bool {
    match line.strip_prefix(".Fl Fl ") {
        Some(rest) => rest.split(' ').next() == Some(option),
        None => false,
    }
}
