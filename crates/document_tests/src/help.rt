//! The help, and what to do where a run did not come to its end.

use crate::fault::{CaseFault, told};
use crate::sentences;
use explanations::{Advice, Explanation, HelpText, UsageText, explain_words};
use ov_io::TextOut;
use std::alloc::Global;

pub(crate) fn tell(
    alloc: Global,
    kind: &str,
    given: &str,
    out: &mut TextOut,
) -> Result<(), CaseFault> {
    match kind {
        "advice" => tell_advice(given, out),
        "asked" => tell_asked(alloc, given, out),
        _ => tell_places(alloc, kind, given, out),
    }
}

fn tell_advice(end: &str, out: &mut TextOut) -> Result<(), CaseFault> {
    match advice_of(end) {
        Some(advice) => sentences::push(&Explanation::Advice(advice), out),
        None => Err(CaseFault::Unreadable),
    }
}

fn advice_of(end: &str) -> Option<Advice> {
    match end {
        "read-fault" => Some(Advice::ReadFault),
        "too-long" => Some(Advice::TooLong),
        "write-fault" => Some(Advice::WriteFault),
        "no-memory" => Some(Advice::NoMemory),
        _ => None,
    }
}

/// What is said of words of the command line that are no command.
fn tell_asked(alloc: Global, text: &str, out: &mut TextOut) -> Result<(), CaseFault> {
    let words = words_of(alloc, text)?;
    let fault = explain_words(alloc, words.as_slice());
    told(write!(out, "{fault}"))
}

/// The words of a text. A blank in a word is spelled `\s`.
fn words_of(alloc: Global, text: &str) -> Result<Vec<String>, CaseFault> {
    let mut words = Vec::new(alloc);
    for word in text.split_whitespace() {
        words.push(word.replace(alloc, "\\s", " ")?)?;
    }
    Ok(words)
}

/// Which of the help and the usage have a line that begins with a word, or have these words anywhere.
fn tell_places(alloc: Global, kind: &str, given: &str, out: &mut TextOut) -> Result<(), CaseFault> {
    let help = format!(in alloc; "{HelpText}")?;
    let usage = format!(in alloc; "{UsageText}")?;
    if has(kind, help.as_str(), given) {
        out.push(b"help;")?;
    }
    if has(kind, usage.as_str(), given) {
        out.push(b"usage;")?;
    }
    Ok(())
}

fn has(kind: &str, text: &str, given: &str) -> bool {
    match kind {
        "words" => text.contains(given),
        _ => has_line(text, given),
    }
}

/// Whether a line of a text begins with a word, behind two blanks, and says more.
fn has_line(text: &str, word: &str) -> bool {
    text.split('\n').any(|line| begins_with(line, word))
}

fn begins_with(line: &str, word: &str) -> bool {
    let Some(text) = line.strip_prefix("  ") else {
        return false;
    };
    match text.split_once(' ') {
        Some((first, _)) => first == word,
        None => false,
    }
}
