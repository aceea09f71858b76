//! The help, and what to do where a run did not come to its end.
ghost use Rattle.std.specs.Prelude.{◌≡◌};
ghost use Rattle.explanations.specs.Help.{advice_text};

use std::fmt;

/// How the program is called. The commands follow.
pub const USAGE: &str = "usage: overlay COMMAND, with an input on standard input:\n";

/// A line for each command.
pub const COMMANDS: &str =
    "  compile < DOCUMENT   what a configuration asks for: objects, and rows of every control node and agent
  reach < DOCUMENT     what becomes of packets, by the policies alone
  scale < DOCUMENT     the same, with the member of each service that a packet visits
  flows < DOCUMENT     the same, with the replies that pass while a flow stands in a table
  constrain < DOCUMENT what control nodes ask of their peers, and how many routes are sent then
  graceful < DOCUMENT  which routes of a BGP peer that restarts are held, and which are stale
  run < DOCUMENT       what a network of nodes answers to the events of a schedule
  decode < DIGITS      what BGP messages say that are spelled in hexadecimal digits
  gen NUMBER           a large scenario made from a number, 1 to 999, in three lines; reads no input
  --help               this text; so does -h
  --version            the version
";

/// A line for each exit status.
pub const STATUSES: &str =
    "exit status; from 3 on standard error has a sentence for people, at 2 the usage:
  0  done: all was read, and all is written
  2  the words are no command
  3  standard input could not be read
  4  the input has more than 16,777,216 octets
  5  the input is no JSON, or for decode no hexadecimal digits; the line is `not json` or `not hex`
  6  the document breaks the form; the line is `bad document PATH KIND`
  7  the configuration breaks a rule; the line is `refused` and which
  8  standard output could not be written
  9  there was no memory
A document is one JSON object; docs/FORMATS.md has its form, and examples/ one for each command.
";

/// The usage: how the program is called, and its commands.
#[derive(Clone, Copy)]
pub struct UsageText;

impl fmt::Display for UsageText {
    fn fmt<W: fmt::Write>(&self, f: &mut fmt::Formatter<W>) -> fmt::Result {
        f.write_str(USAGE)?;
        f.write_str(COMMANDS)
    }
}

/// The help: the usage, and the exit statuses.
#[derive(Clone, Copy)]
pub struct HelpText;

impl fmt::Display for HelpText {
    fn fmt<W: fmt::Write>(&self, f: &mut fmt::Formatter<W>) -> fmt::Result {
        f.write_str(USAGE)?;
        f.write_str(COMMANDS)?;
        f.write_str(STATUSES)
    }
}

/// What to do about a run that told nothing of its own, by what became of it.
#[derive(Clone, Copy, Debug, PartialEq, Eq)]
pub enum Advice {
    ReadFault,
    TooLong,
    NotJson,
    EmptyInput,
    BlankInput,
    ByteOrderMark,
    WideInput,
    BadDocument,
    Refused,
    WriteFault,
    NoMemory,
}

impl fmt::Display for Advice {
    ghost use Rattle.std.specs.Prelude.{Some};
    ghost use Rattle.explanations.specs.Help.{advice_text};

    ghost output = { λ a. Some (advice_text a) };

    fn fmt<W: fmt::Write>(&self, f: &mut fmt::Formatter<W>) -> fmt::Result {
        f.write_str(advice_text(*self))
    }
}

fn advice_text(advice: Advice) -> &'static str
    ensures { result.now ≡ advice_text advice }
{
    match advice {
        Advice::ReadFault =>
            "standard input could not be read: give it a file or a pipe that is open",
        Advice::TooLong =>
            "the input has more than 16,777,216 octets: leave out what is not asked for, or make two of it",
        Advice::NotJson =>
            "the input cannot be read: give a JSON text, or for decode pairs of hexadecimal digits",
        Advice::EmptyInput => "the input is empty: give it a document, as those of examples/",
        Advice::BlankInput =>
            "the input is blanks alone: give it a document, as those of examples/",
        Advice::ByteOrderMark =>
            "the input begins with a byte order mark, which is no JSON: leave it out",
        Advice::WideInput => "the input is UTF-16 or UTF-32, or no text: give it in UTF-8",
        Advice::BadDocument =>
            "the document breaks the form: docs/FORMATS.md has it, and docs/overlay.schema.json for an editor",
        Advice::Refused => "the configuration breaks a rule: docs/MODEL.md has the rules",
        Advice::WriteFault =>
            "standard output could not be written: what takes it was closed, as by head, or there is no room where it goes",
        Advice::NoMemory =>
            "there was no memory: allow the program more, or give it a smaller input",
    }
}
