//! The program `inspect`: exact answers about all packets at once, of a configuration that is given as a file.
#![tactic(auto)]

ghost use Rattle.std.specs.Prelude.{◌≡◌, ◌≢◌, ◌↔◌, ◌⊎◌, None, option_copied};
ghost use Rattle.std.specs.IoError.{error_kind};
ghost use Rattle.std.specs.declared.io.ErrorKind.TheVariants.{OutOfMemory};
ghost use Rattle.std.specs.Process.{exit_status};
ghost use Rattle.inspect.specs.Requests.{file_after_of, file_of, first_of, request_named, request_of, second_of};
ghost use Rattle.inspect_answers.specs.Runs.{number_of};

mod laws;
mod sentence;

use explanations::{
    Advice, Explanation, FrontSink, HeardSource, KeptInput, explain_form, explain_refusal,
    explain_stop,
};
use inspect_answers::{Status, Which, asked_of, inspect, inspect_diff, is_diff, named_by};
use ov_io::{StdSink, StdSource};
use sentence::Sentence;
use std::alloc::Global;
use std::env::Env;
use std::fmt::Display;
use std::io::Read;
use std::process::ExitCode;
use std::{env, fs, io};

const VERSION: &str = "inspect 0.1.0\n";

const USAGE: &str = "usage: inspect COMMAND, where a FILE of - is standard input:
  ways FILE            what is let through from each network to each other, by which rule and through which services
  ways FILE FROM TO    the same from one network to one other
  diff OLD NEW         what goes another way after a change: objects, and which packets by which rule and services
  expect FILE          which packets have another outcome than the document expects
  unused FILE          which rules decide no packet, and which policies and chains are not in use
  why FILE             what becomes of packets, by which rule and over which rows, and what fails of the rules before that
  hitless FILE         which of a document's edits interrupt packets that are delivered before and after, and which packets
  --help               this text; so does -h
  --version            the version
with --json behind its word, as in `ways --json FILE`, a command writes lines of JSON, with names beside numbers
";

const STATUSES: &str =
    "exit status; from 3 on standard error has a sentence for people, at 2 the usage:
  0  done: all was read, and all is written
  1  so too, and something differs: what two documents have, or an outcome from what is expected
  2  the words are no command
  3  the file could not be opened or read
  4  the input has more than 16,777,216 octets
  5  the input is no JSON; the line is `not json`
  6  the document breaks the form; the line is `bad document PATH KIND`
  7  the configuration breaks a rule, or has no network of a name that is asked for; the line is `refused` and which
  8  standard output could not be written
  9  there was no memory
A document is what `overlay compile` takes, for `why` what `overlay reach` takes, for `expect` that with `expect` in each
packet, and for `hitless` that of `compile` with `edits`, each as in an event of `overlay run`; docs/FORMATS.md has their form,
and that of the lines.
";

/// What is asked of `main` itself, before the top call.
#[derive(Clone, Copy, PartialEq, Eq)]
enum Request {
    Help,
    Version,
    Run,
}

/// What the words after the program's name ask of `main`.
fn request_of(words: &[String]) -> Request
    ensures { result ≡ request_of words.now }
{
    match words {
        [word] => request_named(word.as_str()),
        _ => Request::Run,
    }
}

fn request_named(word: &str) -> Request
    ensures { result ≡ request_named word.now }
{
    match word {
        "--help" | "-h" => Request::Help,
        "--version" => Request::Version,
        _ => Request::Run,
    }
}

/// The words after the program's name.
fn words_of<R: Env + AllocGlobal>(rt: &R) -> io::Result<Vec<String>> {
    let mut words = Vec::new(rt.alloc());
    for word in env::args(rt)?.skip(1) {
        words.push(word)?;
    }
    Ok(words)
}

fn first_of(words: &[String]) -> Option<&str>
    ensures { option_copied result ≡ first_of words.now }
{
    match words {
        [file, ..] => Some(file.as_str()),
        _ => None,
    }
}

fn second_of(words: &[String]) -> Option<&str>
    ensures { option_copied result ≡ second_of words.now }
{
    match words {
        [_, file, ..] => Some(file.as_str()),
        _ => None,
    }
}

/// The file that the words name.
fn file_of(words: &[String]) -> Option<&str>
    ensures { option_copied result ≡ file_of words.now }
{
    match words {
        [] => None,
        [_, words @ ..] => first_of(named_by(words)),
    }
}

/// The file that the words name behind that one.
fn file_after_of(words: &[String]) -> Option<&str>
    ensures { option_copied result ≡ file_after_of words.now }
{
    match words {
        [] => None,
        [_, words @ ..] => second_of(named_by(words)),
    }
}

/// The status where a call of the system was refused: there is no memory for what it gives, or what it was given is at
/// fault.
fn status_by(error: &io::Error, otherwise: Status) -> Status
    ensures no_memory { error_kind error.now ≡ OutOfMemory → result ≡ Status.NoMemory }
    ensures otherwise { error_kind error.now ≢ OutOfMemory → result ≡ otherwise }
{
    match error.kind() {
        io::ErrorKind::OutOfMemory => Status::NoMemory,
        _ => otherwise,
    }
}

/// Prints to standard output, and says how that ended.
fn printed<D: Display + Drop>(rt: &impl Print, text: D) -> Status
    ensures { (result ≡ Status.Done) ⊎ (result ≡ Status.WriteFault) }
{
    match rt.print(text) {
        Ok(()) => Status::Done,
        Err(_) => Status::WriteFault,
    }
}

/// What is said to people of a run that ended so, by the front of what it wrote and by what was kept of its input. Where
/// it was given no command the usage is printed in place of it, and a file that could not be read has its own line.
fn explanation<'a>(
    alloc: Global,
    status: Status,
    front: &'a [u8],
    heard: &KeptInput,
) -> Option<Explanation<'a>>
    ensures { (result ≡ None)
        ↔ ((status ≡ Status.Done) ⊎ (status ≡ Status.Differs) ⊎ (status ≡ Status.Usage) ⊎ (status ≡ Status.ReadFault)) }
{
    match status {
        Status::Done | Status::Differs | Status::Usage | Status::ReadFault => None,
        Status::TooLong => Some(Explanation::Advice(Advice::TooLong)),
        Status::NotJson => Some(explain_stop(alloc, heard)),
        Status::BadDocument => Some(explain_form(front)),
        Status::Refused => Some(explain_refusal(front)),
        Status::WriteFault => Some(Explanation::Advice(Advice::WriteFault)),
        Status::NoMemory => Some(Explanation::Advice(Advice::NoMemory)),
    }
}

/// Says to people on standard error how a run over a file ended. A fault there changes nothing.
fn say(rt: &HostRuntime, file: &str, status: Status, front: &[u8], heard: &KeptInput) {
    if status == Status::Usage {
        let _ = rt.eprint(USAGE);
    }
    if status == Status::ReadFault {
        let _ = rt.eprint(format_args!("inspect: {file}: it could not be opened or read\n"));
    }
    if let Some(said) = explanation(rt.alloc(), status, front, heard) {
        let _ = rt.eprint(Sentence { file, said });
    }
}

/// Runs the top call over an open file and standard output, and says to people how it ended.
fn answer<R: Read + Drop>(rt: &HostRuntime, words: &[String], file: &str, reader: R) -> Status {
    let kept = KeptInput::Document(Vec::new(rt.alloc()));
    let mut source = HeardSource::new(StdSource::new(reader), kept);
    let mut sink = FrontSink::new(StdSink::new(rt.stdout()));
    let status = inspect(rt.alloc(), words, &mut source, &mut sink);
    say(rt, file, status, sink.front(), source.heard());
    status
}

/// Ends a run over a file that had no answer, and says so to people.
fn end(rt: &HostRuntime, file: &str, status: Status) -> Status {
    say(rt, file, status, &[], &KeptInput::Nothing);
    status
}

/// The files of two documents.
#[derive(Clone, Copy)]
struct Files<'a> {
    before: &'a str,
    after: &'a str,
}

/// Runs the top call over two open files and standard output, and says to people how it ended.
fn compare<R: Read + Drop, S: Read + Drop>(
    rt: &HostRuntime,
    words: &[String],
    files: Files<'_>,
    before: R,
    after: S,
) -> Status {
    let kept_before = KeptInput::Document(Vec::new(rt.alloc()));
    let kept_after = KeptInput::Document(Vec::new(rt.alloc()));
    let mut before = HeardSource::new(StdSource::new(before), kept_before);
    let mut after = HeardSource::new(StdSource::new(after), kept_after);
    let mut sink = FrontSink::new(StdSink::new(rt.stdout()));
    let ending = inspect_diff(rt.alloc(), words, &mut before, &mut after, &mut sink);
    let status = ending.status;
    match ending.which {
        Which::Before => say(rt, files.before, status, sink.front(), before.heard()),
        Which::After => say(rt, files.after, status, sink.front(), after.heard()),
    }
    status
}

/// Opens the file of the document after a change, and compares it with the document before the change.
fn open_after<R: Read + Drop>(
    rt: &HostRuntime,
    words: &[String],
    files: Files<'_>,
    before: R,
) -> Status {
    if files.after == "-" {
        return compare(rt, words, files, before, rt.stdin());
    }
    match fs::open(rt, files.after) {
        Ok(after) => compare(rt, words, files, before, after),
        Err(error) => end(rt, files.after, status_by(&error, Status::ReadFault)),
    }
}

/// Opens the files of two documents, and compares these.
fn open_both(rt: &HostRuntime, words: &[String], files: Files<'_>) -> Status {
    if files.before == "-" {
        return open_after(rt, words, files, rt.stdin());
    }
    match fs::open(rt, files.before) {
        Ok(before) => open_after(rt, words, files, before),
        Err(error) => end(rt, files.before, status_by(&error, Status::ReadFault)),
    }
}

/// Opens the files of two documents that the words name, the second behind the first, and compares these.
fn run_diff(rt: &HostRuntime, words: &[String], before: &str) -> Status {
    match file_after_of(words) {
        Some(after) => open_both(rt, words, Files { before, after }),
        None => end(rt, before, Status::Usage),
    }
}

/// Opens the files that the words name, and answers them.
fn run(rt: &HostRuntime, words: &[String]) -> Status {
    let Some(file) = file_of(words) else {
        return end(rt, "-", Status::Usage);
    };
    if is_diff(words) {
        return run_diff(rt, words, file);
    }
    if asked_of(words).is_none() {
        return end(rt, file, Status::Usage);
    }
    if file == "-" {
        return answer(rt, words, file, rt.stdin());
    }
    match fs::open(rt, file) {
        Ok(reader) => answer(rt, words, file, reader),
        Err(error) => end(rt, file, status_by(&error, Status::ReadFault)),
    }
}

/// Prints what is asked of `main` itself, and says to people how that ended.
fn tell<D: Display + Drop>(rt: &HostRuntime, text: D) -> Status {
    end(rt, "-", printed(rt, text))
}

/// Prints the help.
fn help(rt: &HostRuntime) -> Status {
    match printed(rt, USAGE) {
        Status::Done => tell(rt, STATUSES),
        status => end(rt, "-", status),
    }
}

/// The exit status that tells how the run ended.
fn code_of(status: Status) -> ExitCode
    ensures { exit_status result ≡ number_of status }
{
    ExitCode::from(status.number())
}

fn main(rt: HostRuntime) -> ExitCode {
    let status = match words_of(&rt) {
        Ok(words) => match request_of(words.as_slice()) {
            Request::Help => help(&rt),
            Request::Version => tell(&rt, VERSION),
            Request::Run => run(&rt, words.as_slice()),
        },
        Err(error) => end(&rt, "-", status_by(&error, Status::Usage)),
    };
    code_of(status)
}
