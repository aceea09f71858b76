//! The line of a document that breaks the form.
ghost use Rattle.std.specs.Prelude.{◌≡◌, option_map};
ghost use Rattle.explanations.specs.Form.{form_fault_in, form_words, kind_at_end, kind_note, stranger_of};
ghost use Rattle.explanations.specs.Form.{subject_of};
ghost use Rattle.explanations.specs.Words.{utf8_front};

use crate::allowed::allowed_at;
use crate::ends::FRONT_OCTETS;
use crate::shown::Shown;
use crate::text::utf8_front;
use crate::wanted::wanted_at;
use std::fmt;

/// How a document breaks the form. `Cut` is where its line may be longer than what was kept of it.
#[derive(Clone, Copy, Debug, PartialEq, Eq)]
pub enum FormKind {
    Missing,
    Kind,
    Range,
    Unknown,
    Cut,
}

/// The path of the first value that breaks the form, empty for the whole document, and how. It prints as one sentence.
#[derive(Clone, Copy)]
pub struct FormFault<'a> {
    pub path: &'a str,
    pub kind: FormKind,
}

/// What a path leads to, as a sentence begins with it.
fn subject_of(path: &str) -> &str
    ensures { result.now ≡ subject_of path.now }
{
    if path.is_empty() {
        "the document"
    } else {
        path
    }
}

/// What the path of a member leads to that the form does not have. The empty one leads to a member of the document.
fn stranger_of(path: &str) -> &str
    ensures { result.now ≡ stranger_of path.now }
{
    if path.is_empty() {
        "the member without a name"
    } else {
        path
    }
}

/// What is said of a value of another kind than the one that is wanted: of a number, which numbers are whole.
fn kind_note(wanted: &str) -> &'static str
    ensures { result.now ≡ kind_note wanted.now }
{
    match wanted.as_bytes().strip_prefix(b"a whole number") {
        Some(_) => "; a number stands in digits alone and is below 2^64",
        None => "",
    }
}

impl fmt::Display for FormFault<'_> {
    ghost use Rattle.std.specs.Prelude.{Some};
    ghost use Rattle.explanations.specs.Form.{form_sentence};

    ghost output = { λ r. Some (form_sentence r.kind r.path.now) };

    fn fmt<W: fmt::Write>(&self, f: &mut fmt::Formatter<W>) -> fmt::Result {
        let path = self.path;
        let subject = Shown(subject_of(path));
        let wanted = wanted_at(path);
        match self.kind {
            FormKind::Missing => {
                write!(f, "{subject} is missing, and the form wants it: {wanted}")
            }
            FormKind::Kind => {
                let note = kind_note(wanted);
                write!(
                    f,
                    "{subject} is a JSON value of another kind than the form wants there: {wanted}{note}"
                )
            }
            FormKind::Range => write!(
                f,
                "{subject} is outside what the form allows there: {wanted}"
            ),
            FormKind::Unknown => {
                let stranger = Shown(stranger_of(path));
                let allowed = allowed_at(path);
                write!(
                    f,
                    "{stranger} is a member that the form does not have there: {allowed}"
                )
            }
            FormKind::Cut => {
                let front = Shown(path);
                write!(
                    f,
                    "{front}.. breaks the form; standard output has the whole path, and how"
                )
            }
        }
    }
}

/// The fault that the line of a document tells, or its front.
#[tactic(auto, unfolding(crate::specs::Form::form_fault_in))]
pub fn form_fault_in(line: &[u8]) -> Option<FormFault<'_>>
    ensures { option_map form_words result ≡ form_fault_in line.now }
{
    let told = line.strip_prefix(b"bad document")?;
    let (spaced, kind) = if line.len() < FRONT_OCTETS {
        kind_at_end(told)
    } else {
        (told, FormKind::Cut)
    };
    let path = match spaced.split_first() {
        Some((_blank, path)) => path,
        None => spaced,
    };
    Some(FormFault {
        path: utf8_front(path),
        kind,
    })
}

/// What stands before the kind that ends a line, and the kind.
#[tactic(auto, unfolding(crate::specs::Form::kind_at_end))]
fn kind_at_end(told: &[u8]) -> (&[u8], FormKind)
    ensures { record { path = result.0.now; kind = result.1 } ≡ kind_at_end told.now }
{
    if let Some(spaced) = told.strip_suffix(b" Missing\n") {
        return (spaced, FormKind::Missing);
    }
    if let Some(spaced) = told.strip_suffix(b" Kind\n") {
        return (spaced, FormKind::Kind);
    }
    if let Some(spaced) = told.strip_suffix(b" Range\n") {
        return (spaced, FormKind::Range);
    }
    if let Some(spaced) = told.strip_suffix(b" Unknown\n") {
        return (spaced, FormKind::Unknown);
    }
    (told, FormKind::Cut)
}
