//! The lines that tell why a document is refused, and the texts of refused edits.
ghost use Rattle.std.specs.Prelude.{◌≡◌, ◌++◌, IfOk, OnOk, OnErr, Some, string_bytes};
ghost use Rattle.config_model.specs.Faults.{fault_of};
ghost use Rattle.report.specs.Refusals.{doc_fault_line, edit_fault_text, kind_text, refused_line};

use config_check::{EditFault, Refusal};
use config_model::{DocFault, DocKind};
use ov_io::TextOut;
use ov_types::NoMemory;
use std::alloc::{AllocError, Global};
use std::fmt;

fn kind_text(kind: DocKind) -> &'static str
    ensures { result.now ≡ kind_text kind }
{
    match kind {
        DocKind::Missing => "Missing",
        DocKind::Kind => "Kind",
        DocKind::Range => "Range",
        DocKind::Unknown => "Unknown",
    }
}

#[tactic(auto, unfolding(crate::specs::Refusals::doc_fault_line))]
fn doc_fault_line(alloc: Global, fault: &DocFault) -> Result<String, AllocError>
    ensures { IfOk result (λ s. string_bytes s ≡ doc_fault_line (fault_of fault.now)) }
{
    let kind = kind_text(fault.kind);
    let path = fault.path.as_str();
    if path.is_empty() {
        format!(in alloc; "bad document {kind}\n")
    } else {
        format!(in alloc; "bad document {path} {kind}\n")
    }
}

/// Appends the line of a document's fault: its path, where there is one, and its kind.
pub fn doc_fault_lines(alloc: Global, fault: &DocFault, out: &mut TextOut) -> Result<(), NoMemory>
    ensures ok { OnOk result (out.new ≡ out.old ++ doc_fault_line (fault_of fault.now)) }
    ensures err { OnErr result (out.new ≡ out.old) }
{
    let line = doc_fault_line(alloc, fault)?;
    out.push(line.as_bytes())
}

/// Appends the line of a broken rule.
#[tactic(auto, unfolding(crate::specs::Refusals::refused_line))]
pub fn refusal_lines(_alloc: Global, refusal: &Refusal, out: &mut TextOut) -> Result<(), NoMemory>
    ensures ok { OnOk result (out.new ≡ out.old ++ refused_line refusal.now) }
    ensures err { OnErr result (out.new ≡ out.old) }
{
    write!(out, "refused {refusal}\n")
}

/// Why an edit is not made, as it is printed.
#[derive(Clone, Copy)]
pub(crate) struct EditFaultText<'a>(pub(crate) &'a EditFault);

impl fmt::Display for EditFaultText<'_> {
    ghost output = { λ t. Some (edit_fault_text t.0.now) };

    fn fmt<W: fmt::Write>(&self, f: &mut fmt::Formatter<W>) -> fmt::Result {
        match self.0 {
            EditFault::Missing { name } => write!(f, "Missing {name}"),
            EditFault::Rule(refusal) => write!(f, "{refusal}"),
        }
    }
}
