//! The text of targets.
ghost use Rattle.std.specs.Prelude.{◌≡◌, ◌↔◌, ◌++◌, ◌∷◌, [], IsTrue, IfOk, OnOk, OnErr, string_bytes};
ghost use Rattle.report.specs.Lines.{route_line, targets_text};

use crate::lines::route_line;
use crate::lists::joined;
use ov_io::TextOut;
use ov_types::{Addr, Label, NoMemory, Targets, VpnKey};
use std::alloc::Global;
use std::marker::Model;

/// Targets and their text, which is made once for routes that have the same.
#[derive(Drop)]
pub struct TargetsText {
    targets: Targets,
    line_end: String,
}

impl Model for TargetsText {
    ghost use Rattle.std.specs.Prelude.{◌≡◌, ◌++◌, ◌∷◌, [], List, string_bytes};
    ghost use Rattle.report.specs.Lines.{targets_text};
    ghost use Rattle.ov_types.specs.declared.targets.Target.{Target as TargetValue};

    ghost Value = { List TargetValue };

    ghost view = { λ t. t.targets };

    ghost invariant = { λ t. string_bytes t.line_end ≡ targets_text t.targets ++ 10 ∷ [] };
}

/// The text of targets at the end of a line.
pub(crate) fn line_end(alloc: Global, targets: &Targets) -> Result<String, NoMemory>
    ensures { IfOk result (λ text. string_bytes text ≡ targets_text targets.now ++ 10 ∷ []) }
{
    let mut text = joined(alloc, targets.items())?;
    text.push_str("\n")?;
    Ok(text)
}

fn are_same(a: &Targets, b: &Targets) -> bool
    ensures { IsTrue result ↔ (a.now ≡ b.now) }
{
    a == b
}

impl TargetsText {
    /// The text of no targets.
    pub fn new(alloc: Global) -> Result<TargetsText, NoMemory>
        ensures { IfOk result (λ known. known ≡ []) }
    {
        Ok(TargetsText {
            targets: Targets::new(alloc),
            line_end: String::from_str(alloc, "-\n")?,
        })
    }

    /// Makes the text of targets, unless the text that is kept is that of the same ones.
    pub fn know(&mut self, alloc: Global, targets: &Targets) -> Result<(), NoMemory>
        ensures { OnOk result (self.new ≡ targets.now) }
    {
        if are_same(&self.targets, targets) {
            return Ok(());
        }
        *self = TargetsText {
            targets: targets.clone()?,
            line_end: line_end(alloc, targets)?,
        };
        Ok(())
    }
}

/// Appends the line of a VPN-IPv4 route that is put, with these targets (RFC 4364).
pub fn put_lines_of(
    key: &VpnKey,
    next_hop: Addr,
    label: Label,
    known: &TargetsText,
    out: &mut TextOut,
) -> Result<(), NoMemory>
    ensures ok { OnOk result (out.new ≡ out.old ++ route_line key.now next_hop label (targets_text known.now)) }
    ensures err { OnErr result (out.new ≡ out.old) }
{
    route_line(key, next_hop, label, known.line_end.as_str(), out)
}
