//! The lines of what the events of a peer's session answer, each appended whole or not at all.
ghost use Rattle.std.specs.Prelude.{◌≡◌, ◌++◌, OnOk, OnErr, Some};
ghost use Rattle.report.specs.Restarts.{did_line, faulty_line, held_line, idle_line, mark_text, show_line};

use crate::lines::KeyText;
use crate::lists::joined;
use ov_io::TextOut;
use ov_types::{NoMemory, VpnKey, VpnRoute};
use std::alloc::Global;
use std::fmt;

/// Appends the line of an event that was taken.
#[tactic(auto, unfolding(crate::specs::Restarts::did_line))]
pub fn did_lines(_alloc: Global, number: usize, out: &mut TextOut) -> Result<(), NoMemory>
    ensures ok { OnOk result (out.new ≡ out.old ++ did_line number) }
    ensures err { OnErr result (out.new ≡ out.old) }
{
    write!(out, "{number} did\n")
}

/// Appends the line of an event that the state of the session passes over.
#[tactic(auto, unfolding(crate::specs::Restarts::idle_line))]
pub fn idle_lines(_alloc: Global, number: usize, out: &mut TextOut) -> Result<(), NoMemory>
    ensures ok { OnOk result (out.new ≡ out.old ++ idle_line number) }
    ensures err { OnErr result (out.new ≡ out.old) }
{
    write!(out, "{number} idle\n")
}

/// Appends the line of an UPDATE with a fault: the code and the subcode of the NOTIFICATION that answers it (RFC 4271,
/// section 6.3).
#[tactic(auto, unfolding(crate::specs::Restarts::faulty_line))]
pub fn faulty_lines(
    _alloc: Global,
    number: usize,
    code: u8,
    subcode: u8,
    out: &mut TextOut,
) -> Result<(), NoMemory>
    ensures ok { OnOk result (out.new ≡ out.old ++ faulty_line number code subcode) }
    ensures err { OnErr result (out.new ≡ out.old) }
{
    write!(out, "{number} fault {code}/{subcode}\n")
}

/// Appends the line of a show, behind which the routes that are held stand.
#[tactic(auto, unfolding(crate::specs::Restarts::show_line))]
pub fn show_lines(_alloc: Global, number: usize, out: &mut TextOut) -> Result<(), NoMemory>
    ensures ok { OnOk result (out.new ≡ out.old ++ show_line number) }
    ensures err { OnErr result (out.new ≡ out.old) }
{
    write!(out, "{number} show\n")
}

/// Whether a route is stale, as it is printed.
#[derive(Clone, Copy)]
struct MarkText(bool);

impl fmt::Display for MarkText {
    ghost output = { λ m. Some (mark_text m.0) };

    fn fmt<W: fmt::Write>(&self, f: &mut fmt::Formatter<W>) -> fmt::Result {
        if self.0 {
            write!(f, "stale")
        } else {
            write!(f, "fresh")
        }
    }
}

/// Appends the line of a route that is held, and whether it is stale (RFC 4724, section 4.2).
#[tactic(auto, unfolding(crate::specs::Restarts::held_line))]
pub fn held_lines(
    alloc: Global,
    key: &VpnKey,
    route: &VpnRoute,
    is_stale: bool,
    out: &mut TextOut,
) -> Result<(), NoMemory>
    ensures ok { OnOk result (out.new ≡ out.old ++ held_line key.now route.now is_stale) }
    ensures err { OnErr result (out.new ≡ out.old) }
{
    let targets = joined(alloc, route.targets.items())?;
    let key = KeyText(*key);
    let next_hop = route.next_hop;
    let label = route.label;
    let mark = MarkText(is_stale);
    write!(
        out,
        "route {key} next-hop {next_hop} label {label} targets {targets} {mark}\n"
    )
}
