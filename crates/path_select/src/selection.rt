//! The order of paths, and the first of the least.
ghost use Rattle.std.specs.Prelude.{◌≡◌, ◌+◌, ◌↔◌, [], IsNone, IfSome};
ghost use Rattle.path_select.specs.Selection.{is_better, IsFirstOfLeast};

use crate::steps::Steps;
use ov_types::{Addr, Label, Rd};
use std::sync::ledger::Ledger;

/// Where a path to a prefix leads, and the session that told it.
#[derive(Clone, Copy, PartialEq, Eq)]
pub struct Path {
    pub session: u16,
    pub rd: Rd,
    pub next_hop: Addr,
    pub label: Label,
}

/// Whether the first path is used rather than the second: the one of the lesser next hop, then label, then
/// distinguisher, then session.
pub fn better(a: &Path, b: &Path) -> bool
    ensures { result ≡ is_better a.now b.now }
{
    if a.next_hop.0 != b.next_hop.0 {
        return a.next_hop.0 < b.next_hop.0;
    }
    if a.label.0 != b.label.0 {
        return a.label.0 < b.label.0;
    }
    if a.rd.0 != b.rd.0 {
        return a.rd.0 < b.rd.0;
    }
    a.session < b.session
}

/// The place of the path that is used: of equal ones the first.
pub fn select(paths: &[Path]) -> Option<usize>
    ensures none { IsNone result ↔ (paths.now ≡ []) }
    ensures first { IfSome result (IsFirstOfLeast paths.now) }
{
    let mut best = paths.first()?;
    let mut place = 0;
    for (index, path) in paths.iter().enumerate() {
        if better(path, best) {
            best = path;
            place = index;
        }
    }
    Some(place)
}

/// The place that `select` answers. It takes one step.
pub fn select_counted<L: Ledger>(paths: &[Path], steps: &mut Steps<L>) -> Option<usize>
    ensures none { IsNone result ↔ (paths.now ≡ []) }
    ensures first { IfSome result (IsFirstOfLeast paths.now) }
    ensures step { steps.new ≡ steps.old + 1 }
{
    steps.tick();
    select(paths)
}
