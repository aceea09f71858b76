//! Which packets a change interrupts.
ghost use Rattle.std.specs.Prelude.{◌≡◌, ◌↔◌, ◌++◌, [], flat_map, IfOk, IsTrue, OnOk};
ghost use Rattle.std.specs.List.{All};
ghost use Rattle.hitless_cells.specs.Keeping.{IsHitless, IsValidAsWritten};
ghost use Rattle.hitless_cells.specs.Interrupted.{EachHasLine, IsInterrupted};
ghost use Rattle.hitless_cells.specs.Lines.{all_lines, by_number, interruptions, lines_between, lines_out};

use crate::cells::{Known, are_near, cells_of};
use crate::ends::{Ends, ends_of};
use crate::joints::Meeting;
use crate::lines::{Interruption, push_lines};
use crate::openings::Between;
use crate::steady::is_steady;
use config_check::Valid;
use ov_types::{Items, NoMemory};
use std::alloc::Global;

/// Appends the lines of the ports of two networks. Where their ways and ports stay as they are, there is none.
fn push_between(
    alloc: Global,
    lines: &mut Vec<Interruption>,
    known: &mut Known,
    before: &Valid,
    after: &Valid,
    from: &Ends,
    to: &Ends,
) -> Result<(), NoMemory>
    ensures { OnOk result (lines.new.items ≡ lines.old.items ++ lines_between before.now after.now from.now to.now) }
{
    if is_steady(before, after, from, to) {
        return Ok(());
    }
    let before = Between {
        valid: before,
        own: &from.before,
        target: &to.before,
    };
    let after = Between {
        valid: after,
        own: &from.after,
        target: &to.after,
    };
    if !are_near(&before, &after) {
        return Ok(());
    }
    let cells = cells_of(alloc, known, &before, &after)?;
    push_lines(lines, from, to, &cells)
}

fn push_out(
    alloc: Global,
    lines: &mut Vec<Interruption>,
    known: &mut Known,
    before: &Valid,
    after: &Valid,
    from: &Ends,
    arrivals: &[Ends],
) -> Result<(), NoMemory>
    ensures { OnOk result (lines.new.items ≡ lines.old.items ++ lines_out before.now after.now arrivals.now from.now) }
{
    for to in arrivals {
        push_between(alloc, lines, known, before, after, from, to)?;
    }
    Ok(())
}

fn push_all(
    alloc: Global,
    lines: &mut Vec<Interruption>,
    before: &Valid,
    after: &Valid,
    sources: &[Ends],
    arrivals: &[Ends],
) -> Result<(), NoMemory>
    ensures { OnOk result (lines.new.items ≡ lines.old.items ++ flat_map (lines_out before.now after.now arrivals.now) sources.now) }
{
    let mut known = Known::new(alloc)?;
    for from in sources {
        push_out(alloc, lines, &mut known, before, after, from, arrivals)?;
    }
    Ok(())
}

/// The lines of all ports of two configurations.
fn all_lines(alloc: Global, before: &Valid, after: &Valid) -> Result<Vec<Interruption>, NoMemory>
    ensures { IfOk result (λ v. v.items ≡ all_lines before.now after.now) }
{
    let sources = ends_of(alloc, before, after, Meeting::ByNumber)?;
    let arrivals = ends_of(alloc, before, after, Meeting::ByAddress)?;
    let mut lines = Vec::new(alloc);
    push_all(alloc, &mut lines, before, after, &sources, &arrivals)?;
    Ok(lines)
}

/// Lines by the port that packets leave, those of one in their order.
fn by_source(mut lines: Vec<Interruption>) -> Result<Vec<Interruption>, NoMemory>
    ensures { IfOk result (λ v. v.items ≡ by_number (λ l. l.from.0) lines.items) }
{
    lines.sort_by_key(|line| line.from.0)?;
    Ok(lines)
}

/// Lines by the port that packets are delivered to before, those of one in their order.
fn by_destination(mut lines: Vec<Interruption>) -> Result<Vec<Interruption>, NoMemory>
    ensures { IfOk result (λ v. v.items ≡ by_number (λ l. l.to.0) lines.items) }
{
    lines.sort_by_key(|line| line.to.0)?;
    Ok(lines)
}

/// The lines of all ports of two configurations, by their ports.
fn ordered_lines(
    alloc: Global,
    before: &Valid,
    after: &Valid,
) -> Result<Vec<Interruption>, NoMemory>
    ensures { IfOk result (λ v. v.items ≡ interruptions before.now after.now) }
{
    let lines = all_lines(alloc, before, after)?;
    by_source(by_destination(lines)?)
}

fn know_written(valid: &Valid)
    ensures { IsValidAsWritten valid.now }
{
    // (for its clauses: the configuration is valid and of the written form)
    let _config = valid.config();
}

/// What lines say of the packets that a change interrupts.
fn know_lines(before: &Valid, after: &Valid)
    ensures hitless { (interruptions before.now after.now ≡ []) ↔ IsHitless before.now after.now }
    ensures interrupted { All (IsInterrupted before.now after.now) (interruptions before.now after.now) }
    ensures each { EachHasLine before.now after.now (interruptions before.now after.now) }
{
    // (for its clause: the configuration is valid and of the written form)
    know_written(before);
    know_written(after);
}

/// The packets that a change interrupts: a line for each port and each port that it reaches before, where both configurations
/// deliver some packet from the one to the other and do not keep it. There is no line exactly where the change is hitless.
/// Each line is of such a packet, and each such packet has a line.
pub fn interruptions(
    alloc: Global,
    before: &Valid,
    after: &Valid,
) -> Result<Items<Interruption>, NoMemory>
    ensures lines { IfOk result (λ lines. lines ≡ interruptions before.now after.now) }
    ensures hitless { IfOk result (λ lines. (lines ≡ []) ↔ IsHitless before.now after.now) }
    ensures interrupted { IfOk result (λ lines. All (IsInterrupted before.now after.now) lines) }
    ensures each { IfOk result (λ lines. EachHasLine before.now after.now lines) }
{
    // (for its clause: what lines say of the packets that a change interrupts)
    know_lines(before, after);
    let lines = ordered_lines(alloc, before, after)?;
    Ok(Items::from_vec(lines))
}

/// Whether a change is hitless: each packet that both configurations deliver they deliver to one port, and both keep it.
pub fn is_hitless(alloc: Global, before: &Valid, after: &Valid) -> Result<bool, NoMemory>
    ensures { IfOk result (λ b. IsTrue b ↔ IsHitless before.now after.now) }
{
    let lines = interruptions(alloc, before, after)?;
    Ok(lines.is_empty())
}
