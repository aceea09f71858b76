//! Things that are written as lines.
ghost use Rattle.std.specs.Prelude.{◌≡◌, ◌++◌, ℕ, List, OnOk, OnErr, flat_map};

use ov_io::TextOut;
use ov_types::NoMemory;
use std::alloc::Global;

/// How things of one kind are written: each of them as lines.
pub trait LinesOf<T> {
    /// The lines of one.
    ghost lines: { Self → T → List ℕ };

    /// Appends the lines of one.
    fn append(&self, alloc: Global, item: &T, out: &mut TextOut) -> Result<(), NoMemory>
        ensures ok { OnOk result (out.new ≡ out.old ++ lines self.now item.now) }
        ensures err { OnErr result (out.new ≡ out.old) };
}

/// Appends the lines of each, in order.
pub(crate) fn append_each<T, W: LinesOf<T>>(
    alloc: Global,
    lines: &W,
    items: &[T],
    out: &mut TextOut,
) -> Result<(), NoMemory>
    ensures { OnOk result (out.new ≡ out.old ++ flat_map (W.lines lines.now) items.now) }
{
    for item in items {
        lines.append(alloc, item, out)?;
    }
    Ok(())
}
