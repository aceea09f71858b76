//! Where the program's octets come from.
ghost use Rattle.std.specs.Prelude.{◌≡◌, ◌↔◌, ◌≤◌, ◌<◌, ◌+◌, [], length, take, List, ℕ, Option, Some, drop};
ghost use Rattle.std.specs.Io.{ReadsAtMost};
ghost use Rattle.std.specs.Io.KnownBytes.{ReadConsumes};
ghost use Rattle.ov_io.specs.Causes.{HasCause};
ghost use Rattle.ov_io.specs.Fakes.{octets_left, failed_reads, reads_made, failing_reads, call_after, IsListed};

use std::alloc::Global;
use thiserror::Error;

/// A read failed.
#[derive(Clone, Copy, Debug, PartialEq, Eq, Error)]
pub enum SourceFault {
    #[error("a read failed")]
    Failed,
}

/// Where octets come from.
pub trait Source {
    /// The octets left, where the source tells them.
    ghost left: { Self → Option (List ℕ) };

    /// How many reads failed, in a count that stops at the last value of a u64.
    ghost faults: { Self → ℕ };

    /// Reads some octets to the front of `into`, and answers how many. None into a slice that is not empty is the end.
    fn read(&mut self, into: &mut [u8]) -> Result<usize, SourceFault>
        ensures bound { ReadsAtMost result into.new }
        ensures bytes { ReadConsumes (left self.old) (left self.new) result into.new }
        ensures cause { HasCause (faults self.old) (faults self.new) result };
}

/// A source over memory. The calls of `read` whose numbers are listed fail, counted from 1.
#[derive(Drop)]
pub struct MemSource {
    octets: Vec<u8>,
    at: usize,
    failing: Vec<u64>,
    calls: u64,
    faults: u64,
}

impl MemSource {
    /// A source of these octets, no read of which has failed yet. It takes no memory.
    pub fn new(_alloc: Global, octets: Vec<u8>, failing: Vec<u64>) -> MemSource
        ensures left { ⟦<MemSource as Source>⟧.left result ≡ Some octets.items }
        ensures faults { ⟦<MemSource as Source>⟧.faults result ≡ 0 }
        ensures calls { reads_made result ≡ 0 }
        ensures failing { failing_reads result ≡ failing.items }
    {
        MemSource {
            octets,
            at: 0,
            failing,
            calls: 0,
            faults: 0,
        }
    }
}

impl Source for MemSource {
    ghost left = { octets_left };

    ghost faults = { failed_reads };

    /// A read fails exactly where its number is listed.
    fn read(&mut self, into: &mut [u8]) -> Result<usize, SourceFault>
        ensures failed { (result ≡ Err SourceFault.Failed) ↔ IsListed (failing_reads self.old) (reads_made self.old) }
        ensures bound { ReadsAtMost result into.new }
        ensures bytes { ReadConsumes (octets_left self.old) (octets_left self.new) result into.new }
        ensures cause { HasCause (failed_reads self.old) (failed_reads self.new) result }
        ensures counted { reads_made self.new ≡ call_after (reads_made self.old) }
        ensures listed { failing_reads self.new ≡ failing_reads self.old }
    {
        self.calls = self.calls.saturating_add(1);
        if self.failing.contains(&self.calls) {
            self.faults = self.faults.saturating_add(1);
            return Err(SourceFault::Failed);
        }
        let count = front_into(self.octets.as_slice(), self.at, into);
        self.at += count;
        Ok(count)
    }
}

/// Copies what fits from a place on.
fn front_into(octets: &[u8], at: usize, into: &mut [u8]) -> usize
    ensures fits { result ≤ length into.new }
    ensures copied { take result into.new ≡ take result (drop at octets.now) }
    ensures within { at ≤ length octets.now → at + result ≤ length octets.now }
    ensures ended { result ≡ 0 → 0 < length into.new → drop at octets.now ≡ [] }
{
    if at >= octets.len() {
        return 0;
    }
    let rest = &octets[at..];
    let count = rest.len().min(into.len());
    into[..count].copy_from_slice(&rest[..count]);
    count
}
