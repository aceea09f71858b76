//! Where the program's octets go.
ghost use Rattle.std.specs.Prelude.{◌≡◌, [], ◌<◌, List, ℕ, Option, Some, length, IfOk, OnOk};
ghost use Rattle.std.specs.Io.{WritesAtMost};
ghost use Rattle.std.specs.Io.KnownBytes.{WriteAppends, Appends};
ghost use Rattle.ov_io.specs.Causes.{HasCause};
ghost use Rattle.ov_io.specs.Fakes.{octets_taken, failed_writes, writes_made, failing_writes, call_after, IsListed};
ghost use Rattle.ov_io.specs.Inputs.{TookFront};

use std::alloc::Global;
use thiserror::Error;

/// A write failed.
#[derive(Clone, Copy, Debug, PartialEq, Eq, Error)]
pub enum SinkFault {
    #[error("a write failed")]
    Failed,
}

/// Where octets go.
pub trait Sink {
    /// The octets taken, where the sink tells them.
    ghost taken: { Self → Option (List ℕ) };

    /// How many writes failed, in a count that stops at the last value of a u64.
    ghost faults: { Self → ℕ };

    /// Takes some octets from the front of a piece, at least one if there is one, and answers how many.
    fn write(&mut self, from: &[u8]) -> Result<usize, SinkFault>
        ensures bound { WritesAtMost result from.now }
        ensures some { IfOk result (λ count. 0 < length from.now → 0 < count) }
        ensures bytes { WriteAppends (taken self.old) (taken self.new) result from.now }
        ensures cause { HasCause (faults self.old) (faults self.new) result };
}

/// Writes all of a text. Where a write fails, what was taken is a front of the text.
pub fn write_all<K: Sink>(sink: &mut K, text: &[u8]) -> Result<(), SinkFault>
    ensures ok { OnOk result (Appends (K.taken sink.old) (K.taken sink.new) text.now) }
    ensures front { TookFront (K.taken sink.old) (K.taken sink.new) text.now }
    ensures cause { HasCause (K.faults sink.old) (K.faults sink.new) result }
{
    let mut done = 0;
    while done < text.len() {
        let count = sink.write(&text[done..])?;
        done += count;
    }
    Ok(())
}

/// A sink over memory. The calls of `write` whose numbers are listed fail, counted from 1; a write that finds
/// no memory takes nothing and is a fault too.
#[derive(Drop)]
pub struct MemSink {
    octets: Vec<u8>,
    failing: Vec<u64>,
    calls: u64,
    faults: u64,
}

impl MemSink {
    /// A sink that has taken nothing, no write of which has failed yet. It takes no memory.
    pub fn new(alloc: Global, failing: Vec<u64>) -> MemSink
        ensures taken { ⟦<MemSink as Sink>⟧.taken result ≡ Some [] }
        ensures faults { ⟦<MemSink as Sink>⟧.faults result ≡ 0 }
        ensures calls { writes_made result ≡ 0 }
        ensures failing { failing_writes result ≡ failing.items }
    {
        MemSink {
            octets: Vec::new(alloc),
            failing,
            calls: 0,
            faults: 0,
        }
    }

    /// All that was taken.
    pub fn taken(&self) -> &[u8]
        ensures { ⟦<MemSink as Sink>⟧.taken self.now ≡ Some result.now }
    {
        self.octets.as_slice()
    }
}

impl Sink for MemSink {
    ghost taken = { octets_taken };

    ghost faults = { failed_writes };

    /// A write whose number is listed fails; another takes all, or finds no memory and fails.
    fn write(&mut self, from: &[u8]) -> Result<usize, SinkFault>
        ensures failed { IsListed (failing_writes self.old) (writes_made self.old) → result ≡ Err SinkFault.Failed }
        ensures whole { IfOk result (λ count. count ≡ length from.now) }
        ensures bytes { WriteAppends (octets_taken self.old) (octets_taken self.new) result from.now }
        ensures cause { HasCause (failed_writes self.old) (failed_writes self.new) result }
        ensures counted { writes_made self.new ≡ call_after (writes_made self.old) }
        ensures listed { failing_writes self.new ≡ failing_writes self.old }
    {
        self.calls = self.calls.saturating_add(1);
        if self.failing.contains(&self.calls) {
            self.faults = self.faults.saturating_add(1);
            return Err(SinkFault::Failed);
        }
        match self.octets.extend_from_slice(from) {
            Ok(()) => Ok(from.len()),
            Err(_) => {
                self.faults = self.faults.saturating_add(1);
                Err(SinkFault::Failed)
            }
        }
    }
}
