//! The ends of a run: which of their calls fails, and how many octets a call moves.

use ov_io::{MemSink, MemSource, Sink, SinkFault, Source, SourceFault};
use std::alloc::{AllocError, Global};

/// How the ends of a run behave. Calls are counted from 1.
#[derive(Clone, Copy)]
pub(crate) struct Ends {
    pub(crate) failing_read: Option<usize>,
    pub(crate) failing_write: Option<usize>,
    /// The most octets that a read gives.
    pub(crate) most_read: usize,
    /// The most octets that a write takes.
    pub(crate) most_written: usize,
}

/// Ends of which no call fails, and each moves what it can.
pub(crate) const WHOLE_ENDS: Ends = Ends {
    failing_read: None,
    failing_write: None,
    most_read: usize::MAX,
    most_written: usize::MAX,
};

impl Ends {
    /// The source of an input.
    pub(crate) fn source_of(
        self,
        alloc: Global,
        input: Vec<u8>,
    ) -> Result<ShortSource, AllocError> {
        let failing = listed(alloc, self.failing_read)?;
        Ok(ShortSource {
            inner: MemSource::new(alloc, input, failing),
            most: self.most_read,
        })
    }

    /// A sink that has taken nothing.
    pub(crate) fn sink(self, alloc: Global) -> Result<ShortSink, AllocError> {
        let failing = listed(alloc, self.failing_write)?;
        Ok(ShortSink {
            inner: MemSink::new(alloc, failing),
            most: self.most_written,
        })
    }
}

/// The list of one number, or of none.
fn listed(alloc: Global, number: Option<usize>) -> Result<Vec<u64>, AllocError> {
    match number {
        Some(number) => Ok(vec![in alloc; number as u64]?),
        None => Ok(Vec::new(alloc)),
    }
}

/// A source that gives at most so many octets a call, and that doesn't tell what it holds.
#[derive(Drop)]
pub(crate) struct ShortSource {
    inner: MemSource,
    most: usize,
}

impl Source for ShortSource {
    ghost use Rattle.std.specs.Prelude.{◌^◌, ◌-◌, None};

    ghost left = { λ _. None };

    ghost faults = { λ _. 2 ^ 64 - 1 };

    fn read(&mut self, into: &mut [u8]) -> Result<usize, SourceFault> {
        let room = into.len().min(self.most);
        self.inner.read(&mut into[..room])
    }
}

/// A sink that takes at most so many octets a call, and that doesn't tell what it took.
#[derive(Drop)]
pub(crate) struct ShortSink {
    inner: MemSink,
    most: usize,
}

impl ShortSink {
    /// All that was taken.
    pub(crate) fn taken(&self) -> &[u8] {
        self.inner.taken()
    }
}

impl Sink for ShortSink {
    ghost use Rattle.std.specs.Prelude.{◌^◌, ◌-◌, None};

    ghost taken = { λ _. None };

    ghost faults = { λ _. 2 ^ 64 - 1 };

    fn write(&mut self, from: &[u8]) -> Result<usize, SinkFault> {
        let room = from.len().min(self.most.max(1));
        self.inner.write(&from[..room])
    }
}
