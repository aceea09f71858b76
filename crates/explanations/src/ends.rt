//! Ends that keep what people are told by.
ghost use Rattle.std.specs.Prelude.{◌≡◌, ◌<◌, ◌++◌, [], length, take, IfOk, OnErr};
ghost use Rattle.std.specs.Io.{ReadsAtMost, WritesAtMost};
ghost use Rattle.std.specs.Io.KnownBytes.{ReadConsumes, WriteAppends};
ghost use Rattle.ov_io.specs.Causes.{HasCause};
ghost use Rattle.explanations.specs.Ends.{HeardMore, front_of, heard_of};

use arrayvec::ArrayVec;
use ov_io::{Sink, SinkFault, Source, SourceFault};

/// How many octets are kept of what is written.
pub(crate) const FRONT_OCTETS: usize = 512;

/// A sink into another, which keeps the front of what that took.
#[derive(Drop)]
pub struct FrontSink<K> {
    sink: K,
    front: ArrayVec<u8, 512>,
}

impl<K: Sink> FrontSink<K> {
    /// The sink into another, of which nothing is kept yet.
    pub fn new(sink: K) -> FrontSink<K>
        ensures taken { ⟦<FrontSink<K> as Sink>⟧.taken result ≡ K.taken sink }
        ensures faults { ⟦<FrontSink<K> as Sink>⟧.faults result ≡ K.faults sink }
        ensures front { front_of result ≡ [] }
    {
        FrontSink {
            sink,
            front: ArrayVec::new(),
        }
    }

    /// The front of what was taken, at most 512 octets.
    pub fn front(&self) -> &[u8]
        ensures { result.now ≡ front_of self.now }
    {
        self.front.as_slice()
    }
}

/// Keeps of octets what there is room for.
#[tactic(auto, using(crate::proofs::Fronts::kept_front))]
fn keep_front(front: &mut ArrayVec<u8, 512>, octets: &[u8])
    ensures { front.new.items ≡ take FRONT_OCTETS (front.old.items ++ octets.now) }
{
    let room = front.remaining_capacity();
    let kept = &octets[..room.min(octets.len())];
    match front.try_extend_from_slice(kept) {
        Ok(()) => {}
        Err(_) => unreachable!(),
    }
}

impl<K: Sink> Sink for FrontSink<K> {
    ghost taken = { λ s. K.taken s.sink };

    ghost faults = { λ s. K.faults s.sink };

    fn write(&mut self, from: &[u8]) -> Result<usize, SinkFault>
        ensures bound { WritesAtMost result from.now }
        ensures some { IfOk result (λ count. 0 < length from.now → 0 < count) }
        ensures bytes { WriteAppends (K.taken self.old.sink) (K.taken self.new.sink) result from.now }
        ensures cause { HasCause (K.faults self.old.sink) (K.faults self.new.sink) result }
        ensures kept { IfOk result (λ count. front_of self.new ≡ take FRONT_OCTETS (front_of self.old ++ take count from.now)) }
        ensures same { OnErr result (front_of self.new ≡ front_of self.old) }
    {
        let count = self.sink.write(from)?;
        keep_front(&mut self.front, &from[..count]);
        Ok(count)
    }
}

/// What is kept of what was read.
#[derive(Drop)]
pub enum KeptInput {
    /// Nothing is kept.
    Nothing,
    /// All octets of a text of digits.
    Digits(Vec<u8>),
    /// All octets of a document.
    Document(Vec<u8>),
}

impl KeptInput {
    /// What is kept where octets follow. Nothing is, where they find no memory.
    fn hear(&mut self, octets: &[u8])
        ensures { HeardMore self.old octets.now self.new }
    {
        match self {
            KeptInput::Nothing => {}
            KeptInput::Digits(kept) => {
                if kept.extend_from_slice(octets).is_err() {
                    *self = KeptInput::Nothing;
                }
            }
            KeptInput::Document(kept) => {
                if kept.extend_from_slice(octets).is_err() {
                    *self = KeptInput::Nothing;
                }
            }
        }
    }
}

/// A source from another, which keeps of what that gives what is asked of it.
#[derive(Drop)]
pub struct HeardSource<S> {
    source: S,
    heard: KeptInput,
}

impl<S: Source> HeardSource<S> {
    /// The source from another, with what is kept of it so far.
    pub fn new(source: S, heard: KeptInput) -> HeardSource<S>
        ensures left { ⟦<HeardSource<S> as Source>⟧.left result ≡ S.left source }
        ensures faults { ⟦<HeardSource<S> as Source>⟧.faults result ≡ S.faults source }
        ensures heard { heard_of result ≡ heard }
    {
        HeardSource { source, heard }
    }

    /// What is kept of what was read.
    pub fn heard(&self) -> &KeptInput
        ensures { result.now ≡ heard_of self.now }
    {
        &self.heard
    }
}

impl<S: Source> Source for HeardSource<S> {
    ghost left = { λ s. S.left s.source };

    ghost faults = { λ s. S.faults s.source };

    fn read(&mut self, into: &mut [u8]) -> Result<usize, SourceFault>
        ensures bound { ReadsAtMost result into.new }
        ensures bytes { ReadConsumes (S.left self.old.source) (S.left self.new.source) result into.new }
        ensures cause { HasCause (S.faults self.old.source) (S.faults self.new.source) result }
        ensures kept { IfOk result (λ count. HeardMore (heard_of self.old) (take count into.new) (heard_of self.new)) }
        ensures same { OnErr result (heard_of self.new ≡ heard_of self.old) }
    {
        let count = self.source.read(into)?;
        self.heard.hear(&into[..count]);
        Ok(count)
    }
}
