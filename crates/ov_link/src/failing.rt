//! A link some sends of which fail.
ghost use Rattle.std.specs.Prelude.{◌≡◌, ◌≤◌, [], Some, length, drop, slice_get, IfOk, OnOk, OnErr};
ghost use Rattle.std.specs.Option.{option_copied};
ghost use Rattle.ov_link.specs.Breaks.{IsDistinct, counted, with_break};

use crate::link::{Link, LinkFault};
use crate::queue::QueueLink;
use bytes::Bytes;
use ov_types::NoMemory;
use std::alloc::Global;
use std::marker::Model;

/// A link that keeps its messages until they are taken out, and of which the sends fail that were named.
#[derive(Drop)]
pub struct FailingLink {
    queue: QueueLink,
    breaks: Vec<u32>,
    faults: u64,
    alloc: Global,
}

impl Model for FailingLink {
    ghost use Rattle.ov_link.specs.Breaks.{IsDistinct};
    ghost use Rattle.ov_link.specs.FailingState.{FailingState, coded_failing};

    ghost Value = { FailingState };

    ghost coded = { coded_failing };

    ghost view = { λ l. record { accepted = l.queue; breaks = l.breaks.items; faults = l.faults } };

    ghost invariant = { λ l. IsDistinct l.breaks.items };
}

impl FailingLink {
    /// No messages, and no send fails. It takes no memory.
    pub fn new(alloc: Global) -> FailingLink
        ensures { result ≡ record { accepted = []; breaks = []; faults = 0 } }
    {
        FailingLink {
            queue: QueueLink::new(alloc),
            breaks: Vec::new(alloc),
            faults: 0,
            alloc,
        }
    }

    /// Takes the first message out.
    pub fn pop(&mut self) -> Option<Bytes>
        ensures first { result ≡ slice_get self.old.accepted 0 }
        ensures rest { self.new ≡ record self.old { accepted = drop 1 self.old.accepted } }
    {
        self.queue.pop()
    }

    /// The first message.
    pub fn front(&self) -> Option<&[u8]>
        ensures { option_copied result ≡ slice_get self.now.accepted 0 }
    {
        self.queue.front()
    }

    /// How many messages the link keeps.
    pub fn len(&self) -> usize
        ensures { result ≡ length self.now.accepted }
    {
        self.queue.len()
    }

    /// Takes all messages out.
    pub fn clear(&mut self)
        ensures { self.new ≡ record self.old { accepted = [] } }
    {
        self.queue.clear();
    }

    /// The n-th send from now on fails.
    pub fn add_break(&mut self, n: u32) -> Result<(), NoMemory>
        requires { 1 ≤ n }
        ensures ok { OnOk result (self.new ≡ record self.old { breaks = with_break n self.old.breaks }) }
        ensures err { OnErr result (self.new ≡ self.old) }
    {
        if self.breaks.contains(&n) {
            return Ok(());
        }
        self.breaks.push(n)?;
        Ok(())
    }

    /// How many sends are still to fail.
    pub fn breaks(&self) -> usize
        ensures count { result ≡ length self.now.breaks }
        ensures distinct { IsDistinct self.now.breaks }
    {
        self.breaks.len()
    }

    /// No send is to fail any more.
    pub fn drop_breaks(&mut self)
        ensures { self.new ≡ record self.old { breaks = [] } }
    {
        self.breaks.clear();
    }
}

/// The breaks once a send was made.
fn counted(alloc: Global, breaks: &[u32]) -> Result<Vec<u32>, NoMemory>
    ensures { IfOk result (λ later. later.items ≡ counted breaks.now) }
{
    let mut later = Vec::new(alloc);
    for &n in breaks {
        if n > 1 {
            later.push(n - 1)?;
        }
    }
    Ok(later)
}

impl Link for FailingLink {
    ghost accepted = { λ l. Some l.accepted };

    ghost breaks = { λ l. Some l.breaks };

    ghost faults = { λ l. l.faults };

    fn send(&mut self, message: &[u8]) -> Result<(), LinkFault> {
        let later = counted(self.alloc, &self.breaks)?;
        if self.breaks.contains(&1) {
            self.breaks = later;
            self.faults = self.faults.saturating_add(1);
            return Err(LinkFault::Failed);
        }
        self.queue.send(message)?;
        self.breaks = later;
        Ok(())
    }
}
