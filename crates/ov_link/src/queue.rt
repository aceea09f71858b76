//! A link that keeps its messages until they are taken out.
ghost use Rattle.std.specs.Prelude.{◌≡◌, [], Some, length, drop, slice_get};
ghost use Rattle.std.specs.Option.{option_copied};

use crate::link::{Link, LinkFault};
use bytes::Bytes;
use std::alloc::Global;
use std::collections::VecDeque;
use std::marker::Model;

/// A link that keeps its messages until they are taken out, which contracts see as their list. No send fails.
#[derive(Drop)]
pub struct QueueLink {
    messages: VecDeque<Bytes>,
    alloc: Global,
}

impl Model for QueueLink {
    ghost use Rattle.std.specs.Prelude.{List, ℕ};

    ghost Value = { List (List ℕ) };

    ghost view = { λ l. l.messages.items };
}

impl QueueLink {
    /// No messages. It takes no memory.
    pub fn new(alloc: Global) -> QueueLink
        ensures { result ≡ [] }
    {
        QueueLink {
            messages: VecDeque::new(alloc),
            alloc,
        }
    }

    /// Takes the first message out.
    pub fn pop(&mut self) -> Option<Bytes>
        ensures first { result ≡ slice_get self.old 0 }
        ensures rest { self.new ≡ drop 1 self.old }
    {
        self.messages.pop_front()
    }

    /// The first message.
    pub fn front(&self) -> Option<&[u8]>
        ensures { option_copied result ≡ slice_get self.now 0 }
    {
        match self.messages.front() {
            Some(message) => Some(message.as_slice()),
            None => None,
        }
    }

    pub fn len(&self) -> usize
        ensures { result ≡ length self.now }
    {
        self.messages.len()
    }

    pub fn clear(&mut self)
        ensures { self.new ≡ [] }
    {
        self.messages.clear();
    }
}

impl Link for QueueLink {
    ghost accepted = { λ l. Some l };

    ghost breaks = { λ _. Some [] };

    ghost faults = { λ _. 0 };

    fn send(&mut self, message: &[u8]) -> Result<(), LinkFault> {
        let message = Bytes::copy_from_slice(self.alloc, message)?;
        self.messages.push_back(message)?;
        Ok(())
    }
}
