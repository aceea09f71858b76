//! The table of flows.
ghost use Rattle.std.specs.Prelude.{◌≡◌, ◌<◌, [], ◌∷◌, IfOk, OnOk, OnErr};
ghost use Rattle.std.specs.List.{list_any};
ghost use Rattle.flow_state.specs.Recent.{Flows, recent, same_flow};

use crate::flow::Flow;
use lru::LruCache;
use ov_types::NoMemory;
use std::alloc::Global;
use std::marker::Model;
use std::num::NonZeroUsize;

/// The flows that were used last, which contracts see as their list, the one used last first, and how many there may
/// be.
#[derive(Drop)]
pub struct FlowTable {
    kept: LruCache<Flow, ()>,
}

impl Model for FlowTable {
    ghost use Rattle.std.specs.Map.{keys_of};
    ghost use Rattle.flow_state.specs.Recent.{Flows};

    ghost Value = { Flows };

    ghost view = { λ t. record { capacity = t.kept.cap; flows = keys_of t.kept.entries } };
}

impl FlowTable {
    /// An empty table with room for a number of flows.
    pub fn new(alloc: Global, capacity: u16) -> Result<FlowTable, NoMemory>
        requires { 0 < capacity }
        ensures { IfOk result (λ t. t ≡ record { capacity = capacity; flows = [] }) }
    {
        let Some(room) = NonZeroUsize::new(usize::from(capacity)) else {
            unreachable!()
        };
        let kept = LruCache::sparse(alloc, room)?;
        Ok(FlowTable { kept })
    }

    /// A flow is used. On want of memory nothing changes.
    pub(crate) fn touch(&mut self, flow: Flow) -> Result<(), NoMemory>
        ensures ok { OnOk result (self.new
            ≡ record { capacity = self.old.capacity; flows = recent self.old.capacity (flow ∷ self.old.flows) }) }
        ensures err { OnErr result (self.new ≡ self.old) }
    {
        // What is known of the cache, as that it holds no flow twice, comes with this read.
        let _count = self.kept.len();
        self.kept.put(flow, ())?;
        Ok(())
    }

    /// Whether a flow is in the table. It takes no memory.
    pub fn holds(&self, flow: &Flow) -> bool
        ensures { result ≡ list_any (λ f. same_flow flow.now f) self.now.flows }
    {
        self.kept.contains(flow)
    }

    /// Empties the table. It takes no memory.
    pub fn clear(&mut self)
        ensures { self.new ≡ record { capacity = self.old.capacity; flows = [] } }
    {
        self.kept.clear();
    }
}
