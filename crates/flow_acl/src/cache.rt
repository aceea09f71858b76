//! Verdicts that are kept.
ghost use Rattle.std.specs.Prelude.{◌≡◌, ◌⊎◌, [], IfOk, IsSome, None};
ghost use Rattle.std.specs.Map.{lookup};
ghost use Rattle.std.specs.NonZero.{non_zero_usize_get};
ghost use Rattle.ov_types.specs.Access.{verdict};
ghost use Rattle.flow_acl.specs.Flows.{AreOf, flow_of, is_flow, used, with_new};

use crate::acls::Acls;
use crate::flow::{FlowKey, flow_of};
use crate::verdicts::evaluate;
use lru::{Iter, LruCache};
use ov_types::{InstanceId, NoMemory, Packet, Verdict};
use std::alloc::Global;
use std::marker::Model;
use std::num::NonZeroUsize;

/// The last verdicts, at most 1024, which contracts see as their list, the last used first.
#[derive(Drop)]
pub struct FlowCache {
    kept: LruCache<FlowKey, Verdict>,
}

impl Model for FlowCache {
    ghost use Rattle.std.specs.Prelude.{◌≡◌, List};
    ghost use Rattle.ov_types.specs.declared.verdict.Verdict.{Verdict as Said};
    ghost use Rattle.flow_acl.specs.declared.flow.FlowKey.{FlowKey as Of};

    ghost Value = { List (Of × Said) };

    ghost view = { λ c. c.kept.entries };

    ghost invariant = { λ c. c.kept.cap ≡ 1024 };
}

fn room() -> NonZeroUsize
    ensures { non_zero_usize_get result ≡ 1024 }
{
    NonZeroUsize::new(1024).unwrap()
}

impl FlowCache {
    /// No verdicts.
    pub fn new(alloc: Global) -> Result<FlowCache, NoMemory>
        ensures { IfOk result (λ cache. cache ≡ []) }
    {
        let kept = LruCache::sparse(alloc, room())?;
        Ok(FlowCache { kept })
    }

    /// Drops all verdicts. It takes no memory.
    pub fn clear(&mut self)
        ensures { self.new ≡ [] }
    {
        self.kept.clear();
    }

    /// What `evaluate` says over these access lists, of which each kept verdict must be. A kept verdict is used again,
    /// and then stands first. A new one is kept as the first, and of 1024 the last is dropped for it; where there is no
    /// memory for it the verdicts stay as they are.
    pub fn verdict(&mut self, acls: &Acls, network: InstanceId, packet: &Packet) -> Verdict
        requires { AreOf acls.now self.old }
        ensures verdict { result ≡ verdict acls.now network.0 packet.now }
        ensures kept { AreOf acls.now self.new }
        ensures used { IsSome (lookup (is_flow (flow_of network packet.now)) self.old)
            → self.new ≡ used (flow_of network packet.now) self.old }
        ensures new { lookup (is_flow (flow_of network packet.now)) self.old ≡ None
            → (self.new ≡ with_new (flow_of network packet.now) result self.old) ⊎ (self.new ≡ self.old) }
    {
        let flow = flow_of(network, packet);
        if let Some(verdict) = self.recall(flow) {
            return verdict;
        }
        let verdict = evaluate(acls, network, packet);
        self.remember(flow, verdict);
        verdict
    }

    /// The verdict of a flow, where one is kept, which then stands first.
    fn recall(&mut self, flow: FlowKey) -> Option<Verdict>
        ensures verdict { result ≡ lookup (is_flow flow) self.old }
        ensures used { self.new ≡ used flow self.old }
    {
        self.kept.get(&flow).copied()
    }

    /// Keeps the verdict of a flow of which none is kept, where there is memory for it.
    fn remember(&mut self, flow: FlowKey, verdict: Verdict)
        requires { lookup (is_flow flow) self.old ≡ None }
        ensures { (self.new ≡ with_new flow verdict self.old) ⊎ (self.new ≡ self.old) }
    {
        let _kept = self.kept.put(flow, verdict);
    }

    /// The verdicts, the last used first. It takes no memory.
    pub fn entries(&self) -> Iter<'_, FlowKey, Verdict>
        ensures { result ≡ self.now }
    {
        self.kept.iter()
    }
}
