//! The held objects of one kind. Keys go by kind, so that each kind is a range of them.
ghost use Rattle.std.specs.Prelude.{◌≡◌};
ghost use Rattle.std.specs.List.{AllByRecursion, filter};
ghost use Rattle.path_select.specs.NodeModel.Maps.{objects};
ghost use Rattle.vpn_holdings.specs.Kinds.{IsHeld, is_for_agents, is_network, is_use};

use crate::holdings::VpnHoldings;
use ov_types::{LowKey, LowValue};
use std::collections::btree_map::Range;
use std::ops::Bound;

impl VpnHoldings {
    /// The networks that are held.
    pub(crate) fn held_networks(&self) -> Range<'_, LowKey, LowValue>
        ensures { result ≡ filter (λ e. is_network e.0) (objects self.now.feed) }
    {
        self.low
            .range((Bound::Unbounded, Bound::Excluded(LowKey::Attach(0))))
    }

    /// What is held that may be told to agents: attachments, and then access lists.
    pub(crate) fn held_for_agents(&self) -> Range<'_, LowKey, LowValue>
        ensures { result ≡ filter (λ e. is_for_agents e.0) (objects self.now.feed) }
    {
        let first = LowKey::Attach(0);
        let past = LowKey::ChainUse(0);
        self.low
            .range((Bound::Included(first), Bound::Excluded(past)))
    }

    /// The uses of chains that are held.
    pub(crate) fn held_uses(&self) -> Range<'_, LowKey, LowValue>
        ensures uses { result ≡ filter (λ e. is_use e.0) (objects self.now.feed) }
        ensures held { AllByRecursion (IsHeld self.now.feed) result }
    {
        self.low
            .range((Bound::Included(LowKey::ChainUse(0)), Bound::Unbounded))
    }
}
