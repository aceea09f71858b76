//! What a control node holds.
ghost use Rattle.std.specs.Prelude.{◌≡◌, Some, true, OnOk, OnErr, IfSome, option_copied};
ghost use Rattle.node_laws.specs.Quiet.{PublishesNothing};
ghost use Rattle.ov_sync.specs.Keyed.{PutOf, IsPut};
ghost use Rattle.path_select.specs.NodeModel.Maps.{object};
ghost use Rattle.vpn_holdings.specs.Listing.{told_in};
ghost use Rattle.vpn_holdings.specs.Ranges.{Fits};
ghost use Rattle.vpn_holdings.specs.Changes.{nothing, with_low, with_route, with_agent, with_publication, without};

use crate::forgetting::{forget_labels, forget_routes};
use crate::kept::{set_route, set_told};
use crate::moved::told_key;
use crate::places::{Labels, Routes, place_told};
use crate::ports::{Objects, Ports, drop_object, put_object};
use crate::publishing::has_label;
use crate::sessions::{empty_agent, empty_at, name_agent};
use ov_sync::{Delta, SyncIn};
use ov_types::{Addr, Label, LowKey, LowValue, NoMemory, UpKey, VpnKey, VpnRoute};
use std::alloc::Global;
use std::collections::BTreeMap;
use std::marker::Model;

/// What a control node holds of its sessions, and what follows from it. Session 0 is the feed; the sessions of peers
/// and of agents are told apart by the calls.
#[derive(Drop)]
pub struct VpnHoldings {
    pub(crate) asn: u32,
    pub(crate) low: Objects,
    pub(crate) ports: Ports,
    /// Of session 1, 2 and so on.
    pub(crate) peers: Vec<SyncIn<VpnKey, VpnRoute>>,
    /// In the order of their sessions.
    pub(crate) agents: Vec<Agent>,
    /// Where the routes of peers stand, by prefix.
    pub(crate) routes: Routes,
    /// Where the publications of agents stand, by prefix.
    pub(crate) labels: Labels,
    pub(crate) alloc: Global,
}

/// What an agent told on its session.
#[derive(Drop)]
pub(crate) struct Agent {
    pub(crate) session: u16,
    pub(crate) address: Addr,
    pub(crate) told: SyncIn<UpKey, Label>,
}

impl Model for VpnHoldings {
    ghost use Rattle.path_select.specs.NodeModel.Paths.{Holdings};

    ghost Value = { Holdings };

    ghost use Rattle.vpn_holdings.specs.Codes.{coded_holdings};

    ghost coded = { coded_holdings };

    ghost use Rattle.std.specs.Prelude.{◌≤◌, length, map};
    ghost use Rattle.ov_sync.specs.Keyed.{map_of, Values};
    ghost use Rattle.vpn_holdings.specs.Ranges.{Fits};
    ghost use Rattle.vpn_holdings.specs.Indexed.{AreInOrder, AreLabels, AreRoutes};
    ghost use Rattle.vpn_holdings.specs.Ports.{AreCounted};
    ghost use Rattle.vpn_holdings.specs.Views.{low_order, feed_of, peer_of, agent_of};

    ghost view = { λ s. record {
      asn = s.asn;
      feed = feed_of s.low.entries;
      peers = map peer_of s.peers.items;
      agents = map agent_of s.agents.items;
    } };

    ghost invariant = { λ s. Values Fits (map_of low_order s.low.entries) × (length s.peers.items ≤ 65535)
        × AreCounted s.ports (feed_of s.low.entries) × AreRoutes s.routes (map peer_of s.peers.items)
        × AreLabels s.labels (map agent_of s.agents.items) × AreInOrder (map agent_of s.agents.items) };
}

impl VpnHoldings {
    /// Nothing is held. It takes no memory.
    pub fn new(alloc: Global, asn: u32) -> VpnHoldings
        ensures { result ≡ nothing asn }
    {
        VpnHoldings {
            asn,
            low: BTreeMap::new(alloc),
            ports: BTreeMap::new(alloc),
            peers: Vec::new(alloc),
            agents: Vec::new(alloc),
            routes: BTreeMap::new(alloc),
            labels: BTreeMap::new(alloc),
            alloc,
        }
    }

    /// Applies a change that the feed told. A drop takes no memory.
    pub fn set_low(&mut self, delta: Delta<LowKey, LowValue>) -> Result<(), NoMemory>
        requires { PutOf Fits delta }
        ensures ok { OnOk result (self.new ≡ with_low self.old delta) }
        ensures err { OnErr result (self.new ≡ self.old) }
        ensures memory { OnErr result (IsPut delta) }
    {
        match delta {
            Delta::Put(key, value) => put_object(&mut self.low, &mut self.ports, key, value),
            Delta::Drop(key) => {
                drop_object(&mut self.low, &mut self.ports, &key);
                Ok(())
            }
        }
    }

    /// Applies a change that a peer told on its session. Session 0 is the feed, which tells no routes.
    pub fn set_peer_route(
        &mut self,
        session: u16,
        delta: Delta<VpnKey, VpnRoute>,
    ) -> Result<(), NoMemory>
        ensures ok { OnOk result (self.new ≡ with_route self.old session delta) }
        ensures err { OnErr result (self.new ≡ self.old) }
    {
        if session == 0 {
            return Ok(());
        }
        set_route(
            self.alloc,
            &mut self.peers,
            &mut self.routes,
            session,
            delta,
        )?;
        Ok(())
    }

    /// Says whose session it is. What its agent told stays.
    pub fn set_agent(&mut self, session: u16, address: Addr) -> Result<(), NoMemory>
        ensures ok { OnOk result (self.new ≡ with_agent self.old session address) }
        ensures err { OnErr result (self.new ≡ self.old) }
    {
        name_agent(self.alloc, &mut self.agents, session, address)?;
        Ok(())
    }

    /// Applies a change that an agent told on its session. A session that is no agent's changes nothing.
    pub fn set_publication(
        &mut self,
        session: u16,
        delta: Delta<UpKey, Label>,
    ) -> Result<(), NoMemory>
        ensures ok { OnOk result (self.new ≡ with_publication self.old session delta) }
        ensures err { OnErr result (self.new ≡ self.old) }
    {
        let place = place_told(self, session, &told_key(&delta));
        set_told(&mut self.agents, &mut self.labels, place, session, delta)?;
        Ok(())
    }

    /// Empties what a session gave; whose session it is stays. It takes no memory.
    pub fn drop_session(&mut self, session: u16)
        ensures { self.new ≡ without self.old session }
    {
        empty_agent(&mut self.agents, session);
        forget_routes(&mut self.routes, session);
        forget_labels(&mut self.labels, session);
        if session == 0 {
            self.low.clear();
            self.ports.clear();
            return;
        }
        empty_at(&mut self.peers, usize::from(session - 1));
    }

    /// Whether nothing is published on a session, whatever is subscribed. It takes no memory.
    pub fn publishes_nothing(&self, session: u16) -> bool
        ensures only_if_nothing { result ≡ true → PublishesNothing (told_in self.now.agents session).map }
        ensures if_nothing { PublishesNothing (told_in self.now.agents session).map → result ≡ true }
    {
        !has_label(&self.labels, session)
    }

    /// The object that is held at a key. It takes no memory.
    pub fn low(&self, key: &LowKey) -> Option<&LowValue>
        ensures object { option_copied result ≡ object self.now.feed key.now }
        ensures fits { IfSome result (λ value. Fits key.now value.now) }
    {
        self.low.get(key)
    }

    /// The AS number. It takes no memory.
    pub fn asn(&self) -> u32
        ensures { result ≡ self.now.asn }
    {
        self.asn
    }
}
