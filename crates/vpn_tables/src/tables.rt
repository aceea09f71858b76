//! What a control node holds, with what follows from it, and how it changes.
ghost use Rattle.std.specs.Prelude.{◌≡◌, ◌≤◌, ◌<◌, ◌+◌, OnOk, OnErr};
ghost use Rattle.ov_sync.specs.Keyed.{PutOf, IsPut, key_of};
ghost use Rattle.vpn_holdings.specs.Changes.{nothing, with_low, with_route, with_agent, with_publication, without};
ghost use Rattle.vpn_holdings.specs.Moved.{targets_by_publication, targets_by_route};
ghost use Rattle.vpn_holdings.specs.Ranges.{Fits};
ghost use Rattle.vpn_holdings.specs.Touched.{rows_by_key, touched, touched_rows};

use crate::agents::change_agent;
use crate::counted::{change_publication, change_route};
use crate::dropping::drop_session;
use crate::objects::change_low;
use crate::stored::Stored;
use ov_sync::Delta;
use ov_types::{
    Addr, InstanceId, Label, LowKey, LowValue, NoMemory, Prefix, UpKey, VpnKey, VpnRoute,
};
use path_select::Steps;
use std::alloc::Global;
use std::collections::BTreeMap;
use std::marker::{Brand, Model};
use std::sync::ledger::{Blank, Ledger};
use vpn_holdings::VpnHoldings;

/// What a control node holds of its sessions, and what follows from it. Session 0 is the feed; the sessions of peers
/// and of agents are told apart by the calls.
#[derive(Drop)]
pub struct VpnTables {
    pub(crate) held: VpnHoldings,
    /// What follows of each instance and prefix.
    pub(crate) stored: Stored,
    pub(crate) alloc: Global,
}

impl Model for VpnTables {
    ghost use Rattle.node_model.specs.Paths.{Holdings};
    ghost use Rattle.vpn_holdings.specs.Codes.{coded_holdings};
    ghost use Rattle.vpn_tables.specs.Stored.{AreStored};

    ghost Value = { Holdings };

    ghost coded = { coded_holdings };

    ghost view = { λ s. s.held };

    ghost invariant = { λ s. AreStored s.stored s.held };
}

impl VpnTables {
    /// Nothing is held. It takes no memory.
    pub fn new(alloc: Global, asn: u32) -> VpnTables
        ensures { result ≡ nothing asn }
    {
        VpnTables {
            held: VpnHoldings::new(alloc, asn),
            stored: BTreeMap::new(alloc),
            alloc,
        }
    }

    /// Applies a change that the feed told. A drop takes no memory.
    pub fn set_low(&mut self, delta: Delta<LowKey, LowValue>) -> Result<(), NoMemory>
        requires { PutOf Fits delta }
        ensures ok { OnOk result (self.new ≡ with_low self.old delta) }
        ensures err { OnErr result (self.new ≡ self.old) }
        ensures memory { OnErr result (IsPut delta) }
    {
        change_low(self.alloc, &mut self.held, &mut self.stored, delta)
    }

    /// Applies a change that a peer told on its session. Session 0 is the feed, which tells no routes. It takes at most as
    /// many steps as the change touches.
    pub fn set_peer_route_counted<L: Ledger>(
        &mut self,
        session: u16,
        delta: Delta<VpnKey, VpnRoute>,
        steps: &mut Steps<L>,
    ) -> Result<(), NoMemory>
        ensures ok { OnOk result (self.new ≡ with_route self.old session delta) }
        ensures err { OnErr result (self.new ≡ self.old) }
        ensures steps { steps.new ≤ steps.old + touched self.old (targets_by_route self.old session delta) }
    {
        let touched = self.touched_by_route(session, &delta)?;
        self.set_peer_route_at(touched.as_slice(), session, delta, steps)
    }

    /// Applies a change that a peer told on its session and that touches these rows.
    pub(crate) fn set_peer_route_at<L: Ledger>(
        &mut self,
        rows: &[(InstanceId, Prefix)],
        session: u16,
        delta: Delta<VpnKey, VpnRoute>,
        steps: &mut Steps<L>,
    ) -> Result<(), NoMemory>
        requires { rows.now ≡ touched_rows self.old (targets_by_route self.old session delta) (key_of delta).prefix }
        ensures ok { OnOk result (self.new ≡ with_route self.old session delta) }
        ensures err { OnErr result (self.new ≡ self.old) }
        ensures steps { steps.new ≤ steps.old + touched self.old (targets_by_route self.old session delta) }
    {
        change_route(
            self.alloc,
            &mut self.held,
            &mut self.stored,
            rows,
            session,
            delta,
            steps,
        )
    }

    /// Applies a change that an agent told on its session. A session that is no agent's changes nothing. It takes at most
    /// as many steps as the change touches.
    pub fn set_publication_counted<L: Ledger>(
        &mut self,
        session: u16,
        delta: Delta<UpKey, Label>,
        steps: &mut Steps<L>,
    ) -> Result<(), NoMemory>
        ensures ok { OnOk result (self.new ≡ with_publication self.old session delta) }
        ensures err { OnErr result (self.new ≡ self.old) }
        ensures steps { steps.new ≤ steps.old + touched self.old (targets_by_publication self.old session delta) }
    {
        let touched = self.touched_by_publication(session, &delta)?;
        self.set_publication_at(touched.as_slice(), session, delta, steps)
    }

    /// Applies a change that an agent told on its session and that touches these rows.
    pub(crate) fn set_publication_at<L: Ledger>(
        &mut self,
        rows: &[(InstanceId, Prefix)],
        session: u16,
        delta: Delta<UpKey, Label>,
        steps: &mut Steps<L>,
    ) -> Result<(), NoMemory>
        requires { rows.now ≡ rows_by_key self.old (targets_by_publication self.old session delta) (key_of delta) }
        ensures ok { OnOk result (self.new ≡ with_publication self.old session delta) }
        ensures err { OnErr result (self.new ≡ self.old) }
        ensures steps { steps.new ≤ steps.old + touched self.old (targets_by_publication self.old session delta) }
    {
        change_publication(
            self.alloc,
            &mut self.held,
            &mut self.stored,
            rows,
            session,
            delta,
            steps,
        )
    }

    /// Applies a change that a peer told on its session. Session 0 is the feed, which tells no routes.
    pub fn set_peer_route(
        &mut self,
        session: u16,
        delta: Delta<VpnKey, VpnRoute>,
    ) -> Result<(), NoMemory>
        ensures ok { OnOk result (self.new ≡ with_route self.old session delta) }
        ensures err { OnErr result (self.new ≡ self.old) }
    {
        set_route_on::<Brand>(self, session, delta, Blank::new(1))
    }

    /// Says whose session it is. What its agent told stays.
    pub fn set_agent(&mut self, session: u16, address: Addr) -> Result<(), NoMemory>
        ensures ok { OnOk result (self.new ≡ with_agent self.old session address) }
        ensures err { OnErr result (self.new ≡ self.old) }
    {
        change_agent(
            self.alloc,
            &mut self.held,
            &mut self.stored,
            session,
            address,
        )
    }

    /// Applies a change that an agent told on its session. A session that is no agent's changes nothing.
    pub fn set_publication(
        &mut self,
        session: u16,
        delta: Delta<UpKey, Label>,
    ) -> Result<(), NoMemory>
        ensures ok { OnOk result (self.new ≡ with_publication self.old session delta) }
        ensures err { OnErr result (self.new ≡ self.old) }
    {
        set_publication_on::<Brand>(self, session, delta, Blank::new(1))
    }

    /// Empties what a session gave; whose session it is stays. It takes no memory.
    pub fn drop_session(&mut self, session: u16)
        ensures { self.new ≡ without self.old session }
    {
        drop_session(&mut self.held, &mut self.stored, session);
    }
}

fn set_route_on<L: Ledger>(
    tables: &mut VpnTables,
    session: u16,
    delta: Delta<VpnKey, VpnRoute>,
    blank: Blank,
) -> Result<(), NoMemory>
    requires name { blank.name ≡ L.name }
    requires parts { blank.parts ≡ L.parts }
    requires some { 0 < blank.parts }
    ensures ok { OnOk result (tables.new ≡ with_route tables.old session delta) }
    ensures err { OnErr result (tables.new ≡ tables.old) }
{
    let mut steps = Steps::<L>::new(blank);
    tables.set_peer_route_counted(session, delta, &mut steps)
}

fn set_publication_on<L: Ledger>(
    tables: &mut VpnTables,
    session: u16,
    delta: Delta<UpKey, Label>,
    blank: Blank,
) -> Result<(), NoMemory>
    requires name { blank.name ≡ L.name }
    requires parts { blank.parts ≡ L.parts }
    requires some { 0 < blank.parts }
    ensures ok { OnOk result (tables.new ≡ with_publication tables.old session delta) }
    ensures err { OnErr result (tables.new ≡ tables.old) }
{
    let mut steps = Steps::<L>::new(blank);
    tables.set_publication_counted(session, delta, &mut steps)
}
