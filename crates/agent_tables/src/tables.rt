//! What an agent forwards by.
ghost use Rattle.std.specs.Prelude.{◌≡◌, [], IfOk, IsTrue, OnErr, OnOk, map};
ghost use Rattle.std.specs.List.{All, AllByRecursion};
ghost use Rattle.ov_types.specs.Access.{verdict};
ghost use Rattle.ov_types.specs.declared.objects.LowKey.TheVariants.{Acl};
ghost use Rattle.route_targets.specs.Forwarding.{attached, looked_up};
ghost use Rattle.packet_trace.specs.Circuits.{IsOfAUse};
ghost use Rattle.node_core.specs.Told.{AllFit};
ghost use Rattle.node_core.specs.NodeModel.Agent.{Heard, Holdings, is_needed};
ghost use Rattle.flow_acl.specs.Flows.{AreOf};
ghost use Rattle.agent_tables.specs.Listed.{HaveSame, SameBut};
ghost use Rattle.agent_tables.specs.Touched.{AreTables, HaveRoutes, with_routes};
ghost use Rattle.agent_tables.specs.Sliced.{AreOfSlice};
ghost use Rattle.agent_tables.specs.Views.{heard_of};

use crate::acls::{are_same, put_list};
use crate::fibs::{Fibs, have_same_instances, instances, keep_heard, lead_all};
use crate::hearing::Hearing;
use crate::needs::{are_among, needed_at, needs_only};
use crate::object::value_of;
use crate::rows::{acl_rows, label_rows, route_rows};
use crate::slice::object_in_use;
use crate::sliced::{SliceTables, slice_tables};
use flow_acl::{Acls, FlowCache};
use ov_types::{
    Addr, AgentRows, Attached, Entry, InstanceId, Label, LowKey, NoMemory, Packet, Prefix, Verdict,
};
use std::alloc::Global;
use std::collections::BTreeMap;
use std::marker::Model;
use vrouter_fib::Labels;

/// The labels, access lists and routes of an agent, which contracts see as its rows, with the instances that have a table
/// of routes, perhaps of none. Its calls but for `of`, `set_routes`, `set_objects`, `needs_stay`, `set_list` and
/// `rows` take no memory.
#[derive(Drop)]
pub struct AgentTables {
    labels: Labels,
    acls: Acls,
    fibs: Fibs,
}

impl Model for AgentTables {
    ghost use Rattle.std.specs.BTreeMap.{IsOrdered};
    ghost use Rattle.std.specs.List.{All};
    ghost use Rattle.std.specs.Prelude.{map};
    ghost use Rattle.packet_trace.specs.Circuits.{IsOfAUse};
    ghost use Rattle.agent_tables.specs.Routes.{instance_order, routes_of};
    ghost use Rattle.agent_tables.specs.Touched.{Tabled, coded_tabled};

    ghost Value = { Tabled };

    ghost coded = { coded_tabled };

    ghost view = { λ t. record {
      rows = record { labels = t.labels; acls = t.acls; routes = routes_of t.fibs.entries };
      instances = map (λ f. f.0) t.fibs.entries;
    } };

    ghost invariant = { λ t. All (λ e. IsOfAUse e.1) t.labels × IsOrdered instance_order t.fibs };
}

impl AgentTables {
    /// Nothing to forward by. It takes no memory.
    pub fn new(alloc: Global) -> AgentTables
        ensures { result ≡ record { rows = record { labels = []; acls = []; routes = [] }; instances = [] } }
    {
        AgentTables {
            labels: Labels::new(alloc),
            acls: Acls::new(alloc),
            fibs: BTreeMap::new(alloc),
        }
    }

    /// What the sessions of an agent give it to forward by: the attachments and access lists of the slice in use, and
    /// of each instance that it needs the routes of the first session that is up and has them.
    pub fn of(alloc: Global, sessions: &[Hearing]) -> Result<AgentTables, NoMemory>
        requires { AllByRecursion (λ (s : Heard). AllFit s.map) (map heard_of sessions.now) }
        ensures { IfOk result (λ tables. AreTables (map heard_of sessions.now) tables) }
    {
        let tables = slice_tables(alloc, sessions)?;
        AgentTables::with_heard(tables, sessions)
    }

    /// What the slice in use gives, with the routes of the sessions that are up.
    fn with_heard(tables: SliceTables, sessions: &[Hearing]) -> Result<AgentTables, NoMemory>
        requires { AreOfSlice (map heard_of sessions.now) tables }
        ensures { IfOk result (λ tables. AreTables (map heard_of sessions.now) tables) }
    {
        let SliceTables {
            labels,
            acls,
            mut fibs,
        } = tables;
        keep_heard(&mut fibs, sessions)?;
        Ok(AgentTables { labels, acls, fibs })
    }

    /// Forwards by what the sessions give from now on, where these tables were those of sessions with the same routes:
    /// by the attachments and access lists of the slice in use. While the same instances are needed their routes stay
    /// where they are; otherwise all tables are made anew. What is kept of verdicts goes where the access lists change.
    pub fn set_objects(
        &mut self,
        flows: &mut FlowCache,
        alloc: Global,
        sessions: &[Hearing],
    ) -> Result<(), NoMemory>
        requires fits { AllByRecursion (λ (s : Heard). AllFit s.map) (map heard_of sessions.now) }
        requires kept { AreOf self.old.rows.acls flows.old }
        ensures set { OnOk result (HaveRoutes (map heard_of sessions.now) self.old
            → AreTables (map heard_of sessions.now) self.new) }
        ensures unchanged { OnErr result (self.new ≡ self.old) }
        ensures kept { AreOf self.new.rows.acls flows.new }
        ensures stays { self.new.rows.acls ≡ self.old.rows.acls → flows.new ≡ flows.old }
    {
        let tables = slice_tables(alloc, sessions)?;
        let same = have_same_instances(alloc, &self.fibs, &tables.fibs)?;
        if same {
            self.put_objects(flows, tables);
            return Ok(());
        }
        let made = AgentTables::with_heard(tables, sessions)?;
        self.renew(flows, made);
        Ok(())
    }

    /// Whether the agent needs the very same instances where another access list, or none, stands between two networks in
    /// the slice in use. It may say no where it does.
    pub fn needs_stay(
        &self,
        alloc: Global,
        sessions: &[Hearing],
        from: InstanceId,
        to: InstanceId,
    ) -> Result<bool, NoMemory>
        requires { AllByRecursion (λ (s : Heard). AllFit s.map) (map heard_of sessions.now) }
        ensures { IfOk result (λ stay. IsTrue stay → (before : Holdings) → AreTables before self.now
            → SameBut (Acl from.0 to.0) before (map heard_of sessions.now)
            → (i : InstanceId) → is_needed before i ≡ is_needed (map heard_of sessions.now) i) }
    {
        let key = LowKey::Acl {
            from: from.0,
            to: to.0,
        };
        let needed = needed_at(alloc, object_in_use(sessions, key))?;
        let known = instances(alloc, &self.fibs)?;
        if !are_among(&known, &needed) {
            return Ok(false);
        }
        Ok(needs_only(&needed, self.acls.get(from, to)))
    }

    /// Forwards by what the sessions give from now on, where these tables were those of sessions that are the same but
    /// for the access list between two networks: by that of the slice in use. Nothing else changes. What is kept of
    /// verdicts goes where the access list changes.
    pub fn set_list(
        &mut self,
        flows: &mut FlowCache,
        sessions: &[Hearing],
        from: InstanceId,
        to: InstanceId,
    ) -> Result<(), NoMemory>
        requires fits { AllByRecursion (λ (s : Heard). AllFit s.map) (map heard_of sessions.now) }
        requires kept { AreOf self.old.rows.acls flows.old }
        ensures set { OnOk result (HaveSame (Acl from.0 to.0) (map heard_of sessions.now) self.old
            → AreTables (map heard_of sessions.now) self.new) }
        ensures unchanged { OnErr result (self.new ≡ self.old) }
        ensures kept { AreOf self.new.rows.acls flows.new }
        ensures stays { self.new.rows.acls ≡ self.old.rows.acls → flows.new ≡ flows.old }
    {
        let key = LowKey::Acl {
            from: from.0,
            to: to.0,
        };
        let list = object_in_use(sessions, key);
        if are_same(self.acls.get(from, to), value_of(list)) {
            return Ok(());
        }
        put_list(&mut self.acls, from, to, list)?;
        flows.clear();
        Ok(())
    }

    /// The labels and access lists are these from now on. The routes stay.
    fn put_objects(&mut self, flows: &mut FlowCache, tables: SliceTables)
        requires circuits { All (λ e. IsOfAUse e.1) tables.labels }
        requires kept { AreOf self.old.rows.acls flows.old }
        ensures put { self.new ≡ record self.old {
          rows = record self.old.rows {
            labels = tables.labels;
            acls = tables.acls;
          };
        } }
        ensures kept { AreOf self.new.rows.acls flows.new }
        ensures stays { self.new.rows.acls ≡ self.old.rows.acls → flows.new ≡ flows.old }
    {
        let SliceTables { labels, acls, .. } = tables;
        if !self.acls.is(&acls) {
            flows.clear();
        }
        self.labels = labels;
        self.acls = acls;
    }

    /// Sets each of some routes to that of the first session that is up and has it, or to none where none has it.
    /// Routes of instances without a table do not count. Nothing else changes.
    pub fn set_routes(
        &mut self,
        sessions: &[Hearing],
        keys: &[(InstanceId, Prefix)],
    ) -> Result<(), NoMemory>
        ensures set { OnOk result (self.new ≡ with_routes (map heard_of sessions.now) self.old keys.now) }
        ensures labels { self.new.rows.labels ≡ self.old.rows.labels }
        ensures lists { self.new.rows.acls ≡ self.old.rows.acls }
    {
        lead_all(&mut self.fibs, sessions, keys)
    }

    /// The rows, in the order of their keys.
    pub fn rows(&self, alloc: Global) -> Result<AgentRows, NoMemory>
        ensures { IfOk result (λ rows. rows ≡ self.now.rows) }
    {
        let labels = label_rows(alloc, &self.labels)?;
        let acls = acl_rows(alloc, &self.acls)?;
        let routes = route_rows(alloc, &self.fibs)?;
        Ok(AgentRows {
            labels,
            acls,
            routes,
        })
    }

    /// What a label leads to. There is nothing exactly where the label is absent.
    pub fn find(&self, label: Label) -> Option<Attached>
        ensures found { result ≡ attached self.now.rows label }
        ensures circuits { All (λ e. IsOfAUse e.1) self.now.rows.labels }
    {
        self.labels.find(label)
    }

    /// What the access lists say of a packet that leaves a network, by what is kept of such verdicts. All that is kept
    /// is what these lists say.
    pub fn verdict(&self, flows: &mut FlowCache, network: InstanceId, packet: &Packet) -> Verdict
        requires { AreOf self.now.rows.acls flows.old }
        ensures said { result ≡ verdict self.now.rows.acls network.0 packet.now }
        ensures kept { AreOf self.now.rows.acls flows.new }
    {
        flows.verdict(&self.acls, network, packet)
    }

    /// Forwards by these tables from now on. What is kept of verdicts goes where the access lists change.
    pub fn renew(&mut self, flows: &mut FlowCache, tables: AgentTables)
        requires { AreOf self.old.rows.acls flows.old }
        ensures tables { self.new ≡ tables }
        ensures kept { AreOf self.new.rows.acls flows.new }
        ensures stays { self.new.rows.acls ≡ self.old.rows.acls → flows.new ≡ flows.old }
    {
        if !self.acls.is(&tables.acls) {
            flows.clear();
        }
        *self = tables;
    }

    /// Where the routes of an instance lead an address. There is nothing exactly where none of them contains it.
    pub fn route(&self, i: InstanceId, a: Addr) -> Option<Entry>
        ensures { result ≡ looked_up self.now.rows i a.0 }
    {
        match self.fibs.get(&i) {
            Some(fib) => fib.lookup(a),
            None => None,
        }
    }
}
