//! The ends of an agent's sessions, with what it forwards by.
ghost use Rattle.std.specs.Prelude.{◌≡◌, ◌<◌, ◌≤◌, ◌||◌, [], length, is_some, true, IfOk, IfSome, OnOk, Some};
ghost use Rattle.std.specs.List.{All};
ghost use Rattle.ov_types.specs.Access.{verdict};
ghost use Rattle.route_targets.specs.Forwarding.{attached, looked_up};
ghost use Rattle.packet_trace.specs.Circuits.{IsOfAUse};
ghost use Rattle.node_core.specs.NodeModel.Agent.{Holdings, is_needed, rows as rows_of};
ghost use Rattle.node_laws.specs.Stepped.{AreTold};
ghost use Rattle.flow_acl.specs.Flows.{AreOf};
ghost use Rattle.agent_tables.specs.Listed.{HaveSame, SameBut, list_between};
ghost use Rattle.agent_tables.specs.Touched.{AgreeBut, AreTables, HaveRoutes};
ghost use Rattle.agent_node.specs.Core.{holdings, kind, nothings, sessions};
ghost use Rattle.agent_node.specs.Planning.{AreSilent};

use crate::begin::Applied;
use crate::ends::AgentEnds;
use crate::plan::AgentPlan;
use agent_tables::AgentTables;
use flow_acl::FlowCache;
use item_wire::ItemCause;
use node_core::{EndState, Ends, Plan, Started};
use ov_link::Input;
use ov_types::{
    Addr, AgentRows, Attached, Entry, InstanceId, Items, Label, NoMemory, Packet, Prefix, Verdict,
};
use std::alloc::Global;
use std::marker::Model;

/// The ends of all sessions, and the tables of what they hold. An input that puts or drops routes alone changes their
/// rows alone, and tells nothing. One that puts and drops no route leaves the routes of the instances that stay needed;
/// where its session's slice is not in use, it changes no table and tells nothing. One that puts or drops but one access
/// list of the slice in use changes that list alone, and tells nothing where the same instances are needed.
#[derive(Drop)]
pub(crate) struct TabledEnds {
    ends: AgentEnds,
    tables: AgentTables,
    /// Whether the tables are those of what is held.
    current: bool,
    /// Whether the tables are those of sessions with the same routes as what is held.
    routed: bool,
    /// Two networks, where the tables are those of sessions that are the same as what is held but for the access list
    /// between them, and the same instances are needed.
    list: Option<(InstanceId, InstanceId)>,
    /// Whether what was sent is what is wanted, on each session that may send.
    told: bool,
}

impl Model for TabledEnds {
    ghost use Rattle.std.specs.Prelude.{◌≡◌, true, IfSome};
    ghost use Rattle.node_laws.specs.Stepped.{AreTold};
    ghost use Rattle.agent_tables.specs.Listed.{HaveSame, list_between};
    ghost use Rattle.agent_tables.specs.Touched.{AreTables, HaveRoutes};
    ghost use Rattle.agent_node.specs.Core.{holdings, kind};
    ghost use Rattle.agent_node.specs.Ends.{Forwarding, coded_forwarding};

    ghost Value = { Forwarding };

    ghost coded = { coded_forwarding };

    ghost view = { λ t. record { plan = t.ends.plan; posts = t.ends.posts; rows = t.tables.rows } };

    ghost invariant = { λ t. (t.current ≡ true → AreTables (holdings t.ends.posts) t.tables)
        × (t.routed ≡ true → HaveRoutes (holdings t.ends.posts) t.tables)
        × (t.told ≡ true → AreTold kind t.ends.posts)
        × IfSome t.list (λ n. HaveSame (list_between n) (holdings t.ends.posts) t.tables) };
}

/// Plans of as many sessions, none of which is to be told anything.
fn no_plans(alloc: Global, sessions: u16) -> Result<Vec<Plan>, NoMemory>
    ensures { IfOk result (λ plans. AreSilent plans.items sessions) }
{
    let mut plans = Vec::new(alloc);
    for _session in 0..sessions {
        plans.push(Plan {
            messages: Items::new(alloc),
        })?;
    }
    Ok(plans)
}

/// Changes the rows of these routes, where the tables were those of what was held before: they are those of what is
/// held now, then.
fn lead(
    ends: &AgentEnds,
    tables: &mut AgentTables,
    routes: &[(InstanceId, Prefix)],
    current: bool,
) -> Result<(), NoMemory>
    ensures led { OnOk result (current ≡ true → (before : Holdings)
        → AgreeBut routes.now before (holdings ends.now.posts) → AreTables before tables.old
        → AreTables (holdings ends.now.posts) tables.new) }
    ensures lists { tables.new.rows.acls ≡ tables.old.rows.acls }
{
    if current {
        ends.set_routes(tables, routes)
    } else {
        Ok(())
    }
}

/// The networks of an access list that alone changed, where the tables were those of what was held before, and the agent
/// needs the same instances.
fn list_within(
    ends: &AgentEnds,
    tables: &AgentTables,
    list: Option<(InstanceId, InstanceId)>,
    current: bool,
) -> Result<Option<(InstanceId, InstanceId)>, NoMemory>
    ensures list { IfOk result (λ kept. IfSome kept (λ n. list ≡ Some n)) }
    ensures current { IfOk result (λ kept. IfSome kept (λ n. current ≡ true)) }
    ensures needs { IfOk result (λ kept. IfSome kept (λ n. (before : Holdings) → AreTables before tables.now
        → SameBut (list_between n) before (holdings ends.now.posts)
        → (i : InstanceId) → is_needed before i ≡ is_needed (holdings ends.now.posts) i)) }
{
    let Some(networks) = list else {
        return Ok(None);
    };
    if !current {
        return Ok(None);
    }
    if ends.needs_stay(tables, networks)? {
        Ok(Some(networks))
    } else {
        Ok(None)
    }
}

/// Whether what is wanted stays: where the slice in use does, or but one access list of it changed.
fn wants_stay(slice_stays: bool, list: Option<(InstanceId, InstanceId)>) -> bool
    ensures { result ≡ (slice_stays || is_some list) }
{
    slice_stays || list.is_some()
}

/// Makes the tables those of what is held. Where they were those of sessions that are the same but for one access list,
/// that one alone changes; where they were those of sessions with the same routes, the routes of the instances that stay
/// needed stay where they are.
fn renew(
    ends: &AgentEnds,
    tables: &mut AgentTables,
    flows: &mut FlowCache,
    routed: bool,
    list: Option<(InstanceId, InstanceId)>,
) -> Result<(), NoMemory>
    requires { AreOf tables.old.rows.acls flows.old }
    ensures set { OnOk result ((routed ≡ true → HaveRoutes (holdings ends.now.posts) tables.old)
        → IfSome list (λ n. HaveSame (list_between n) (holdings ends.now.posts) tables.old)
        → AreTables (holdings ends.now.posts) tables.new) }
    ensures kept { AreOf tables.new.rows.acls flows.new }
    ensures stays { tables.new.rows.acls ≡ tables.old.rows.acls → flows.new ≡ flows.old }
{
    if let Some(networks) = list {
        return ends.set_list(tables, flows, networks);
    }
    if routed {
        return ends.set_objects(tables, flows);
    }
    let made = ends.tables()?;
    tables.renew(flows, made);
    Ok(())
}

/// Whether both hold.
fn are_both(before: bool, stays: bool) -> bool
    ensures before { result ≡ true → before ≡ true }
    ensures stay { result ≡ true → stays ≡ true }
{
    if before { stays } else { false }
}

impl Ends for TabledEnds {
    ghost use Rattle.std.specs.Prelude.{◌≡◌, refl};
    ghost use Rattle.std.proofs.Common.{◌∙◌};
    ghost use Rattle.node_core.proofs.Begun.{behind};
    ghost use Rattle.agent_node.specs.Beginning.{BeginsKeeping, session_at};
    ghost use Rattle.agent_node.specs.Core.{kind};

    type Cause = ItemCause;

    ghost kind = { λ _. kind };

    ghost posts = { λ e. e.posts };

    ghost stays = { λ before after. (after.plan ≡ before.plan) × (after.rows.acls ≡ before.rows.acls) };

    ghost begins = { λ e. BeginsKeeping e.plan };

    fn sessions(&self) -> u16
        ensures posts { result ≡ length self.now.posts }
        ensures plan { result ≡ sessions self.now.plan }
    {
        self.ends.sessions()
    }

    fn state(&self, session: u16) -> EndState {
        self.ends.state(session)
    }

    fn begin(&mut self, input: Input<'_>) -> Result<Started<ItemCause>, NoMemory> {
        // (for its clauses: there are as many ends as sessions, fewer than 65,536)
        let _before = self.ends.sessions();
        let current = self.current;
        let told = self.told;
        self.current = false;
        self.routed = false;
        self.list = None;
        self.told = false;
        let applied = self.ends.apply(input);
        let _after = self.ends.sessions();
        let Applied {
            started,
            routes,
            routes_stay,
            slice_stays,
            list,
        } = applied?;
        let Some(routes) = routes else {
            let list = list_within(&self.ends, &self.tables, list, current)?;
            self.current = are_both(current, slice_stays);
            self.routed = are_both(current, routes_stay);
            self.told = are_both(told, wants_stay(slice_stays, list));
            self.list = list;
            return Ok(started);
        };
        lead(&self.ends, &mut self.tables, &routes, current)?;
        self.current = current;
        self.told = told;
        Ok(started)
    }

    fn plan(&mut self) -> Result<Vec<Plan>, NoMemory> {
        if self.told {
            return no_plans(self.ends.alloc(), self.ends.sessions());
        }
        let routed = self.routed;
        let list = self.list;
        self.current = false;
        self.routed = false;
        self.list = None;
        let plans = self.ends.plan()?;
        self.routed = routed;
        self.list = list;
        self.told = true;
        Ok(plans)
    }

    fn close(&mut self, session: u16) {
        self.current = false;
        self.routed = false;
        self.list = None;
        self.told = false;
        self.ends.close(session);
    }

    ghost stays_itself = { λ _. (refl, refl) };

    ghost stays_on = { λ _ _ _ first then. (then.0 ∙ first.0, then.1 ∙ first.1) };

    ghost begins_behind = { λ e session p. behind e.plan.me.name (session_at e.plan session p.phase) p };

    ghost idle_is_silent = { λ _ _. refl };
}

impl TabledEnds {
    /// The ends of an agent's sessions, all closed, and nothing to forward by.
    pub(crate) fn new(alloc: Global, plan: AgentPlan) -> Result<TabledEnds, NoMemory>
        requires { length plan.controllers ≤ 2 }
        ensures plan { IfOk result (λ ends. ends.plan ≡ plan) }
        ensures posts { IfOk result (λ ends. ends.posts ≡ nothings (sessions plan)) }
        ensures rows { IfOk result (λ ends. ends.rows ≡ record { labels = []; acls = []; routes = [] }) }
    {
        let ends = AgentEnds::new(alloc, plan)?;
        Ok(TabledEnds {
            ends,
            tables: AgentTables::new(alloc),
            current: false,
            routed: false,
            list: None,
            told: false,
        })
    }

    /// The address of the agent's node.
    pub(crate) fn address(&self) -> Addr
        ensures { result ≡ self.now.plan.me.address }
    {
        self.ends.address()
    }

    /// Forwards by what is held from now on. What is kept of verdicts goes where the access lists change, and stays where
    /// they do.
    pub(crate) fn renew(&mut self, flows: &mut FlowCache) -> Result<(), NoMemory>
        requires { AreOf self.old.rows.acls flows.old }
        ensures plan { self.new.plan ≡ self.old.plan }
        ensures posts { self.new.posts ≡ self.old.posts }
        ensures rows { OnOk result (self.new.rows ≡ rows_of (holdings self.old.posts)) }
        ensures kept { AreOf self.new.rows.acls flows.new }
        ensures stays { self.new.rows.acls ≡ self.old.rows.acls → flows.new ≡ flows.old }
    {
        if self.current {
            return Ok(());
        }
        let routed = self.routed;
        let list = self.list;
        self.routed = false;
        self.list = None;
        renew(&self.ends, &mut self.tables, flows, routed, list)?;
        self.current = true;
        Ok(())
    }

    /// Has nothing to forward by from now on. It takes no memory.
    pub(crate) fn forget(&mut self)
        ensures plan { self.new.plan ≡ self.old.plan }
        ensures posts { self.new.posts ≡ self.old.posts }
        ensures rows { self.new.rows ≡ record { labels = []; acls = []; routes = [] } }
    {
        self.current = false;
        self.routed = false;
        self.list = None;
        self.tables = AgentTables::new(self.ends.alloc());
    }

    /// The rows, in the order of their keys.
    pub(crate) fn rows(&self) -> Result<AgentRows, NoMemory>
        ensures { IfOk result (λ rows. rows ≡ self.now.rows) }
    {
        self.tables.rows(self.ends.alloc())
    }

    /// What a label leads to. There is nothing exactly where the label is absent.
    pub(crate) fn find(&self, label: Label) -> Option<Attached>
        ensures found { result ≡ attached self.now.rows label }
        ensures circuits { All (λ e. IsOfAUse e.1) self.now.rows.labels }
    {
        self.tables.find(label)
    }

    /// What the access lists say of a packet that leaves a network, by what is kept of such verdicts.
    pub(crate) fn verdict(
        &self,
        flows: &mut FlowCache,
        network: InstanceId,
        packet: &Packet,
    ) -> Verdict
        requires { AreOf self.now.rows.acls flows.old }
        ensures said { result ≡ verdict self.now.rows.acls network.0 packet.now }
        ensures kept { AreOf self.now.rows.acls flows.new }
    {
        self.tables.verdict(flows, network, packet)
    }

    /// Where the routes of an instance lead an address.
    pub(crate) fn route(&self, i: InstanceId, a: Addr) -> Option<Entry>
        ensures { result ≡ looked_up self.now.rows i a.0 }
    {
        self.tables.route(i, a)
    }
}
