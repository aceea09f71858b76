//! The ends of an agent's sessions.
ghost use Rattle.std.specs.Prelude.{◌≡◌, ◌≤◌, ◌<◌, [], length, slice_set, IfOk, IsTrue, OnOk};
ghost use Rattle.std.specs.List.{list_any};
ghost use Rattle.item_wire.specs.Happenings.{after};
ghost use Rattle.item_wire.specs.declared.input.Came.TheVariants.{Closed};
ghost use Rattle.node_core.specs.Plans.{ArePlans};
ghost use Rattle.node_core.specs.Resting.{end_at};
ghost use Rattle.node_core.specs.Beginning.{phase_of};
ghost use Rattle.node_core.specs.NodeModel.Step.{nothing, post};
ghost use Rattle.flow_acl.specs.Flows.{AreOf};
ghost use Rattle.node_core.specs.NodeModel.Agent.{Holdings, is_needed};
ghost use Rattle.agent_tables.specs.Listed.{HaveSame, SameBut, list_between};
ghost use Rattle.agent_tables.specs.Touched.{AreTables, HaveRoutes, with_routes};
ghost use Rattle.agent_node.specs.Applying.{is_in_use};
ghost use Rattle.agent_node.specs.Core.{holdings, is_up, kind, nothings, sessions};

use crate::plan::AgentPlan;
use crate::planning::plan_all;
use agent_tables::{AgentTables, Hearing, wanted};
use flow_acl::FlowCache;
use item_wire::{ItemFrom, ItemSession, ItemState};
use node_core::{EndState, Plan};
use ov_sync::{SyncIn, SyncOut};
use ov_types::{Addr, InstanceId, Label, NoMemory, Prefix, UpKey};
use std::alloc::Global;
use std::marker::Model;

/// The ends of all sessions, in the order of the control nodes.
#[derive(Drop)]
pub(crate) struct AgentEnds {
    pub(crate) plan: AgentPlan,
    pub(crate) hearings: Vec<Hearing>,
    /// What was sent on each session.
    pub(crate) sents: Vec<SyncOut<UpKey, Label>>,
    pub(crate) alloc: Global,
}

impl Model for AgentEnds {
    ghost use Rattle.agent_node.specs.Ends.{Ends as Seen, AreEnds, coded_ends, posts_of};

    ghost Value = { Seen };

    ghost coded = { coded_ends };

    ghost view = { λ e. record { plan = e.plan; posts = posts_of e.hearings.items e.sents.items } };

    ghost invariant = { λ e. AreEnds e.plan e.hearings.items e.sents.items };
}

/// Closes an end. Nothing was sent on it then, and nothing is held of it.
fn shut(hearing: &mut Hearing, sent: &mut SyncOut<UpKey, Label>)
    ensures session { hearing.new.session ≡ after hearing.old.session Closed }
    ensures held { hearing.new.held ≡ [] }
    ensures sent { sent.new ≡ [] }
{
    let _down = hearing.session.closed();
    hearing.held.reset();
    sent.reset();
}

fn is_up(hearing: &Hearing) -> bool
    ensures { result ≡ is_up (phase_of hearing.now.session.state) }
{
    matches!(hearing.session.state(), ItemState::Up)
}

fn is_any_up(hearings: &[Hearing]) -> bool
    ensures { result ≡ list_any (λ h. is_up (phase_of h.session.state)) hearings.now }
{
    for hearing in hearings {
        if is_up(hearing) {
            return true;
        }
    }
    false
}

/// The end whose session is in this state.
fn end_in(state: ItemState) -> EndState
    ensures { result ≡ end_at (phase_of state) }
{
    match state {
        ItemState::Idle => EndState::Idle,
        ItemState::Opened => EndState::Opened,
        ItemState::Up => EndState::Up,
    }
}

impl AgentEnds {
    /// The ends of an agent's sessions, all closed.
    pub(crate) fn new(alloc: Global, plan: AgentPlan) -> Result<AgentEnds, NoMemory>
        requires { length plan.controllers ≤ 2 }
        ensures plan { IfOk result (λ ends. ends.plan ≡ plan) }
        ensures posts { IfOk result (λ ends. ends.posts ≡ nothings (sessions plan)) }
    {
        let mut hearings = Vec::new(alloc);
        let mut sents = Vec::new(alloc);
        for controller in plan.controllers.as_slice() {
            hearings.push(Hearing {
                session: ItemSession::new(controller.name, ItemFrom::Control),
                held: SyncIn::new(alloc),
            })?;
            sents.push(SyncOut::new(alloc))?;
        }
        Ok(AgentEnds {
            plan,
            hearings,
            sents,
            alloc,
        })
    }

    /// How many sessions there are. It takes no memory.
    pub(crate) fn sessions(&self) -> u16
        ensures posts { result ≡ length self.now.posts }
        ensures plan { result ≡ sessions self.now.plan }
    {
        self.hearings.len() as u16
    }

    /// How the end of a session is.
    pub(crate) fn state(&self, session: u16) -> EndState
        requires { session < length self.now.posts }
        ensures { result ≡ end_at (post self.now.posts session).phase }
    {
        end_in(self.hearings[usize::from(session)].session.state())
    }

    /// Whether the slice of a session is the one in use: whether it is up, and none before it.
    pub(crate) fn is_in_use(&self, session: u16) -> bool
        requires { session < sessions self.now.plan }
        ensures { result ≡ is_in_use self.now.posts session }
    {
        let index = usize::from(session);
        if is_any_up(&self.hearings[..index]) {
            return false;
        }
        is_up(&self.hearings[index])
    }

    /// What each session is to be told, which counts as sent from then on, where the session may send.
    pub(crate) fn plan(&mut self) -> Result<Vec<Plan>, NoMemory>
        ensures stays { self.new.plan ≡ self.old.plan }
        ensures long { length self.new.posts ≡ length self.old.posts }
        ensures plans { IfOk result (λ plans. ArePlans kind self.old.posts self.new.posts plans.items) }
    {
        let wanted = wanted(self.alloc, &self.hearings)?;
        let plans = plan_all(self.alloc, &self.hearings, &mut self.sents, &wanted)?;
        Ok(plans)
    }

    /// Closes an end. It takes no memory.
    pub(crate) fn close(&mut self, session: u16)
        requires { session < length self.old.posts }
        ensures stays { self.new.plan ≡ self.old.plan }
        ensures closed { self.new.posts ≡ slice_set self.old.posts session nothing }
    {
        let index = usize::from(session);
        shut(&mut self.hearings[index], &mut self.sents[index]);
    }

    /// Where the ends take memory from.
    pub(crate) fn alloc(&self) -> Global {
        self.alloc
    }

    /// The address of the agent's node.
    pub(crate) fn address(&self) -> Addr
        ensures { result ≡ self.now.plan.me.address }
    {
        self.plan.me.address
    }

    /// What the sessions give the agent to forward by.
    pub(crate) fn tables(&self) -> Result<AgentTables, NoMemory>
        ensures { IfOk result (λ tables. AreTables (holdings self.now.posts) tables) }
    {
        AgentTables::of(self.alloc, &self.hearings)
    }

    /// Sets each of some routes to that of the first session that is up and has it.
    pub(crate) fn set_routes(
        &self,
        tables: &mut AgentTables,
        keys: &[(InstanceId, Prefix)],
    ) -> Result<(), NoMemory>
        ensures set { OnOk result (tables.new ≡ with_routes (holdings self.now.posts) tables.old keys.now) }
        ensures lists { tables.new.rows.acls ≡ tables.old.rows.acls }
    {
        tables.set_routes(&self.hearings, keys)
    }

    /// The tables are what the sessions give from now on, where they were those of sessions with the same routes.
    pub(crate) fn set_objects(
        &self,
        tables: &mut AgentTables,
        flows: &mut FlowCache,
    ) -> Result<(), NoMemory>
        requires { AreOf tables.old.rows.acls flows.old }
        ensures set { OnOk result (HaveRoutes (holdings self.now.posts) tables.old
            → AreTables (holdings self.now.posts) tables.new) }
        ensures kept { AreOf tables.new.rows.acls flows.new }
        ensures stays { tables.new.rows.acls ≡ tables.old.rows.acls → flows.new ≡ flows.old }
    {
        tables.set_objects(flows, self.alloc, &self.hearings)
    }

    /// Whether the agent needs the very same instances where another access list, or none, stands between two networks.
    /// It may say no where it does.
    pub(crate) fn needs_stay(
        &self,
        tables: &AgentTables,
        networks: (InstanceId, InstanceId),
    ) -> Result<bool, NoMemory>
        ensures { IfOk result (λ stay. IsTrue stay → (before : Holdings) → AreTables before tables.now
            → SameBut (list_between networks) before (holdings self.now.posts)
            → (i : InstanceId) → is_needed before i ≡ is_needed (holdings self.now.posts) i) }
    {
        tables.needs_stay(self.alloc, &self.hearings, networks.0, networks.1)
    }

    /// The tables are what the sessions give from now on, where they were those of sessions that are the same but for the
    /// access list between two networks.
    pub(crate) fn set_list(
        &self,
        tables: &mut AgentTables,
        flows: &mut FlowCache,
        networks: (InstanceId, InstanceId),
    ) -> Result<(), NoMemory>
        requires { AreOf tables.old.rows.acls flows.old }
        ensures set { OnOk result (HaveSame (list_between networks) (holdings self.now.posts) tables.old
            → AreTables (holdings self.now.posts) tables.new) }
        ensures kept { AreOf tables.new.rows.acls flows.new }
        ensures stays { tables.new.rows.acls ≡ tables.old.rows.acls → flows.new ≡ flows.old }
    {
        tables.set_list(flows, &self.hearings, networks.0, networks.1)
    }
}
