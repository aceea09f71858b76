//! The ends of the configuration node's sessions.
ghost use Rattle.std.specs.Prelude.{◌≡◌, ◌<◌, [], length, map, not, false, None, Some, IfOk, IsTrue, OnErr};
ghost use Rattle.config_types.specs.Form.{has_config_form, has_topology_form};
ghost use Rattle.config_check.specs.Rules.{first_broken};
ghost use Rattle.item_wire.specs.Happenings.{after};
ghost use Rattle.item_wire.specs.declared.input.Came.TheVariants.{Closed};
ghost use Rattle.node_core.specs.Beginning.{phase_of};
ghost use Rattle.config_node.specs.Core.{is_idle, nothings, sessions};
ghost use Rattle.config_node.specs.Ends.{doubted, new_end};

use crate::changing::next_change;
use crate::planning::plan_all;
use crate::wants::{Objects, want, wanted};
use config_check::Valid;
use item_wire::{ItemCause, ItemFrom, ItemSession, ItemState};
use node_core::{EndState, Ends, Plan, Started};
use ov_link::Input;
use ov_sync::SyncOut;
use ov_types::{LowKey, LowValue, NoMemory, NodeId};
use std::alloc::Global;
use std::marker::Model;

/// The end of a session with a control node, and what was sent on it.
#[derive(Drop)]
pub(crate) struct FeedEnd {
    pub(crate) session: ItemSession,
    pub(crate) sent: SyncOut<LowKey, LowValue>,
    /// Whether it was told all: what was sent is what is wanted, but for the key that changed. No other is compared then.
    pub(crate) told: bool,
}

impl FeedEnd {
    pub(crate) fn is_live(&self) -> bool
        ensures { result ≡ not (is_idle (phase_of self.now.session.state)) }
    {
        !matches!(self.session.state(), ItemState::Idle)
    }

    /// Closes the end. Nothing was sent on it then.
    fn shut(&mut self)
        ensures session { self.new.session ≡ after self.old.session Closed }
        ensures sent { self.new.sent ≡ [] }
        ensures told { self.new.told ≡ false }
    {
        let _down = self.session.closed();
        self.sent.reset();
        self.told = false;
    }
}

/// The ends of all sessions, in the order of the control nodes, with what is valid and what they are to be told of it.
#[derive(Drop)]
pub(crate) struct ConfigEnds {
    pub(crate) valid: Valid,
    pub(crate) wants: Objects,
    /// The key of which what is wanted changed since the last pass, where one alone did.
    pub(crate) changed: Option<LowKey>,
    pub(crate) ends: Vec<FeedEnd>,
    pub(crate) alloc: Global,
}

impl Model for ConfigEnds {
    ghost use Rattle.config_node.specs.Ends.{Ends as Seen, AreEnds, coded_ends, posts_of};

    ghost Value = { Seen };

    ghost coded = { coded_ends };

    ghost view = { λ e. record { setup = e.valid; posts = posts_of e.ends.items } };

    ghost invariant = { λ e. AreEnds e.valid e.wants.entries e.changed e.ends.items };
}

impl Ends for ConfigEnds {
    ghost use Rattle.std.specs.Prelude.{◌≡◌, refl};
    ghost use Rattle.std.proofs.Common.{◌∙◌};
    ghost use Rattle.node_core.proofs.Begun.{behind};
    ghost use Rattle.node_core.specs.NodeModel.Naming.{config};
    ghost use Rattle.config_node.specs.Beginning.{BeginsKeeping, session_at};
    ghost use Rattle.config_node.specs.Core.{kind};

    type Cause = ItemCause;

    ghost kind = { λ e. kind e.setup };

    ghost posts = { λ e. e.posts };

    ghost stays = { λ before after. after.setup ≡ before.setup };

    ghost begins = { λ e. BeginsKeeping e.setup };

    fn sessions(&self) -> u16
        ensures posts { result ≡ length self.now.posts }
        ensures setup { result ≡ sessions self.now.setup }
        ensures some { 0 < sessions self.now.setup }
    {
        self.ends.len() as u16
    }

    fn state(&self, session: u16) -> EndState {
        match self.ends[usize::from(session)].session.state() {
            ItemState::Idle => EndState::Idle,
            ItemState::Opened => EndState::Opened,
            ItemState::Up => EndState::Up,
        }
    }

    fn begin(&mut self, input: Input<'_>) -> Result<Started<ItemCause>, NoMemory> {
        // (for its clauses: there are as many ends as sessions, fewer than 65,536)
        let _before = self.sessions();
        let started = self.apply(input);
        let _after = self.sessions();
        started
    }

    fn plan(&mut self) -> Result<Vec<Plan>, NoMemory> {
        let plans = plan_all(self.alloc, &mut self.ends, &self.wants, &self.changed)?;
        self.changed = None;
        Ok(plans)
    }

    fn close(&mut self, session: u16) {
        self.ends[usize::from(session)].shut();
    }

    ghost stays_itself = { λ _. refl };

    ghost stays_on = { λ _ _ _ first then. then ∙ first };

    ghost begins_behind = { λ e session p. behind config (session_at e.setup session p.phase) p };

    ghost idle_is_silent = { λ _ _. refl };
}

/// The ends of sessions with these control nodes, all closed.
fn new_ends(alloc: Global, controllers: &[NodeId]) -> Result<Vec<FeedEnd>, NoMemory>
    ensures { IfOk result (λ ends. ends.items ≡ map new_end controllers.now) }
{
    let mut ends = Vec::new(alloc);
    for controller in controllers {
        ends.push(FeedEnd {
            session: ItemSession::new(controller.name, ItemFrom::Nothing),
            sent: SyncOut::new(alloc),
            told: false,
        })?;
    }
    Ok(ends)
}

/// Each end may have to be told something anew.
fn doubt_all(ends: &mut [FeedEnd])
    ensures { ends.new ≡ map doubted ends.old }
{
    for end in ends.iter_mut() {
        end.told = false;
    }
}

impl ConfigEnds {
    /// The ends of the sessions with the control nodes of what is valid, all closed.
    pub(crate) fn new(alloc: Global, valid: Valid) -> Result<ConfigEnds, NoMemory>
        ensures setup { IfOk result (λ ends. ends.setup ≡ valid) }
        ensures posts { IfOk result (λ ends. ends.posts ≡ nothings (sessions valid)) }
    {
        let wants = wanted(alloc, &valid)?;
        let ends = new_ends(alloc, valid.topology().controllers.as_slice())?;
        Ok(ConfigEnds {
            valid,
            wants,
            changed: None,
            ends,
            alloc,
        })
    }

    /// What is valid now.
    pub(crate) fn valid(&self) -> &Valid
        ensures setup { result.now ≡ self.now.setup }
        ensures topology_form { IsTrue (has_topology_form self.now.setup.topology) }
        ensures config_form { IsTrue (has_config_form self.now.setup.config) }
        ensures valid { first_broken self.now.setup.topology self.now.setup.config ≡ None }
    {
        // (for its clauses: the configuration is valid and of the written form)
        let _topology = self.valid.topology();
        &self.valid
    }

    /// Sets what is valid, and compiles what follows from it. Each session may have to be told something then.
    fn set_whole(&mut self, valid: Valid) -> Result<(), NoMemory>
        requires same { valid.topology.controllers ≡ self.old.setup.topology.controllers }
        ensures setup { IfOk result (λ _. self.new.setup ≡ valid) }
        ensures posts { self.new.posts ≡ self.old.posts }
        ensures err { OnErr result (self.new ≡ self.old) }
    {
        let wants = wanted(self.alloc, &valid)?;
        self.valid = valid;
        self.wants = wants;
        self.changed = None;
        doubt_all(&mut self.ends);
        Ok(())
    }

    /// Sets what is valid. Where one object alone changes, each session is to be told of its key alone then.
    pub(crate) fn set_valid(&mut self, valid: Valid) -> Result<(), NoMemory>
        requires same { valid.topology.controllers ≡ self.old.setup.topology.controllers }
        ensures setup { IfOk result (λ _. self.new.setup ≡ valid) }
        ensures posts { self.new.posts ≡ self.old.posts }
        ensures err { OnErr result (self.new ≡ self.old) }
    {
        match next_change(&self.changed, &self.valid, &valid) {
            Some((key, value)) => {
                want(&mut self.wants, key, value)?;
                self.changed = Some(key);
                self.valid = valid;
                Ok(())
            }
            None => self.set_whole(valid),
        }
    }
}
