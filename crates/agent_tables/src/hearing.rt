//! What was heard on the sessions of an agent.
ghost use Rattle.std.specs.Prelude.{◌≡◌, map};
ghost use Rattle.std.specs.FinMap.{get};
ghost use Rattle.node_core.specs.Told.{down_of};
ghost use Rattle.node_core.specs.NodeModel.Agent.{as_hop, route_from};
ghost use Rattle.node_core.specs.NodeModel.Keys.{Row};
ghost use Rattle.agent_tables.specs.Touched.{route_on};
ghost use Rattle.agent_tables.specs.Views.{heard_of};

use item_wire::{ItemSession, ItemState};
use ov_sync::SyncIn;
use ov_types::{DownKey, DownValue, Entry, InstanceId, Prefix};

/// One session of an agent, at its end: its state, and what is held of what the control node told.
#[derive(Drop)]
pub struct Hearing {
    pub session: ItemSession,
    pub held: SyncIn<DownKey, DownValue>,
}

impl Hearing {
    ghost use Rattle.agent_tables.specs.Views.{is_up};

    pub(crate) fn is_up(&self) -> bool
        ensures { result ≡ is_up self.now.session.state }
    {
        matches!(self.session.state(), ItemState::Up)
    }

    /// The route that its control node told, where the session is up.
    fn route(&self, instance: InstanceId, prefix: Prefix) -> Option<Entry>
        ensures { result ≡ route_on (heard_of self.now) instance prefix }
    {
        if self.is_up() {
            row_held(&self.held, instance, prefix)
        } else {
            None
        }
    }
}

fn row_held(
    held: &SyncIn<DownKey, DownValue>,
    instance: InstanceId,
    prefix: Prefix,
) -> Option<Entry>
    ensures { result ≡ as_hop (get (down_of held.now) (Row instance prefix)) }
{
    match held.get(&DownKey::Route(instance, prefix)) {
        Some(DownValue::Row(entry)) => Some(*entry),
        Some(DownValue::Object(_)) => None,
        None => None,
    }
}

/// The route of the first session that is up and has it.
pub(crate) fn first_heard(
    sessions: &[Hearing],
    instance: InstanceId,
    prefix: Prefix,
) -> Option<Entry>
    ensures { result ≡ route_from (map heard_of sessions.now) instance prefix }
{
    for session in sessions {
        if let Some(entry) = session.route(instance, prefix) {
            return Some(entry);
        }
    }
    None
}
