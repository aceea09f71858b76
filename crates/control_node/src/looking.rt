//! What is seen of the ends of sessions.
ghost use Rattle.std.specs.Prelude.{◌≡◌, map, IfOk};
ghost use Rattle.std.specs.List.Sorted.{IsStrictlySortedBy};
ghost use Rattle.ov_types.specs.Keys.{row_key_cmp};
ghost use Rattle.node_core.specs.Resting.{end_at};
ghost use Rattle.node_core.specs.Beginning as item;
ghost use Rattle.node_core.specs.NodeModel.Tables.{rows as rows_of};
ghost use Rattle.node_routes.specs.Beginning as route;
ghost use Rattle.control_node.specs.Core.{holdings};

use crate::ends::ControlEnds;
use bgp_session::State;
use item_wire::ItemState;
use node_core::EndState;
use ov_types::{ControlRows, NoMemory};

/// The end whose session of items is in this state.
pub(crate) fn item_end(state: ItemState) -> EndState
    ensures { result ≡ end_at (item.phase_of state) }
{
    match state {
        ItemState::Idle => EndState::Idle,
        ItemState::Opened => EndState::Opened,
        ItemState::Up => EndState::Up,
    }
}

/// The end whose session of routes is in this state.
pub(crate) fn peer_end(state: State) -> EndState
    ensures { result ≡ end_at (route.phase_of state) }
{
    match state {
        State::Idle => EndState::Idle,
        State::OpenSent | State::OpenConfirm => EndState::Opened,
        State::Established => EndState::Up,
    }
}

impl ControlEnds {
    /// The table of every known instance, in the order of keys.
    pub(crate) fn rows(&self) -> Result<ControlRows, NoMemory>
        ensures shown { IfOk result (λ rows. rows ≡ rows_of (holdings self.now.plan self.now.posts)) }
        ensures ascending { IfOk result (λ rows. IsStrictlySortedBy row_key_cmp (map (λ row. row.0) rows)) }
    {
        control_wants::rows(self.alloc, &self.tables)
    }
}
