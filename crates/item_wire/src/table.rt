//! The table of a session, by state and input.
ghost use Rattle.std.specs.Prelude.{◌≡◌, ◌<◌};
ghost use Rattle.item_wire.specs.Table.{session_table, row_of, column_of, state_in, act_in, cell_at};

use crate::event::ItemState;
use crate::input::Came;
use ov_table::{CaseTable, case_table};

/// What a session does at an input. The numbers in the table are in this order, from 0.
#[derive(Clone, Copy)]
pub(crate) enum Act {
    Nothing,
    SendHello,
    ComeUp,
    HandOut,
    GoDown,
}

/// A row for each state, and a column for each input; a cell is 16 times the next state and the act.
fn session_table() -> CaseTable<3, 5>
    ensures { result ≡ session_table }
{
    case_table![[17, 0, 0, 0, 0], [16, 34, 4, 4, 4], [32, 4, 4, 35, 4],]
}

fn row_of(state: ItemState) -> usize
    ensures row { result ≡ row_of state }
    ensures below { result < 3 }
{
    match state {
        ItemState::Idle => 0,
        ItemState::Opened => 1,
        ItemState::Up => 2,
    }
}

fn column_of(came: &Came) -> usize
    ensures column { result ≡ column_of came.now }
    ensures below { result < 5 }
{
    match came {
        Came::Opened => 0,
        Came::Hello => 1,
        Came::BadRecord(_) => 2,
        Came::OtherRecord(_) => 3,
        Came::Closed => 4,
    }
}

pub(crate) fn cell_at(state: ItemState, came: &Came) -> u16
    ensures { result ≡ cell_at state came.now }
{
    session_table().cell(row_of(state), column_of(came))
}

pub(crate) fn state_in(cell: u16) -> ItemState
    ensures { result ≡ state_in cell }
{
    match cell / 16 {
        0 => ItemState::Idle,
        1 => ItemState::Opened,
        _ => ItemState::Up,
    }
}

pub(crate) fn act_in(cell: u16) -> Act
    ensures { result ≡ act_in cell }
{
    match cell % 16 {
        0 => Act::Nothing,
        1 => Act::SendHello,
        2 => Act::ComeUp,
        3 => Act::HandOut,
        _ => Act::GoDown,
    }
}
