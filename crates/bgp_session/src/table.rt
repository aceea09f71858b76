//! The table of a session, by state and input.
ghost use Rattle.std.specs.Prelude.{◌≡◌, ◌<◌};
ghost use Rattle.bgp_session.specs.Inputs.{came_of};
ghost use Rattle.bgp_session.specs.Table.{session_table, row_of, column_of, state_in, act_in, cell_at};

use crate::event::State;
use crate::input::Input;
use ov_table::{CaseTable, case_table};

/// What a session does at an input. The numbers in the table are in this order, from 0.
#[derive(Clone, Copy)]
pub(crate) enum Act {
    Nothing,
    SendOpen,
    SendKeepalive,
    ComeUp,
    HandOut,
    /// Answer the fault that came, and go down.
    AnswerFault,
    /// Answer an input that does not belong to the state, and go down.
    AnswerOrder,
    GoDown,
}

/// A row for each state, and a column for each input; a cell is 16 times the next state and the act.
fn session_table() -> CaseTable<4, 9>
    ensures { result ≡ session_table }
{
    case_table![
        [17, 0, 0, 0, 0, 0, 0, 0, 0],
        [16, 34, 5, 6, 6, 6, 7, 5, 7],
        [32, 6, 5, 51, 6, 6, 7, 5, 7],
        [48, 6, 6, 48, 52, 5, 7, 5, 7],
    ]
}

fn row_of(state: State) -> usize
    ensures row { result ≡ row_of state }
    ensures below { result < 4 }
{
    match state {
        State::Idle => 0,
        State::OpenSent => 1,
        State::OpenConfirm => 2,
        State::Established => 3,
    }
}

fn column_of(input: &Input) -> usize
    ensures column { result ≡ column_of (came_of input.now) }
    ensures below { result < 9 }
{
    match input {
        Input::Opened => 0,
        Input::RightOpen { .. } => 1,
        Input::WrongOpen(_) => 2,
        Input::Keepalive => 3,
        Input::RightUpdate(_) => 4,
        Input::WrongUpdate(_) => 5,
        Input::Notification { .. } => 6,
        Input::BadFrame(_) => 7,
        Input::Closed => 8,
    }
}

pub(crate) fn cell_at(state: State, input: &Input) -> u16
    ensures { result ≡ cell_at state (came_of input.now) }
{
    session_table().cell(row_of(state), column_of(input))
}

pub(crate) fn state_in(cell: u16) -> State
    ensures { result ≡ state_in cell }
{
    match cell / 16 {
        0 => State::Idle,
        1 => State::OpenSent,
        2 => State::OpenConfirm,
        _ => State::Established,
    }
}

pub(crate) fn act_in(cell: u16) -> Act
    ensures { result ≡ act_in cell }
{
    match cell % 16 {
        0 => Act::Nothing,
        1 => Act::SendOpen,
        2 => Act::SendKeepalive,
        3 => Act::ComeUp,
        4 => Act::HandOut,
        5 => Act::AnswerFault,
        6 => Act::AnswerOrder,
        _ => Act::GoDown,
    }
}
