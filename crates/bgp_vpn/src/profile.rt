//! The attributes that are known.
ghost use Rattle.std.specs.Prelude.{◌≡◌, ◌<◌, IfSome};
ghost use Rattle.bgp_vpn.specs.Profile.{attribute_table, row_of, flags_in, least_in, greatest_in, subcode_in};

use crate::known::{
    AS_PATH, ATOMIC_AGGREGATE, EXTENDED_COMMUNITIES, LOCAL_PREF, MP_REACH_NLRI, MP_UNREACH_NLRI,
    MULTI_EXIT_DISC, NEXT_HOP, ORIGIN,
};
use ov_table::{CaseTable, case_table};

/// For ORIGIN, AS_PATH, NEXT_HOP, MULTI_EXIT_DISC, LOCAL_PREF, ATOMIC_AGGREGATE, MP_REACH_NLRI, MP_UNREACH_NLRI and
/// EXTENDED COMMUNITIES the flags Optional and Transitive, the least length, the greatest length, and the subcode of an
/// UPDATE message error for another length.
fn attribute_table() -> CaseTable<9, 4>
    ensures { result ≡ attribute_table }
{
    case_table![
        [0x40, 1, 1, 5],
        [0x40, 0, 65535, 5],
        [0x40, 4, 4, 5],
        [0x80, 4, 4, 5],
        [0x40, 4, 4, 5],
        [0x40, 0, 0, 5],
        [0x80, 5, 65535, 9],
        [0x80, 3, 65535, 9],
        [0xC0, 0, 65535, 5],
    ]
}

/// The row of a type.
pub(crate) fn row_of(kind: u8) -> Option<usize>
    ensures row { result ≡ row_of kind }
    ensures below { IfSome result (λ row. row < 9) }
{
    match kind {
        ORIGIN => Some(0),
        AS_PATH => Some(1),
        NEXT_HOP => Some(2),
        MULTI_EXIT_DISC => Some(3),
        LOCAL_PREF => Some(4),
        ATOMIC_AGGREGATE => Some(5),
        MP_REACH_NLRI => Some(6),
        MP_UNREACH_NLRI => Some(7),
        EXTENDED_COMMUNITIES => Some(8),
        _ => None,
    }
}

pub(crate) fn flags_in(row: usize) -> u16
    requires { row < 9 }
    ensures { result ≡ flags_in row }
{
    attribute_table().cell(row, 0)
}

pub(crate) fn least_in(row: usize) -> usize
    requires { row < 9 }
    ensures { result ≡ least_in row }
{
    usize::from(attribute_table().cell(row, 1))
}

pub(crate) fn greatest_in(row: usize) -> usize
    requires { row < 9 }
    ensures { result ≡ greatest_in row }
{
    usize::from(attribute_table().cell(row, 2))
}

pub(crate) fn subcode_in(row: usize) -> u8
    requires { row < 9 }
    ensures { result ≡ subcode_in row }
{
    attribute_table().cell(row, 3) as u8
}
