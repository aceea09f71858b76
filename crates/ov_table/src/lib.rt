//! Tables of numbers, written out row by row in the function that reads them.
#![tactic(auto)]

ghost use Rattle.std.specs.Prelude.{◌≡◌, ◌<◌, ◌≤◌};
ghost use Rattle.ov_table.specs.Table.{cell_of};

use std::marker::Model;

/// A table of R rows and C columns. Make one by `case_table!`.
#[derive(Clone, Copy)]
pub struct CaseTable<const R: usize, const C: usize> {
    rows: [[u16; C]; R],
}

impl<const R: usize, const C: usize> Model for CaseTable<R, C> {
    ghost use Rattle.std.specs.Prelude.{ℕ, List};

    ghost Value = { List (List ℕ) };

    ghost view = { λ t. t.rows };

    ghost inverse = { λ rows. record { rows = rows } };
}

impl<const R: usize, const C: usize> CaseTable<R, C> {
    pub fn from_rows(rows: [[u16; C]; R]) -> CaseTable<R, C>
        requires few_rows { R ≤ 16 }
        requires few_columns { C ≤ 16 }
        ensures { result ≡ rows.entry }
    {
        CaseTable { rows }
    }

    /// The number that was written in row `r` and column `c`, both counted from 0.
    pub fn cell(&self, r: usize, c: usize) -> u16
        requires row { r < R }
        requires column { c < C }
        ensures { result ≡ cell_of self.now r c }
    {
        self.rows[r][c]
    }
}

/// A table of the written numbers: `case_table![[1, 2, 3], [4, 5, 6]]` has two rows of three.
#[macro_export]
macro_rules! case_table {
    ($([$($cell:expr),+ $(,)?]),+ $(,)?) => {
        $crate::CaseTable::from_rows([$([$($cell),+]),+])
    };
}
