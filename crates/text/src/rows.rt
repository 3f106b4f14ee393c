//! The row-table rule: its rows, adding one, and what it weighs.
ghost use Rattle.std.specs.Prelude.{◌≡◌, ◌≤◌, true, [], length, take, is_err, IfOk, IfErr};
ghost use Rattle.std.proofs.Common.{arith, rules};
ghost use Rattle.std.proofs.lemmas.Bool.Decides.{nat_tests};
ghost use Rattle.text.specs.Rows.{holds, row_table, row_answer, rows_after, row_fault_number, RowRefused, LastDecides};

use crate::faults::Refusal;
use crate::rules::{CountingRule, LAST_CODE_POINT};

/// How many rows a table holds at most.
pub const MOST_ROWS: usize = 32;

const HEAVIEST: u64 = 4;

/// Why a row is not added, with the figures that are refused.
#[derive(Clone, Copy, Debug, PartialEq, Eq)]
pub enum RowFault {
    /// The table has 32 rows already.
    TableFull,
    /// The first code point is above the last one, or the last one above 1,114,111.
    BadRange { first: u64, last: u64 },
    /// The weight is above 4.
    TooHeavy { weight: u64 },
}

impl Refusal for RowFault {
    ghost number_of = { row_fault_number };

    ghost place_of = { λ _. 0 };

    fn number(&self) -> u16 {
        match self {
            RowFault::TableFull => 19,
            RowFault::BadRange { .. } => 20,
            RowFault::TooHeavy { .. } => 21,
        }
    }

    /// None of a row's refusals has a place.
    fn place(&self) -> u64 {
        0
    }

    ghost numbered = { Prim.search rules };
}

/// The code points from `first` to `last` and their weight. A row outside the limits does not exist.
#[derive(Clone, Copy, Debug, PartialEq, Eq)]
struct Row {
    first: u32,
    last: u32,
    weight: u8,
    ghost ordered: { first ≤ last },
    ghost known: { last ≤ 1114111 },
    ghost small: { weight ≤ 4 },
}

impl Row {
    ghost use Rattle.text.specs.Tables.{figures};

    /// The row of three figures, or the first cause for which there is none.
    fn new(first: u64, last: u64, weight: u64) -> Result<Row, RowFault>
        ensures made { IfOk result (λ row. figures row ≡ record { first = first; last = last; weight = weight }) }
        ensures refused { IfErr result (RowRefused first last weight) }
    {
        if first > last || last > u64::from(LAST_CODE_POINT) {
            return Err(RowFault::BadRange { first, last });
        }
        if weight > HEAVIEST {
            return Err(RowFault::TooHeavy { weight });
        }
        // By casts: `try_from` would add errors that cannot come, since the tests above leave nothing that a cast could lose.
        Ok(Row {
            first: first as u32,
            last: last as u32,
            weight: weight as u8,
        })
    }

    /// Whether the row holds a code point.
    fn holds(&self, code_point: u32) -> bool
        ensures { result ≡ holds code_point (figures self.now) }
    {
        (self.first..=self.last).contains(&code_point)
    }
}

/// Rows of code points and weights: the last row that holds a code point decides, and without one the weight is 1.
#[derive(Clone, Copy, Debug, PartialEq, Eq)]
pub struct RowTable {
    // An array with its length beside it: a table is `Copy` and in fixed memory, and `ArrayVec` is not `Copy`.
    rows: [Row; MOST_ROWS],
    len: usize,
    ghost fits: { len ≤ length rows },
    ghost whole: { length rows ≡ 32 },
}

impl RowTable {
    ghost use Rattle.text.specs.Tables.{rows_of};

    /// A table without rows, by which every code point weighs 1.
    pub fn new() -> RowTable
        ensures { rows_of result ≡ [] }
    {
        // Written out: `Default` is not derived for a struct with ghost fields.
        let unused = Row {
            first: 0,
            last: 0,
            weight: 0,
        };
        RowTable {
            rows: [unused; MOST_ROWS],
            len: 0,
        }
    }

    /// The rows that were added, in their order.
    fn added(&self) -> &[Row]
        ensures { result.now ≡ take self.now.len self.now.rows }
    {
        &self.rows[..self.len]
    }

    /// Adds a row after the others, or refuses it and leaves the table as it was.
    pub fn add(&mut self, first: u64, last: u64, weight: u64) -> Result<(), RowFault>
        ensures value { result ≡ row_answer (length (rows_of self.old)) first last weight }
        ensures after { rows_of self.new ≡ rows_after result (rows_of self.old) first last weight }
        ensures same { is_err result ≡ true → self.new ≡ self.old }
    {
        if self.len >= MOST_ROWS {
            return Err(RowFault::TableFull);
        }
        self.rows[self.len] = Row::new(first, last, weight)?;
        self.len += 1;
        Ok(())
    }
}

impl CountingRule for RowTable {
    ghost use Rattle.text.specs.Tables.{rows_of};
    ghost use Rattle.text.specs.RowLaws.{at_most_four};

    ghost weight = { λ table c. row_table (rows_of table) c };

    ghost small = { at_most_four };

    ghost outside = { Prim.search rules };

    fn weight_of(&self, code_point: u32) -> u8 {
        if code_point > LAST_CODE_POINT {
            return 0;
        }
        let mut weight = 1;
        // Every row in its turn, as the rule is worded: a later one that holds the code point decides over an earlier one.
        let rows = self.added();
        for row in rows {
            if row.holds(code_point) {
                weight = row.weight;
            }
        }
        weight
    }
}

/// By a row table, the last row that holds a code point decides, and without one the weight is 1.
pub fn last_row_decides()
    ensures { LastDecides }
{}
