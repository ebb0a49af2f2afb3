// Borrowed rows, either as values or as bytes.
ghost use Rattle.std.specs.Prelude.{◌≡◌, ◌≤◌, ℕ, List, [], drop, length, take, IfOk, IsSome, Some};
ghost use Rattle.leaf_model.specs.Reading.{row_at, rows_at};
ghost use Rattle.leaf_model.specs.Fronts.{front_of};
ghost use Rattle.leaf_model.specs.Lent.{lent_row, lent_rows, lent_rows_before, rows_parted, spelled_rows};

use crate::fronts::{SpelledCells, SpelledRows};
use crate::lent_cells::{LentCells, behind_cells};
use crate::spelled::{time_in, u16_in};
use row_model::Row;
use std::alloc::{AllocError, Global};

/// A borrowed row.
#[derive(Clone, Copy)]
pub struct LentRow<'a> {
    pub time: i64,
    pub cells: LentCells<'a>,
}

impl<'a> LentRow<'a> {
    pub fn of(row: &'a Row) -> LentRow<'a>
        ensures { lent_row result ≡ row.now }
    {
        LentRow {
            time: row.time,
            cells: LentCells::Owned(row.cells.as_slice()),
        }
    }

    /// An owned copy. Err if memory runs out.
    pub fn own(&self, alloc: Global) -> Result<Row, AllocError>
        ensures { IfOk result (λ row. row ≡ lent_row self.now) }
    {
        Ok(Row {
            time: self.time,
            cells: self.cells.own(alloc)?,
        })
    }
}

/// Reads the row at the start of the bytes. Gives it and the bytes that follow.
#[tactic(auto, unfolding(crate::specs::Reading::row_at))]
pub(crate) fn row_in(bytes: &[u8]) -> (LentRow<'_>, &[u8])
    requires { IsSome (row_at bytes.now) }
    ensures { row_at bytes.now ≡ Some (lent_row result.0, result.1.now) }
{
    let (time, rest) = time_in(bytes);
    let (count, rest) = u16_in(rest);
    let cells = LentCells::Spelled(SpelledCells::of(rest, count));
    (LentRow { time, cells }, behind_cells(count, rest))
}

/// The bytes that follow the first `count` rows.
pub(crate) fn behind_rows(count: usize, bytes: &[u8]) -> &[u8]
    requires { IsSome (rows_at count bytes.now) }
    ensures { rows_at count bytes.now ≡ Some (front_of (rows_at count bytes.now), result.now) }
{
    let mut rest = bytes;
    for _ in 0..count {
        let (_row, after) = row_in(rest);
        rest = after;
    }
    rest
}

impl<'a> SpelledRows<'a> {
    pub(crate) fn of(bytes: &'a [u8], count: usize) -> SpelledRows<'a>
        requires { IsSome (rows_at count bytes.now) }
        ensures { spelled_rows result ≡ front_of (rows_at count bytes.now) }
    {
        SpelledRows { bytes, count }
    }

    fn len(&self) -> usize
        ensures { result ≡ length (spelled_rows self.now) }
    {
        self.count
    }

    fn split_first(&self) -> Option<(LentRow<'a>, SpelledRows<'a>)>
        ensures { lent_rows_before result ≡ spelled_rows self.now }
    {
        if self.count == 0 {
            return None;
        }
        let (first, bytes) = row_in(self.bytes);
        let count = self.count - 1;
        Some((first, SpelledRows { bytes, count }))
    }

    fn split_at(&self, count: usize) -> (SpelledRows<'a>, SpelledRows<'a>)
        requires { count ≤ length (spelled_rows self.now) }
        ensures front { spelled_rows result.0 ≡ take count (spelled_rows self.now) }
        ensures back { spelled_rows result.1 ≡ drop count (spelled_rows self.now) }
    {
        let front = SpelledRows {
            bytes: self.bytes,
            count,
        };
        let back = SpelledRows {
            bytes: behind_rows(count, self.bytes),
            count: self.count - count,
        };
        (front, back)
    }
}

/// Borrowed rows: a slice of values, or the bytes that spell them.
#[derive(Clone, Copy)]
pub enum LentRows<'a> {
    Owned(&'a [Row]),
    Spelled(SpelledRows<'a>),
}

impl<'a> LentRows<'a> {
    /// The number of rows.
    pub fn len(&self) -> usize
        ensures { result ≡ length (lent_rows self.now) }
    {
        match self {
            LentRows::Owned(rows) => rows.len(),
            LentRows::Spelled(rows) => rows.len(),
        }
    }

    /// The first row and the others. None if there is no row.
    pub fn split_first(&self) -> Option<(LentRow<'a>, LentRows<'a>)>
        ensures { rows_parted result ≡ lent_rows self.now }
    {
        match self {
            LentRows::Owned([]) => None,
            LentRows::Owned([first, others @ ..]) => {
                Some((LentRow::of(first), LentRows::Owned(others)))
            }
            LentRows::Spelled(rows) => {
                let (first, others) = rows.split_first()?;
                Some((first, LentRows::Spelled(others)))
            }
        }
    }

    /// The first `count` rows, and the others.
    pub fn split_at(&self, count: usize) -> (LentRows<'a>, LentRows<'a>)
        requires { count ≤ length (lent_rows self.now) }
        ensures front { lent_rows result.0 ≡ take count (lent_rows self.now) }
        ensures back { lent_rows result.1 ≡ drop count (lent_rows self.now) }
    {
        match self {
            LentRows::Owned(rows) => {
                let (front, back) = rows.split_at(count);
                (LentRows::Owned(front), LentRows::Owned(back))
            }
            LentRows::Spelled(rows) => {
                let (front, back) = rows.split_at(count);
                (LentRows::Spelled(front), LentRows::Spelled(back))
            }
        }
    }

    /// An owned copy. Err if memory runs out.
    pub fn own(&self, alloc: Global) -> Result<Vec<Row>, AllocError>
        ensures { IfOk result (λ rows. rows.items ≡ lent_rows self.now) }
    {
        let mut rows = Vec::with_capacity(alloc, self.len())?;
        let mut left = *self;
        while let Some((first, others)) = left.split_first() {
            rows.push(first.own(alloc)?)?;
            left = others;
        }
        Ok(rows)
    }
}
