// The rows of a table that stand in no block yet.
ghost use Rattle.std.specs.Prelude.{◌≡◌, ◌≤◌, ◌++◌, [], drop, int_le, length, take, true, OnErr, OnOk};
ghost use Rattle.std.specs.List.{AllByRecursion};
ghost use Rattle.leaf_model.specs.Content.{rows_from};
ghost use Rattle.leaf_model.specs.Lent.{lent_rows};
ghost use Rattle.row_model.specs.Values.{IsRow};
ghost use Rattle.table_state.specs.Stored.{AreFrom};

use crate::order::{ascend_on, drop_below, last_known, last_left};
use leaf_model::{LentRows, PackedRows};
use std::alloc::{AllocError, Global};
use std::marker::Model;

/// Rows, and a bound `least` that no time is below: an expiry up to it looks at no row. If the times are known never to
/// fall, `last` is a bound that no time is above. An expiry then looks only at the rows that it removes, and at one
/// more. Contracts see the rows.
#[derive(Drop)]
pub struct Tail {
    rows: PackedRows,
    least: i64,
    last: Option<i64>,
}

impl Model for Tail {
    ghost use Rattle.std.specs.Prelude.{List};
    ghost use Rattle.row_model.specs.declared.rows.Row.{Row};
    ghost use Rattle.table_state.specs.Stored.{AreNoted};

    ghost Value = { List Row };

    ghost view = { λ t. t.rows };

    ghost invariant = { λ t. AreNoted t.least t.last t.rows };
}

impl Tail {
    /// No rows.
    pub fn new(alloc: Global) -> Tail
        ensures { result ≡ [] }
    {
        Tail {
            rows: PackedRows::new(alloc),
            least: i64::MIN,
            last: None,
        }
    }

    /// The number of rows.
    pub fn len(&self) -> usize
        ensures { result ≡ length self.now }
    {
        self.rows.len()
    }

    /// No-op; states the invariant: each of them is a row.
    pub fn are_rows(&self)
        ensures { AllByRecursion IsRow self.now }
    {
        self.rows.are_rows();
    }

    /// The rows, borrowed.
    pub fn lend(&self) -> LentRows<'_>
        ensures { lent_rows result ≡ self.now }
    {
        self.rows.lend()
    }

    /// Appends those of `more` whose time is at least the horizon. Err leaves the rows as they were.
    pub fn extend_from(&mut self, more: &LentRows, horizon: i64) -> Result<(), AllocError>
        requires { AllByRecursion IsRow (lent_rows more.now) }
        ensures put { OnOk result (self.new ≡ self.old ++ rows_from horizon (lent_rows more.now)) }
        ensures kept { OnErr result (self.new ≡ self.old) }
    {
        self.rows.extend_from(more, horizon)?;
        self.last = ascend_on(self.last, horizon, more);
        self.least = least_with(self.least, horizon, more);
        Ok(())
    }

    /// Removes the rows below the horizon.
    pub fn retain_from(&mut self, horizon: i64)
        ensures { self.new ≡ rows_from horizon self.old }
    {
        if horizon <= self.least {
            return;
        }
        match last_known(self.last, self.least, &self.rows) {
            Some(last) => {
                drop_below(&mut self.rows, horizon);
                self.last = last_left(last, &self.rows);
            }
            None => {
                self.last = None;
                self.least = retain_each(&mut self.rows, horizon);
            }
        }
    }

    /// Removes the first `count` rows.
    pub fn drop_first(&mut self, count: usize)
        requires { count ≤ length self.old }
        ensures { self.new ≡ drop count self.old }
    {
        self.rows.drop_first(count);
    }

    /// Keeps the first `count` rows.
    pub fn truncate(&mut self, count: usize)
        requires { count ≤ length self.old }
        ensures { self.new ≡ take count self.old }
    {
        self.rows.truncate(count);
    }

    /// Removes all rows.
    pub fn clear(&mut self)
        ensures { self.new ≡ [] }
    {
        self.rows.clear();
        self.last = None;
    }

    /// The allocator of the rows.
    pub fn allocator(&self) -> Global {
        self.rows.allocator()
    }
}

/// Removes the rows below the horizon. Gives a time that no row is then below.
fn retain_each(rows: &mut PackedRows, horizon: i64) -> i64
    ensures rows { rows.new ≡ rows_from horizon rows.old }
    ensures least { AreFrom result rows.new }
{
    let before = rows.len();
    rows.retain_from(horizon);
    // After a removal the horizon is a bound that costs no walk. If nothing was removed, one more walk finds the least
    // time.
    let most = if rows.len() < before {
        horizon
    } else {
        i64::MAX
    };
    least_with(most, horizon, &rows.lend())
}

/// A bound of at most `most` that no row at or after the horizon is below. If `most` is not above the horizon, it is
/// `most`, and no row is looked at.
fn least_with(most: i64, horizon: i64, rows: &LentRows) -> i64
    ensures most { int_le result most ≡ true }
    ensures least { AreFrom result (rows_from horizon (lent_rows rows.now)) }
{
    if most <= horizon {
        return most;
    }
    least_in(most, horizon, rows)
}

/// The same, by a walk over the rows.
fn least_in(most: i64, horizon: i64, rows: &LentRows) -> i64
    ensures most { int_le result most ≡ true }
    ensures least { AreFrom result (rows_from horizon (lent_rows rows.now)) }
{
    let mut least = most;
    let mut left = *rows;
    while let Some((row, others)) = left.split_first() {
        left = others;
        if row.time < horizon {
            continue;
        }
        least = least.min(row.time);
    }
    least
}
