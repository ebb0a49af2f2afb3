// Folds rows into a table of groups, or onto one that is there.
ghost use Rattle.std.specs.Prelude.{◌≡◌, ◌≤◌, ◌<◌, ◌+◌, ◌++◌, ℕ, List, [], IfOk, drop, length, take};
ghost use Rattle.std.specs.List.{AllByRecursion};
ghost use Rattle.std.specs.Vec.{vec_len};
ghost use Rattle.row_model.specs.declared.rows.Row.{Row};
ghost use Rattle.leaf_model.specs.Content.{rows_from};
ghost use Rattle.leaf_model.specs.Groups.{groups};
ghost use Rattle.leaf_model.specs.Lent.{lent_rows};
ghost use Rattle.group_table.specs.Joined.{IsWithin};
ghost use Rattle.group_table.specs.Kept.{MayGrow, kept};

use crate::join::merge;
use crate::seen::{SeenRow, sought_by};
use crate::tables::{GroupTables, Guessed, join_both, take_row};
use leaf_model::{Groups, LentRows, LentValue, Query};
use std::alloc::{AllocError, Global};

/// The fresh table is settled after `fresh` rows, and no more rows are taken once `settled` groups are settled.
#[derive(Clone, Copy)]
pub struct Limits {
    pub fresh: usize,
    pub settled: usize,
}

const LIMITS: Limits = Limits {
    fresh: 1024,
    settled: 16384,
};

/// The table of the first `rows` rows, and the rows that are left.
#[derive(Drop)]
struct Filled<'a> {
    table: Groups,
    rows: usize,
    left: LentRows<'a>,
}

/// A list with a place for each value of a row that is looked for.
fn room_for<'a>(alloc: Global, count: usize) -> Result<Vec<Option<LentValue<'a>>>, AllocError>
    ensures { IfOk result (λ room. vec_len room ≡ count) }
{
    Ok(vec![in alloc; None; count]?)
}

fn no_groups(alloc: Global) -> Groups
    ensures { result ≡ [] }
{
    Groups::of(Vec::new(alloc))
}

/// Two tables: `start` is settled, and the fresh one is empty.
fn begun(alloc: Global, start: Groups) -> GroupTables
    ensures settled { result.settled.items ≡ start }
    ensures fresh { result.fresh.items ≡ [] }
{
    GroupTables {
        settled: start.into_inner(),
        fresh: Vec::new(alloc),
    }
}

/// Folds rows until the table is full.
fn fill<'a>(
    alloc: Global,
    query: &Query,
    start: Groups,
    rows: &LentRows<'a>,
    horizon: Option<i64>,
    limits: Limits,
) -> Result<Filled<'a>, AllocError>
    requires start { MayGrow query.now (length (kept horizon (lent_rows rows.now))) start }
    ensures bound { IfOk result (λ first. first.rows ≤ length (lent_rows rows.now)) }
    ensures some { IfOk result (λ first. 0 < length (lent_rows rows.now) → 0 < first.rows) }
    ensures value { (xs : List Row) → start ≡ groups query.now xs → IfOk result (λ first.
        first.table ≡ groups query.now (xs ++ kept horizon (take first.rows (lent_rows rows.now)))) }
    ensures left { IfOk result (λ first. lent_rows first.left ≡ drop first.rows (lent_rows rows.now)) }
    ensures within { (m : ℕ) → AllByRecursion (IsWithin m) start → IfOk result (λ first.
        AllByRecursion (IsWithin (m + length (kept horizon (take first.rows (lent_rows rows.now))))) first.table) }
{
    let sought = sought_by(alloc, query)?;
    let mut seen = room_for(alloc, sought.len())?;
    let mut tables = begun(alloc, start);
    let mut guessed = Guessed::of(alloc, tables.settled.as_slice())?;
    let most = rows.len();
    let mut left = *rows;
    let mut i: usize = 0;
    while i < most && (i == 0 || tables.settled.len() < limits.settled) {
        let (row, others) = left.split_seen(sought.as_slice(), &mut seen).unwrap();
        let row = SeenRow::of(query, &row, seen.as_slice());
        tables = take_row(
            alloc,
            query,
            tables,
            &mut guessed,
            &row,
            horizon,
            limits.fresh,
        )?;
        left = others;
        i += 1;
    }
    let table = join_both(alloc, tables)?;
    let rows = i;
    Ok(Filled { table, rows, left })
}

/// Folds rows onto `start`. Rows that one table cannot take are folded in halves, which are then merged.
pub fn fold_within(
    alloc: Global,
    query: &Query,
    start: Groups,
    rows: &LentRows,
    horizon: Option<i64>,
    limits: Limits,
) -> Result<Groups, AllocError>
    requires start { MayGrow query.now (length (kept horizon (lent_rows rows.now))) start }
    ensures value { (xs : List Row) → start ≡ groups query.now xs
        → IfOk result (λ gs. gs ≡ groups query.now (xs ++ kept horizon (lent_rows rows.now))) }
    ensures within { (m : ℕ) → AllByRecursion (IsWithin m) start
        → IfOk result (λ gs. AllByRecursion (IsWithin (m + length (kept horizon (lent_rows rows.now)))) gs) }
{
    let first = fill(alloc, query, start, rows, horizon, limits)?;
    if first.rows == rows.len() {
        return Ok(first.table);
    }
    let (front, back) = first.left.split_at(first.left.len() / 2);
    let folded = fold_within(alloc, query, no_groups(alloc), &front, horizon, limits)?;
    let mine = merge(alloc, first.table, folded)?;
    let theirs = fold_within(alloc, query, no_groups(alloc), &back, horizon, limits)?;
    merge(alloc, mine, theirs)
}

/// The groups of the rows that pass, ascending by key. Err if memory runs out.
pub fn fold_rows(alloc: Global, query: &Query, rows: &LentRows) -> Result<Groups, AllocError>
    ensures value { IfOk result (λ gs. gs ≡ groups query.now (lent_rows rows.now)) }
    ensures within { IfOk result (λ gs. AllByRecursion (IsWithin (length (lent_rows rows.now))) gs) }
{
    let none = no_groups(alloc);
    if rows.len() == 0 {
        return Ok(none);
    }
    fold_within(alloc, query, none, rows, None, LIMITS)
}

/// The groups `start` joined with those of the rows at or after the horizon. Err if memory runs out.
pub fn fold_onto(
    alloc: Global,
    query: &Query,
    start: Groups,
    rows: &LentRows,
    horizon: i64,
) -> Result<Groups, AllocError>
    requires { MayGrow query.now (length (rows_from horizon (lent_rows rows.now))) start }
    ensures value { (xs : List Row) → start ≡ groups query.now xs
        → IfOk result (λ gs. gs ≡ groups query.now (xs ++ rows_from horizon (lent_rows rows.now))) }
    ensures within { (m : ℕ) → AllByRecursion (IsWithin m) start
        → IfOk result (λ gs. AllByRecursion (IsWithin (m + length (rows_from horizon (lent_rows rows.now)))) gs) }
{
    // What a query looks for may be long, and is listed only if a row is looked at.
    if rows.len() == 0 {
        return Ok(start);
    }
    fold_within(alloc, query, start, rows, Some(horizon), LIMITS)
}
