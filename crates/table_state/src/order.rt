// Rows whose times never fall: tests for them, and removes the expired ones from the front.
ghost use Rattle.std.specs.Prelude.{◌≡◌, ◌≤◌, ℤ, Option, Some, drop, length, IfSome};
ghost use Rattle.leaf_model.specs.Content.{rows_from};
ghost use Rattle.leaf_model.specs.Lent.{lent_rows};
ghost use Rattle.table_state.specs.Stored.{AreAscending, AreFrom, AreNoted, AscendOn};

use leaf_model::{LentRows, PackedRows};

/// The last time of the rows at or after the horizon, if their times start at `from` or later and never fall. None if a
/// time falls.
fn ascend_from(from: i64, horizon: i64, rows: &LentRows) -> Option<i64>
    ensures { IfSome result (λ to. AreAscending from (rows_from horizon (lent_rows rows.now)) to) }
{
    let mut last = from;
    let mut left = *rows;
    while let Some((row, others)) = left.split_first() {
        left = others;
        if row.time < horizon {
            continue;
        }
        if row.time < last {
            return None;
        }
        last = row.time;
    }
    Some(last)
}

/// The last time of rows that are appended to others whose last time is `before`. None if a time falls, or if `before`
/// is None: then no row is looked at.
pub fn ascend_on(before: Option<i64>, horizon: i64, more: &LentRows) -> Option<i64>
    ensures { AscendOn before (rows_from horizon (lent_rows more.now)) result }
{
    match before {
        Some(from) => ascend_from(from, horizon, more),
        None => None,
    }
}

/// The last time of rows whose times never fall, and are at least `least`. It walks over the rows only if it is not
/// known.
pub fn last_known(known: Option<i64>, least: i64, rows: &PackedRows) -> Option<i64>
    requires { AreNoted least known rows.now }
    ensures { AreNoted least result rows.now }
{
    match known {
        Some(last) => Some(last),
        None => ascend_from(least, least, &rows.lend()),
    }
}

/// The same last time, or None if no row is left: then nothing is noted of added rows until the next expiry.
pub fn last_left(last: i64, rows: &PackedRows) -> Option<i64>
    ensures { (least : ℤ) → AreNoted least (Some last) rows.now → AreNoted least result rows.now }
{
    if rows.len() == 0 { None } else { Some(last) }
}

/// The number of rows before the first that is at or after the horizon.
fn count_below(rows: &LentRows, horizon: i64) -> usize
    ensures few { result ≤ length (lent_rows rows.now) }
    ensures left { (from to : ℤ) → AreAscending from (lent_rows rows.now) to
        → drop result (lent_rows rows.now) ≡ rows_from horizon (lent_rows rows.now) }
{
    // A usize holds the number of all rows, and so the count below.
    let _most = rows.len();
    let mut below = 0;
    let mut left = *rows;
    while let Some((row, others)) = left.split_first() {
        if horizon <= row.time {
            return below;
        }
        below += 1;
        left = others;
    }
    below
}

/// Removes the rows below the horizon, if the times never fall. It looks at these rows and at one more.
pub fn drop_below(rows: &mut PackedRows, horizon: i64)
    ensures left { (from to : ℤ) → AreAscending from rows.old to → rows.new ≡ rows_from horizon rows.old }
    ensures noted { (from : ℤ) → (last : Option ℤ) → AreNoted from last rows.old → AreNoted from last rows.new }
{
    let below = count_below(&rows.lend(), horizon);
    rows.drop_first(below);
}
