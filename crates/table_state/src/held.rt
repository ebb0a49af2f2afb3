// Limits and counts of a table's rows.
ghost use Rattle.std.specs.Prelude.{◌≡◌, ◌+◌, ◌≤◌, ◌↔◌, drop, length, IsTrue};
ghost use Rattle.leaf_model.specs.Content.{rows_from};
ghost use Rattle.leaf_model.specs.Lent.{lent_rows};
ghost use Rattle.table_state.specs.Tables.{most_rows};

use crate::tail::Tail;
use leaf_model::LentRows;

/// The most rows of a table.
pub const MOST_ROWS: u64 = 1 << 40;

/// Whether a table of `held` rows has room for those of `more` that are not late. It counts these only if all of `more`
/// would be too many.
pub fn has_room(held: u64, horizon: i64, more: &LentRows) -> bool
    requires held { held ≤ most_rows }
    requires few { length (lent_rows more.now) ≤ most_rows }
    ensures { IsTrue result ↔ held + length (rows_from horizon (lent_rows more.now)) ≤ most_rows }
{
    held + more.len() as u64 <= MOST_ROWS || held + count_from(horizon, more) <= MOST_ROWS
}

/// The number of rows that are not late.
fn count_from(horizon: i64, rows: &LentRows) -> u64
    ensures few { result ≤ length (lent_rows rows.now) }
    ensures count { result ≡ length (rows_from horizon (lent_rows rows.now)) }
{
    // A usize holds the number of all rows, and so the count below.
    let _most = rows.len();
    let mut kept = 0;
    let mut left = *rows;
    while let Some((row, others)) = left.split_first() {
        left = others;
        if row.time < horizon {
            continue;
        }
        kept += 1;
    }
    kept
}

/// Removes the first `count` rows of a tail. Nothing is done for 0.
pub fn drop_front(tail: &mut Tail, count: usize)
    requires { count ≤ length tail.old }
    ensures { tail.new ≡ drop count tail.old }
{
    if count > 0 {
        tail.drop_first(count);
    }
}
