// Decodes the times of a block, or finds that a query does not need them.
ghost use Rattle.std.specs.Prelude.{◌≡◌, ℕ, ◌<◌, ◌≤◌, ◌&&◌, length, pos, slice_index_or, IfOk};
ghost use Rattle.row_blocks.specs.Blocks.{AreTimes};
ghost use Rattle.block_scan.specs.Reads.{IsRead, is_wanted};
ghost use Rattle.block_scan.specs.Timed.{AreBetween, StandForTimes};

use crate::names::asks_for;
use crate::places::{is_wanted, times_in};
use crate::reading::ReadColumn;
use leaf_model::Query;
use std::alloc::{AllocError, Global};

/// Whether both times are wanted, and so each time between them.
fn wants_both(query: &Query, horizon: i64, from: i64, to: i64) -> bool
    ensures { result ≡ (is_wanted query.now horizon from && is_wanted query.now horizon to) }
{
    is_wanted(query, horizon, from) && is_wanted(query, horizon, to)
}

/// The same time for each row.
fn times_alike(alloc: Global, rows: u32, time: i64) -> Result<Vec<i64>, AllocError>
    ensures length { IfOk result (λ found. length found.items ≡ rows) }
    ensures each { IfOk result (λ found. (i : ℕ) → i < rows → slice_index_or found.items i (pos 0) ≡ time) }
{
    vec![in alloc; time; rows as usize]
}

/// The times of a block's rows. If all are wanted and the query does not read `time`, one of them stands for all, and
/// they are not decoded.
pub(crate) fn times_seen(
    alloc: Global,
    query: &Query,
    rows: u32,
    times: &ReadColumn,
    from: i64,
    to: i64,
    skip: u32,
    horizon: i64,
) -> Result<Vec<i64>, AllocError>
    requires skip { skip ≤ rows }
    requires timed { AreTimes rows times.now.column.now }
    requires read { IsRead rows times.now }
    requires between { AreBetween rows times.now.column.now from to }
    ensures { IfOk result (λ found. StandForTimes query.now rows times.now.column.now skip horizon found.items) }
{
    if wants_both(query, horizon, from, to) && !asks_for(query, &times.column.name) {
        return times_alike(alloc, rows, from);
    }
    times_in(alloc, rows, times)
}
