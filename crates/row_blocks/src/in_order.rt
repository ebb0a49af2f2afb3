// The sorted times of a block, for a table whose horizon rises often.
ghost use Rattle.std.specs.Prelude.{◌≡◌, ◌<◌, ◌≤◌, ℕ, length, take, pos, slice_index_or, int_le, false, true, None, IfOk, IfSome, IsPermutation};
ghost use Rattle.row_blocks.specs.Blocks.{rows_in, times_of};
ghost use Rattle.row_blocks.specs.Held.{live_rows};
ghost use Rattle.row_blocks.specs.Live.{AreTimesOf};
ghost use Rattle.row_blocks.specs.Ordered.{AreSorted, PartsTimes};
ghost use Rattle.time_range.specs.Ranges.{NeverFall};

use crate::block::RowBlock;
use crate::live::{times_view, walked_time};
use column_bytes::ColumnView;
use std::alloc::{AllocError, Global};
use time_range::range_of;

/// The horizons that may cut a block before its times are sorted. A sort costs as much as some walks.
pub(crate) const FEW_CUTS: u32 = 8;

/// The sorted times of a block whose times fall; they are made once horizons have cut it often.
#[derive(Debug, Drop)]
pub(crate) struct TimeOrder {
    pub(crate) cuts: u32,
    pub(crate) sorted: Option<Vec<i64>>,
}

impl TimeOrder {
    /// No horizon has cut the block yet.
    pub(crate) fn new() -> TimeOrder
        ensures { result.sorted ≡ None }
    {
        TimeOrder {
            cuts: 0,
            sorted: None,
        }
    }
}

/// The times of all rows, in the order of the rows.
fn all_times(alloc: Global, block: &RowBlock, view: &ColumnView) -> Result<Vec<i64>, AllocError>
    requires times { AreTimesOf view.now block.now }
    ensures { IfOk result (λ times. times.items ≡ times_of (rows_in block.now)) }
{
    let mut times = Vec::with_capacity(alloc, block.rows() as usize)?;
    let mut time = 0;
    for place in 0..block.rows() {
        time = walked_time(block, view, 0, place, time);
        times.push(time)?;
    }
    Ok(times)
}

/// The times of all rows, ascending. None if memory runs out.
pub(crate) fn sorted_times(alloc: Global, block: &RowBlock) -> Option<Vec<i64>>
    ensures { AreSorted (times_of (rows_in block.now)) result }
{
    let Ok(mut times) = all_times(alloc, block, &times_view(block)) else {
        return None;
    };
    times.sort_unstable();
    if times.is_empty() || !range_of(&times).in_order {
        return None;
    }
    Some(times)
}

/// The place of the first time at or after the horizon. If there is none, the number of times.
pub(crate) fn first_from(sorted: &[i64], horizon: i64) -> usize
    requires order { NeverFall sorted.now }
    ensures { PartsTimes sorted.now horizon result }
{
    let mut first = 0;
    let mut end = sorted.len();
    'halves: while first < end {
        let middle = first + (end - first) / 2;
        if horizon <= sorted[middle] {
            end = middle;
        } else {
            first = middle + 1;
        }
    }
    first
}
