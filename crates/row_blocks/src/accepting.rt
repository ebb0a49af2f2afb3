// Tests whether columns are a block.
ghost use Rattle.std.specs.Prelude.{◌∷◌};
ghost use Rattle.row_blocks.specs.Deciding.{Decides};

use crate::column::BlockColumn;
use crate::fault::BlockFault;
use crate::places::fit_rows;
use crate::rules::{do_ascend, times_of_column, views_of_others};
use std::alloc::Global;
use time_range::{TimeRange, range_of};

fn range_of_parts(
    alloc: Global,
    rows: u32,
    first: &BlockColumn,
    others: &[BlockColumn],
) -> Result<TimeRange, BlockFault>
    ensures { Decides rows (first.now ∷ others.now) result }
{
    let Some(times) = times_of_column(alloc, rows, first)? else {
        return Err(BlockFault::NoRows);
    };
    let Some(views) = views_of_others(alloc, rows, others)? else {
        return Err(BlockFault::NoRows);
    };
    if do_ascend(others) && fit_rows(alloc, others, &views, rows)? {
        Ok(range_of(&times))
    } else {
        Err(BlockFault::NoRows)
    }
}

/// The range of the times of the block that these columns are. NoRows if they are no block.
pub(crate) fn range_of_block(
    alloc: Global,
    rows: u32,
    columns: &[BlockColumn],
) -> Result<TimeRange, BlockFault>
    ensures { Decides rows columns.now result }
{
    match columns {
        [] => Err(BlockFault::NoRows),
        [first, others @ ..] => range_of_parts(alloc, rows, first, others),
    }
}
