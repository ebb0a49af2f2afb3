// Answers a query over blocks and a tail.
ghost use Rattle.std.specs.Prelude.{◌≡◌, ◌+◌, ◌≤◌, ◌^◌, length, IfOk};
ghost use Rattle.std.specs.List.{AllByRecursion};
ghost use Rattle.leaf_model.specs.Groups.{groups};
ghost use Rattle.leaf_model.specs.Lent.{lent_rows};
ghost use Rattle.group_table.specs.Joined.{IsWithin};
ghost use Rattle.row_blocks.specs.Held.{IsSkip, rows_held};
ghost use Rattle.block_scan.specs.Scanning.{most_steps};

use crate::block::read_blocks;
use crate::parts::fold_blocks;
use group_table::fold_onto;
use leaf_model::{Groups, LentRows, Query, Steps};
use row_blocks::Blocks;
use std::alloc::{AllocError, Global};
use std::sync::ledger::Ledger;
use std::thread::Threads;

/// The groups of the rows that pass, without the first `skip` rows of the blocks and the rows below the horizon. The
/// caller's thread reads the columns, one step each. Then threads fold the blocks, and the tail is folded onto their
/// groups. Err if memory runs out.
pub fn scan<L: Ledger, R: Threads + Sync>(
    rt: &R,
    alloc: Global,
    query: &Query,
    blocks: &Blocks,
    tail: &LentRows,
    skip: u32,
    horizon: i64,
    steps: &mut Steps<L>,
) -> Result<Groups, AllocError>
    requires skip { IsSkip skip blocks.now }
    requires few { length (rows_held blocks.now (lent_rows tail.now) skip horizon) ≤ 2 ^ 40 }
    ensures groups { IfOk result (λ gs.
        gs ≡ groups query.now (rows_held blocks.now (lent_rows tail.now) skip horizon)) }
    ensures within { IfOk result (λ gs.
        AllByRecursion (IsWithin (length (rows_held blocks.now (lent_rows tail.now) skip horizon))) gs) }
    ensures steps { steps.new ≤ steps.old + most_steps query.now blocks.now }
{
    let views = read_blocks(alloc, query, blocks.as_slice(), skip, horizon, steps)?;
    let all = fold_blocks(rt, alloc, query, views.as_slice())?;
    fold_onto(alloc, query, all, tail, horizon)
}
