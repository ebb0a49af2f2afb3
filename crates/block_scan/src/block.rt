// Finds the blocks that a query may look at, and reads the columns that it names.
ghost use Rattle.std.specs.Prelude.{◌≡◌, ℕ, ◌+◌, ◌≤◌, true, false, ◌||◌, List, [], ◌∷◌, length, ℤ, int_lt, IfOk};
ghost use Rattle.std.specs.List.{AllByRecursion};
ghost use Rattle.leaf_model.specs.Groups.{groups};
ghost use Rattle.row_blocks.specs.Blocks.{AreTimes, IsOther};
ghost use Rattle.row_blocks.specs.Held.{IsSkip, live_rows};
ghost use Rattle.block_scan.specs.Scanning.{meets, most_steps, named_columns};
ghost use Rattle.block_scan.specs.Seen.{StandFor, named_block, seen};
ghost use Rattle.block_scan.specs.Timed.{AreBetween};

use crate::reading::{read_column, read_named};
use crate::view::BlockView;
use leaf_model::{Query, Steps};
use row_blocks::{BlockColumn, RowBlock};
use std::alloc::{AllocError, Global};
use std::sync::ledger::Ledger;

fn lie_apart(query: &Query, from: i64, to: i64) -> bool
    ensures { result ≡ (int_lt query.now.to from || int_lt to query.now.from) }
{
    query.to < from || to < query.from
}

/// Whether the range of the block's times lies outside the range of the query.
fn is_apart(query: &Query, block: &RowBlock) -> bool
    ensures none { result ≡ true → (skip : ℕ) (horizon : ℤ) → groups query.now (live_rows skip horizon block.now) ≡ [] }
    ensures met { result ≡ false → meets query.now block.now ≡ true }
{
    let (from, to) = block.range();
    lie_apart(query, from, to)
}

/// Reads the column of the times, and those of the others that the query names.
fn read_columns<'a, L: Ledger>(
    alloc: Global,
    query: &Query,
    rows: u32,
    times: &'a BlockColumn,
    others: &'a [BlockColumn],
    from: i64,
    to: i64,
    skip: u32,
    horizon: i64,
    steps: &mut Steps<L>,
) -> Result<BlockView<'a>, AllocError>
    requires few { rows ≤ 65536 }
    requires skip { skip ≤ rows }
    requires timed { AreTimes rows times.now }
    requires between { AreBetween rows times.now from to }
    requires others { AllByRecursion (IsOther rows) others.now }
    ensures view { IfOk result (λ view.
        view ≡ seen skip horizon (record { rows = rows; columns = named_columns query.now (times.now ∷ others.now) })) }
    ensures steps { steps.new ≤ steps.old + length (named_columns query.now (times.now ∷ others.now)) }
{
    let read_times = read_column(rows, times, steps);
    let read = read_named(alloc, query, rows, others, steps)?;
    Ok(BlockView::of(rows, skip, horizon, from, to, read_times, read))
}

/// Reads the columns of a block that the query names, each once.
fn read_block<'a, L: Ledger>(
    alloc: Global,
    query: &Query,
    block: &'a RowBlock,
    skip: u32,
    horizon: i64,
    steps: &mut Steps<L>,
) -> Result<BlockView<'a>, AllocError>
    requires skip { skip ≤ block.now.rows }
    ensures view { IfOk result (λ view. view ≡ seen skip horizon (named_block query.now block.now)) }
    ensures steps { steps.new ≤ steps.old + length (named_columns query.now block.now.columns) }
{
    block.is_block();
    let (from, to) = block.range();
    match block.columns().split_first() {
        Some((times, others)) => read_columns(
            alloc,
            query,
            block.rows(),
            times,
            others,
            from,
            to,
            skip,
            horizon,
            steps,
        ),
        None => unreachable!(),
    }
}

/// Reads the blocks whose range of times meets that of the query, as views. The first `skip` rows of the first block
/// are left out.
pub(crate) fn read_blocks<'a, L: Ledger>(
    alloc: Global,
    query: &Query,
    blocks: &'a [RowBlock],
    skip: u32,
    horizon: i64,
    steps: &mut Steps<L>,
) -> Result<Vec<BlockView<'a>>, AllocError>
    requires skip { IsSkip skip blocks.now }
    ensures views { IfOk result (λ views. StandFor query.now blocks.now skip horizon views.items) }
    ensures steps { steps.new ≤ steps.old + most_steps query.now blocks.now }
{
    let mut views = Vec::new(alloc);
    let mut cut = skip;
    for block in blocks {
        let here = cut;
        cut = 0;
        block.is_block();
        if is_apart(query, block) {
            continue;
        }
        views.push(read_block(alloc, query, block, here, horizon, steps)?)?;
    }
    Ok(views)
}
