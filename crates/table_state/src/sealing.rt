// Adds rows: seals each whole run of the tail, and leaves the others in the tail.
ghost use Rattle.std.specs.Prelude.{◌≡◌, ◌+◌, ◌<◌, ◌≤◌, ◌++◌, drop, take, length, Err, IfOk, OnOk, OnErr};
ghost use Rattle.std.specs.List.{AllByRecursion};
ghost use Rattle.leaf_model.specs.Content.{rows_from};
ghost use Rattle.leaf_model.specs.Lent.{lent_rows};
ghost use Rattle.row_model.specs.Values.{IsRow};
ghost use Rattle.row_blocks.specs.Blocks.{IsBlock};
ghost use Rattle.row_blocks.specs.Held.{block_rows, columns_count, rows_and_cells};
ghost use Rattle.table_state.specs.Stored.{AreSealed, in_runs};
ghost use Rattle.table_state.specs.Tables.{most_rows};
ghost use Rattle.table_state.specs.declared.fault.AddFault.TheVariants as fault;

use crate::fault::AddFault;
use crate::held::{drop_front, has_room};
use crate::tail::Tail;
use leaf_model::LentRows;
use row_blocks::{Blocks, RowBlock, seal};
use std::alloc::{AllocError, Global};

/// The rows of a run, which is sealed as one block.
const RUN: usize = 65536;

/// Seals each whole run of the rows into a block. The rows after the last whole run are not looked at.
fn runs_of(alloc: Global, rows: &LentRows) -> Result<Vec<RowBlock>, AllocError>
    requires { AllByRecursion IsRow (lent_rows rows.now) }
    ensures rows { IfOk result (λ blocks.
        block_rows blocks.items ≡ take (in_runs (length (lent_rows rows.now))) (lent_rows rows.now)) }
    ensures each { IfOk result (λ blocks. AllByRecursion IsBlock blocks.items) }
    ensures few { IfOk result (λ blocks. columns_count blocks.items ≤ rows_and_cells
        (take (in_runs (length (lent_rows rows.now))) (lent_rows rows.now))) }
{
    let mut blocks = Vec::new(alloc);
    let mut left = *rows;
    while left.len() >= RUN {
        let (run, others) = left.split_at(RUN);
        let block = seal(alloc, &run)?;
        block.is_block();
        blocks.push(block)?;
        left = others;
    }
    Ok(blocks)
}

/// Seals each whole run at the start of the tail and appends the blocks. The tail stays as it is; after Err the blocks
/// stay too.
fn seal_runs(blocks: &mut Blocks, tail: &Tail) -> Result<(), AllocError>
    ensures sealed { OnOk result (AreSealed blocks.old (take (in_runs (length tail.now)) tail.now) blocks.new) }
    ensures refused { OnErr result (blocks.new ≡ blocks.old) }
{
    tail.are_rows();
    let sealed = runs_of(tail.allocator(), &tail.lend())?;
    blocks.append(sealed)
}

/// Does the part of an add that can fail: appends the rows that are not late to the tail, if the table then has at most
/// 2^40 rows, and seals the whole runs. Gives the number of appended rows.
pub fn prepare(
    live: u64,
    blocks: &mut Blocks,
    tail: &mut Tail,
    horizon: i64,
    more: &LentRows,
) -> Result<u64, AddFault>
    requires more { AllByRecursion IsRow (lent_rows more.now) }
    requires held { live + length tail.old ≤ most_rows }
    requires few { length (lent_rows more.now) ≤ most_rows }
    ensures few { IfOk result (λ kept. kept ≤ length (lent_rows more.now)) }
    ensures count { IfOk result (λ kept. kept ≡ length (rows_from horizon (lent_rows more.now))) }
    ensures fits { IfOk result (λ kept. live + length tail.old + kept ≤ most_rows) }
    ensures put { OnOk result (tail.new ≡ tail.old ++ rows_from horizon (lent_rows more.now)) }
    ensures sealed { OnOk result (AreSealed blocks.old (take (in_runs (length tail.new)) tail.new) blocks.new) }
    ensures blocks { OnErr result (blocks.new ≡ blocks.old) }
    ensures tail { OnErr result (tail.new ≡ tail.old) }
    ensures full { result ≡ Err fault.Full
        → most_rows < live + length tail.old + length (rows_from horizon (lent_rows more.now)) }
{
    let before = tail.len();
    if !has_room(live + before as u64, horizon, more) {
        return Err(AddFault::Full);
    }
    if tail.extend_from(more, horizon).is_err() {
        return Err(AddFault::NoMemory);
    }
    if seal_runs(blocks, tail).is_err() {
        tail.truncate(before);
        return Err(AddFault::NoMemory);
    }
    Ok((tail.len() - before) as u64)
}

/// Removes the whole runs from the start of the tail. Gives their number of rows.
pub fn drop_runs(tail: &mut Tail) -> u64
    ensures rows { tail.new ≡ drop (in_runs (length tail.old)) tail.old }
    ensures gone { result ≡ in_runs (length tail.old) }
{
    let gone = tail.len() / RUN * RUN;
    drop_front(tail, gone);
    gone as u64
}

/// Seals all rows of the tail into a block, and appends it. The tail stays as it is, and so do the blocks after Err.
pub fn seal_behind(blocks: &mut Blocks, tail: &Tail) -> Result<(), AllocError>
    requires some { 0 < length tail.now }
    requires few { length tail.now ≤ 65536 }
    ensures sealed { OnOk result (AreSealed blocks.old tail.now blocks.new) }
    ensures refused { OnErr result (blocks.new ≡ blocks.old) }
{
    tail.are_rows();
    let alloc = tail.allocator();
    let block = seal(alloc, &tail.lend())?;
    block.is_block();
    let mut more = Vec::with_capacity(alloc, 1)?;
    more.push(block)?;
    blocks.append(more)
}
