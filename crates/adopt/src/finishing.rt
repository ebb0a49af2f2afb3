// Tables out of columns on the heap.
ghost use Rattle.std.specs.Prelude.{◌≡◌, ◌↔◌, ◌≤◌, drop, IsTrue, IfOk, IfErr, OnOk};
ghost use Rattle.std.specs.List.{AllByRecursion};
ghost use Rattle.row_blocks.specs.declared.fault.BlockFault.TheVariants.{NoRows};
ghost use Rattle.row_blocks.specs.Blocks.{IsBlock};
ghost use Rattle.row_blocks.specs.Held.{IsSkip};
ghost use Rattle.table_state.specs.Tables.{IsParts, most_rows};
ghost use Rattle.adopt.specs.Finishing.{FinishesAs, IsMade, after_block, after_column, after_table, block_from, front_of, left_by, live_count, made_from, named_front, table_from, tables_from};
ghost use Rattle.table_state.specs.Stored.{IsCut};

use crate::found::AdoptStep;
use crate::lists::put;
use region_layout::{BlockPlaces, Directory, DrainTable, DrainTables, Place, TablePlaces};
use region_reading::AdoptFault;
use row_blocks::{BlockColumn, BlockColumns, BlockFault, Blocks, ColumnBytes, RowBlock};
use std::alloc::{AllocError, Global};
use std::collections::VecDeque;
use table_state::{MOST_ROWS, Parts};

/// Makes the tables of a directory out of its columns. NoImage if they make none.
pub fn finished(
    alloc: Global,
    directory: Directory,
    columns: Vec<ColumnBytes>,
) -> Result<AdoptStep, AdoptFault>
    ensures { FinishesAs directory columns.items result }
{
    let Directory { log_end, tables } = directory;
    let mut columns = VecDeque::from_vec(columns);
    match tables_from(alloc, tables.into_inner(), &mut columns) {
        Ok(tables) => Ok(AdoptStep::Finished {
            tables: DrainTables::of(tables),
            log_end,
        }),
        Err(BlockFault::NoRows) => Ok(AdoptStep::NoImage),
        Err(BlockFault::NoMemory) => Err(AdoptFault::NoMemory),
    }
}

/// Makes the tables at these places. NoRows if and only if they break a rule of tables.
fn tables_from(
    alloc: Global,
    tables: Vec<TablePlaces>,
    columns: &mut VecDeque<ColumnBytes>,
) -> Result<Vec<DrainTable>, BlockFault>
    ensures made { IfOk result (λ made. made.items ≡ tables_from tables.items columns.old.items) }
    ensures each { IfOk result (λ made. AllByRecursion IsMade made.items) }
    ensures refused { IfErr result (λ e.
        e ≡ NoRows → AllByRecursion IsMade (tables_from tables.items columns.old.items) → ⊥) }
{
    let mut rest = VecDeque::from_vec(tables);
    let mut made = Vec::new(alloc);
    while let Some(table) = rest.pop_front() {
        put(table_from(alloc, table, columns)?, &mut made)?;
    }
    Ok(made)
}

/// Makes the table at this place out of the next columns.
fn table_from(
    alloc: Global,
    table: TablePlaces,
    columns: &mut VecDeque<ColumnBytes>,
) -> Result<DrainTable, BlockFault>
    ensures made { IfOk result (λ made. made ≡ table_from table columns.old.items) }
    ensures each { IfOk result IsMade }
    ensures left { OnOk result (columns.new.items ≡ after_table table columns.old.items) }
    ensures refused { IfErr result (λ e. e ≡ NoRows → IsMade (table_from table columns.old.items) → ⊥) }
{
    let TablePlaces {
        name,
        horizon,
        writes,
        skip,
        blocks,
    } = table;
    let blocks = Blocks::of(blocks_from(alloc, blocks.into_inner(), columns)?);
    let parts = Parts {
        horizon,
        writes,
        skip,
        blocks,
    };
    if are_parts(&parts) {
        Ok(DrainTable { name, parts })
    } else {
        Err(BlockFault::NoRows)
    }
}

/// Makes the blocks at these places out of the next columns.
fn blocks_from(
    alloc: Global,
    blocks: Vec<BlockPlaces>,
    columns: &mut VecDeque<ColumnBytes>,
) -> Result<Vec<RowBlock>, BlockFault>
    ensures made { IfOk result (λ made. made.items ≡ made_from block_from after_block blocks.items columns.old.items) }
    ensures each { IfOk result (λ made. AllByRecursion IsBlock made.items) }
    ensures left { OnOk result (columns.new.items ≡ left_by after_block blocks.items columns.old.items) }
    ensures refused { IfErr result (λ e.
        e ≡ NoRows → AllByRecursion IsBlock (made_from block_from after_block blocks.items columns.old.items) → ⊥) }
{
    let mut rest = VecDeque::from_vec(blocks);
    let mut made = Vec::new(alloc);
    while let Some(block) = rest.pop_front() {
        put(block_from(alloc, block, columns)?, &mut made)?;
    }
    Ok(made)
}

/// Makes the block at this place out of the next columns.
fn block_from(
    alloc: Global,
    block: BlockPlaces,
    columns: &mut VecDeque<ColumnBytes>,
) -> Result<RowBlock, BlockFault>
    ensures made { IfOk result (λ made. made ≡ block_from block columns.old.items) }
    ensures each { IfOk result IsBlock }
    ensures left { OnOk result (columns.new.items ≡ after_block block columns.old.items) }
    ensures refused { IfErr result (λ e. e ≡ NoRows → IsBlock (block_from block columns.old.items) → ⊥) }
{
    let BlockPlaces {
        rows,
        columns: places,
    } = block;
    let own = columns_from(alloc, places.into_inner(), columns)?;
    RowBlock::from_columns(alloc, rows, own)
}

/// Takes the columns at these places, which come next.
fn columns_from(
    alloc: Global,
    places: Vec<Place>,
    columns: &mut VecDeque<ColumnBytes>,
) -> Result<BlockColumns, AllocError>
    ensures made { IfOk result (λ made. made ≡ made_from named_front after_column places.items columns.old.items) }
    ensures left { OnOk result (columns.new.items ≡ left_by after_column places.items columns.old.items) }
{
    let mut rest = VecDeque::from_vec(places);
    let mut made = Vec::new(alloc);
    while let Some(place) = rest.pop_front() {
        made.push(named_column(alloc, place, columns))?;
    }
    Ok(BlockColumns::of(made))
}

/// Takes the column at this place, which comes next.
fn named_column(alloc: Global, place: Place, columns: &mut VecDeque<ColumnBytes>) -> BlockColumn
    ensures made { result ≡ named_front place columns.old.items }
    ensures left { columns.new.items ≡ after_column place columns.old.items }
{
    BlockColumn {
        name: place.name,
        bytes: next_column(alloc, columns),
    }
}

/// Takes the first column, or an empty one if there is none.
fn next_column(alloc: Global, columns: &mut VecDeque<ColumnBytes>) -> ColumnBytes
    ensures first { result ≡ front_of columns.old.items }
    ensures left { columns.new.items ≡ drop 1 columns.old.items }
{
    match columns.pop_front() {
        Some(column) => column,
        None => ColumnBytes::of(Vec::new(alloc)),
    }
}

/// Whether a table may be made of blocks with a horizon and a cut.
#[tactic(auto, using(crate::proofs::Counting::parts_of, crate::proofs::Counting::parts_give))]
fn are_parts(parts: &Parts) -> bool
    requires { AllByRecursion IsBlock parts.now.blocks }
    ensures { IsTrue result ↔ IsParts parts.now }
{
    parts.horizon >= 0 && have_parts(parts.blocks.as_slice(), parts.skip, parts.horizon)
}

#[tactic(auto, using(crate::proofs::Counting::cut_of))]
fn have_parts(blocks: &[RowBlock], skip: u32, horizon: i64) -> bool
    ensures { IsTrue result ↔ (IsSkip skip blocks.now × (live_count blocks.now skip horizon ≤ most_rows)) }
{
    is_skip(skip, blocks) && has_few_rows(blocks, skip, horizon)
}

fn is_skip(skip: u32, blocks: &[RowBlock]) -> bool
    ensures { IsTrue result ↔ IsSkip skip blocks.now }
{
    match blocks {
        [] => skip == 0,
        [first, ..] => skip < first.rows(),
    }
}

/// Whether the blocks have at most 2^40 rows that are live.
fn has_few_rows(blocks: &[RowBlock], skip: u32, horizon: i64) -> bool
    requires { IsCut skip blocks.now }
    ensures { IsTrue result ↔ live_count blocks.now skip horizon ≤ most_rows }
{
    let mut live = 0;
    let mut cut = skip;
    for block in blocks {
        live += u64::from(block.count_live(cut, horizon));
        if MOST_ROWS < live {
            return false;
        }
        cut = 0;
    }
    true
}
