// Seals rows into a block: first the column of the times, then column by column the cells that are left of the rows.
ghost use Rattle.std.specs.Prelude.{◌≡◌, ◌<◌, ◌≤◌, length, map, replicate, true, ℤ, Some, IfOk, OnOk};
ghost use Rattle.std.specs.List.{AllByRecursion};
ghost use Rattle.row_model.specs.declared.rows.Value.TheVariants.{Int};
ghost use Rattle.leaf_model.specs.Lent.{each_cells, each_value, lent_cell, lent_rows};
ghost use Rattle.row_model.specs.Values.{IsRow, time_name};
ghost use Rattle.column_bytes.specs.Column.{kind_in};
ghost use Rattle.column_bytes.specs.Coding.{AreOfKind};
ghost use Rattle.column_bytes.specs.declared.kind.Kind.TheVariants.{Ints};
ghost use Rattle.row_blocks.specs.Blocks.{rows_in, times_of};
ghost use Rattle.row_blocks.specs.Columns.{MeanCells, cells_in};
ghost use Rattle.row_blocks.specs.Headings.{heading, heading_of};
ghost use Rattle.row_blocks.specs.Held.{rows_and_cells};
ghost use Rattle.row_blocks.specs.Runs.{AreLeft};
ghost use Rattle.row_blocks.specs.Merging.{AreTaken, HoldCells, cells_of_rows};

use crate::block::RowBlock;
use crate::column::{BlockColumn, BlockColumns, ColumnBytes};
use crate::fronts::next_column;
use crate::headings::kind_of;
use crate::merge::{bare_times, no_values, parts_of};
use crate::runs::{PlacedCell, in_order, lend_run, run_len};
use column_bytes::{encode_numbers, encode_refs};
use leaf_model::{LentCell, LentCells, LentRows, LentValue, Text};
use std::alloc::{AllocError, Global};
use std::mem::swap;
use time_range::range_of;

/// The column of the times, named `time`.
fn times_column(alloc: Global, times: &[i64]) -> Result<BlockColumn, AllocError>
    requires some { 0 < length times.now }
    requires few { length times.now ≤ 65536 }
    ensures name { IfOk result (λ column. column.name ≡ time_name) }
    ensures kind { IfOk result (λ column. kind_in column.bytes ≡ Ints) }
    ensures means { IfOk result (λ column. MeanCells column.bytes (length times.now)) }
    ensures cells { IfOk result (λ column. cells_in column.bytes ≡ map (λ (t : ℤ). Some (Int t)) times.now) }
{
    let marks = all_there(alloc, times.len())?;
    let bytes = encode_numbers(alloc, times, &marks)?;
    Ok(BlockColumn {
        name: Text::of(String::from_str(alloc, "time")?),
        bytes: ColumnBytes::of(bytes.into_bytes()),
    })
}

/// `count` times true: each cell is there.
fn all_there(alloc: Global, count: usize) -> Result<Vec<bool>, AllocError>
    ensures { IfOk result (λ marks. marks.items ≡ replicate count true) }
{
    Ok(vec![in alloc; true; count]?)
}

/// The column of these values, with the heading of `like`.
fn column_like(
    alloc: Global,
    like: &LentCell,
    values: &[Option<LentValue>],
) -> Result<BlockColumn, AllocError>
    requires some { 0 < length values.now }
    requires few { length values.now ≤ 65536 }
    requires kind { AreOfKind (heading_of (lent_cell like.now)).kind (each_value values.now) }
    ensures heading { IfOk result (λ column. heading column ≡ heading_of (lent_cell like.now)) }
    ensures means { IfOk result (λ column. MeanCells column.bytes (length values.now)) }
    ensures cells { IfOk result (λ column. cells_in column.bytes ≡ each_value values.now) }
{
    let bytes = encode_refs(alloc, kind_of(&like.value), values)?;
    Ok(BlockColumn {
        name: Text::of(String::from_str(alloc, like.name)?),
        bytes: ColumnBytes::of(bytes.into_bytes()),
    })
}

/// The number of walks over all rows that cost at most as much as a sort of the cells. A sort looks at a cell once for
/// each binary digit of the number of cells.
fn walks_worth(rests: &[LentCells]) -> usize {
    let mut cells = 0usize;
    for rest in rests {
        cells = cells.saturating_add(rest.len());
    }
    let digits = usize::BITS - cells.leading_zeros();
    cells.saturating_mul(digits as usize) / rests.len().max(1)
}

/// The first columns, each taken off the rows in a walk over all, and the cells that are then left.
fn walked_columns<'a>(
    alloc: Global,
    rows: &LentRows,
    cells: Vec<LentCells<'a>>,
) -> Result<(Vec<BlockColumn>, Vec<LentCells<'a>>), AllocError>
    requires some { 0 < length (lent_rows rows.now) }
    requires few { length (lent_rows rows.now) ≤ 65536 }
    requires rows { AllByRecursion IsRow (lent_rows rows.now) }
    requires cells { each_cells cells.items ≡ cells_of_rows (lent_rows rows.now) }
    ensures { IfOk result (λ taken. AreTaken (lent_rows rows.now) taken.0.items (each_cells taken.1.items)) }
{
    let mut rests = cells;
    let mut nexts = Vec::with_capacity(alloc, rows.len())?;
    let mut columns = Vec::new(alloc);
    for _walk in 0..walks_worth(&rests) {
        let Some(column) = next_column(alloc, &rests, &mut nexts)? else {
            break;
        };
        columns.push(column)?;
        swap(&mut rests, &mut nexts);
    }
    Ok((columns, rests))
}

/// Appends the columns of the cells that are left, which are sorted by heading. `values` is scratch space with a place
/// for each row.
fn sorted_columns<'a>(
    alloc: Global,
    rows: &LentRows,
    cells: &[PlacedCell<'a>],
    values: &mut [Option<LentValue<'a>>],
    columns: &mut Vec<BlockColumn>,
) -> Result<(), AllocError>
    requires some { 0 < length (lent_rows rows.now) }
    requires few { length (lent_rows rows.now) ≤ 65536 }
    requires rows { AllByRecursion IsRow (lent_rows rows.now) }
    requires places { length values.old ≡ length (lent_rows rows.now) }
    requires left { AreLeft (lent_rows rows.now) columns.old.items cells.now }
    ensures { OnOk result (HoldCells (lent_rows rows.now) columns.new.items) }
{
    let mut from = 0;
    while from < cells.len() {
        let first = cells[from].cell;
        let to = from + run_len(&first, &cells[from..]);
        lend_run(&cells[from..to], values);
        columns.push(column_like(alloc, &first, values)?)?;
        from = to;
    }
    Ok(())
}

/// The columns of all cells, in order. Each is taken in a walk over all rows while that is cheaper, and then the cells
/// that are left are sorted.
fn other_columns<'a>(
    alloc: Global,
    rows: &LentRows,
    cells: Vec<LentCells<'a>>,
) -> Result<Vec<BlockColumn>, AllocError>
    requires some { 0 < length (lent_rows rows.now) }
    requires few { length (lent_rows rows.now) ≤ 65536 }
    requires rows { AllByRecursion IsRow (lent_rows rows.now) }
    requires cells { each_cells cells.items ≡ cells_of_rows (lent_rows rows.now) }
    ensures { IfOk result (λ columns. HoldCells (lent_rows rows.now) columns.items) }
{
    let (mut columns, rests) = walked_columns(alloc, rows, cells)?;
    let sorted = in_order(alloc, &rests)?;
    if sorted.is_empty() {
        return Ok(columns);
    }
    let mut values = no_values(alloc, rows.len())?;
    sorted_columns(alloc, rows, &sorted, &mut values, &mut columns)?;
    Ok(columns)
}

/// The block of rows, given their times and the columns of their cells.
fn seal_with(
    alloc: Global,
    rows: &LentRows,
    times: &[i64],
    others: Vec<BlockColumn>,
) -> Result<RowBlock, AllocError>
    requires some { 0 < length (lent_rows rows.now) }
    requires few { length (lent_rows rows.now) ≤ 65536 }
    requires rows { AllByRecursion IsRow (lent_rows rows.now) }
    requires times { times.now ≡ times_of (lent_rows rows.now) }
    requires others { HoldCells (lent_rows rows.now) others.items }
    ensures rows { IfOk result (λ block. rows_in block ≡ lent_rows rows.now) }
    ensures few { IfOk result (λ block. length block.columns ≤ rows_and_cells (lent_rows rows.now)) }
{
    let range = range_of(times);
    let first = times_column(alloc, times)?;
    let mut others = others;
    let mut columns = Vec::new(alloc);
    columns.push(first)?;
    columns.append(&mut others)?;
    Ok(RowBlock::of(rows.len() as u32, range, BlockColumns::of(columns)))
}

/// Seals 1 to 65,536 rows into a block of at most one column for each row and each cell. Rows without cells are not
/// copied, but for their times. Err if memory runs out.
pub fn seal(alloc: Global, rows: &LentRows) -> Result<RowBlock, AllocError>
    requires some { 0 < length (lent_rows rows.now) }
    requires few { length (lent_rows rows.now) ≤ 65536 }
    requires rows { AllByRecursion IsRow (lent_rows rows.now) }
    ensures rows { IfOk result (λ block. rows_in block ≡ lent_rows rows.now) }
    ensures few { IfOk result (λ block. length block.columns ≤ rows_and_cells (lent_rows rows.now)) }
{
    match bare_times(alloc, rows)? {
        Some(times) => seal_with(alloc, rows, &times, Vec::new(alloc)),
        None => {
            let (times, cells) = parts_of(alloc, rows)?;
            let others = other_columns(alloc, rows, cells)?;
            seal_with(alloc, rows, &times, others)
        }
    }
}
