// Takes rows apart: their times, and the cells of each.
ghost use Rattle.std.specs.Prelude.{◌≡◌, [], length, IfOk, IfSome};
ghost use Rattle.leaf_model.specs.Lent.{each_cells, lent_rows};
ghost use Rattle.row_blocks.specs.Blocks.{times_of};
ghost use Rattle.row_blocks.specs.Merging.{AreBare, cells_of_rows};

use leaf_model::{LentCells, LentRows, LentValue};
use std::alloc::{AllocError, Global};

/// The times of the rows, and the cells of each. Err if memory runs out.
pub(crate) fn parts_of<'a>(
    alloc: Global,
    rows: &LentRows<'a>,
) -> Result<(Vec<i64>, Vec<LentCells<'a>>), AllocError>
    ensures times { IfOk result (λ parts. parts.0.items ≡ times_of (lent_rows rows.now)) }
    ensures cells { IfOk result (λ parts. each_cells parts.1.items ≡ cells_of_rows (lent_rows rows.now)) }
{
    let mut times = Vec::with_capacity(alloc, rows.len())?;
    let mut cells = Vec::with_capacity(alloc, rows.len())?;
    let mut left = *rows;
    while let Some((row, others)) = left.split_first() {
        times.push(row.time)?;
        cells.push(row.cells)?;
        left = others;
    }
    Ok((times, cells))
}

/// The times of the rows. None if a row has a cell.
pub(crate) fn bare_times(alloc: Global, rows: &LentRows) -> Result<Option<Vec<i64>>, AllocError>
    ensures times { IfOk result (λ found. IfSome found (λ times. times.items ≡ times_of (lent_rows rows.now))) }
    ensures bare { IfOk result (λ found. IfSome found (λ _. AreBare (lent_rows rows.now))) }
{
    let mut times = Vec::with_capacity(alloc, rows.len())?;
    let mut left = *rows;
    while let Some((row, others)) = left.split_first() {
        if row.cells.len() > 0 {
            return Ok(None);
        }
        times.push(row.time)?;
        left = others;
    }
    Ok(Some(times))
}

/// A None for each row.
pub(crate) fn no_values<'a>(
    alloc: Global,
    rows: usize,
) -> Result<Vec<Option<LentValue<'a>>>, AllocError>
    ensures { IfOk result (λ values. length values.items ≡ rows) }
{
    let mut values = Vec::with_capacity(alloc, rows)?;
    for _i in 0..rows {
        values.push(None)?;
    }
    Ok(values)
}
