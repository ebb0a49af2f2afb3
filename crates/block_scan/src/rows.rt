// Makes rows of some columns of a block.
ghost use Rattle.std.specs.Prelude.{◌≡◌, ℕ, ◌<◌, ◌≤◌, length, map, IfOk};
ghost use Rattle.std.specs.List.{AllByRecursion};
ghost use Rattle.row_blocks.specs.Blocks.{cells_at};
ghost use Rattle.block_scan.specs.Reads.{IsRead, columns_of, row_of};

use crate::reading::ReadColumn;
use leaf_model::{Cells, Row};
use row_blocks::push_cell;
use std::alloc::{AllocError, Global};

fn cells_at(alloc: Global, rows: u32, read: &[ReadColumn], place: u32) -> Result<Cells, AllocError>
    requires read { AllByRecursion (IsRead rows) read.now }
    requires place { place < rows }
    ensures { IfOk result (λ cells. cells ≡ cells_at place (columns_of read.now)) }
{
    let mut cells = Vec::new(alloc);
    for one in read {
        push_cell(alloc, &one.column.name, &one.view, place, &mut cells)?;
    }
    Ok(Cells::of(cells))
}

/// The rows at some places, with the cells of the columns that were read.
pub(crate) fn rows_at(
    alloc: Global,
    times: &[i64],
    read: &[ReadColumn],
    places: &[u32],
) -> Result<Vec<Row>, AllocError>
    requires few { length times.now ≤ 65536 }
    requires read { AllByRecursion (IsRead (length times.now)) read.now }
    requires places { AllByRecursion (λ place. place < length times.now) places.now }
    ensures { IfOk result (λ rows. rows.items ≡ map (row_of times.now (columns_of read.now)) places.now) }
{
    let mut rows = Vec::with_capacity(alloc, places.len())?;
    for place in places {
        let time = times[*place as usize];
        let cells = cells_at(alloc, times.len() as u32, read, *place)?;
        rows.push(Row { time, cells })?;
    }
    Ok(rows)
}
