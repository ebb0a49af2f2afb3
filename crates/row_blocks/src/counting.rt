// Counts the cells at each place of a block, column by column.
ghost use Rattle.std.specs.Prelude.{◌≡◌, ◌↔◌, ℕ, ◌^◌, ◌<◌, ◌≤◌, length, IfOk, IsTrue, MatchBool, is_some, slice_index};
ghost use Rattle.std.specs.List.{AllByRecursion};
ghost use Rattle.column_bytes.specs.Cells.{cell_at};
ghost use Rattle.row_blocks.specs.Blocks.{IsOther, cells_at};
ghost use Rattle.row_blocks.specs.Counts.{AreCounted, IsOver};
ghost use Rattle.row_blocks.specs.Places.{AreSeen};

use crate::column::BlockColumn;
use column_bytes::ColumnView;
use leaf_model::MAX_CELLS;
use std::alloc::{AllocError, Global};

/// A count of 0 for each row.
fn no_counts(alloc: Global, rows: u32) -> Result<Vec<u32>, AllocError>
    ensures length { IfOk result (λ counts. length counts.items ≡ rows) }
    ensures none { IfOk result (λ counts. (i : ℕ) → slice_index counts.items i ≡ 0) }
{
    vec![in alloc; 0u32; rows as usize]
}

/// Adds the cells of a column to the counts of their places. False, and an early stop, if a count would pass 1,024.
fn count_column(view: &ColumnView, counts: &mut [u32]) -> bool
    requires rows { length counts.old < 2 ^ 32 }
    requires same { length counts.old ≡ length view.now.codes }
    requires few { (i : ℕ) → i < length counts.old → slice_index counts.old i ≤ 1024 }
    ensures { MatchBool result (AreCounted (λ i. is_some (cell_at view.now i)) counts.old counts.new)
        (IsOver (λ i. is_some (cell_at view.now i)) counts.old) }
{
    let mut from = 0;
    while let Some(i) = view.next_cell(from) {
        let place = i as usize;
        if counts[place] as usize >= MAX_CELLS {
            return false;
        }
        counts[place] += 1;
        from = i + 1;
    }
    true
}

/// Whether no place has more than 1,024 cells. `counts` has a 0 for each row at the start.
fn are_few(columns: &[BlockColumn], views: &[ColumnView], rows: u32, counts: &mut [u32]) -> bool
    requires each { AllByRecursion (IsOther rows) columns.now }
    requires seen { AreSeen views.now columns.now }
    requires length { length counts.old ≡ rows }
    requires none { (i : ℕ) → slice_index counts.old i ≡ 0 }
    ensures { IsTrue result ↔ ((i : ℕ) → i < rows → length (cells_at i columns.now) ≤ 1024) }
{
    for k in 0..columns.len() {
        if !count_column(&views[k], counts) {
            return false;
        }
    }
    true
}

/// Whether no place has more than 1,024 cells. Err if memory runs out.
pub(crate) fn have_few_cells(
    alloc: Global,
    columns: &[BlockColumn],
    views: &[ColumnView],
    rows: u32,
) -> Result<bool, AllocError>
    requires each { AllByRecursion (IsOther rows) columns.now }
    requires seen { AreSeen views.now columns.now }
    ensures { IfOk result (λ few. IsTrue few ↔ ((i : ℕ) → i < rows → length (cells_at i columns.now) ≤ 1024)) }
{
    let mut counts = no_counts(alloc, rows)?;
    Ok(are_few(columns, views, rows, counts.as_mut_slice()))
}
