// Tests whether the cells at each place of a block are those of a row.
ghost use Rattle.std.specs.Prelude.{◌≡◌, ◌↔◌, ℕ, ◌<◌, ◌≤◌, [], length, IfOk, IsTrue, is_some, option_map, slice_index_or};
ghost use Rattle.std.specs.List.{AllByRecursion};
ghost use Rattle.row_blocks.specs.Blocks.{IsOther, cells_at, value_in};
ghost use Rattle.row_blocks.specs.Places.{AreSeen, FitARow, last_name, next_of, no_column};

use crate::column::BlockColumn;
use crate::counting::have_few_cells;
use crate::rules::have_own_names;
use column_bytes::ColumnView;
use leaf_model::MAX_CELLS;
use std::alloc::{AllocError, Global};

/// Whether column k has a cell at place i.
fn has_cell(columns: &[BlockColumn], views: &[ColumnView], k: usize, i: u32, rows: u32) -> bool
    requires each { AllByRecursion (IsOther rows) columns.now }
    requires seen { AreSeen views.now columns.now }
    requires inside { i < rows }
    requires column { k < length columns.now }
    ensures { result ≡ is_some (value_in (slice_index_or columns.now k no_column).bytes i) }
{
    views[k].has_cell(i)
}

/// The name of the last cell so far, after one more column. None if the names do not ascend.
fn next_name<'a>(last: &'a [u8], column: &'a BlockColumn, has_cell: bool) -> Option<&'a [u8]>
    ensures { option_map (λ n. n.now) result ≡ next_of last.now column.now.name has_cell }
{
    let name = column.name.as_str().as_bytes();
    if !has_cell {
        Some(last)
    } else if last.cmp(name).is_lt() {
        Some(name)
    } else {
        None
    }
}

/// Whether the names of the cells at place i ascend.
fn do_names_ascend(columns: &[BlockColumn], views: &[ColumnView], i: u32, rows: u32) -> bool
    requires each { AllByRecursion (IsOther rows) columns.now }
    requires seen { AreSeen views.now columns.now }
    requires inside { i < rows }
    ensures { result ≡ is_some (last_name i columns.now []) }
{
    let mut last: &[u8] = &[];
    for k in 0..columns.len() {
        let there = has_cell(columns, views, k, i, rows);
        match next_name(last, &columns[k], there) {
            Some(name) => last = name,
            None => return false,
        }
    }
    true
}

/// The number of cells at place i.
fn count_at(columns: &[BlockColumn], views: &[ColumnView], i: u32, rows: u32) -> usize
    requires each { AllByRecursion (IsOther rows) columns.now }
    requires seen { AreSeen views.now columns.now }
    requires inside { i < rows }
    ensures { result ≡ length (cells_at i columns.now) }
{
    let mut count = 0;
    for k in 0..columns.len() {
        count += usize::from(has_cell(columns, views, k, i, rows));
    }
    count
}

/// Whether the cells at place i are those of a row.
fn fit_a_row(columns: &[BlockColumn], views: &[ColumnView], i: u32, rows: u32) -> bool
    requires each { AllByRecursion (IsOther rows) columns.now }
    requires seen { AreSeen views.now columns.now }
    requires inside { i < rows }
    ensures { IsTrue result ↔ FitARow (cells_at i columns.now) }
{
    count_at(columns, views, i, rows) <= MAX_CELLS && do_names_ascend(columns, views, i, rows)
}

/// Whether the cells at each place are those of a row, tested place by place.
fn fit_each_row(columns: &[BlockColumn], views: &[ColumnView], rows: u32) -> bool
    requires each { AllByRecursion (IsOther rows) columns.now }
    requires seen { AreSeen views.now columns.now }
    ensures { IsTrue result ↔ ((i : ℕ) → i < rows → FitARow (cells_at i columns.now)) }
{
    for i in 0..rows {
        if !fit_a_row(columns, views, i, rows) {
            return false;
        }
    }
    true
}

/// Whether the cells at each place are those of a row. If no two columns have the same name, only the numbers of cells
/// are tested.
pub(crate) fn fit_rows(
    alloc: Global,
    columns: &[BlockColumn],
    views: &[ColumnView],
    rows: u32,
) -> Result<bool, AllocError>
    requires each { AllByRecursion (IsOther rows) columns.now }
    requires seen { AreSeen views.now columns.now }
    ensures { IfOk result (λ fit. IsTrue fit ↔ ((i : ℕ) → i < rows → FitARow (cells_at i columns.now))) }
{
    if !have_own_names(columns) {
        return Ok(fit_each_row(columns, views, rows));
    }
    if columns.len() <= MAX_CELLS {
        return Ok(true);
    }
    have_few_cells(alloc, columns, views, rows)
}
