// The rules of a block, as tests of columns.
ghost use Rattle.std.specs.Prelude.{◌≡◌, ◌↔◌, ℕ, ◌<◌, ◌≤◌, List, length, map, ℤ, pos, false, Some, None, IfOk, IsTrue, MatchOption, option_map, slice_index_or, if◌then◌else◌};
ghost use Rattle.std.specs.List.{AllByRecursion};
ghost use Rattle.std.specs.List.Sorted.{IsStrictlySortedBy};
ghost use Rattle.std.specs.Ordering.{nat_cmp};
ghost use Rattle.std.specs.Cmp.Lexicographic.{slice_cmp};
ghost use Rattle.row_model.specs.declared.rows.Value.TheVariants.{Int};
ghost use Rattle.row_model.specs.Values.{IsCellName, time_name};
ghost use Rattle.column_bytes.specs.declared.kind.Kind.TheVariants.{Ints};
ghost use Rattle.column_bytes.specs.Column.{kind_in};
ghost use Rattle.column_bytes.specs.Cells.{Coded, cell_at, kind_of_book};
ghost use Rattle.row_blocks.specs.declared.column.BlockColumn.{BlockColumn};
ghost use Rattle.row_blocks.specs.Blocks.{AreTimes, IsOther, IsTimeCell};
ghost use Rattle.row_blocks.specs.Columns.{IsSeen, MeanCells, cells_in};
ghost use Rattle.row_blocks.specs.Headings.{heading, heading_cmp};
ghost use Rattle.row_blocks.specs.Places.{AreSeen};
ghost use Rattle.row_blocks.specs.Times.{AreFound, TellTimes, TellOthers};

use crate::column::BlockColumn;
use crate::headings::compare_columns;
use crate::reading::view_of;
use column_bytes::{ColumnView, Kind};
use leaf_model::{MAX_NAME, Text};
use std::alloc::{AllocError, Global};

fn is_cell_name(name: &Text) -> bool
    ensures { IsTrue result ↔ IsCellName name.now }
{
    let name = name.as_str();
    !name.is_empty() && name.len() <= MAX_NAME && name != "time"
}

/// Reads the bytes as a column of `rows` cells. None if they mean none.
fn view_of_rows(rows: u32, bytes: &[u8]) -> Option<ColumnView<'_>>
    ensures { MatchOption result (MeanCells bytes.now rows → ⊥) (λ view.
        MeanCells bytes.now rows × IsSeen view bytes.now × (length view.codes ≡ rows)) }
{
    let view = view_of(bytes)?;
    if view.len() == rows { Some(view) } else { None }
}

/// Reads a column other than that of the times. None if it is no such column.
fn view_of_other(rows: u32, column: &BlockColumn) -> Option<ColumnView<'_>>
    ensures { MatchOption result (IsOther rows column.now → ⊥) (λ view.
        IsOther rows column.now × IsSeen view column.now.bytes) }
{
    if !is_cell_name(&column.name) {
        return None;
    }
    view_of_rows(rows, column.bytes.as_slice())
}

/// Reads all columns other than that of the times. None if one of them is no such column.
pub(crate) fn views_of_others(
    alloc: Global,
    rows: u32,
    columns: &[BlockColumn],
) -> Result<Option<Vec<ColumnView<'_>>>, AllocError>
    ensures { IfOk result (λ found. TellOthers rows columns.now (option_map (λ views. views.items) found)) }
{
    let mut views = Vec::with_capacity(alloc, columns.len())?;
    for column in columns {
        match view_of_other(rows, column) {
            Some(view) => views.push(view)?,
            None => return Ok(None),
        }
    }
    Ok(Some(views))
}

fn fill_times(view: &ColumnView, codes: &mut [u64], present: &mut [bool], times: &mut [i64])
    requires kind { kind_of_book view.now.book ≡ Ints }
    requires codes { length codes.old ≡ length view.now.codes }
    requires present { length present.old ≡ length view.now.codes }
    requires times { length times.old ≡ length view.now.codes }
    ensures { (i : ℕ) → i < length view.now.codes → cell_at view.now i
        ≡ (if slice_index_or present.new i false then Some (Int (slice_index_or times.new i (pos 0))) else None) }
{
    view.integers(codes, present, times);
}

/// Whether each cell is there and is a time.
fn are_times(present: &[bool], times: &[i64]) -> bool
    requires { length present.now ≡ length times.now }
    ensures { IsTrue result ↔ ((i : ℕ) → i < length times.now → IsTimeCell
        (if slice_index_or present.now i false then Some (Int (slice_index_or times.now i (pos 0))) else None)) }
{
    for i in 0..times.len() {
        if !is_time(present[i], times[i]) {
            return false;
        }
    }
    true
}

fn is_time(present: bool, time: i64) -> bool
    ensures { IsTrue result ↔ IsTimeCell (if present then Some (Int time) else None) }
{
    present && time >= 0
}

/// The times of a column of integers. None if a cell is missing or no time. All are decoded in order, so each
/// difference is added once.
fn times_in(alloc: Global, view: &ColumnView) -> Result<Option<Vec<i64>>, AllocError>
    requires { kind_of_book view.now.book ≡ Ints }
    ensures { IfOk result (λ found.
        MatchOption found (((i : ℕ) → i < length view.now.codes → IsTimeCell (cell_at view.now i)) → ⊥) (λ times.
        AreFound view.now (length view.now.codes) times.items)) }
{
    let count = view.len() as usize;
    let mut codes = vec![in alloc; 0u64; count]?;
    let mut present = vec![in alloc; false; count]?;
    let mut times = vec![in alloc; 0i64; count]?;
    fill_times(
        view,
        codes.as_mut_slice(),
        present.as_mut_slice(),
        times.as_mut_slice(),
    );
    if are_times(present.as_slice(), times.as_slice()) {
        Ok(Some(times))
    } else {
        Ok(None)
    }
}

/// The times of a column of integers that is named `time`. None if it may not be the first column of a block.
fn times_of_integers(
    alloc: Global,
    rows: u32,
    column: &BlockColumn,
    view: &ColumnView,
) -> Result<Option<Vec<i64>>, AllocError>
    requires name { column.now.name ≡ time_name }
    requires kind { kind_in column.now.bytes ≡ Ints }
    requires mean { MeanCells column.now.bytes rows }
    requires seen { IsSeen view.now column.now.bytes }
    ensures { IfOk result (λ found. TellTimes rows column.now (option_map (λ times. times.items) found)) }
{
    let found = times_in(alloc, view)?;
    match found {
        Some(times) => Ok(Some(times)),
        None => Ok(None),
    }
}

/// The times of the first column of a block. None if it may not be the first.
pub(crate) fn times_of_column(
    alloc: Global,
    rows: u32,
    column: &BlockColumn,
) -> Result<Option<Vec<i64>>, AllocError>
    ensures { IfOk result (λ found. TellTimes rows column.now (option_map (λ times. times.items) found)) }
{
    if column.name.as_str() != "time" {
        return Ok(None);
    }
    let Some(view) = view_of_rows(rows, column.bytes.as_slice()) else {
        return Ok(None);
    };
    match view.kind() {
        Kind::Ints => times_of_integers(alloc, rows, column, &view),
        Kind::Texts | Kind::Sets => Ok(None),
    }
}

/// Whether the headings strictly ascend.
pub(crate) fn do_ascend(columns: &[BlockColumn]) -> bool
    ensures { IsTrue result ↔ IsStrictlySortedBy heading_cmp (map heading columns.now) }
{
    for i in 1..columns.len() {
        if !compare_columns(&columns[i - 1], &columns[i]).is_lt() {
            return false;
        }
    }
    true
}

/// Whether the names strictly ascend.
pub(crate) fn have_own_names(columns: &[BlockColumn]) -> bool
    ensures { IsTrue result → IsStrictlySortedBy (slice_cmp nat_cmp) (map (λ (c : BlockColumn). c.name) columns.now) }
{
    for i in 1..columns.len() {
        let before = columns[i - 1].name.as_str();
        if !before.cmp(columns[i].name.as_str()).is_lt() {
            return false;
        }
    }
    true
}
