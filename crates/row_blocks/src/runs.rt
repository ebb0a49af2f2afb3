// Cells sorted by heading: a run of equal headings is a column.
ghost use Rattle.std.specs.Prelude.{◌≡◌, ℕ, ◌<◌, ◌≤◌, ◌==◌, ◌++◌, [], length, None, IfOk, OnOk, option_map, slice_index_or, if◌then◌else◌};
ghost use Rattle.std.specs.List.{All, prefix_len};
ghost use Rattle.std.specs.List.Sorted.{IsStrictlySortedBy};
ghost use Rattle.std.specs.Ordering.{nat_cmp};
ghost use Rattle.std.specs.Cmp.Lexicographic.{slice_cmp};
ghost use Rattle.leaf_model.specs.Lent.{each_cells, lent_cell, lent_cells, lent_value};
ghost use Rattle.row_blocks.specs.declared.runs.PlacedCell.{PlacedCell};
ghost use Rattle.row_blocks.specs.Headings.{heading_of};
ghost use Rattle.row_blocks.specs.Places.{names_of};
ghost use Rattle.row_blocks.specs.Runs.{HoldRests, Rise, comes_under, last_value, row_cells};

use crate::headings::compare_cells;
use leaf_model::{LentCell, LentCells, LentValue};
use std::alloc::{AllocError, Global};

/// A cell, and the place of its row.
#[derive(Clone, Copy)]
pub(crate) struct PlacedCell<'a> {
    pub place: usize,
    pub cell: LentCell<'a>,
}

/// Appends the cells of the row at `place`.
fn push_row<'a>(
    place: usize,
    rest: &LentCells<'a>,
    cells: &mut Vec<PlacedCell<'a>>,
) -> Result<(), AllocError>
    ensures { OnOk result ((i : ℕ) → row_cells i cells.new.items ≡ row_cells i cells.old.items
        ++ (if place == i then lent_cells rest.now else [])) }
{
    let mut left = *rest;
    while let Some((cell, others)) = left.split_first() {
        cells.push(PlacedCell { place, cell })?;
        left = others;
    }
    Ok(())
}

/// The cells that are left of each row, row after row.
fn placed_cells<'a>(
    alloc: Global,
    rests: &[LentCells<'a>],
) -> Result<Vec<PlacedCell<'a>>, AllocError>
    ensures { IfOk result (λ cells. HoldRests (each_cells rests.now) cells.items) }
{
    let mut cells = Vec::new(alloc);
    for place in 0..rests.len() {
        push_row(place, &rests[place], &mut cells)?;
    }
    Ok(cells)
}

/// Sorts cells by heading. The cells of each row are sorted already.
fn sort(cells: &mut Vec<PlacedCell>) -> Result<(), AllocError>
    requires { (i : ℕ) → IsStrictlySortedBy (slice_cmp nat_cmp) (names_of (row_cells i cells.old.items)) }
    ensures rise { OnOk result (Rise cells.new.items) }
    ensures cells { OnOk result ((i : ℕ) → row_cells i cells.new.items ≡ row_cells i cells.old.items) }
{
    cells.sort_by(|a, b| compare_cells(&a.cell, &b.cell))
}

/// The cells that are left of all rows, sorted by heading.
pub(crate) fn in_order<'a>(
    alloc: Global,
    rests: &[LentCells<'a>],
) -> Result<Vec<PlacedCell<'a>>, AllocError>
    requires { (i : ℕ)
        → IsStrictlySortedBy (slice_cmp nat_cmp) (names_of (slice_index_or (each_cells rests.now) i [])) }
    ensures rise { IfOk result (λ cells. Rise cells.items) }
    ensures cells { IfOk result (λ cells. HoldRests (each_cells rests.now) cells.items) }
{
    let mut cells = placed_cells(alloc, rests)?;
    sort(&mut cells)?;
    Ok(cells)
}

/// The length of the first run: how many cells at the start have the heading of `like`.
pub(crate) fn run_len(like: &LentCell, cells: &[PlacedCell]) -> usize
    ensures { result ≡ prefix_len (comes_under (heading_of (lent_cell like.now))) cells.now }
{
    for i in 0..cells.len() {
        if !compare_cells(like, &cells[i].cell).is_eq() {
            return i;
        }
    }
    cells.len()
}

/// Sets the values from place `from` to place `to` to None.
fn forget(values: &mut [Option<LentValue>], from: usize, to: usize)
    requires order { from ≤ to }
    requires within { to ≤ length values.old }
    requires before { (k : ℕ) → k < from → slice_index_or values.old k None ≡ None }
    ensures same { length values.new ≡ length values.old }
    ensures none { (k : ℕ) → k < to → slice_index_or values.new k None ≡ None }
{
    for i in from..to {
        values[i] = None;
    }
}

/// Writes each value of a run to the place of its row, and None to all other places.
pub(crate) fn lend_run<'a>(cells: &[PlacedCell<'a>], values: &mut [Option<LentValue<'a>>])
    requires { All (λ (p : PlacedCell). p.place < length values.old) cells.now }
    ensures same { length values.new ≡ length values.old }
    ensures values { (i : ℕ) → i < length values.old
        → option_map lent_value (slice_index_or values.new i None) ≡ last_value (row_cells i cells.now) }
{
    forget(values, 0, values.len());
    for placed in cells {
        values[placed.place] = Some(placed.cell.value);
    }
}
