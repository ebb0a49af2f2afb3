// Reads the columns of a block that a query names.
ghost use Rattle.std.specs.Prelude.{◌≡◌, ◌+◌, ◌≤◌, length, IfOk};
ghost use Rattle.std.specs.List.{AllByRecursion};
ghost use Rattle.row_blocks.specs.Columns.{MeanCells};
ghost use Rattle.row_blocks.specs.Blocks.{IsOther};
ghost use Rattle.block_scan.specs.Reads.{IsRead, columns_of};
ghost use Rattle.block_scan.specs.Scanning.{named_columns};

use crate::names::is_named;
use column_bytes::ColumnView;
use leaf_model::{Query, Steps};
use row_blocks::BlockColumn;
use std::alloc::{AllocError, Global};
use std::sync::ledger::Ledger;

/// A column of a block, and its bytes as they were read.
#[derive(Drop)]
pub struct ReadColumn<'a> {
    pub column: &'a BlockColumn,
    pub view: ColumnView<'a>,
}

/// Reads a column that is known to have a cell for each row. It takes one step.
pub(crate) fn read_column<'a, L: Ledger>(
    rows: u32,
    column: &'a BlockColumn,
    steps: &mut Steps<L>,
) -> ReadColumn<'a>
    requires { MeanCells column.now.bytes rows }
    ensures column { result.column.now ≡ column.now }
    ensures read { IsRead rows result }
    ensures step { steps.new ≡ steps.old + 1 }
{
    match ColumnView::read(column.bytes.as_slice(), steps) {
        Ok(view) => ReadColumn { column, view },
        Err(_) => unreachable!(),
    }
}

/// Reads the columns other than that of the times that the query names, each once.
pub(crate) fn read_named<'a, L: Ledger>(
    alloc: Global,
    query: &Query,
    rows: u32,
    columns: &'a [BlockColumn],
    steps: &mut Steps<L>,
) -> Result<Vec<ReadColumn<'a>>, AllocError>
    requires { AllByRecursion (IsOther rows) columns.now }
    ensures columns { IfOk result (λ read. columns_of read.items ≡ named_columns query.now columns.now) }
    ensures read { IfOk result (λ read. AllByRecursion (IsRead rows) read.items) }
    ensures steps { steps.new ≤ steps.old + length (named_columns query.now columns.now) }
{
    let mut read = Vec::new(alloc);
    for column in columns {
        if !is_named(query, &column.name) {
            continue;
        }
        read.push(read_column(rows, column, steps))?;
    }
    Ok(read)
}
