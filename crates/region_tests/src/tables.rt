// Tables that the tests share, how they are handed over, and the line that tells one.
ghost use Rattle.std.specs.Prelude.{◌≡◌, ◌≤◌, ◌<◌, [], None, IfOk, OnOk, length};
ghost use Rattle.std.specs.List.{AllByRecursion};
ghost use Rattle.row_model.specs.Values.{IsRow};
ghost use Rattle.region_layout.specs.Names.{IsName};
ghost use Rattle.table_state.specs.Tables.{IsParts};

use leaf_model::{PackedRows, Rows, Text, Write};
use region_layout::DrainTable;
use row_blocks::RowBlock;
use row_records::read_rows;
use std::alloc::{AllocError, Global};
use table_state::TableState;

/// So many rows, from their bytes.
fn rows_of(alloc: Global, bytes: &[u8], count: u64) -> Result<Rows, AllocError>
    requires { count ≤ 100000 }
    ensures { IfOk result (λ rows. AllByRecursion IsRow rows) }
{
    match read_rows(alloc, bytes, count)? {
        Some((rows, _taken)) => Ok(Rows::of(rows)),
        None => Ok(Rows::of(PackedRows::new(alloc))),
    }
}

/// A table of one write, which added so many rows; they are sealed.
pub fn added(alloc: Global, bytes: &[u8], count: u64) -> Result<TableState, AllocError>
    requires { count ≤ 100000 }
    ensures pending { IfOk result (λ table. table.pending ≡ None) }
    ensures tail { IfOk result (λ table. table.store.tail ≡ []) }
    ensures writes { IfOk result (λ table. table.writes ≤ 1) }
{
    let rows = rows_of(alloc, bytes, count)?;
    let mut table = TableState::new(alloc);
    let _added = table.replay(Write::Add(rows)).is_ok();
    table.seal_tail()?;
    Ok(table)
}

/// Leaves the last rows of a table.
pub fn cut(table: &mut TableState, keep: u64) -> Result<(), AllocError>
    requires { table.old.writes < 1000 }
    ensures pending { table.new.pending ≡ table.old.pending }
    ensures tail { OnOk result (table.new.store.tail ≡ []) }
{
    let _kept = table.replay(Write::Keep(keep)).is_ok();
    table.seal_tail()
}

/// A table as it is handed over, with its name.
pub fn handed_over(alloc: Global, name: &str, table: TableState) -> Result<DrainTable, AllocError>
    requires short { length name.now ≤ 255 }
    requires pending { table.pending ≡ None }
    requires tail { table.store.tail ≡ [] }
    ensures same { IfOk result (λ made. made.name ≡ name.now) }
    ensures name { IfOk result (λ made. IsName made.name) }
    ensures parts { IfOk result (λ made. IsParts made.parts) }
{
    let name = Text::of(String::from_str(alloc, name)?);
    let parts = table.into_parts();
    Ok(DrainTable { name, parts })
}

/// A column as text: its name and its bytes.
pub fn told_column(alloc: Global, name: &str, bytes: &[u8]) -> Result<String, AllocError> {
    let mut told = format!(in alloc; "; {name}")?;
    for byte in bytes {
        told.push_str(format!(in alloc; " {byte}")?.as_str())?;
    }
    Ok(told)
}

/// A block's columns as text.
fn told_block(alloc: Global, block: &RowBlock) -> Result<String, AllocError> {
    let mut told = String::new(alloc);
    for column in block.columns() {
        let name = column.name.as_str();
        told.push_str(told_column(alloc, name, column.bytes.as_slice())?.as_str())?;
    }
    Ok(told)
}

/// A table as text: its name, its horizon, its numbers of writes, of rows that are cut off its first block and of rows
/// in its tail, and the columns of its blocks.
pub fn line_of(alloc: Global, name: &str, table: &TableState) -> Result<String, AllocError> {
    let horizon = table.horizon();
    let writes = table.writes();
    let skip = table.skip();
    let tail = table.tail();
    let mut line = format!(in alloc; "{name} {horizon} {writes} {skip} {tail}")?;
    for block in table.blocks().as_slice() {
        line.push_str(told_block(alloc, block)?.as_str())?;
    }
    line.push_str("\n")?;
    Ok(line)
}
