// Where the columns of a directory stand.
ghost use Rattle.std.specs.Prelude.{◌≡◌, ◌++◌, map, IfOk, OnOk};
ghost use Rattle.std.specs.List.{flat_map};
ghost use Rattle.adopt.specs.Taken.{block_spans, span_of, spans_of, table_spans};

use region_layout::{BlockPlaces, Directory, Place, TablePlaces};
use std::alloc::{AllocError, Global};

/// A column of the region: the place where its bytes begin, their number, and the number of rows of its block.
#[derive(Clone, Copy, Debug, PartialEq, Eq)]
pub struct Span {
    pub place: u64,
    pub length: u64,
    pub rows: u32,
}

/// The columns of the directory, in their order.
pub fn spans_of(alloc: Global, directory: &Directory) -> Result<Vec<Span>, AllocError>
    ensures { IfOk result (λ spans. spans.items ≡ spans_of directory.now) }
{
    let mut spans = Vec::new(alloc);
    push_tables(directory.tables.as_slice(), &mut spans)?;
    Ok(spans)
}

fn push_tables(tables: &[TablePlaces], spans: &mut Vec<Span>) -> Result<(), AllocError>
    ensures { OnOk result (spans.new.items ≡ spans.old.items ++ flat_map table_spans tables.now) }
{
    for table in tables {
        push_blocks(table.blocks.as_slice(), spans)?;
    }
    Ok(())
}

fn push_blocks(blocks: &[BlockPlaces], spans: &mut Vec<Span>) -> Result<(), AllocError>
    ensures { OnOk result (spans.new.items ≡ spans.old.items ++ flat_map block_spans blocks.now) }
{
    for block in blocks {
        push_columns(block.rows, block.columns.as_slice(), spans)?;
    }
    Ok(())
}

fn push_columns(rows: u32, columns: &[Place], spans: &mut Vec<Span>) -> Result<(), AllocError>
    ensures { OnOk result (spans.new.items ≡ spans.old.items ++ map (span_of rows) columns.now) }
{
    for column in columns {
        spans.push(span_of(rows, column))?;
    }
    Ok(())
}

fn span_of(rows: u32, column: &Place) -> Span
    ensures { result ≡ span_of rows column.now }
{
    Span {
        place: column.place,
        length: column.length,
        rows,
    }
}
