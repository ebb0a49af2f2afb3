// The size of an image, computed before it is made.
ghost use Rattle.std.specs.Prelude.{◌≡◌, ◌+◌, ◌<◌, ◌≤◌, ◌^◌, ℕ, nat_le, length, IfSome, IfNone, IsTrue};
ghost use Rattle.std.specs.List.{AllByRecursion, list_any};
ghost use Rattle.row_blocks.specs.Columns.{MeanCells};
ghost use Rattle.row_blocks.specs.Held.{columns_count};
ghost use Rattle.table_state.specs.Tables.{IsParts};
ghost use Rattle.region_layout.specs.Names.{IsName};
ghost use Rattle.region_layout.specs.declared.drained.DrainTable.{DrainTable};
ghost use Rattle.region_layout.specs.Drained.{column_entry, has_no_room, is_wide};
ghost use Rattle.drain_copy.specs.Planned.{AreShort, Grew, HasRoom, HasShort, IsShortColumn, NeedRoom, blocks_entries, blocks_size, columns_entries, columns_size, tables_count, tables_entries, tables_size};

use region_layout::DrainTable;
use row_blocks::{BlockColumn, RowBlock};

const TOO_MANY: u64 = 1 << 32;

const TOO_LONG: u64 = 1 << 63;

/// The number of columns, their total length in bytes, and the length of the directory. A number saturates at the
/// greatest u64.
#[derive(Clone, Copy)]
pub struct Sizes {
    pub columns: u64,
    pub bytes: u64,
    pub entries: u64,
}

/// The sizes of the image of the tables. None if no image can be made of them.
#[tactic(auto, using(crate::proofs::Reckoned::wide_has_none, crate::proofs::Reckoned::has_room, crate::proofs::Reckoned::lacks_room, crate::proofs::Large::wide_needs))]
pub fn room(tables: &[DrainTable]) -> Option<Sizes>
    requires few { length tables.now ≤ 16 }
    requires names { AllByRecursion (λ (t : DrainTable). IsName t.name) tables.now }
    requires parts { AllByRecursion (λ (t : DrainTable). IsParts t.parts) tables.now }
    ensures none { IfNone result (IsTrue (has_no_room tables.now)) }
    ensures large { IfNone result (NeedRoom tables.now) }
    ensures some { IfSome result (λ sizes. HasRoom tables.now sizes) }
{
    if any_is_wide(tables) {
        return None;
    }
    let none = Sizes {
        columns: 0,
        bytes: 0,
        entries: 9,
    };
    let sizes = with_tables(none, tables);
    let length = sizes.bytes.saturating_add(sizes.entries).saturating_add(16);
    if length < TOO_LONG { Some(sizes) } else { None }
}

fn any_is_wide(tables: &[DrainTable]) -> bool
    ensures { result ≡ list_any is_wide tables.now }
{
    tables.iter().any(|table| is_wide(table))
}

/// Whether a number of the table does not fit its field in a directory.
fn is_wide(table: &DrainTable) -> bool
    ensures { result ≡ is_wide table.now }
{
    let blocks = table.parts.blocks.as_slice();
    blocks.len() as u64 >= TOO_MANY || table.parts.writes >= TOO_LONG || any_has_many(blocks)
}

fn any_has_many(blocks: &[RowBlock]) -> bool
    ensures { result ≡ list_any (λ b. nat_le (2 ^ 32) (length b.columns)) blocks.now }
{
    blocks.iter().any(|block| has_many(block))
}

fn has_many(block: &RowBlock) -> bool
    ensures { result ≡ nat_le (2 ^ 32) (length block.now.columns) }
{
    block.columns().len() as u64 >= TOO_MANY
}

fn with_tables(start: Sizes, tables: &[DrainTable]) -> Sizes
    ensures grew { Grew start result (tables_count tables.now) (tables_size tables.now) (tables_entries tables.now) }
    ensures short { AllByRecursion HasShort tables.now }
{
    let mut sizes = start;
    for table in tables {
        sizes = with_table(sizes, table);
    }
    sizes
}

fn with_table(start: Sizes, table: &DrainTable) -> Sizes
    ensures grew { Grew start result (columns_count table.now.parts.blocks)
        (blocks_size table.now.parts.blocks) (25 + length table.now.name + blocks_entries table.now.parts.blocks) }
    ensures short { HasShort table.now }
{
    let name = table.name.as_str().len() as u64;
    let begun = Sizes {
        entries: start.entries.saturating_add(25).saturating_add(name),
        ..start
    };
    with_blocks(begun, table.parts.blocks.as_slice())
}

fn with_blocks(start: Sizes, blocks: &[RowBlock]) -> Sizes
    ensures grew { Grew start result (columns_count blocks.now) (blocks_size blocks.now) (blocks_entries blocks.now) }
    ensures short { AllByRecursion AreShort blocks.now }
{
    let mut sizes = start;
    for block in blocks {
        sizes = with_block(sizes, block);
    }
    sizes
}

fn with_block(start: Sizes, block: &RowBlock) -> Sizes
    ensures grew { Grew start result (length block.now.columns)
        (columns_size block.now.columns) (8 + columns_entries block.now.columns) }
    ensures short { AreShort block.now }
{
    let begun = Sizes {
        entries: start.entries.saturating_add(8),
        ..start
    };
    with_columns(begun, block.columns())
}

fn with_columns(start: Sizes, columns: &[BlockColumn]) -> Sizes
    ensures grew { Grew start result (length columns.now) (columns_size columns.now) (columns_entries columns.now) }
    ensures short { AllByRecursion IsShortColumn columns.now }
{
    let mut sizes = start;
    for column in columns {
        sizes = with_column(sizes, column);
    }
    sizes
}

fn with_column(start: Sizes, column: &BlockColumn) -> Sizes
    ensures grew { Grew start result 1 (length column.now.bytes) (column_entry column.now) }
    ensures short { IsShortColumn column.now }
{
    let name = column.name.as_str().len() as u64;
    Sizes {
        columns: start.columns.saturating_add(1),
        bytes: start
            .bytes
            .saturating_add(column_len(column.bytes.as_slice())),
        entries: start.entries.saturating_add(17).saturating_add(name),
    }
}

// The length of a column. A slice holds bytes, so the numbers in it are bounded, and so is a column that they count the
// parts of.
#[tactic(auto, using(crate::proofs::Large::column_short))]
fn column_len(bytes: &[u8]) -> u64
    ensures length { result ≡ length bytes.now }
    ensures short { (n : ℕ) → MeanCells bytes.now n → length bytes.now < 2 ^ 37 }
{
    bytes.len() as u64
}
