// The directory of an image: where its columns will stand.
ghost use Rattle.std.specs.Prelude.{◌≡◌, ◌+◌, ◌<◌, ◌^◌, IfOk, OnOk};
ghost use Rattle.drain_copy.specs.Planned.{block_from, blocks_from, blocks_size, columns_size, places_from, planned_directory, table_from, tables_from, tables_size};

use region_layout::{
    BlockPlaces, BlockPlacesList, Directory, DrainTable, Place, Places, TablePlaces,
    TablePlacesList,
};
use row_blocks::{BlockColumn, RowBlock};
use std::alloc::{AllocError, Global};

/// The directory of an image whose columns follow the head, one after another, in the order of the tables.
pub fn directory_of(
    alloc: Global,
    tables: &[DrainTable],
    log_end: u64,
) -> Result<Directory, AllocError>
    requires { 16 + tables_size tables.now < 2 ^ 63 }
    ensures { IfOk result (λ d. d ≡ planned_directory tables.now log_end) }
{
    let mut at = 16;
    Ok(Directory {
        log_end,
        tables: TablePlacesList::of(tables_from(alloc, tables, &mut at)?),
    })
}

fn tables_from(
    alloc: Global,
    tables: &[DrainTable],
    at: &mut u64,
) -> Result<Vec<TablePlaces>, AllocError>
    requires { at.old + tables_size tables.now < 2 ^ 63 }
    ensures { IfOk result (λ made. made.items ≡ tables_from at.old tables.now) }
{
    let mut made = Vec::new(alloc);
    for table in tables {
        made.push(table_from(alloc, table, at)?)?;
    }
    Ok(made)
}

fn table_from(alloc: Global, table: &DrainTable, at: &mut u64) -> Result<TablePlaces, AllocError>
    requires { at.old + blocks_size table.now.parts.blocks < 2 ^ 63 }
    ensures made { IfOk result (λ made. made ≡ table_from at.old table.now) }
    ensures at { OnOk result (at.new ≡ at.old + blocks_size table.now.parts.blocks) }
{
    Ok(TablePlaces {
        name: table.name.copy()?,
        horizon: table.parts.horizon,
        writes: table.parts.writes,
        skip: table.parts.skip,
        blocks: BlockPlacesList::of(blocks_from(alloc, table.parts.blocks.as_slice(), at)?),
    })
}

fn blocks_from(
    alloc: Global,
    blocks: &[RowBlock],
    at: &mut u64,
) -> Result<Vec<BlockPlaces>, AllocError>
    requires { at.old + blocks_size blocks.now < 2 ^ 63 }
    ensures made { IfOk result (λ made. made.items ≡ blocks_from at.old blocks.now) }
    ensures at { OnOk result (at.new ≡ at.old + blocks_size blocks.now) }
{
    let mut made = Vec::new(alloc);
    for block in blocks {
        made.push(block_from(alloc, block, at)?)?;
    }
    Ok(made)
}

fn block_from(alloc: Global, block: &RowBlock, at: &mut u64) -> Result<BlockPlaces, AllocError>
    requires { at.old + columns_size block.now.columns < 2 ^ 63 }
    ensures made { IfOk result (λ made. made ≡ block_from at.old block.now) }
    ensures at { OnOk result (at.new ≡ at.old + columns_size block.now.columns) }
{
    Ok(BlockPlaces {
        rows: block.rows(),
        columns: Places::of(places_from(alloc, block.columns(), at)?),
    })
}

fn places_from(
    alloc: Global,
    columns: &[BlockColumn],
    at: &mut u64,
) -> Result<Vec<Place>, AllocError>
    requires { at.old + columns_size columns.now < 2 ^ 63 }
    ensures made { IfOk result (λ made. made.items ≡ places_from at.old columns.now) }
    ensures at { OnOk result (at.new ≡ at.old + columns_size columns.now) }
{
    let mut made = Vec::new(alloc);
    for column in columns {
        let length = column.bytes.as_slice().len() as u64;
        made.push(Place {
            name: column.name.copy()?,
            place: *at,
            length,
        })?;
        *at += length;
    }
    Ok(made)
}
