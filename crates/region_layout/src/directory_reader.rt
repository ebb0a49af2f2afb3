// Reads a directory from the left. Each reader of a field gives its value and the bytes after it.
ghost use Rattle.std.specs.Prelude.{◌≡◌, ◌*◌, ◌<◌, length, Err};
ghost use Rattle.std.specs.Int.{w32};
ghost use Rattle.row_records.specs.declared.fault.ReadError.TheVariants.{Broken};
ghost use Rattle.leaf_model.specs.Reading.{many_at, number_at};
ghost use Rattle.row_records.specs.Reading.{ReadsAs};
ghost use Rattle.region_layout.specs.Reading.{below_2_63_at};
ghost use Rattle.region_layout.specs.Directory.{place_at, block_at, table_at, directory_at};

use crate::directory::{
    BlockPlaces, BlockPlacesList, Directory, Place, Places, TablePlaces, TablePlacesList,
};
use row_records::{ReadError, name_of, time_of, u8_at, u64_at};
use std::alloc::Global;

/// The least number of bytes that a column takes.
const PLACE_BYTES: usize = 17;

/// The least number of bytes that a block takes, with its one column.
const BLOCK_BYTES: usize = 25;

fn u32_at(bytes: &[u8]) -> Result<(u32, &[u8]), ReadError>
    ensures { ReadsAs (λ x. (x.0, x.1.now)) result (number_at w32 bytes.now) }
{
    match bytes.split_first_chunk::<4>() {
        Some((front, rest)) => Ok((u32::from_le_bytes(*front), rest)),
        None => Err(ReadError::Broken),
    }
}

/// A number below 2^63.
#[tactic(auto, unfolding(crate::specs::Reading::below_2_63_at))]
fn below_2_63_of(bytes: &[u8]) -> Result<(u64, &[u8]), ReadError>
    ensures { ReadsAs (λ x. (x.0, x.1.now)) result (below_2_63_at bytes.now) }
{
    let (number, rest) = u64_at(bytes)?;
    if number >= 1 << 63 {
        return Err(ReadError::Broken);
    }
    Ok((number, rest))
}

#[tactic(auto, unfolding(crate::specs::Directory::place_at))]
fn place_of(alloc: Global, bytes: &[u8]) -> Result<(Place, &[u8]), ReadError>
    ensures { ReadsAs (λ x. (x.0, x.1.now)) result (place_at bytes.now) }
{
    let (name, rest) = name_of(alloc, bytes)?;
    let (place, rest) = u64_at(rest)?;
    let (length, rest) = u64_at(rest)?;
    Ok((
        Place {
            name,
            place,
            length,
        },
        rest,
    ))
}

fn places_of(alloc: Global, count: u32, bytes: &[u8]) -> Result<(Vec<Place>, &[u8]), ReadError>
    ensures { ReadsAs (λ x. (x.0.items, x.1.now)) result (many_at place_at count bytes.now) }
{
    let mut places = Vec::new(alloc);
    let mut rest = bytes;
    for _ in 0..count {
        let (place, after) = place_of(alloc, rest)?;
        places.push(place)?;
        rest = after;
    }
    Ok((places, rest))
}

/// Reads `count` columns. A count that is too great for the bytes takes no memory.
fn places_in_front(
    alloc: Global,
    count: u32,
    bytes: &[u8],
) -> Result<(Vec<Place>, &[u8]), ReadError>
    ensures given { ReadsAs (λ x. (x.0.items, x.1.now)) result (many_at place_at count bytes.now) }
    ensures far { length bytes.now < 17 * count → result ≡ Err Broken }
{
    if count as usize > bytes.len() / PLACE_BYTES {
        return Err(ReadError::Broken);
    }
    places_of(alloc, count, bytes)
}

#[tactic(auto, unfolding(crate::specs::Directory::block_at))]
fn block_of(alloc: Global, bytes: &[u8]) -> Result<(BlockPlaces, &[u8]), ReadError>
    ensures { ReadsAs (λ x. (x.0, x.1.now)) result (block_at bytes.now) }
{
    let (rows, rest) = u32_at(bytes)?;
    let (count, rest) = u32_at(rest)?;
    if rows == 0 || rows > 65536 || count == 0 {
        return Err(ReadError::Broken);
    }
    let (columns, rest) = places_in_front(alloc, count, rest)?;
    let columns = Places::of(columns);
    Ok((BlockPlaces { rows, columns }, rest))
}

fn blocks_of(
    alloc: Global,
    count: u32,
    bytes: &[u8],
) -> Result<(Vec<BlockPlaces>, &[u8]), ReadError>
    ensures { ReadsAs (λ x. (x.0.items, x.1.now)) result (many_at block_at count bytes.now) }
{
    let mut blocks = Vec::new(alloc);
    let mut rest = bytes;
    for _ in 0..count {
        let (block, after) = block_of(alloc, rest)?;
        blocks.push(block)?;
        rest = after;
    }
    Ok((blocks, rest))
}

/// Reads `count` blocks. A count that is too great for the bytes takes no memory.
fn blocks_in_front(
    alloc: Global,
    count: u32,
    bytes: &[u8],
) -> Result<(Vec<BlockPlaces>, &[u8]), ReadError>
    ensures given { ReadsAs (λ x. (x.0.items, x.1.now)) result (many_at block_at count bytes.now) }
    ensures far { length bytes.now < 25 * count → result ≡ Err Broken }
{
    if count as usize > bytes.len() / BLOCK_BYTES {
        return Err(ReadError::Broken);
    }
    blocks_of(alloc, count, bytes)
}

#[tactic(auto, unfolding(crate::specs::Directory::table_at))]
fn table_of(alloc: Global, bytes: &[u8]) -> Result<(TablePlaces, &[u8]), ReadError>
    ensures { ReadsAs (λ x. (x.0, x.1.now)) result (table_at bytes.now) }
{
    let (name, rest) = name_of(alloc, bytes)?;
    let (horizon, rest) = time_of(rest)?;
    let (writes, rest) = below_2_63_of(rest)?;
    let (skip, rest) = u32_at(rest)?;
    let (count, rest) = u32_at(rest)?;
    let (blocks, rest) = blocks_in_front(alloc, count, rest)?;
    let blocks = BlockPlacesList::of(blocks);
    Ok((
        TablePlaces {
            name,
            horizon,
            writes,
            skip,
            blocks,
        },
        rest,
    ))
}

fn tables_of(alloc: Global, count: u8, bytes: &[u8]) -> Result<(Vec<TablePlaces>, &[u8]), ReadError>
    ensures { ReadsAs (λ x. (x.0.items, x.1.now)) result (many_at table_at count bytes.now) }
{
    let mut tables = Vec::new(alloc);
    let mut rest = bytes;
    for _ in 0..count {
        let (table, after) = table_of(alloc, rest)?;
        tables.push(table)?;
        rest = after;
    }
    Ok((tables, rest))
}

/// The directory that all of the bytes are.
#[tactic(auto, unfolding(crate::specs::Directory::directory_at))]
pub(crate) fn directory_of(alloc: Global, bytes: &[u8]) -> Result<Directory, ReadError>
    ensures { ReadsAs (λ x. x) result (directory_at bytes.now) }
{
    let (log_end, rest) = below_2_63_of(bytes)?;
    let (count, rest) = u8_at(rest)?;
    if count > 16 {
        return Err(ReadError::Broken);
    }
    let (tables, rest) = tables_of(alloc, count, rest)?;
    if !rest.is_empty() {
        return Err(ReadError::Broken);
    }
    let tables = TablePlacesList::of(tables);
    Ok(Directory { log_end, tables })
}
