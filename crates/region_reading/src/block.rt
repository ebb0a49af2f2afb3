// Blocks out of a region.
ghost use Rattle.std.specs.Prelude.{◌≡◌, None, IfOk, IfSome, IsTrue, Err, map};
ghost use Rattle.berth_face.specs.Causes.{Rose};
ghost use Rattle.row_blocks.specs.Blocks.{IsBlock};
ghost use Rattle.region_layout.specs.Region.{block_in, column_in};
ghost use Rattle.region_reading.specs.declared.fault.AdoptFault.TheVariants as fault;
ghost use Rattle.region_reading.specs.Reading.{Untouched};

use crate::fault::AdoptFault;
use crate::lists::put;
use crate::region::read_piece;
use berth_face::Berth;
use region_layout::{BlockPlaces, Place};
use row_blocks::{BlockColumn, BlockColumns, BlockFault, ColumnBytes, RowBlock};
use std::alloc::Global;
use std::collections::VecDeque;

/// Reads the column whose bytes stand at this place.
fn read_column<B: Berth>(
    alloc: Global,
    place: Place,
    berth: &mut B,
) -> Result<BlockColumn, AdoptFault>
    ensures told { IsTrue (B.meaning berth.old).tells
        → IfOk result (λ column. column ≡ column_in (B.meaning berth.old).held.region place) }
    ensures untouched { Untouched (B.meaning berth.old) (B.meaning berth.new) }
    ensures cause { result ≡ Err fault.RegionFault
        → Rose (B.meaning berth.old).region_faults (B.meaning berth.new).region_faults }
{
    let bytes = read_piece(alloc, place.place, place.length, berth)?;
    Ok(BlockColumn {
        name: place.name,
        bytes: ColumnBytes::of(bytes),
    })
}

/// Reads the columns whose bytes stand at these places.
fn read_columns<B: Berth>(
    alloc: Global,
    places: Vec<Place>,
    berth: &mut B,
) -> Result<Vec<BlockColumn>, AdoptFault>
    ensures told { IsTrue (B.meaning berth.old).tells
        → IfOk result (λ columns. columns.items ≡ map (column_in (B.meaning berth.old).held.region) places.items) }
    ensures untouched { Untouched (B.meaning berth.old) (B.meaning berth.new) }
    ensures cause { result ≡ Err fault.RegionFault
        → Rose (B.meaning berth.old).region_faults (B.meaning berth.new).region_faults }
{
    let mut rest = VecDeque::from_vec(places);
    let mut columns = Vec::new(alloc);
    while let Some(place) = rest.pop_front() {
        put(read_column(alloc, place, berth)?, &mut columns)?;
    }
    Ok(columns)
}

/// Reads the block whose columns stand at these places. None if and only if they break a rule of blocks.
pub fn read_block<B: Berth>(
    alloc: Global,
    places: BlockPlaces,
    berth: &mut B,
) -> Result<Option<RowBlock>, AdoptFault>
    ensures some { IsTrue (B.meaning berth.old).tells
        → IfOk result (λ found. IfSome found (λ block. block ≡ block_in (B.meaning berth.old).held.region places)) }
    ensures block { IfOk result (λ found. IfSome found IsBlock) }
    ensures rows { IfOk result (λ found. IfSome found (λ block. block.rows ≡ places.rows)) }
    ensures none { IsTrue (B.meaning berth.old).tells
        → IfOk result (λ found. found ≡ None → IsBlock (block_in (B.meaning berth.old).held.region places) → ⊥) }
    ensures untouched { Untouched (B.meaning berth.old) (B.meaning berth.new) }
    ensures cause { result ≡ Err fault.RegionFault
        → Rose (B.meaning berth.old).region_faults (B.meaning berth.new).region_faults }
{
    let BlockPlaces { rows, columns } = places;
    let columns = read_columns(alloc, columns.into_inner(), berth)?;
    match RowBlock::from_columns(alloc, rows, BlockColumns::of(columns)) {
        Ok(block) => Ok(Some(block)),
        Err(BlockFault::NoRows) => Ok(None),
        Err(BlockFault::NoMemory) => Err(AdoptFault::NoMemory),
    }
}
