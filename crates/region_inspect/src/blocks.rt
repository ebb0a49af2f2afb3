// Looks at a table block by block.
ghost use Rattle.std.specs.Prelude.{◌≡◌, ◌<◌, ◌≤◌, ◌^◌, None, IfOk, IfSome, IsTrue, Err, length, map};
ghost use Rattle.std.specs.List.{AllByRecursion, list_all, sum};
ghost use Rattle.berth_face.specs.Causes.{Rose};
ghost use Rattle.column_bytes.specs.Column.{kind_in};
ghost use Rattle.row_blocks.specs.declared.column.BlockColumn.{BlockColumn};
ghost use Rattle.row_blocks.specs.Blocks.{rows_in, times_of};
ghost use Rattle.time_range.specs.Ranges.{IsRange};
ghost use Rattle.region_layout.specs.Region.{allows};
ghost use Rattle.region_layout.specs.declared.directory.Place.{Place};
ghost use Rattle.region_layout.specs.declared.directory.BlockPlaces.{BlockPlaces};
ghost use Rattle.region_reading.specs.declared.fault.AdoptFault.TheVariants as fault;
ghost use Rattle.region_reading.specs.Reading.{Untouched};
ghost use Rattle.table_state.specs.Tables.{most_rows};
ghost use Rattle.region_inspect.specs.Inspecting.{AllBlocksTold, AreNone, CutsInside, IsSmall};

use crate::lists::put;
use crate::seen::{BlockLine, BlockLines};
use berth_face::Berth;
use column_bytes::Kind;
use region_layout::{BlockPlaces, Place, allows};
use region_reading::{AdoptFault, read_block};
use row_blocks::{BlockColumn, RowBlock};
use std::alloc::Global;
use std::collections::VecDeque;
use table_state::MOST_ROWS;

/// The number of columns of a block, and of their bytes.
#[derive(Clone, Copy)]
struct Size {
    columns: u32,
    bytes: u64,
}

/// The lines of a table's blocks, and its number of rows.
#[derive(Drop)]
pub struct CountedBlocks {
    pub rows: u64,
    pub blocks: BlockLines,
}

fn bytes_of(columns: &[Place]) -> u64
    requires { sum (map (λ (p : Place). p.length) columns.now) < 2 ^ 64 }
    ensures { result ≡ sum (map (λ (p : Place). p.length) columns.now) }
{
    columns.iter().map(|place| place.length).sum()
}

fn size_of(places: &BlockPlaces) -> Size
    requires { IsSmall places.now }
    ensures columns { result.columns ≡ length places.now.columns }
    ensures bytes { result.bytes ≡ sum (map (λ (p : Place). p.length) places.now.columns) }
{
    let columns = places.columns.as_slice();
    Size {
        columns: columns.len() as u32,
        bytes: bytes_of(columns),
    }
}

fn line_of(block: &RowBlock, size: Size) -> BlockLine
    ensures rows { result.rows ≡ block.now.rows }
    ensures times { IsRange (times_of (rows_in block.now)) result.from result.to }
    ensures columns { result.columns ≡ size.columns }
    ensures bytes { result.bytes ≡ size.bytes }
{
    let (from, to) = block.range();
    BlockLine {
        rows: block.rows(),
        from,
        to,
        columns: size.columns,
        bytes: size.bytes,
    }
}

/// The kind that the first byte of a column names.
fn kind_in(bytes: &[u8]) -> Kind
    ensures { result ≡ kind_in bytes.now }
{
    match bytes.first() {
        Some(1) => Kind::Ints,
        Some(2) => Kind::Texts,
        _ => Kind::Sets,
    }
}

/// Whether the columns are of kinds that an image of the version may have.
fn are_allowed(version: u32, columns: &[BlockColumn]) -> bool
    ensures { result ≡ list_all (λ (c : BlockColumn). allows version (kind_in c.bytes)) columns.now }
{
    columns
        .iter()
        .all(|column| allows(version, kind_in(column.bytes.as_slice())))
}

/// Looks at the blocks at these places, and holds one at a time. None if and only if one breaks a rule of blocks, one
/// has a column of a kind that the version does not allow, or more than 2^40 rows are live.
pub fn inspect_blocks<B: Berth>(
    alloc: Global,
    version: u32,
    blocks: Vec<BlockPlaces>,
    skip: u32,
    horizon: i64,
    berth: &mut B,
) -> Result<Option<CountedBlocks>, AdoptFault>
    requires small { AllByRecursion IsSmall blocks.items }
    requires inside { CutsInside skip blocks.items }
    ensures some { IsTrue (B.meaning berth.old).tells
        → IfOk result (λ found. IfSome found (λ c. AllBlocksTold version (B.meaning berth.old).held.region blocks.items
        skip horizon c.rows c.blocks)) }
    ensures few { IfOk result (λ found. IfSome found (λ c. c.rows ≤ most_rows)) }
    ensures none { IsTrue (B.meaning berth.old).tells
        → IfOk result (λ found. found ≡ None
        → AreNone version (B.meaning berth.old).held.region blocks.items skip horizon) }
    ensures untouched { Untouched (B.meaning berth.old) (B.meaning berth.new) }
    ensures cause { result ≡ Err fault.RegionFault
        → Rose (B.meaning berth.old).region_faults (B.meaning berth.new).region_faults }
{
    let mut rest = VecDeque::from_vec(blocks);
    let mut lines = Vec::new(alloc);
    let mut live = 0;
    let mut cut = skip;
    while let Some(places) = rest.pop_front() {
        let size = size_of(&places);
        let Some(block) = read_block(alloc, places, berth)? else {
            return Ok(None);
        };
        if !are_allowed(version, block.columns()) {
            return Ok(None);
        }
        live += u64::from(block.count_live(cut, horizon));
        if MOST_ROWS < live {
            return Ok(None);
        }
        cut = 0;
        put(line_of(&block, size), &mut lines)?;
    }
    Ok(Some(CountedBlocks {
        rows: live,
        blocks: BlockLines::of(lines),
    }))
}
