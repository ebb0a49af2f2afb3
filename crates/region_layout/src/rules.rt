// The rules that a directory keeps by itself.
ghost use Rattle.std.specs.Prelude.{◌≡◌, []};
ghost use Rattle.std.specs.List.{list_all, list_any};
ghost use Rattle.std.specs.Ordering.{is_gt};
ghost use Rattle.row_model.specs.Texts.{text_cmp};
ghost use Rattle.row_model.specs.Names.{are_distinct};
ghost use Rattle.region_layout.specs.Tests.{has_cell_name, do_not_fall, are_columns, has_columns, places_are_named, table_names, is_skip_of, is_table_places, end_by, end_of_place, end_of_block, end_of_table, is_directory};

use crate::directory::{BlockPlaces, Directory, Place, TablePlaces};
use leaf_model::MAX_NAME;

/// The place in a region where its columns begin.
const FIRST_PLACE: u64 = 16;

fn has_cell_name(place: &Place) -> bool
    ensures { result ≡ has_cell_name place.now }
{
    let name = place.name.as_str();
    !name.is_empty() && name.len() <= MAX_NAME && name != "time"
}

fn have_cell_names(places: &[Place]) -> bool
    ensures { result ≡ list_all has_cell_name places.now }
{
    places.iter().all(|place| has_cell_name(place))
}

fn is_above(last: &[u8], name: &str) -> bool
    ensures { result ≡ is_gt (text_cmp last.now name.now) }
{
    last.cmp(name.as_bytes()).is_gt()
}

fn do_not_fall(places: &[Place]) -> bool
    ensures { result ≡ do_not_fall [] places.now }
{
    let mut last: &[u8] = &[];
    for place in places {
        let name = place.name.as_str();
        if is_above(last, name) {
            return false;
        }
        last = name.as_bytes();
    }
    true
}

/// Whether the column of times stands first, and the columns of cells follow in their order.
fn are_columns(columns: &[Place]) -> bool
    ensures { result ≡ are_columns columns.now }
{
    match columns {
        [] => false,
        [times, others @ ..] => {
            times.name.as_str() == "time" && have_cell_names(others) && do_not_fall(others)
        }
    }
}

fn have_columns(blocks: &[BlockPlaces]) -> bool
    ensures { result ≡ list_all has_columns blocks.now }
{
    blocks
        .iter()
        .all(|block| are_columns(block.columns.as_slice()))
}

/// Whether fewer rows are cut off than the first block has, or none if there is no block.
fn is_skip_of(skip: u32, blocks: &[BlockPlaces]) -> bool
    ensures { result ≡ is_skip_of skip blocks.now }
{
    match blocks {
        [] => skip == 0,
        [first, ..] => skip < first.rows,
    }
}

fn is_table_places(table: &TablePlaces) -> bool
    ensures { result ≡ is_table_places table.now }
{
    let blocks = table.blocks.as_slice();
    is_skip_of(table.skip, blocks) && have_columns(blocks)
}

fn are_tables(tables: &[TablePlaces]) -> bool
    ensures { result ≡ list_all is_table_places tables.now }
{
    tables.iter().all(|table| is_table_places(table))
}

/// Whether a table has this name.
fn has_name(tables: &[TablePlaces], name: &str) -> bool
    ensures { result ≡ list_any (places_are_named name.now) tables.now }
{
    tables.iter().any(|table| table.name.as_str() == name)
}

/// Whether the names of the tables are distinct.
fn are_distinct(tables: &[TablePlaces]) -> bool
    ensures { result ≡ are_distinct (table_names tables.now) }
{
    match tables {
        [] => true,
        [first, rest @ ..] => !has_name(rest, first.name.as_str()) && are_distinct(rest),
    }
}

/// The place where a column ends that begins at `from`.
fn end_of_place(from: u64, place: &Place) -> Option<u64>
    ensures { result ≡ end_of_place from place.now }
{
    if place.place == from {
        from.checked_add(place.length)
    } else {
        None
    }
}

fn end_of_places(from: u64, places: &[Place]) -> Option<u64>
    ensures { result ≡ end_by end_of_place from places.now }
{
    let mut at = from;
    for place in places {
        at = end_of_place(at, place)?;
    }
    Some(at)
}

fn end_of_blocks(from: u64, blocks: &[BlockPlaces]) -> Option<u64>
    ensures { result ≡ end_by end_of_block from blocks.now }
{
    let mut at = from;
    for block in blocks {
        at = end_of_places(at, block.columns.as_slice())?;
    }
    Some(at)
}

fn end_of_tables(from: u64, tables: &[TablePlaces]) -> Option<u64>
    ensures { result ≡ end_by end_of_table from tables.now }
{
    let mut at = from;
    for table in tables {
        at = end_of_blocks(at, table.blocks.as_slice())?;
    }
    Some(at)
}

/// Whether the directory keeps its rules at this place: the columns fill the region from the head up to it, and names
/// and numbers are allowed.
pub(crate) fn is_directory(directory: &Directory, place: u64) -> bool
    ensures { result ≡ is_directory place directory.now }
{
    let tables = directory.tables.as_slice();
    if !are_distinct(tables) || !are_tables(tables) {
        return false;
    }
    match end_of_tables(FIRST_PLACE, tables) {
        Some(end) => end == place,
        None => false,
    }
}
