// Takes a column off the rows: in one walk, the first cell of each row, if it has the heading.
ghost use Rattle.std.specs.Prelude.{◌≡◌, ℕ, ◌<◌, ◌≤◌, List, [], length, is_some, map, option_map, slice_index_or, IfOk, IfSome, OnOk};
ghost use Rattle.leaf_model.specs.Lent.{each_cells, each_value, lent_cell, lent_cells, lent_value};
ghost use Rattle.column_bytes.specs.Cells.{Entries};
ghost use Rattle.column_bytes.specs.Column.{HasCells, kind_in};
ghost use Rattle.column_bytes.specs.Coding.{AreIntegers, AreOfKind, IsCoding};
ghost use Rattle.dictionaries.specs.Dictionary.{AreTexts};
ghost use Rattle.column_bytes.specs.declared.kind.Kind.TheVariants as kinds;
ghost use Rattle.row_blocks.specs.Headings.{heading_of, kind_of};
ghost use Rattle.row_blocks.specs.Merging.{AreCells, ArePassed, HasFront, IsEarliest, IsNext, IsNotBefore, earlier, front, front_value, fronts, rest_after};

use crate::column::{BlockColumn, ColumnBytes};
use crate::headings::compare_cells;
use column_bytes::{
    Column, Kind, TextSet, code_or, encode_codes, encode_numbers, encode_refs, integer_or,
};
use leaf_model::{LentCell, LentCells, LentValue, Text};
use std::alloc::{AllocError, Global};
use std::cmp::Ordering;

/// The value of a row's first cell if it has the heading of `like`, and the cells that are then left. None if the first
/// cell has an earlier heading.
fn split_under<'a>(
    like: &LentCell,
    rest: &LentCells<'a>,
) -> Option<(Option<LentValue<'a>>, LentCells<'a>)>
    ensures value { IfSome result (λ parts.
        option_map lent_value parts.0 ≡ front_value (heading_of (lent_cell like.now)) (lent_cells rest.now)) }
    ensures rest { IfSome result (λ parts.
        lent_cells parts.1 ≡ rest_after (heading_of (lent_cell like.now)) (lent_cells rest.now)) }
    ensures first { IfSome result (λ _. IsNotBefore (heading_of (lent_cell like.now)) (lent_cells rest.now)) }
{
    let Some((first, others)) = rest.split_first() else {
        return Some((None, *rest));
    };
    match compare_cells(like, &first) {
        Ordering::Less => Some((None, *rest)),
        Ordering::Equal => Some((Some(first.value), others)),
        Ordering::Greater => None,
    }
}

/// A column of integers: one for each row, and which rows have one.
#[derive(Drop)]
struct Numbers {
    integers: Vec<i64>,
    present: Vec<bool>,
}

/// The integers under the heading of `like`. `nexts` gets the cells that are then left of each row. None if a row has a
/// cell with an earlier heading.
fn numbers_under<'a>(
    alloc: Global,
    like: &LentCell,
    from: i64,
    rests: &[LentCells<'a>],
    nexts: &mut Vec<LentCells<'a>>,
) -> Result<Option<Numbers>, AllocError>
    requires kind { AreOfKind kinds.Ints (fronts (heading_of (lent_cell like.now)) rests.now) }
    requires empty { nexts.old.items ≡ [] }
    ensures integers { IfOk result (λ found.
        IfSome found (λ made. AreIntegers (fronts (heading_of (lent_cell like.now)) rests.now) made.integers.items)) }
    ensures there { IfOk result (λ found.
        IfSome found (λ made. map is_some (fronts (heading_of (lent_cell like.now)) rests.now) ≡ made.present.items)) }
    ensures passed { IfOk result (λ found. IfSome found (λ _.
        ArePassed (heading_of (lent_cell like.now)) (each_cells rests.now) (each_cells nexts.new.items))) }
{
    let mut integers = Vec::with_capacity(alloc, rests.len())?;
    let mut present = Vec::with_capacity(alloc, rests.len())?;
    let mut last = from;
    for rest in rests {
        let Some((value, others)) = split_under(like, rest) else {
            return Ok(None);
        };
        last = integer_or(&value, last);
        integers.push(last)?;
        present.push(value.is_some())?;
        nexts.push(others)?;
    }
    Ok(Some(Numbers { integers, present }))
}

/// A column of text codes: one for each row, and which rows have one.
#[derive(Drop)]
struct TextCodes {
    codes: Vec<u64>,
    present: Vec<bool>,
}

/// The codes of the texts under the heading of `like`. `nexts` gets the cells that are then left of each row. None if a
/// row has a cell with an earlier heading.
fn codes_under<'a>(
    alloc: Global,
    like: &LentCell,
    rests: &[LentCells<'a>],
    nexts: &mut Vec<LentCells<'a>>,
    set: &mut TextSet<'a>,
) -> Result<Option<TextCodes>, AllocError>
    requires kind { AreOfKind kinds.Texts (fronts (heading_of (lent_cell like.now)) rests.now) }
    requires empty { nexts.old.items ≡ [] }
    requires none { set.old ≡ [] }
    ensures coding { IfOk result (λ found. IfSome found (λ made.
        IsCoding (fronts (heading_of (lent_cell like.now)) rests.now) made.codes.items (Entries set.new))) }
    ensures texts { IfOk result (λ found. AreTexts set.new) }
    ensures few { IfOk result (λ found. length set.new ≤ length rests.now) }
    ensures there { IfOk result (λ found.
        IfSome found (λ made. map is_some (fronts (heading_of (lent_cell like.now)) rests.now) ≡ made.present.items)) }
    ensures passed { IfOk result (λ found. IfSome found (λ _.
        ArePassed (heading_of (lent_cell like.now)) (each_cells rests.now) (each_cells nexts.new.items))) }
{
    let mut codes = Vec::with_capacity(alloc, rests.len())?;
    let mut present = Vec::with_capacity(alloc, rests.len())?;
    let mut last = 0;
    for rest in rests {
        let Some((value, others)) = split_under(like, rest) else {
            return Ok(None);
        };
        last = code_or(set, &value, last)?;
        codes.push(last)?;
        present.push(value.is_some())?;
        nexts.push(others)?;
    }
    Ok(Some(TextCodes { codes, present }))
}

/// The values under the heading of `like`. `nexts` gets the cells that are then left of each row. None if a row has a
/// cell with an earlier heading.
fn values_under<'a>(
    alloc: Global,
    like: &LentCell,
    rests: &[LentCells<'a>],
    nexts: &mut Vec<LentCells<'a>>,
) -> Result<Option<Vec<Option<LentValue<'a>>>>, AllocError>
    requires { nexts.old.items ≡ [] }
    ensures values { IfOk result (λ found.
        IfSome found (λ values. each_value values.items ≡ fronts (heading_of (lent_cell like.now)) rests.now)) }
    ensures passed { IfOk result (λ found. IfSome found (λ _.
        ArePassed (heading_of (lent_cell like.now)) (each_cells rests.now) (each_cells nexts.new.items))) }
{
    let mut values = Vec::with_capacity(alloc, rests.len())?;
    for rest in rests {
        let Some((value, others)) = split_under(like, rest) else {
            return Ok(None);
        };
        values.push(value)?;
        nexts.push(others)?;
    }
    Ok(Some(values))
}

/// The column of the integers under the heading of `like`. None if a row has a cell with an earlier heading.
fn integer_column<'a>(
    alloc: Global,
    like: &LentCell,
    from: i64,
    rests: &[LentCells<'a>],
    nexts: &mut Vec<LentCells<'a>>,
) -> Result<Option<Column>, AllocError>
    requires some { 0 < length rests.now }
    requires few { length rests.now ≤ 65536 }
    requires kind { AreOfKind kinds.Ints (fronts (heading_of (lent_cell like.now)) rests.now) }
    requires empty { nexts.old.items ≡ [] }
    ensures cells { IfOk result (λ found. IfSome found (λ column.
        HasCells column (length rests.now) (fronts (heading_of (lent_cell like.now)) rests.now))) }
    ensures kind { IfOk result (λ found. IfSome found (λ column. kind_in column ≡ kinds.Ints)) }
    ensures passed { IfOk result (λ found. IfSome found (λ _.
        ArePassed (heading_of (lent_cell like.now)) (each_cells rests.now) (each_cells nexts.new.items))) }
{
    let Some(made) = numbers_under(alloc, like, from, rests, nexts)? else {
        return Ok(None);
    };
    let column = encode_numbers(alloc, &made.integers, &made.present)?;
    Ok(Some(column))
}

/// The column of the texts under the heading of `like`. None if a row has a cell with an earlier heading.
fn text_column<'a>(
    alloc: Global,
    like: &LentCell,
    rests: &[LentCells<'a>],
    nexts: &mut Vec<LentCells<'a>>,
) -> Result<Option<Column>, AllocError>
    requires some { 0 < length rests.now }
    requires few { length rests.now ≤ 65536 }
    requires kind { AreOfKind kinds.Texts (fronts (heading_of (lent_cell like.now)) rests.now) }
    requires empty { nexts.old.items ≡ [] }
    ensures cells { IfOk result (λ found. IfSome found (λ column.
        HasCells column (length rests.now) (fronts (heading_of (lent_cell like.now)) rests.now))) }
    ensures kind { IfOk result (λ found. IfSome found (λ column. kind_in column ≡ kinds.Texts)) }
    ensures passed { IfOk result (λ found. IfSome found (λ _.
        ArePassed (heading_of (lent_cell like.now)) (each_cells rests.now) (each_cells nexts.new.items))) }
{
    let mut set = TextSet::new(alloc);
    let Some(made) = codes_under(alloc, like, rests, nexts, &mut set)? else {
        return Ok(None);
    };
    let column = encode_codes(alloc, &set, &made.codes, &made.present)?;
    Ok(Some(column))
}

/// The column of the sets under the heading of `like`. None if a row has a cell with an earlier heading.
fn set_column<'a>(
    alloc: Global,
    like: &LentCell,
    rests: &[LentCells<'a>],
    nexts: &mut Vec<LentCells<'a>>,
) -> Result<Option<Column>, AllocError>
    requires some { 0 < length rests.now }
    requires few { length rests.now ≤ 65536 }
    requires kind { AreOfKind kinds.Sets (fronts (heading_of (lent_cell like.now)) rests.now) }
    requires empty { nexts.old.items ≡ [] }
    ensures cells { IfOk result (λ found. IfSome found (λ column.
        HasCells column (length rests.now) (fronts (heading_of (lent_cell like.now)) rests.now))) }
    ensures kind { IfOk result (λ found. IfSome found (λ column. kind_in column ≡ kinds.Sets)) }
    ensures passed { IfOk result (λ found. IfSome found (λ _.
        ArePassed (heading_of (lent_cell like.now)) (each_cells rests.now) (each_cells nexts.new.items))) }
{
    let Some(values) = values_under(alloc, like, rests, nexts)? else {
        return Ok(None);
    };
    let column = encode_refs(alloc, Kind::Sets, &values)?;
    Ok(Some(column))
}

/// The column under the heading of `like`, by its kind. None if a row has a cell with an earlier heading.
fn column_under<'a>(
    alloc: Global,
    like: &LentCell<'a>,
    rests: &[LentCells<'a>],
    nexts: &mut Vec<LentCells<'a>>,
) -> Result<Option<Column>, AllocError>
    requires some { 0 < length rests.now }
    requires few { length rests.now ≤ 65536 }
    requires kind { AreOfKind (heading_of (lent_cell like.now)).kind
        (fronts (heading_of (lent_cell like.now)) rests.now) }
    requires empty { nexts.old.items ≡ [] }
    ensures cells { IfOk result (λ found. IfSome found (λ column.
        HasCells column (length rests.now) (fronts (heading_of (lent_cell like.now)) rests.now))) }
    ensures kind { IfOk result (λ found.
        IfSome found (λ column. kind_in column ≡ kind_of (lent_value like.now.value))) }
    ensures passed { IfOk result (λ found. IfSome found (λ _.
        ArePassed (heading_of (lent_cell like.now)) (each_cells rests.now) (each_cells nexts.new.items))) }
{
    match &like.value {
        LentValue::Int(first) => integer_column(alloc, like, *first, rests, nexts),
        LentValue::Text(_) => text_column(alloc, like, rests, nexts),
        LentValue::Set(_) => set_column(alloc, like, rests, nexts),
    }
}

/// A column with its name, which is copied.
fn with_name(alloc: Global, name: &str, column: Column) -> Result<BlockColumn, AllocError>
    ensures name { IfOk result (λ made. made.name ≡ name.now) }
    ensures bytes { IfOk result (λ made. made.bytes ≡ column) }
{
    Ok(BlockColumn {
        name: Text::of(String::from_str(alloc, name)?),
        bytes: ColumnBytes::of(column.into_bytes()),
    })
}

/// The column under the heading of `like`, with its name. `nexts` gets the cells that are then left of each row. None
/// if a row has a cell with an earlier heading.
fn take_column<'a>(
    alloc: Global,
    like: &LentCell<'a>,
    rests: &[LentCells<'a>],
    nexts: &mut Vec<LentCells<'a>>,
) -> Result<Option<BlockColumn>, AllocError>
    requires some { 0 < length rests.now }
    requires few { length rests.now ≤ 65536 }
    requires cells { (i : ℕ) → i < length (each_cells rests.now)
        → AreCells (slice_index_or (each_cells rests.now) i []) }
    requires front { HasFront (lent_cell like.now) (each_cells rests.now) }
    ensures { IfOk result (λ found. IfSome found (IsNext (each_cells rests.now) (each_cells nexts.new.items))) }
{
    nexts.clear();
    let Some(column) = column_under(alloc, like, rests, nexts)? else {
        return Ok(None);
    };
    Ok(Some(with_name(alloc, like.name, column)?))
}

/// The first cell of the first row that has a cell.
fn first_of<'a>(rests: &[LentCells<'a>]) -> Option<LentCell<'a>>
    ensures { IfSome result (λ like. HasFront (lent_cell like) (each_cells rests.now)) }
{
    for rest in rests {
        if let Some((first, _others)) = rest.split_first() {
            return Some(first);
        }
    }
    None
}

/// Replaces `earliest` by the first cell of a row, if that has an earlier heading.
fn look<'a>(earliest: &mut Option<LentCell<'a>>, rest: &LentCells<'a>)
    ensures { option_map lent_cell earliest.new
        ≡ earlier (option_map lent_cell earliest.old) (front (lent_cells rest.now)) }
{
    let Some((first, _others)) = rest.split_first() else {
        return;
    };
    match earliest {
        None => *earliest = Some(first),
        Some(cell) => {
            if compare_cells(cell, &first).is_gt() {
                *earliest = Some(first);
            }
        }
    }
}

/// A first cell with the earliest heading. None if no cells are left.
fn earliest_of<'a>(rests: &[LentCells<'a>]) -> Option<LentCell<'a>>
    ensures { IsEarliest (option_map lent_cell result) (each_cells rests.now) }
{
    let mut earliest = None;
    for rest in rests {
        look(&mut earliest, rest);
    }
    earliest
}

/// The next column, if a first walk over all rows has to find the earliest heading.
fn search_column<'a>(
    alloc: Global,
    rests: &[LentCells<'a>],
    nexts: &mut Vec<LentCells<'a>>,
) -> Result<Option<BlockColumn>, AllocError>
    requires some { 0 < length rests.now }
    requires few { length rests.now ≤ 65536 }
    requires cells { (i : ℕ) → i < length (each_cells rests.now)
        → AreCells (slice_index_or (each_cells rests.now) i []) }
    ensures { IfOk result (λ found. IfSome found (IsNext (each_cells rests.now) (each_cells nexts.new.items))) }
{
    let Some(like) = earliest_of(rests) else {
        return Ok(None);
    };
    take_column(alloc, &like, rests, nexts)
}

/// The next column. `nexts` gets the cells that are then left of each row. None if no cell was left. A walk begins with
/// the heading of the first cell that it meets, which is mostly the earliest, and ends at a row with an earlier one.
pub(crate) fn next_column<'a>(
    alloc: Global,
    rests: &[LentCells<'a>],
    nexts: &mut Vec<LentCells<'a>>,
) -> Result<Option<BlockColumn>, AllocError>
    requires some { 0 < length rests.now }
    requires few { length rests.now ≤ 65536 }
    requires cells { (i : ℕ) → i < length (each_cells rests.now)
        → AreCells (slice_index_or (each_cells rests.now) i []) }
    ensures { IfOk result (λ found. IfSome found (IsNext (each_cells rests.now) (each_cells nexts.new.items))) }
{
    let Some(like) = first_of(rests) else {
        return Ok(None);
    };
    match take_column(alloc, &like, rests, nexts)? {
        Some(column) => Ok(Some(column)),
        None => search_column(alloc, rests, nexts),
    }
}
