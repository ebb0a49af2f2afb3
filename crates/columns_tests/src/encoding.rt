// Cells that are written as a column and read back, one by one and in order, with ample memory.
ghost use Rattle.std.specs.Prelude.{◌≡◌, ◌<◌};

use crate::vectors::{
    FIVE, TEXTS, WRAPPED, are_same, integer_cells, is_same, text_cell, text_cells,
};
use column_bytes::{Column, ColumnView, Kind, NoColumn, ValueRef, are_of_kind, dictionary, encode};
use leaf_model::{Steps, Text, Value};
use std::alloc::{AllocError, Global};
use std::marker::Brand;
use std::sync::ledger::{Blank, Ledger};
use std::test::Fail;

// The column of the cells, where they may be one.
fn encoded(
    alloc: Global,
    kind: Kind,
    cells: &[Option<Value>],
) -> Result<Option<Column>, AllocError> {
    if cells.is_empty() || cells.len() > 65536 || !are_of_kind(kind, cells) {
        return Ok(None);
    }
    let column = encode(alloc, kind, cells)?;
    Ok(Some(column))
}

// The cell at a place, by what was read in order.
fn cell_in_order<'a>(
    view: &ColumnView<'a>,
    there: bool,
    code: u64,
    integer: i64,
) -> Option<ValueRef<'a>> {
    if !there {
        return None;
    }
    match view.kind() {
        Kind::Ints => Some(ValueRef::Int(integer)),
        Kind::Texts | Kind::Sets => {
            if code < u64::from(view.entries()) {
                Some(view.entry(code as u32))
            } else {
                None
            }
        }
    }
}

fn are_same_in_order(
    alloc: Global,
    view: &ColumnView,
    cells: &[Option<Value>],
) -> Result<bool, AllocError> {
    let count = view.len() as usize;
    let mut codes = vec![in alloc; 0u64; count]?;
    let mut present = vec![in alloc; false; count]?;
    let mut values = vec![in alloc; 0i64; count]?;
    match view.kind() {
        Kind::Ints => view.integers(&mut codes, &mut present, &mut values),
        Kind::Texts | Kind::Sets => view.codes(&mut codes, &mut present),
    }
    let mut same = cells.len() == count;
    for i in 0..count.min(cells.len()) {
        let seen = cell_in_order(view, present[i], codes[i], values[i]);
        same = same && is_same(seen, &cells[i]);
    }
    Ok(same)
}

// Whether the cells that are there are met one after another.
fn are_met(view: &ColumnView, cells: &[Option<Value>]) -> bool {
    let mut from = 0;
    let mut met = true;
    for i in 0..view.len() {
        if let Some(Some(_)) = cells.get(i as usize) {
            met = met && view.next_cell(from) == Some(i);
            from = i + 1;
        }
    }
    met && view.next_cell(from).is_none()
}

fn is_read_back_counted<L: Ledger>(
    alloc: Global,
    kind: Kind,
    cells: &[Option<Value>],
    bytes: &[u8],
    blank: Blank,
) -> Result<bool, AllocError>
    requires name { blank.name ≡ L.name }
    requires parts { blank.parts ≡ L.parts }
    requires some { 0 < blank.parts }
{
    let mut steps: Steps<L> = Steps::new(blank);
    match ColumnView::read(bytes, &mut steps) {
        Ok(view) => Ok(
            view.kind() == kind
                && view.len() as usize == cells.len()
                && are_same(&view, cells)
                && are_met(&view, cells)
                && are_same_in_order(alloc, &view, cells)?,
        ),
        Err(NoColumn) => Ok(false),
    }
}

// Whether the bytes are read as these cells, both ways.
fn is_read_back(
    alloc: Global,
    kind: Kind,
    cells: &[Option<Value>],
    bytes: &[u8],
) -> Result<bool, AllocError> {
    is_read_back_counted::<Brand>(alloc, kind, cells, bytes, Blank::new(1))
}

// Whether the cells are written as these bytes, and read back from them.
pub(crate) fn is_written_so(
    alloc: Global,
    kind: Kind,
    cells: &[Option<Value>],
    bytes: &[u8],
) -> Result<bool, AllocError> {
    let written = match encoded(alloc, kind, cells)? {
        Some(column) => column.bytes() == bytes && column.into_bytes().as_slice() == bytes,
        None => false,
    };
    Ok(written && is_read_back(alloc, kind, cells, bytes)?)
}

#[test]
fn worked_columns_are_written_and_read_back(rt: HostRuntime) -> Result<(), Fail> {
    let alloc = rt.alloc();
    let five = integer_cells(alloc, &[Some(5)])?;
    assert!(rt; is_written_so(alloc, Kind::Ints, &five, FIVE)?);
    // By their difference these two take one bit, and by their offsets 64.
    let ends = integer_cells(alloc, &[Some(i64::MIN), Some(i64::MAX)])?;
    assert!(rt; is_written_so(alloc, Kind::Ints, &ends, WRAPPED)?);
    let texts = text_cells(alloc, &[Some("a"), None, Some("bc")])?;
    assert!(rt; is_written_so(alloc, Kind::Texts, &texts, TEXTS)?);
    let mut values = Vec::new(alloc);
    for text in ["a", "a", "bc"] {
        values.push(Text::of(String::from_str(alloc, text)?))?;
    }
    let dict = dictionary(alloc, &values)?;
    assert_eq!(rt; dict.codes.as_slice(), [0, 0, 1].as_slice());
    assert_eq!(rt; dict.texts.as_slice().len(), 2);
    assert_eq!(rt; dict.texts.as_slice()[0].as_str(), "a");
    assert_eq!(rt; dict.texts.as_slice()[1].as_str(), "bc");
    Ok(())
}

// So many missing cells.
fn missing(alloc: Global, count: u32) -> Result<Vec<Option<Value>>, AllocError> {
    let mut cells = Vec::with_capacity(alloc, count as usize)?;
    for _ in 0..count {
        cells.push(None)?;
    }
    Ok(cells)
}

// A cell of a text of so many bytes.
fn long_cell(alloc: Global, len: usize) -> Result<Vec<Option<Value>>, AllocError> {
    let bytes = vec![in alloc; b'x'; len]?;
    let mut cells = Vec::new(alloc);
    cells.push(text_cell(alloc, std::str::from_utf8(&bytes).ok())?)?;
    Ok(cells)
}

// The length of the column of some cells, where it is read back as them.
pub(crate) fn read_back_len(
    alloc: Global,
    kind: Kind,
    cells: &[Option<Value>],
) -> Result<Option<usize>, AllocError> {
    let Some(column) = encoded(alloc, kind, cells)? else {
        return Ok(None);
    };
    if !is_read_back(alloc, kind, cells, column.bytes())? {
        return Ok(None);
    }
    Ok(Some(column.bytes().len()))
}

#[test]
fn columns_of_the_greatest_length_are_read_back(rt: HostRuntime) -> Result<(), Fail> {
    let alloc = rt.alloc();
    let none = missing(alloc, 65536)?;
    assert_eq!(rt;
        read_back_len(alloc, Kind::Ints, &none)?,
        Some(40 + 8192 + 8)
    );
    assert_eq!(rt;
        read_back_len(alloc, Kind::Texts, &none)?,
        Some(40 + 8192 + 4)
    );
    let longest = long_cell(alloc, 65535)?;
    assert_eq!(rt;
        read_back_len(alloc, Kind::Texts, &longest)?,
        Some(40 + 8 + 65535)
    );
    let longer = long_cell(alloc, 65536)?;
    assert_eq!(rt; read_back_len(alloc, Kind::Texts, &longer)?, None);
    Ok(())
}

#[test]
fn cells_behind_whole_bytes_of_missing_ones_are_met(rt: HostRuntime) -> Result<(), Fail> {
    let alloc = rt.alloc();
    let mut cells = Vec::new(alloc);
    for i in 0..20i32 {
        let is_there = i == 9 || i == 19;
        cells.push(if is_there {
            Some(Value::Int(i64::from(i)))
        } else {
            None
        })?;
    }
    assert!(rt; read_back_len(alloc, Kind::Ints, &cells)?.is_some());
    Ok(())
}
