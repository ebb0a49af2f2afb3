// Columns whose bytes were spelled by hand, and cells for tests.
use column_bytes::{ColumnView, SetRef, ValueRef};
use leaf_model::{Text, Texts, Value};
use std::alloc::{AllocError, Global};

/// The integer 5 by its offset, at width 0.
pub(crate) const FIVE: &[u8] =
    b"\x01\x01\0\0\x01\0\0\0\x28\0\0\0\0\0\0\0\x28\0\0\0\0\0\0\0\x28\0\0\0\0\0\0\0\x30\0\0\0\0\0\0\0\x05\0\0\0\0\0\0\0";

/// The integers 10, 12, 11 by their offsets, at width 2.
pub(crate) const BY_OFFSET: &[u8] =
    b"\x01\x01\x02\0\x03\0\0\0\x28\0\0\0\0\0\0\0\x28\0\0\0\0\0\0\0\x29\0\0\0\0\0\0\0\x31\0\0\0\0\0\0\0\x18\x0a\0\0\0\0\0\0\0";

/// The same by their differences, at width 3: the codes 0, 4, 1.
pub(crate) const BY_DELTA: &[u8] =
    b"\x01\x02\x03\0\x03\0\0\0\x28\0\0\0\0\0\0\0\x28\0\0\0\0\0\0\0\x2a\0\0\0\0\0\0\0\x32\0\0\0\0\0\0\0\x60\0\x0a\0\0\0\0\0\0\0";

/// The texts `a`, missing, `bc`.
pub(crate) const TEXTS: &[u8] =
    b"\x02\x01\x01\x01\x03\0\0\0\x28\0\0\0\0\0\0\0\x29\0\0\0\0\0\0\0\x2a\0\0\0\0\0\0\0\x39\0\0\0\0\0\0\0\x05\x04\x02\0\0\0\x01\0\0\0\x03\0\0\0abc";

/// The least and the greatest integer by their offsets, at width 64.
pub(crate) const ENDS: &[u8] =
    b"\x01\x01\x40\0\x02\0\0\0\x28\0\0\0\0\0\0\0\x28\0\0\0\0\0\0\0\x38\0\0\0\0\0\0\0\x40\0\0\0\0\0\0\0\0\0\0\0\0\0\0\0\xff\xff\xff\xff\xff\xff\xff\xff\0\0\0\0\0\0\0\x80";

/// The same by their difference, which wraps round to -1.
pub(crate) const WRAPPED: &[u8] =
    b"\x01\x02\x01\0\x02\0\0\0\x28\0\0\0\0\0\0\0\x28\0\0\0\0\0\0\0\x29\0\0\0\0\0\0\0\x31\0\0\0\0\0\0\0\x02\0\0\0\0\0\0\0\x80";

/// The least integer, 0 and the greatest by their offsets, at width 64.
pub(crate) const WIDE: &[u8] =
    b"\x01\x01\x40\0\x03\0\0\0\x28\0\0\0\0\0\0\0\x28\0\0\0\0\0\0\0\x40\0\0\0\0\0\0\0\x48\0\0\0\0\0\0\0\0\0\0\0\0\0\0\0\0\0\0\0\0\0\0\x80\xff\xff\xff\xff\xff\xff\xff\xff\0\0\0\0\0\0\0\x80";

/// The same by their differences, at width 64: the codes 0, 2^64 - 1 and 2^64 - 2.
pub(crate) const WIDE_BY_DELTA: &[u8] =
    b"\x01\x02\x40\0\x03\0\0\0\x28\0\0\0\0\0\0\0\x28\0\0\0\0\0\0\0\x40\0\0\0\0\0\0\0\x48\0\0\0\0\0\0\0\0\0\0\0\0\0\0\0\xff\xff\xff\xff\xff\xff\xff\xff\xfe\xff\xff\xff\xff\xff\xff\xff\0\0\0\0\0\0\0\x80";

/// One empty text, with its code at width 0.
pub(crate) const EMPTY_TEXT: &[u8] =
    b"\x02\x01\0\0\x01\0\0\0\x28\0\0\0\0\0\0\0\x28\0\0\0\0\0\0\0\x28\0\0\0\0\0\0\0\x30\0\0\0\0\0\0\0\x01\0\0\0\0\0\0\0";

/// The text `a`, with its code at width 1.
pub(crate) const ONE_TEXT: &[u8] =
    b"\x02\x01\x01\0\x01\0\0\0\x28\0\0\0\0\0\0\0\x28\0\0\0\0\0\0\0\x29\0\0\0\0\0\0\0\x32\0\0\0\0\0\0\0\0\x01\0\0\0\x01\0\0\0a";

/// The set of `a` and `b`, with its code at width 0.
pub(crate) const SET: &[u8] =
    b"\x03\x01\0\0\x01\0\0\0\x28\0\0\0\0\0\0\0\x28\0\0\0\0\0\0\0\x28\0\0\0\0\0\0\0\x46\0\0\0\0\0\0\0\x02\0\0\0\x01\0\0\0\x02\0\0\0ab\x01\0\0\0\x02\0\0\0\0\0\0\0\x01\0\0\0";

/// The same with its members exchanged, which is no column.
pub(crate) const EXCHANGED: &[u8] =
    b"\x03\x01\0\0\x01\0\0\0\x28\0\0\0\0\0\0\0\x28\0\0\0\0\0\0\0\x28\0\0\0\0\0\0\0\x46\0\0\0\0\0\0\0\x02\0\0\0\x01\0\0\0\x02\0\0\0ab\x01\0\0\0\x02\0\0\0\x01\0\0\0\0\0\0\0";

pub(crate) fn integer_cells(
    alloc: Global,
    values: &[Option<i64>],
) -> Result<Vec<Option<Value>>, AllocError> {
    let mut cells = Vec::with_capacity(alloc, values.len())?;
    for value in values {
        cells.push(value.map(Value::Int))?;
    }
    Ok(cells)
}

pub(crate) fn text_cell(alloc: Global, text: Option<&str>) -> Result<Option<Value>, AllocError> {
    match text {
        Some(text) => Ok(Some(Value::Text(Text::of(String::from_str(alloc, text)?)))),
        None => Ok(None),
    }
}

pub(crate) fn text_cells(
    alloc: Global,
    texts: &[Option<&str>],
) -> Result<Vec<Option<Value>>, AllocError> {
    let mut cells = Vec::with_capacity(alloc, texts.len())?;
    for text in texts {
        cells.push(text_cell(alloc, *text)?)?;
    }
    Ok(cells)
}

/// A cell of these texts, which may be no set.
pub(crate) fn set_cell(alloc: Global, texts: &[&str]) -> Result<Option<Value>, AllocError> {
    let mut members = Vec::new(alloc);
    for text in texts {
        members.push(Text::of(String::from_str(alloc, text)?))?;
    }
    Ok(Some(Value::Set(Texts::of(members))))
}

fn is_same_set(set: &SetRef, texts: &[Text]) -> bool {
    let mut same = set.len() as usize == texts.len();
    for i in 0..set.len() {
        match texts.get(i as usize) {
            Some(text) => same = same && set.text(i) == text.as_str(),
            None => same = false,
        }
    }
    same
}

pub(crate) fn is_same(seen: Option<ValueRef>, cell: &Option<Value>) -> bool {
    match (seen, cell) {
        (None, None) => true,
        (Some(ValueRef::Int(seen)), Some(Value::Int(integer))) => seen == *integer,
        (Some(ValueRef::Text(seen)), Some(Value::Text(text))) => seen == text.as_str(),
        (Some(ValueRef::Set(seen)), Some(Value::Set(members))) => is_same_set(
            &seen,
            members.as_slice(),
        ),
        _ => false,
    }
}

pub(crate) fn are_same(view: &ColumnView, cells: &[Option<Value>]) -> bool {
    for i in 0..view.len() {
        match cells.get(i as usize) {
            Some(cell) => {
                if !is_same(view.cell(i), cell) {
                    return false;
                }
            }
            None => return false,
        }
    }
    true
}
