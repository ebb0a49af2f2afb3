// The bytes that were spelled by hand, read by the public call, which counts a step each time.
ghost use Rattle.std.specs.Prelude.{◌≡◌, ◌+◌, ◌<◌};

use crate::vectors::{
    BY_DELTA, BY_OFFSET, EMPTY_TEXT, ENDS, FIVE, ONE_TEXT, SET, TEXTS, WIDE, WIDE_BY_DELTA,
    WRAPPED, are_same, integer_cells, set_cell, text_cells,
};
use column_bytes::{ColumnView, Kind, NoColumn};
use leaf_model::{Steps, Value};
use std::alloc::{AllocError, Global};
use std::marker::Brand;
use std::sync::ledger::{Blank, Ledger};
use std::test::Fail;

// Whether the bytes are read as a column of the kind with these cells.
fn is_read_as<L: Ledger>(
    bytes: &[u8],
    kind: Kind,
    cells: &[Option<Value>],
    steps: &mut Steps<L>,
) -> bool
    ensures { steps.new ≡ steps.old + 1 }
{
    match ColumnView::read(bytes, steps) {
        Ok(view) => {
            view.kind() == kind && view.len() as usize == cells.len() && are_same(&view, cells)
        }
        Err(NoColumn) => false,
    }
}

fn is_refused<L: Ledger>(bytes: &[u8], steps: &mut Steps<L>) -> bool
    ensures { steps.new ≡ steps.old + 1 }
{
    matches!(ColumnView::read(bytes, steps), Err(NoColumn))
}

// Whether the bytes are refused once the byte at a place is another.
fn is_refused_with<L: Ledger>(
    alloc: Global,
    bytes: &[u8],
    at: usize,
    byte: u8,
    steps: &mut Steps<L>,
) -> Result<bool, AllocError> {
    let mut spoilt = Vec::new(alloc);
    spoilt.extend_from_slice(bytes)?;
    if at < spoilt.len() {
        spoilt[at] = byte;
    }
    Ok(is_refused(&spoilt, steps))
}

// Whether the bytes are refused with any one bit of a byte spoilt.
fn is_refused_with_any_bit<L: Ledger>(
    alloc: Global,
    bytes: &[u8],
    at: usize,
    steps: &mut Steps<L>,
) -> Result<bool, AllocError> {
    for bit in 0..8u32 {
        let spoilt = match bytes.get(at) {
            Some(byte) => *byte ^ (1 << bit),
            None => return Ok(false),
        };
        if !is_refused_with(alloc, bytes, at, spoilt, steps)? {
            return Ok(false);
        }
    }
    Ok(true)
}

// Whether the bytes are refused with any one bit spoilt of the kind, the form, the presence, the places and the length.
fn is_refused_with_a_spoilt_header<L: Ledger>(
    alloc: Global,
    bytes: &[u8],
    steps: &mut Steps<L>,
) -> Result<bool, AllocError> {
    for at in 0..40 {
        let is_free = at == 2 || (4..8).contains(&at);
        if !is_free && !is_refused_with_any_bit(alloc, bytes, at, steps)? {
            return Ok(false);
        }
    }
    Ok(true)
}

// Whether each shorter front of the bytes is refused.
fn is_refused_where_cut<L: Ledger>(bytes: &[u8], steps: &mut Steps<L>) -> bool {
    for len in 0..bytes.len() {
        if !is_refused(&bytes[..len], steps) {
            return false;
        }
    }
    true
}

fn is_refused_with_a_byte_more<L: Ledger>(
    alloc: Global,
    bytes: &[u8],
    steps: &mut Steps<L>,
) -> Result<bool, AllocError> {
    let mut longer = Vec::new(alloc);
    longer.extend_from_slice(bytes)?;
    longer.push(0)?;
    Ok(is_refused(&longer, steps))
}

// Whether the bytes are read as these cells, and refused with a spoilt header, cut, or with a byte more.
fn is_vector_counted<L: Ledger>(
    alloc: Global,
    bytes: &[u8],
    kind: Kind,
    cells: &[Option<Value>],
    blank: Blank,
) -> Result<bool, AllocError>
    requires name { blank.name ≡ L.name }
    requires parts { blank.parts ≡ L.parts }
    requires some { 0 < blank.parts }
{
    let mut steps: Steps<L> = Steps::new(blank);
    Ok(
        is_read_as(bytes, kind, cells, &mut steps)
            && is_refused_with_a_spoilt_header(alloc, bytes, &mut steps)?
            && is_refused_where_cut(bytes, &mut steps)
            && is_refused_with_a_byte_more(alloc, bytes, &mut steps)?,
    )
}

fn is_vector(
    alloc: Global,
    bytes: &[u8],
    kind: Kind,
    cells: &[Option<Value>],
) -> Result<bool, AllocError> {
    is_vector_counted::<Brand>(alloc, bytes, kind, cells, Blank::new(1))
}

fn is_spoilt_counted<L: Ledger>(
    alloc: Global,
    bytes: &[u8],
    at: usize,
    byte: u8,
    blank: Blank,
) -> Result<bool, AllocError>
    requires name { blank.name ≡ L.name }
    requires parts { blank.parts ≡ L.parts }
    requires some { 0 < blank.parts }
{
    let mut steps: Steps<L> = Steps::new(blank);
    Ok(!is_refused(bytes, &mut steps) && is_refused_with(alloc, bytes, at, byte, &mut steps)?)
}

// Whether the bytes are a column, and none once the byte at a place is another.
fn is_spoilt(alloc: Global, bytes: &[u8], at: usize, byte: u8) -> Result<bool, AllocError> {
    is_spoilt_counted::<Brand>(alloc, bytes, at, byte, Blank::new(1))
}

#[test]
fn spelled_integers_are_read(rt: HostRuntime) -> Result<(), Fail> {
    let alloc = rt.alloc();
    for (bytes, values) in [
        (FIVE, [Some(5)].as_slice()),
        (BY_OFFSET, [Some(10), Some(12), Some(11)].as_slice()),
        (BY_DELTA, [Some(10), Some(12), Some(11)].as_slice()),
        (ENDS, [Some(i64::MIN), Some(i64::MAX)].as_slice()),
        (WRAPPED, [Some(i64::MIN), Some(i64::MAX)].as_slice()),
        (WIDE, [Some(i64::MIN), Some(0), Some(i64::MAX)].as_slice()),
        (
            WIDE_BY_DELTA,
            [Some(i64::MIN), Some(0), Some(i64::MAX)].as_slice(),
        ),
    ] {
        let cells = integer_cells(alloc, values)?;
        assert!(rt; is_vector(alloc, bytes, Kind::Ints, &cells)?);
    }
    Ok(())
}

#[test]
fn spelled_texts_are_read(rt: HostRuntime) -> Result<(), Fail> {
    let alloc = rt.alloc();
    for (bytes, texts) in [
        (TEXTS, [Some("a"), None, Some("bc")].as_slice()),
        (ONE_TEXT, [Some("a")].as_slice()),
        (EMPTY_TEXT, [Some("")].as_slice()),
    ] {
        let cells = text_cells(alloc, texts)?;
        assert!(rt; is_vector(alloc, bytes, Kind::Texts, &cells)?);
    }
    Ok(())
}

#[test]
fn a_spelled_set_is_read(rt: HostRuntime) -> Result<(), Fail> {
    let alloc = rt.alloc();
    let mut cells = Vec::new(alloc);
    cells.push(set_cell(alloc, &["a", "b"])?)?;
    assert!(rt; is_vector(alloc, SET, Kind::Sets, &cells)?);
    for (at, byte) in [
        // Texts that fall, a text twice, a number that no text has.
        (52, b'c'),
        (66, 0),
        (66, 2),
        // Ends of texts that fall, an end past the members, a member behind the last end.
        (44, 3),
        (58, 3),
        (58, 1),
    ] {
        assert!(rt; is_spoilt(alloc, SET, at, byte)?);
    }
    Ok(())
}

#[test]
fn bytes_that_break_a_rule_are_no_column(rt: HostRuntime) -> Result<(), Fail> {
    let alloc = rt.alloc();
    for (bytes, at, byte) in [
        // A width past 64, and the numbers of cells 0 and past 65,536.
        (FIVE, 2, 65),
        (FIVE, 4, 0),
        (FIVE, 6, 2),
        // A spare bit of the codes, and of the presence bits.
        (BY_OFFSET, 40, 0x58),
        (BY_DELTA, 41, 0x02),
        (WRAPPED, 40, 0x06),
        (TEXTS, 41, 0x0c),
        (TEXTS, 40, 0x0d),
        // A sum past the greatest integer.
        (ENDS, 63, 0),
        (WIDE, 71, 0),
        // A code at the count, an end that falls, and no UTF-8.
        (ONE_TEXT, 40, 1),
        (TEXTS, 46, 4),
        (TEXTS, 54, 0xff),
    ] {
        assert!(rt; is_spoilt(alloc, bytes, at, byte)?);
    }
    Ok(())
}
