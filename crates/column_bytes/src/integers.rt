// Codes integers as offsets from the least, or as differences from the one before.
ghost use Rattle.std.specs.Prelude.{◌≡◌, ℕ, ◌+◌, ◌*◌, ◌<◌, ◌≤◌, ◌^◌, length, map, List, is_some, IfOk, IfSome, Some, option_map, pos, ◌+ℤ◌, ◌≤ℤ◌, FitsSigned, slice_index, slice_index_or, Option};
ghost use Rattle.std.specs.Int.{w64};
ghost use Rattle.leaf_model.specs.Lent.{each_value, lent_value};
ghost use Rattle.row_model.specs.declared.rows.Value.{Value};
ghost use Rattle.row_model.specs.declared.rows.Value.TheVariants.{Int};
ghost use Rattle.column_bytes.specs.declared.kind.Kind.TheVariants.{Ints};
ghost use Rattle.dictionaries.specs.Fields.{i64_at};
ghost use Rattle.column_bytes.specs.Cells.{IsExtra, book_of, kind_of_book};
ghost use Rattle.column_bytes.specs.Column.{HasCells, kind_in};
ghost use Rattle.column_bytes.specs.Coding.{IsOfKind, AreOfKind, AreIntegers, AreCodesOf};

use crate::form::Form;
use crate::writer::{present_in, put_u64, write};
use delta_codes::{delta, zigzag};
use leaf_model::LentValue;
use std::alloc::{AllocError, Global};

// The integer of a value.
fn integer_of(value: &LentValue) -> i64
    requires { IsOfKind Ints (lent_value value.now) }
    ensures { lent_value value.now ≡ Int result }
{
    match value {
        LentValue::Int(integer) => *integer,
        LentValue::Text(_) | LentValue::Set(_) => unreachable!(),
    }
}

// The first integer that is there; 0 if there is none.
fn first_integer(cells: &[Option<LentValue>]) -> i64 {
    for cell in cells {
        if let Some(LentValue::Int(integer)) = cell {
            return *integer;
        }
    }
    0
}

/// The integer of a cell; `before` if it is missing.
pub fn integer_or(cell: &Option<LentValue>, before: i64) -> i64
    requires { IfSome (option_map lent_value cell.now) (IsOfKind Ints) }
    ensures { (value : Value) → option_map lent_value cell.now ≡ Some value → value ≡ Int result }
{
    match cell {
        Some(value) => integer_of(value),
        None => before,
    }
}

// One integer for each cell. A missing one gets that of the cell before, so that no code becomes wider.
pub(crate) fn integers_of(
    alloc: Global,
    cells: &[Option<LentValue>],
) -> Result<Vec<i64>, AllocError>
    requires { AreOfKind Ints (each_value cells.now) }
    ensures { IfOk result (λ integers. AreIntegers (each_value cells.now) integers.items) }
{
    let mut last = first_integer(cells);
    let mut integers = Vec::with_capacity(alloc, cells.len())?;
    for cell in cells {
        last = integer_or(cell, last);
        integers.push(last)?;
    }
    Ok(integers)
}

fn least_of(integers: &[i64]) -> i64
    requires { 0 < length integers.now }
    ensures { (i : ℕ) → i < length integers.now → result ≤ℤ slice_index_or integers.now i (pos 0) }
{
    let mut least = integers[0];
    for integer in integers {
        least = least.min(*integer);
    }
    least
}

fn offset_codes(alloc: Global, integers: &[i64], base: i64) -> Result<Vec<u64>, AllocError>
    requires { (i : ℕ) → i < length integers.now → base ≤ℤ slice_index_or integers.now i (pos 0) }
    ensures same { IfOk result (λ codes. length codes.items ≡ length integers.now) }
    ensures each { IfOk result (λ codes. (i : ℕ)
        → i < length integers.now → base +ℤ pos (slice_index codes.items i) ≡ slice_index_or integers.now i (pos 0)) }
    ensures fit { IfOk result (λ codes.
        (i : ℕ) → i < length integers.now → FitsSigned w64 (slice_index_or integers.now i (pos 0))) }
{
    let mut codes = Vec::with_capacity(alloc, integers.len())?;
    for integer in integers {
        codes.push(integer.abs_diff(base))?;
    }
    Ok(codes)
}

fn integer_bytes(alloc: Global, integers: &[i64]) -> Result<Vec<u8>, AllocError>
    requires { length integers.now ≤ 65536 }
    ensures len { IfOk result (λ bytes. length bytes.items ≡ 8 * length integers.now) }
    ensures each { IfOk result (λ bytes.
        (i : ℕ) → i < length integers.now → i64_at bytes.items (8 * i) ≡ slice_index_or integers.now i (pos 0)) }
{
    let mut bytes = Vec::with_capacity(alloc, 8 * integers.len())?;
    for integer in integers {
        put_u64(&mut bytes, integer.cast_unsigned())?;
    }
    Ok(bytes)
}

// The codes of integers, and the extra part: the base or the anchors.
#[derive(Drop)]
pub(crate) struct Coding {
    pub codes: Vec<u64>,
    pub extra: Vec<u8>,
}

fn offset_coding(alloc: Global, integers: &[i64]) -> Result<Coding, AllocError>
    requires some { 0 < length integers.now }
    ensures extra { IfOk result (λ coding. length coding.extra.items ≡ 8) }
    ensures codes { IfOk result (λ coding.
        AreCodesOf integers.now coding.codes.items (book_of Form.Offset (length integers.now) coding.extra.items)) }
{
    let base = least_of(integers);
    let codes = offset_codes(alloc, integers, base)?;
    let extra = integer_bytes(alloc, &[base])?;
    Ok(Coding { codes, extra })
}

pub(crate) fn delta_coding(alloc: Global, integers: &[i64]) -> Result<Coding, AllocError>
    requires few { length integers.now ≤ 65536 }
    ensures extra { IfOk result (λ coding. IsExtra Form.Delta (length integers.now) coding.extra.items) }
    ensures codes { IfOk result (λ coding.
        AreCodesOf integers.now coding.codes.items (book_of Form.Delta (length integers.now) coding.extra.items)) }
{
    let deltas = delta(alloc, integers)?;
    let extra = integer_bytes(alloc, deltas.anchors.as_slice())?;
    Ok(Coding {
        codes: deltas.codes.into_inner(),
        extra,
    })
}

// Writes the column of the integers in the given form.
pub(crate) fn write_integers(
    alloc: Global,
    form: Form,
    present: &[bool],
    integers: &[i64],
    coding: &Coding,
) -> Result<Vec<u8>, AllocError>
    requires some { 0 < length integers.now }
    requires few { length integers.now ≤ 65536 }
    requires same { length present.now ≡ length integers.now }
    requires extra { IsExtra form (length integers.now) coding.now.extra.items }
    requires small { length coding.now.extra.items ≤ 2 ^ 40 }
    requires codes { AreCodesOf integers.now coding.now.codes.items
        (book_of form (length integers.now) coding.now.extra.items) }
    ensures cells { (cells : List (Option Value)) → map is_some cells ≡ present.now
        → AreIntegers cells integers.now → IfOk result (λ bytes. HasCells bytes.items (length present.now) cells) }
    ensures kind { IfOk result (λ bytes.
        kind_in bytes.items ≡ kind_of_book (book_of form (length integers.now) coding.now.extra.items)) }
{
    write(alloc, form, present, &coding.codes, &coding.extra)
}

// The bits that a number takes.
fn bits_of(number: u64) -> usize
    ensures { result ≤ 64 }
{
    (64 - number.leading_zeros()) as usize
}

// The bytes that `count` codes of `width` bits take.
fn packed_len(count: usize, width: usize) -> usize
    requires count { count ≤ 65536 }
    requires width { width ≤ 64 }
    ensures { result ≤ 524288 }
{
    (count * width).div_ceil(8)
}

// Whether the delta form takes fewer bytes than the offset form. One walk measures both.
fn is_delta_shorter(integers: &[i64]) -> bool
    requires some { 0 < length integers.now }
    requires few { length integers.now ≤ 65536 }
{
    let mut before = integers[0];
    let mut least = before;
    let mut most = before;
    let mut ones = 0u64;
    for i in 0..integers.len() {
        let integer = integers[i];
        if i % 64 != 0 {
            ones |= zigzag(integer.wrapping_sub(before));
        }
        before = integer;
        least = least.min(integer);
        most = most.max(integer);
    }
    let count = integers.len();
    let offset = packed_len(count, bits_of(most.abs_diff(least))) + 8;
    let delta = packed_len(count, bits_of(ones)) + 8 * count.div_ceil(64);
    delta < offset
}

/// The bytes of a column of integers, in the form that takes fewer: one for each cell, and any for a missing one.
pub(crate) fn integer_column(
    alloc: Global,
    integers: &[i64],
    present: &[bool],
) -> Result<Vec<u8>, AllocError>
    requires some { 0 < length integers.now }
    requires few { length integers.now ≤ 65536 }
    requires same { length present.now ≡ length integers.now }
    ensures cells { (cells : List (Option Value)) → map is_some cells ≡ present.now
        → AreIntegers cells integers.now → IfOk result (λ bytes. HasCells bytes.items (length present.now) cells) }
    ensures kind { IfOk result (λ bytes. kind_in bytes.items ≡ Ints) }
{
    if is_delta_shorter(integers) {
        let delta = delta_coding(alloc, integers)?;
        write_integers(alloc, Form::Delta, present, integers, &delta)
    } else {
        let offset = offset_coding(alloc, integers)?;
        write_integers(alloc, Form::Offset, present, integers, &offset)
    }
}

/// The bytes of a column of integers, of borrowed cells.
pub(crate) fn encode_integers(
    alloc: Global,
    cells: &[Option<LentValue>],
) -> Result<Vec<u8>, AllocError>
    requires some { 0 < length cells.now }
    requires few { length cells.now ≤ 65536 }
    requires kind { AreOfKind Ints (each_value cells.now) }
    ensures cells { IfOk result (λ bytes. HasCells bytes.items (length cells.now) (each_value cells.now)) }
    ensures kind { IfOk result (λ bytes. kind_in bytes.items ≡ Ints) }
{
    let integers = integers_of(alloc, cells)?;
    let present = present_in(alloc, cells)?;
    integer_column(alloc, &integers, &present)
}
