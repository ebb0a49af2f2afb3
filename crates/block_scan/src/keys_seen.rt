// The keys of a query at the places of a block.
ghost use Rattle.std.specs.Prelude.{◌≡◌, ◌<◌, ◌≤◌, true, length, IfOk, IfSome, Some};
ghost use Rattle.std.specs.List.{AllByRecursion};
ghost use Rattle.leaf_model.specs.Groups.{key_of};
ghost use Rattle.column_bytes.specs.Cells.{value_lent};
ghost use Rattle.block_scan.specs.declared.decoded.Decoded.TheVariants.{Ints, Codes};
ghost use Rattle.block_scan.specs.Decoded.{IsSized, decoded_at};
ghost use Rattle.block_scan.specs.Keyed.{AreOfKeys, keys_seen};
ghost use Rattle.block_scan.specs.Reads.{IsRead, columns_of, row_of};

use crate::decoded::{Decoded, EntryCodes, Integers, decode};
use crate::narrowing::entry_of;
use crate::reading::ReadColumn;
use column_bytes::ValueRef;
use leaf_model::{Key, Keys, Text, Value};
use row_blocks::own_value;
use std::alloc::{AllocError, Global};

/// The most keys that are decoded. Each takes some bytes for each row, even if a query names the same key often.
const DECODED_KEYS: usize = 16;

/// Decodes each key at all places. None if there are more than 16 keys, or two columns have the name of one.
pub(crate) fn decode_keys<'b, 'a>(
    alloc: Global,
    names: &[Text],
    times: &[i64],
    read: &'b [ReadColumn<'a>],
) -> Result<Option<Vec<Decoded<'b, 'a>>>, AllocError>
    requires few { length times.now ≤ 65536 }
    requires read { AllByRecursion (IsRead (length times.now)) read.now }
    ensures { IfOk result (λ found. IfSome found (λ all.
        AreOfKeys (length times.now) (row_of times.now (columns_of read.now)) names.now all.items)) }
{
    if names.len() > DECODED_KEYS {
        return Ok(None);
    }
    let mut all = Vec::with_capacity(alloc, names.len())?;
    for name in names {
        match decode(alloc, name, times, read)? {
            Some(decoded) => all.push(decoded)?,
            None => return Ok(None),
        }
    }
    Ok(Some(all))
}

pub(crate) fn own_key(alloc: Global, value: &ValueRef) -> Result<Key, AllocError>
    ensures { IfOk result (λ key. key ≡ key_of (Some (value_lent value.now))) }
{
    match own_value(alloc, value)? {
        Value::Int(number) => Ok(Key::Int(number)),
        Value::Text(text) => Ok(Key::Text(text)),
        Value::Set(members) => Ok(Key::Set(members)),
    }
}

/// The key at a place.
fn key_at(alloc: Global, rows: u32, decoded: &Decoded, place: u32) -> Result<Key, AllocError>
    requires sized { IsSized rows decoded.now }
    requires place { place < rows }
    ensures { IfOk result (λ key. key ≡ key_of (decoded_at decoded.now place)) }
{
    let place = place as usize;
    match decoded {
        Decoded::Missing => Ok(Key::Missing),
        Decoded::Ints(found) => {
            if found.present[place] {
                Ok(Key::Int(found.values[place]))
            } else {
                Ok(Key::Missing)
            }
        }
        Decoded::Codes(found) => {
            if found.present[place] {
                own_key(alloc, &entry_of(found.view, found.codes[place]))
            } else {
                Ok(Key::Missing)
            }
        }
    }
}

/// The keys at a place.
pub(crate) fn keys_at(
    alloc: Global,
    rows: u32,
    keys: &[Decoded],
    place: u32,
) -> Result<Keys, AllocError>
    requires sized { AllByRecursion (IsSized rows) keys.now }
    requires place { place < rows }
    ensures { IfOk result (λ all. all ≡ keys_seen keys.now place) }
{
    let mut all = Vec::with_capacity(alloc, keys.len())?;
    for key in keys {
        all.push(key_at(alloc, rows, key, place)?)?;
    }
    Ok(Keys::of(all))
}

/// Whether both places have the same integer, or both have none.
fn is_same_integer(rows: u32, found: &Integers, a: usize, b: usize) -> bool
    requires sized { IsSized rows (Ints found.now) }
    requires first { a < rows }
    requires second { b < rows }
    ensures { result ≡ true → decoded_at (Ints found.now) a ≡ decoded_at (Ints found.now) b }
{
    if found.present[a] {
        found.present[b] && found.values[a] == found.values[b]
    } else {
        !found.present[b]
    }
}

/// Whether both places have the same code, or both have none.
fn is_same_code(rows: u32, found: &EntryCodes, a: usize, b: usize) -> bool
    requires sized { IsSized rows (Codes found.now) }
    requires first { a < rows }
    requires second { b < rows }
    ensures { result ≡ true → decoded_at (Codes found.now) a ≡ decoded_at (Codes found.now) b }
{
    if found.present[a] {
        found.present[b] && found.codes[a] == found.codes[b]
    } else {
        !found.present[b]
    }
}

/// Whether both places have the same value of one key.
fn is_same_key(rows: u32, decoded: &Decoded, a: usize, b: usize) -> bool
    requires sized { IsSized rows decoded.now }
    requires first { a < rows }
    requires second { b < rows }
    ensures { result ≡ true → decoded_at decoded.now a ≡ decoded_at decoded.now b }
{
    match decoded {
        Decoded::Missing => true,
        Decoded::Ints(found) => is_same_integer(rows, found, a, b),
        Decoded::Codes(found) => is_same_code(rows, found, a, b),
    }
}

/// Whether both places have the same keys.
pub(crate) fn are_same_keys(rows: u32, keys: &[Decoded], a: u32, b: u32) -> bool
    requires sized { AllByRecursion (IsSized rows) keys.now }
    requires first { a < rows }
    requires second { b < rows }
    ensures { result ≡ true → keys_seen keys.now a ≡ keys_seen keys.now b }
{
    for key in keys {
        if !is_same_key(rows, key, a as usize, b as usize) {
            return false;
        }
    }
    true
}

/// A hash of one key at a place.
fn number_at(rows: u32, decoded: &Decoded, place: usize) -> u64
    requires sized { IsSized rows decoded.now }
    requires place { place < rows }
{
    match decoded {
        Decoded::Missing => 0,
        Decoded::Ints(found) => {
            if found.present[place] {
                found.values[place].abs_diff(i64::MIN)
            } else {
                1
            }
        }
        Decoded::Codes(found) => {
            if found.present[place] {
                found.codes[place]
            } else {
                u64::MAX
            }
        }
    }
}

/// A hash of the keys at a place, by which their slot is looked for. No answer depends on it.
pub(crate) fn mark_at(rows: u32, keys: &[Decoded], place: u32) -> u64
    requires sized { AllByRecursion (IsSized rows) keys.now }
    requires place { place < rows }
{
    let mut mark: u64 = 0;
    for key in keys {
        let number = number_at(rows, key, place as usize);
        mark = mark
            .wrapping_add(number)
            .wrapping_mul(0x9E37_79B9_7F4A_7C15);
    }
    mark
}

/// The rank of a key, to sort slots by: whether there is a value, its integer, its text. Sets have no order here.
pub(crate) fn rank_at<'a>(rows: u32, decoded: &Decoded<'_, 'a>, place: u32) -> (bool, i64, &'a str)
    requires sized { IsSized rows decoded.now }
    requires place { place < rows }
{
    let place = place as usize;
    match decoded {
        Decoded::Missing => (false, 0, ""),
        Decoded::Ints(found) => {
            if found.present[place] {
                (true, found.values[place], "")
            } else {
                (false, 0, "")
            }
        }
        Decoded::Codes(found) => {
            if !found.present[place] {
                return (false, 0, "");
            }
            match entry_of(found.view, found.codes[place]) {
                ValueRef::Text(text) => (true, 0, text),
                ValueRef::Int(_) | ValueRef::Set(_) => (true, 0, ""),
            }
        }
    }
}
